//! Which replies say nothing new.
ghost use Rattle.std.specs.Prelude.{◌≡◌};
ghost use Rattle.grs_wire.specs.Replies.{leaves_all};

use grs_wire::Reply;

/// Whether a reply leaves the system as it is: by it nothing was given, put in or found out. A call with such a reply needs
/// no finish.
pub fn leaves_all(reply: &Reply) -> bool
    ensures { result ≡ leaves_all reply.now }
{
    match reply {
        Reply::NotYours { .. }
        | Reply::Behind { .. }
        | Reply::Empty
        | Reply::Kept { .. }
        | Reply::Yours
        | Reply::Old
        | Reply::Resting
        | Reply::Over
        | Reply::Removed => true,
        Reply::Turned {
            entries,
            taken,
            closed,
        } => entries.as_slice().is_empty() && *taken == 0 && !*closed,
        Reply::Switched
        | Reply::Already
        | Reply::Sole
        | Reply::Sent
        | Reply::Taken { .. }
        | Reply::Settled
        | Reply::Told
        | Reply::Left
        | Reply::Purged
        | Reply::NoSuch
        | Reply::Stale { .. } => false,
    }
}
