//! A worker: a system with its seat at the bus.
ghost use Rattle.std.specs.Prelude.{◌≡◌};

use crate::agenda::Agenda;
use grs_base::NoMemory;
use grs_bus::Seat;
use grs_node::Node;

/// A system with its seat. `calls` is how many calls of the bus it was answered over all rounds; at the last value of its type it
/// stays. `outcome` tells how its last round or stretch went: true where it was answered Over or Removed, false where it made all
/// events that a round has, or gave the stretch up, and before the first.
#[derive(Drop)]
pub struct Worker<'d> {
    pub node: Node<'d>,
    pub seat: Seat,
    pub calls: u64,
    pub outcome: Result<bool, NoMemory>,
    pub(crate) agenda: Agenda,
}

impl<'d> Worker<'d> {
    /// A system with its seat, which is to be of that system, before its first round. All that wants memory was made before, so
    /// that no system is ever dropped here.
    pub(crate) fn new(node: Node<'d>, seat: Seat, agenda: Agenda) -> Worker<'d>
        ensures node { result.node ≡ node.entry }
        ensures seat { result.seat ≡ seat }
        ensures calls { result.calls ≡ 0 }
    {
        Worker {
            node,
            seat,
            calls: 0,
            outcome: Ok(false),
            agenda,
        }
    }
}
