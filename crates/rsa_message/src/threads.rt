//! What may be handed to another thread, or lent to several. There is nothing to run.
use super::rsa::Rsa;
use grs_base::threads::crosses;

/// A message may be handed to another thread, and lent to several.
pub fn messages_cross(rsa: &Rsa) {
    crosses(rsa)
}
