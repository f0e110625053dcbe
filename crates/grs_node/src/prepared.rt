//! What a choice of a system comes to before its call.
use grs_wire::Call;

/// What a choice comes to.
#[derive(Drop)]
pub enum Prepared {
    /// It is done without a call of the medium.
    Quiet,
    /// It makes this call.
    Call(Call),
    /// There is nothing to do.
    Nothing,
}
