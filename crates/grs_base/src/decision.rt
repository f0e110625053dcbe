//! What is answered to a request, and what it does to the list of its resource. The codes are the return and abend
//! codes of ENQ and DEQ. (z/OS MVS Programming: Authorized Assembler Services Reference, "ENQ" and "DEQ".)

/// An answer to a request.
#[derive(Clone, Copy, Debug, PartialEq, Eq)]
pub enum Code {
    /// It was done: the task has control, or gave it up; of TEST, control could be had.
    C00,
    /// It wasn't done: control can't be had at once, or the task waits and has nothing to give up. Of ECB: the
    /// request is queued, and is posted later.
    C04,
    /// An ENQ of an owner; a CHNG, a DEQ or a WAIT of a task without a request for the resource.
    C08,
    /// An ENQ of a task that waits for the resource already.
    C14,
    /// The task has as many requests as it may.
    C18,
    /// The task is held until it is told control.
    Wait,
    /// The task ends abnormally with this code: 130, 138, 530 or 538.
    End(u16),
}

/// What an ENQ does to the list.
#[derive(Clone, Copy, Debug, PartialEq, Eq)]
pub enum Effect {
    /// The list stays as it was.
    Nothing,
    /// The element goes last.
    Append,
    /// The element's control becomes exclusive in its place.
    MakeExclusive,
}

/// What is decided on an ENQ.
#[derive(Clone, Copy, Debug, PartialEq, Eq)]
pub struct Decision {
    /// What the task is answered.
    pub code: Code,
    /// What becomes of the list.
    pub effect: Effect,
}

/// How a task stands in a list.
#[derive(Clone, Copy, Debug, PartialEq, Eq)]
pub enum Standing {
    /// It owns the resource alone and exclusively.
    Exclusive,
    /// It is the only owner, shared.
    OnlyShared,
    /// It is a shared owner among others.
    AmongShared,
    /// It stands behind the owners.
    Waits,
    /// It isn't in the list.
    Absent,
}
