//! How many queues of a table are empty. It is counted to tell when these are worth letting go, and nothing rests on it.
ghost use Rattle.std.specs.Prelude.{◌≡◌};

/// As many queues are let go at once at least.
const FEWEST: usize = 64;

/// How many queues are empty, as far as was counted.
#[derive(Drop)]
pub(crate) struct Emptied {
    queues: usize,
}

impl Emptied {
    /// No queue is.
    pub(crate) fn none() -> Self
        ensures { result.queues ≡ 0 }
    {
        Emptied { queues: 0 }
    }

    /// An element left a queue, which is `empty` by that.
    pub(crate) fn taken_from(&mut self, empty: bool) {
        if empty {
            self.queues = self.queues.saturating_add(1);
        }
    }

    /// An element comes into a queue, which was `empty`.
    pub(crate) fn put_into(&mut self, empty: bool) {
        if empty {
            self.queues = self.queues.saturating_sub(1);
        }
    }

    /// Whether they are three quarters of so many queues, and worth letting go.
    pub(crate) fn are_most_of(&self, queues: usize) -> bool {
        self.queues >= FEWEST && self.queues / 3 >= queues / 4
    }
}
