//! What the elements before another keep away.
ghost use Rattle.std.specs.Prelude.{◌≡◌, true, length};
ghost use Rattle.grs_analyze.specs.Numbered.{elems_of, AreNamed, is_flagged, is_distinct, no_front, front_of, front_with, is_away};

use super::flags::is_up;
use super::numbered::Spot;
use grs_base::{Ctl, TaskId};

/// Whether there is an element of a member before another, and whether there is an exclusive one.
#[derive(Clone, Copy)]
pub(crate) struct Front {
    pub any: bool,
    pub exclusive: bool,
}

impl Front {
    /// No element.
    pub(crate) fn none() -> Front
        ensures { result ≡ no_front }
    {
        Front {
            any: false,
            exclusive: false,
        }
    }

    /// With an element behind them, which is a member's or not.
    pub(crate) fn with(self, ctl: Ctl, member: bool) -> Front
        ensures { result ≡ front_with self ctl member }
    {
        Front {
            any: self.any || member,
            exclusive: self.exclusive || member && ctl == Ctl::E,
        }
    }

    /// Whether they keep control of this kind away.
    pub(crate) fn keeps_away(self, ctl: Ctl) -> bool
        ensures { result ≡ is_away self ctl }
    {
        match ctl {
            Ctl::E => self.any,
            Ctl::S => self.exclusive,
        }
    }
}

/// What these elements keep away, of which those of members count.
#[tactic(auto, using(crate::proofs::DependLemmas::fronts))]
pub(crate) fn front_of(tasks: &[TaskId], members: &[bool], spots: &[Spot]) -> Front
    requires long { length members.now ≡ length tasks.now }
    requires distinct { is_distinct tasks.now ≡ true }
    requires named { AreNamed tasks.now spots.now }
    ensures { result ≡ front_of (is_flagged tasks.now members.now) (elems_of spots.now) }
{
    let mut front = Front::none();
    for spot in spots {
        let member = is_up(tasks, members, spot.number, spot.elem.task);
        front = front.with(spot.elem.ctl, member);
    }
    front
}
