//! Sets of systems as numbers. Whoever has such a set asks it by the three words here, and never opens its
//! bits.
ghost use Rattle.std.specs.Prelude.{◌≡◌, ◌<◌};
ghost use Rattle.grs_wire.specs.Masks.{has, without, with_also};

use grs_base::SysId;

/// Whether the system is in the set.
pub fn has_system(set: u32, system: SysId) -> bool
    requires { system.0 < 32 }
    ensures { result ≡ has set system.0 }
{
    set & (1 << system.0) != 0
}

/// The set without the system.
pub fn without_system(set: u32, system: SysId) -> u32
    requires { system.0 < 32 }
    ensures { result ≡ without set system.0 }
{
    set & !(1 << system.0)
}

/// The set with the system.
pub fn with_system(set: u32, system: SysId) -> u32
    requires { system.0 < 32 }
    ensures { result ≡ with_also set system.0 }
{
    set | (1 << system.0)
}
