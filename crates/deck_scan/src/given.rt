//! A name as a statement gives it.
ghost use Rattle.std.specs.Prelude.{◌≡◌};

use std::marker::Model;

/// A name as a statement gives it, of any length: bytes of its tokens, which are not copied, seen as the bytes.
#[derive(Drop)]
pub struct GivenName<'t> {
    bytes: &'t [u8],
}

impl<'t> Model for GivenName<'t> {
    ghost use Rattle.std.specs.Prelude.{List, ℕ};

    ghost Value = { List ℕ };

    ghost view = { λ a. a.bytes.now };
}

impl<'t> GivenName<'t> {
    /// The name of these bytes.
    pub fn new(bytes: &'t [u8]) -> Self
        ensures { result ≡ bytes.now }
    {
        GivenName { bytes }
    }

    /// The bytes.
    pub fn bytes(&self) -> &[u8]
        ensures { result.now ≡ self.now }
    {
        self.bytes
    }
}
