//! Streams that never fail: their count of faults is 0 for good. They are for callers that have the bytes
//! already, or need none.
ghost use Rattle.std.specs.Prelude.{◌≡◌};

use super::source::move_front;
use super::{Failed, Sink, Source};
use grs_base::List;
use std::marker::Model;

/// A source of bytes in memory that never fails, seen as the bytes left.
#[derive(Drop)]
pub struct SureSource {
    bytes: List<u8>,
    at: usize,
}

impl Model for SureSource {
    ghost use Rattle.std.specs.Prelude.{List, ℕ, ◌≤◌, length, drop};

    ghost Value = { List ℕ };

    ghost view = { λ a. drop a.at a.bytes };

    ghost invariant = { λ a. a.at ≤ length a.bytes };
}

impl SureSource {
    /// A source of these bytes.
    pub fn new(bytes: List<u8>) -> SureSource
        ensures { result ≡ bytes }
    {
        SureSource { bytes, at: 0 }
    }
}

impl Source for SureSource {
    ghost use Rattle.std.specs.Prelude.{Some};

    ghost left = { λ s. Some s };

    ghost faults = { λ _. 0 };

    #[tactic(auto, using(crate::proofs::Moves::moves, crate::proofs::Moves::moves_none))]
    fn read(&mut self, buf: &mut [u8]) -> Result<usize, Failed> {
        let rest = &self.bytes.as_slice()[self.at..];
        let n = move_front(rest, buf, usize::MAX);
        self.at += n;
        Ok(n)
    }
}

/// A sink that takes every piece whole, keeps none and never fails.
#[derive(Clone, Copy, Debug)]
pub struct SureSink;

impl SureSink {
    /// A sink to which nothing was written yet.
    pub fn new() -> SureSink {
        SureSink
    }
}

impl Sink for SureSink {
    ghost use Rattle.std.specs.Prelude.{None};

    ghost written = { λ _. None };

    ghost faults = { λ _. 0 };

    fn write(&mut self, piece: &[u8]) -> Result<usize, Failed> {
        Ok(piece.len())
    }
}
