//! Streams over memory, of which chosen calls fail. They are for tests of what stands on streams.
ghost use Rattle.std.specs.Prelude.{◌≡◌, ◌+◌, ◌<◌, ◌≤◌, [], min, not, false, is_ok, length, Some, IfOk, OnOk, OnErr};
ghost use Rattle.std.specs.Io.KnownBytes.{ReadConsumes, WriteAppends};
ghost use Rattle.grs_io.specs.Faults.{last_count, HasRisen};
ghost use Rattle.grs_io.specs.Memory.{is_listed};

use super::source::move_front;
use super::{Failed, Sink, Source};
use grs_base::List;
use std::alloc::Global;
use std::marker::Model;

/// The calls of a stream: how many were made, the numbers, from 1, of those that fail, and how many
/// failed.
#[derive(Drop)]
struct Calls {
    made: u64,
    fails: List<u64>,
    faults: u64,
}

impl Calls {
    fn new(fails: List<u64>) -> Calls
        ensures made { result.made ≡ 0 }
        ensures fails { result.fails ≡ fails }
        ensures faults { result.faults ≡ 0 }
    {
        Calls {
            made: 0,
            fails,
            faults: 0,
        }
    }

    /// Counts a failed call.
    fn fail(&mut self)
        ensures risen { HasRisen self.old.faults self.new.faults }
        ensures faults { self.new.faults ≡ min (self.old.faults + 1) last_count }
        ensures made { self.new.made ≡ self.old.made }
        ensures fails { self.new.fails ≡ self.old.fails }
    {
        self.faults = self.faults.saturating_add(1);
    }

    /// Counts a call, and whether it is one that fails.
    fn begin(&mut self) -> bool
        ensures listed { result ≡ is_listed self.old.fails self.new.made }
        ensures made { self.new.made ≡ min (self.old.made + 1) last_count }
        ensures fails { self.new.fails ≡ self.old.fails }
        ensures faults { self.new.faults ≡ self.old.faults }
    {
        self.made = self.made.saturating_add(1);
        self.fails.as_slice().contains(&self.made)
    }
}

/// A source of bytes in memory.
#[derive(Drop)]
pub struct MemSource {
    bytes: List<u8>,
    at: usize,
    chunk: usize,
    calls: Calls,
}

impl Model for MemSource {
    ghost use Rattle.std.specs.Prelude.{◌≤◌, ◌<◌, length, drop};
    ghost use Rattle.grs_io.specs.Memory.{SourceView};

    ghost Value = { SourceView };

    ghost view = { λ a. record { left = drop a.at a.bytes; chunk = a.chunk; calls = a.calls.made; fails = a.calls.fails; faults = a.calls.faults } };

    ghost invariant = { λ a. (a.at ≤ length a.bytes) × (0 < a.chunk) };
}

impl MemSource {
    /// A source of these bytes that gives at most `chunk` of them by one read. The reads whose numbers,
    /// from 1, are in `fails` fail.
    pub fn new(bytes: List<u8>, chunk: usize, fails: List<u64>) -> MemSource
        requires { 0 < chunk }
        ensures { result ≡ record { left = bytes; chunk = chunk; calls = 0; fails = fails; faults = 0 } }
    {
        MemSource {
            bytes,
            at: 0,
            chunk,
            calls: Calls::new(fails),
        }
    }
}

impl Source for MemSource {
    ghost use Rattle.std.specs.Prelude.{Some};

    ghost left = { λ s. Some s.left };

    ghost faults = { λ s. s.faults };

    #[tactic(auto, using(crate::proofs::Moves::moves, crate::proofs::Moves::moves_none))]
    fn read(&mut self, buf: &mut [u8]) -> Result<usize, Failed>
        ensures within { IfOk result (λ n. n ≤ length buf.new) }
        ensures moved { ReadConsumes (Some self.old.left) (Some self.new.left) result buf.new }
        ensures kept { OnOk result (self.new.faults ≡ self.old.faults) }
        ensures counted { OnErr result (HasRisen self.old.faults self.new.faults) }
        ensures calls { self.new.calls ≡ min (self.old.calls + 1) last_count }
        ensures fails { is_ok result ≡ not (is_listed self.old.fails self.new.calls) }
        ensures count { IfOk result (λ n. n ≡ min (min (length self.old.left) (length buf.new)) self.old.chunk) }
        ensures same { (self.new.chunk ≡ self.old.chunk) × (self.new.fails ≡ self.old.fails) }
    {
        if self.calls.begin() {
            self.calls.fail();
            return Err(Failed);
        }
        let rest = &self.bytes.as_slice()[self.at..];
        let n = move_front(rest, buf, self.chunk);
        self.at += n;
        Ok(n)
    }
}

/// A sink that keeps what is written in memory.
#[derive(Drop)]
pub struct MemSink {
    bytes: List<u8>,
    chunk: usize,
    calls: Calls,
}

impl Model for MemSink {
    ghost use Rattle.std.specs.Prelude.{◌<◌};
    ghost use Rattle.grs_io.specs.Memory.{SinkView};

    ghost Value = { SinkView };

    ghost view = { λ a. record { written = a.bytes; chunk = a.chunk; calls = a.calls.made; fails = a.calls.fails; faults = a.calls.faults } };

    ghost invariant = { λ a. 0 < a.chunk };
}

impl MemSink {
    /// A sink that takes at most `chunk` bytes by one write. The writes whose numbers, from 1, are in
    /// `fails` fail, and so does one for whose bytes there is no memory.
    pub fn new(alloc: Global, chunk: usize, fails: List<u64>) -> MemSink
        requires { 0 < chunk }
        ensures { result ≡ record { written = []; chunk = chunk; calls = 0; fails = fails; faults = 0 } }
    {
        MemSink {
            bytes: List::new(alloc),
            chunk,
            calls: Calls::new(fails),
        }
    }

    /// The bytes written.
    pub fn bytes(&self) -> &[u8]
        ensures { result.now ≡ self.now.written }
    {
        self.bytes.as_slice()
    }
}

impl Sink for MemSink {
    ghost use Rattle.std.specs.Prelude.{Some};

    ghost written = { λ s. Some s.written };

    ghost faults = { λ s. s.faults };

    fn write(&mut self, piece: &[u8]) -> Result<usize, Failed>
        ensures within { IfOk result (λ n. n ≤ length piece.now) }
        ensures some { IfOk result (λ n. 0 < length piece.now → 0 < n) }
        ensures appended { WriteAppends (Some self.old.written) (Some self.new.written) result piece.now }
        ensures kept { OnOk result (self.new.faults ≡ self.old.faults) }
        ensures counted { OnErr result (HasRisen self.old.faults self.new.faults) }
        ensures calls { self.new.calls ≡ min (self.old.calls + 1) last_count }
        ensures fails { OnOk result (is_listed self.old.fails self.new.calls ≡ false) }
        ensures count { IfOk result (λ n. n ≡ min (length piece.now) self.old.chunk) }
        ensures same { (self.new.chunk ≡ self.old.chunk) × (self.new.fails ≡ self.old.fails) }
    {
        if self.calls.begin() {
            self.calls.fail();
            return Err(Failed);
        }
        let n = piece.len().min(self.chunk);
        match self.bytes.append(&piece[..n]) {
            Ok(()) => Ok(n),
            Err(_) => {
                self.calls.fail();
                Err(Failed)
            }
        }
    }
}
