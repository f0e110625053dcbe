//! The standard input as a source and the standard output as a sink. What the system gives and takes is
//! not told; failed calls are counted in 64 bits.
ghost use Rattle.std.specs.Prelude.{◌≡◌};

use super::{Failed, Sink, Source};
use std::io::{Read, Stdin, Stdout, Write};

/// Standard input.
#[derive(Drop)]
pub struct StdSource {
    stdin: Stdin,
    faults: u64,
}

impl StdSource {
    /// Standard input, of which no read has failed yet.
    pub fn new(stdin: Stdin) -> StdSource
        ensures { ⟦<StdSource as Source>⟧.faults result ≡ 0 }
    {
        StdSource { stdin, faults: 0 }
    }
}

impl Source for StdSource {
    ghost use Rattle.std.specs.Prelude.{None};

    ghost left = { λ _. None };

    ghost faults = { λ s. s.faults };

    fn read(&mut self, buf: &mut [u8]) -> Result<usize, Failed> {
        match self.stdin.read(buf) {
            Ok(n) => Ok(n),
            Err(_) => {
                self.faults = self.faults.saturating_add(1);
                Err(Failed)
            }
        }
    }
}

/// Standard output, without a buffer. A write that takes no byte of a piece that is not empty has failed.
#[derive(Drop)]
pub struct StdSink {
    stdout: Stdout,
    faults: u64,
}

impl StdSink {
    /// Standard output, of which no write has failed yet.
    pub fn new(stdout: Stdout) -> StdSink
        ensures { ⟦<StdSink as Sink>⟧.faults result ≡ 0 }
    {
        StdSink { stdout, faults: 0 }
    }
}

impl Sink for StdSink {
    ghost use Rattle.std.specs.Prelude.{None};

    ghost written = { λ _. None };

    ghost faults = { λ s. s.faults };

    fn write(&mut self, piece: &[u8]) -> Result<usize, Failed> {
        match self.stdout.write(piece) {
            Ok(n) if n > 0 || piece.is_empty() => Ok(n),
            _ => {
                self.faults = self.faults.saturating_add(1);
                Err(Failed)
            }
        }
    }
}
