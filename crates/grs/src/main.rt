//! The program: the words after its name, standard input as source and standard output as sink. What it
//! does with them is said where the words are read; the exit status is the status's number. Wrong words are
//! answered by it alone.
#![tactic(auto)]

ghost use Rattle.std.specs.Prelude.{◌≡◌, ◌≢◌, ◌↔◌};
ghost use Rattle.std.specs.IoError.{error_kind};

use grs_io::{StdSink, StdSource};
use grs_top::{Status, grs};
use grs_workers::FreeGate;
use std::alloc::Alloc;
use std::env::Env;
use std::io::ErrorKind;
use std::process::ExitCode;
use std::{env, io};

/// The words after the program's name. A word that is no UTF-8 is an error of kind `InvalidData`.
fn words<R: Env + Alloc>(rt: &R) -> io::Result<Vec<String<R::A>, R::A>> {
    let mut words = Vec::new(rt.alloc());
    for word in env::args(rt)?.skip(1) {
        words.push(word)?;
    }
    Ok(words)
}

/// A word that is no UTF-8 is a wrong word; all other failures to tell the words are want of memory.
fn status_without_words(error: &io::Error) -> Status
    ensures words { (result ≡ Status.Words) ↔ (error_kind error.now ≡ ErrorKind.InvalidData) }
    ensures memory { (result ≡ Status.NoMemory) ↔ (error_kind error.now ≢ ErrorKind.InvalidData) }
{
    match error.kind() {
        ErrorKind::InvalidData => Status::Words,
        _ => Status::NoMemory,
    }
}

fn main(rt: HostRuntime) -> ExitCode {
    let status = match words(&rt) {
        Ok(words) => {
            let mut source = StdSource::new(rt.stdin());
            let mut sink = StdSink::new(rt.stdout());
            grs(
                &rt,
                rt.alloc(),
                words.as_slice(),
                &mut source,
                &mut sink,
                &FreeGate,
            )
        }
        Err(error) => status_without_words(&error),
    };
    ExitCode::from(status.number())
}
