//! Reads a source whole, and writes a text whole. Each call of a stream is made once, and the first that
//! fails ends the work.
ghost use Rattle.std.specs.Prelude.{◌≡◌, ◌+◌, ◌<◌, ◌≤◌, length, Err, IfOk, OnOk, OnErr};
ghost use Rattle.std.specs.Io.KnownBytes.{Appends};
ghost use Rattle.grs_io.specs.Faults.{HasRisen};
ghost use Rattle.grs_io.specs.Moved.{TakesFirst, AppendsPart, AddsRead};

use super::{Failed, ReadFailure, Sink, Source};
use grs_base::List;
use std::alloc::Global;

/// How many bytes one read is offered room for.
const PIECE: usize = 4096;

/// Puts what one read gives behind a text, at most `room` bytes, and says how many these were.
fn read_piece<S: Source>(
    source: &mut S,
    text: &mut List<u8>,
    room: usize,
) -> Result<usize, ReadFailure>
    requires { 0 < room }
    ensures added { IfOk result (λ n.
        AddsRead (S.left source.old) (S.left source.new) text.old text.new n) }
    ensures within { IfOk result (λ n. n ≤ room) }
    ensures kept { OnOk result (S.faults source.new ≡ S.faults source.old) }
    ensures failed { result ≡ Err ReadFailure.Failed
        → HasRisen (S.faults source.old) (S.faults source.new) }
    ensures memory { result ≡ Err ReadFailure.NoMemory → S.faults source.new ≡ S.faults source.old }
{
    let mut buf = [0u8; PIECE];
    let most = room.min(PIECE);
    let taken = source.read(&mut buf[..most])?;
    text.append(&buf[..taken])?;
    Ok(taken)
}

/// Reads a source to its end, but no more than `limit` bytes and one: a text longer than `limit` is one
/// that has more. What is behind it stays unread.
///
/// # Errors
///
/// `Failed` where a read failed: the count of faults rose, or stands at its last value. `NoMemory` where
/// there was no memory for the text; no read failed.
pub fn read_all<S: Source>(
    alloc: Global,
    source: &mut S,
    limit: usize,
) -> Result<List<u8>, ReadFailure>
    requires { limit < usize.MAX }
    ensures text { IfOk result (λ text.
        TakesFirst (limit + 1) (S.left source.old) (S.left source.new) text) }
    ensures within { IfOk result (λ text. length text ≤ limit + 1) }
    ensures kept { OnOk result (S.faults source.new ≡ S.faults source.old) }
    ensures failed { result ≡ Err ReadFailure.Failed
        → HasRisen (S.faults source.old) (S.faults source.new) }
    ensures memory { result ≡ Err ReadFailure.NoMemory → S.faults source.new ≡ S.faults source.old }
{
    let mut text = List::new(alloc);
    let mut room = limit + 1;
    while room > 0 {
        let taken = read_piece(source, &mut text, room)?;
        if taken == 0 {
            break;
        }
        room -= taken;
    }
    Ok(text)
}

/// Writes these bytes, all of them.
///
/// # Errors
///
/// `Failed` where a write failed: the count of faults rose, or stands at its last value. A front of the
/// bytes was written, and not all of them.
pub fn write_all<K: Sink>(sink: &mut K, bytes: &[u8]) -> Result<(), Failed>
    ensures whole { OnOk result (Appends (K.written sink.old) (K.written sink.new) bytes.now) }
    ensures part { OnErr result (AppendsPart (K.written sink.old) (K.written sink.new) bytes.now) }
    ensures kept { OnOk result (K.faults sink.new ≡ K.faults sink.old) }
    ensures failed { OnErr result (HasRisen (K.faults sink.old) (K.faults sink.new)) }
{
    let mut done = 0;
    while done < bytes.len() {
        done += sink.write(&bytes[done..])?;
    }
    Ok(())
}
