//! Reads a script, and writes its output.
ghost use Rattle.std.specs.Prelude.{◌≡◌, ◌≢◌, ◌≤◌, ◌<◌, ◌++◌, List, ℕ, Some, length, true, false, IfOk, OnOk, OnErr};
ghost use Rattle.std.specs.Prelude.{IfSome, IsErrOf};
ghost use Rattle.std.specs.Io.KnownBytes.{Appends};
ghost use Rattle.http_cache_policy.specs.RunStops.{RefusesStep, HasUndatedStep, LosesTarget};
ghost use Rattle.cache_script.specs.Script.{longest_script, IsNoScript};
ghost use Rattle.cache_script.specs.Output.{IsAnswered, IsBegun, IsRefusedScript};

use crate::answer::answer;
use crate::ends::{Sink, Source};
use crate::error::ScriptError;
use crate::read::LONGEST;
use http_cache_fields::CacheError;
use std::alloc::{AllocError, Global};

// A read may return a single byte, and the last one returns none.
const MOST_READS: usize = LONGEST + 1;

const PIECE: usize = 4096;

#[derive(Drop)]
enum Fault {
    Failed,
    TooLong,
    Memory,
}

fn append(all: &mut Vec<u8>, piece: &[u8]) -> Result<(), AllocError>
    ensures { OnOk result (all.new.items ≡ all.old.items ++ piece.now) }
{
    all.extend_from_slice(piece)
}

/// Returns the rest of the reader, if a script may be so long.
fn read_all<R: Source>(alloc: Global, reader: &mut R) -> Result<Vec<u8>, Fault>
    ensures short { IfOk result (λ all. length all.items ≤ longest_script) }
    ensures all { IfOk result (λ all.
        IfSome (R.remaining reader.old) (λ bytes. all.items ≡ bytes)) }
    ensures long { IsErrOf result Fault.TooLong
        → IfSome (R.remaining reader.old) (λ bytes. longest_script < length bytes) }
    ensures failed { R.Source.never_fails reader.old → result ≢ Err Fault.Failed }
    ensures ended { IfOk result (λ _. R.Source.has_ended reader.new) }
{
    let mut all = Vec::new(alloc);
    let mut piece = [0u8; PIECE];
    for reads in 0..MOST_READS {
        match reader.read_some(&mut piece) {
            Ok(0) => return Ok(all),
            Ok(n) => {
                if n > LONGEST - all.len() {
                    return Err(Fault::TooLong);
                }
                if append(&mut all, &piece[..n]).is_err() {
                    return Err(Fault::Memory);
                }
            }
            Err(_) => return Err(Fault::Failed),
        }
    }
    Err(Fault::TooLong)
}

/// Returns whether all of the bytes were written. A write that is interrupted or takes no byte has
/// failed.
fn write_out<W: Sink>(writer: &mut W, bytes: &[u8]) -> bool
    ensures ok { result ≡ true → Appends (W.contents writer.old) (W.contents writer.new) bytes.now }
    ensures begun { result ≡ false
        → IsBegun (W.contents writer.old) (W.contents writer.new) bytes.now }
    ensures failed { W.Sink.never_fails writer.old → result ≡ true }
{
    let mut rest = bytes;
    while !rest.is_empty() {
        match writer.write_some(rest) {
            Ok(0) => return false,
            Ok(n) => rest = &rest[n..],
            Err(_) => return false,
        }
    }
    true
}

/// Reads a script to its end, and writes only its output.
pub fn run<R: Source, W: Sink>(
    alloc: Global,
    reader: &mut R,
    writer: &mut W,
) -> Result<(), ScriptError>
    ensures done { OnOk result (IfSome (R.remaining reader.old) (λ bytes. (text : List ℕ)
        × IsAnswered bytes text × Appends (W.contents writer.old) (W.contents writer.new) text)) }
    ensures begun { IsErrOf result ScriptError.NotWritten → IfSome (R.remaining reader.old)
        (λ bytes. (text : List ℕ) × IsAnswered bytes text
        × IsBegun (W.contents writer.old) (W.contents writer.new) text) }
    ensures not_readable { IsErrOf result ScriptError.NotReadable → R.Source.never_fails reader.old
        → IfSome (R.remaining reader.old) IsNoScript }
    ensures full { IsErrOf result (ScriptError.Cache CacheError.HeaderMapFull)
        → IfSome (R.remaining reader.old) (IsRefusedScript RefusesStep) }
    ensures unprintable { IsErrOf result (ScriptError.Cache CacheError.DateNotPrintable)
        → IfSome (R.remaining reader.old) (IsRefusedScript HasUndatedStep) }
    ensures malformed { IsErrOf result (ScriptError.Cache CacheError.Malformed)
        → IfSome (R.remaining reader.old) (IsRefusedScript LosesTarget) }
    ensures not_written { W.Sink.never_fails writer.old → result ≢ Err ScriptError.NotWritten }
    ensures ended { result ≢ Err ScriptError.NotReadable
        → result ≢ Err (ScriptError.Cache CacheError.Memory) → R.Source.has_ended reader.new }
    ensures nothing { result ≢ Err ScriptError.NotWritten → OnErr result (writer.new ≡ writer.old) }
{
    let bytes = match read_all(alloc, reader) {
        Ok(bytes) => bytes,
        Err(Fault::Memory) => return Err(ScriptError::Cache(CacheError::Memory)),
        Err(_) => return Err(ScriptError::NotReadable),
    };
    let text = answer(alloc, bytes.as_slice())?;
    if write_out(writer, text.as_bytes()) {
        Ok(())
    } else {
        Err(ScriptError::NotWritten)
    }
}
