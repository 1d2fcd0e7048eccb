//! Collects replies, and writes them whole.
ghost use Rattle.std.specs.Prelude.{◌≡◌, ◌≤◌, [], length, take, IfOk, IfErr, OnOk};
ghost use Rattle.std.specs.Io.KnownBytes.{Appends};
ghost use Rattle.http_cache_frames.specs.Reply.{reply_text};
ghost use Rattle.http_cache_frames.specs.Served.{IsCut, Cuts, Puts, PutsNothing, FailsToPut};
ghost use Rattle.http_cache_frames.specs.declared.ended.Ended.TheVariants.{NotWritten};

use crate::ended::Ended;
use crate::reply::Reply;
use std::alloc::Global;
use std::io::{ErrorKind, Write};

// The size from which the collected replies are written.
pub(crate) const PIECE: usize = 65_536;

#[derive(Drop)]
pub(crate) struct Output<W: Drop> {
    pub(crate) to: W,
    /// The whole replies that aren't written yet.
    pub(crate) waiting: Vec<u8>,
    // The text of the last reply.
    text: Vec<u8>,
}

// Writes some of the bytes, or none if it is interrupted.
fn write_some<W: Write>(to: &mut W, bytes: &[u8]) -> Result<usize, Ended>
    ensures bound { IfOk result (λ count. count ≤ length bytes.now) }
    ensures ok { IfOk result (λ count. Appends (W.contents to.old) (W.contents to.new)
        (take count bytes.now)) }
    ensures failed { IfErr result (λ ended. (ended ≡ NotWritten)
        × Appends (W.contents to.old) (W.contents to.new) []) }
{
    match to.write(bytes) {
        Ok(0) => Err(Ended::NotWritten),
        Ok(count) => Ok(count),
        Err(cause) if cause.kind() == ErrorKind::Interrupted => Ok(0),
        Err(_) => Err(Ended::NotWritten),
    }
}

fn write_all<W: Write>(to: &mut W, bytes: &[u8]) -> Result<(), Ended>
    ensures ok { OnOk result (Appends (W.contents to.old) (W.contents to.new) bytes.now) }
    ensures cut { IfErr result (λ ended. (ended ≡ NotWritten)
        × IsCut (W.contents to.old) (W.contents to.new) bytes.now) }
{
    let mut rest = bytes;
    for _ in 0..u64::MAX {
        if rest.is_empty() {
            return Ok(());
        }
        let count = write_some(to, rest)?;
        rest = &rest[count..];
    }
    Err(Ended::NotWritten)
}

impl<W: Write + Drop> Output<W> {
    pub(crate) fn new(alloc: Global, to: W, waiting: Vec<u8>) -> Output<W>
        ensures to { result.to ≡ to }
        ensures waiting { result.waiting.items ≡ waiting.items }
    {
        Output {
            to,
            waiting,
            text: Vec::new(alloc),
        }
    }

    pub(crate) fn into_writer(self) -> W
        ensures { result ≡ self.to }
    {
        let Output { to, .. } = self;
        to
    }

    /// Writes the collected replies.
    pub(crate) fn flush(&mut self) -> Result<(), Ended>
        ensures nothing { OnOk result (self.new.waiting.items ≡ []) }
        ensures text { self.new.text.items ≡ self.old.text.items }
        ensures ok { OnOk result (PutsNothing (W.contents self.old.to) self.old.waiting.items
            (W.contents self.new.to) self.new.waiting.items) }
        ensures cut { IfErr result (λ ended. (ended ≡ NotWritten)
            × Cuts (W.contents self.old.to) self.old.waiting.items (W.contents self.new.to)) }
    {
        write_all(&mut self.to, self.waiting.as_slice())?;
        self.waiting.clear();
        Ok(())
    }

    /// Collects a reply, or writes it with the collected ones if they get long. Without memory for
    /// the reply, no part of it is written.
    pub(crate) fn put(&mut self, reply: &Reply) -> Result<(), Ended>
        ensures ok { OnOk result (Puts (W.contents self.old.to) self.old.waiting.items
            (W.contents self.new.to) self.new.waiting.items (reply_text reply.now)) }
        ensures ended { IfErr result (λ ended. FailsToPut ended
            (W.contents self.old.to) self.old.waiting.items
            (W.contents self.new.to) self.new.waiting.items (reply_text reply.now)) }
    {
        self.text.clear();
        reply.push(&mut self.text)?;
        if self.waiting.len().saturating_add(self.text.len()) < PIECE {
            self.waiting.extend_from_slice(self.text.as_slice())?;
            return Ok(());
        }
        self.flush()?;
        write_all(&mut self.to, self.text.as_slice())
    }
}
