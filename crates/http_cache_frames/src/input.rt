//! Reads frames. All replies are written before each read that may block.
ghost use Rattle.std.specs.Prelude.{◌≡◌, ◌≢◌, ◌<◌, ◌++◌, [], length, true, false, Some, IfOk, IfErr, IfSome, OnOk};
ghost use Rattle.std.specs.Io.KnownBytes.{IsAtEnd};
ghost use Rattle.http_cache_frames.specs.Served.{KeepsText, IsAhead, IsRead, TakesNothing, TakesAll, TakesBytes, TakesContent, TakesFrame};
ghost use Rattle.http_cache_frames.specs.declared.ended.Ended.TheVariants.{NotReadable};

use crate::ended::Ended;
use crate::frame::Frame;
use crate::front::{Announced, Front, NoFrame, front_of};
use crate::output::Output;
use bytes::{Buf, Bytes, BytesMut};
use std::alloc::{AllocError, Global};
use std::io::{ErrorKind, Read, Write};

// The number of bytes to read at once.
const PIECE: usize = 65_536;

/// The greatest lengths of a frame's head and body, in bytes.
#[derive(Clone, Copy, Debug)]
pub struct Longest {
    /// The greatest length of a head.
    pub head: u64,
    /// The greatest length of a body.
    pub body: u64,
}

#[derive(Drop)]
pub(crate) enum Next {
    Frame(Frame),
    /// The end, after a whole frame.
    End,
    Broken(NoFrame),
}

#[derive(Drop)]
pub(crate) struct Input<R: Drop> {
    alloc: Global,
    from: R,
    longest: Longest,
    piece: Vec<u8>,
    // The bytes that were read and belong to no frame yet.
    ahead: BytesMut,
    ghost has_room: { 0 < length piece.items },
}

// Reads once, which may block, so no reply may be waiting. Returns None if it is interrupted.
fn read_some<R: Read, W: Write + Drop>(
    from: &mut R,
    into: &mut [u8],
    _written: &Output<W>,
) -> Result<Option<usize>, Ended>
    requires { _written.now.waiting.items ≡ [] }
    ensures ended { IfErr result (λ ended. ended ≡ NotReadable) }
    ensures read { IfOk result (λ read. IsRead (R.remaining from.old) (R.remaining from.new)
        read into.new) }
    ensures end { 0 < length into.new
        → IfOk result (λ read. read ≡ Some 0 → IsAtEnd (R.remaining from.new)) }
{
    match from.read(into) {
        Ok(count) => Ok(Some(count)),
        Err(cause) if cause.kind() == ErrorKind::Interrupted => Ok(None),
        Err(_) => Err(Ended::NotReadable),
    }
}

impl<R: Read + Drop> Input<R> {
    pub(crate) fn new(alloc: Global, from: R, longest: Longest) -> Result<Input<R>, AllocError>
        ensures from { IfOk result (λ input. input.from ≡ from) }
        ensures ahead { IfOk result (λ input. input.ahead.items ≡ []) }
    {
        Ok(Input {
            alloc,
            from,
            longest,
            piece: Vec::from_elem(alloc, 0u8, PIECE)?,
            ahead: BytesMut::new(alloc),
        })
    }

    // Reads once, and returns whether there may be more.
    fn read_on<W: Write + Drop>(&mut self, out: &mut Output<W>) -> Result<bool, Ended>
        ensures text { KeepsText result (W.contents out.old.to) out.old.waiting.items
            (W.contents out.new.to) out.new.waiting.items }
        ensures taken { OnOk result (TakesNothing (R.remaining self.old.from) self.old.ahead.items
            (R.remaining self.new.from) self.new.ahead.items) }
        ensures end { IfOk result (λ more. more ≡ false → IsAtEnd (R.remaining self.new.from)) }
    {
        out.flush()?;
        let Some(count) = read_some(&mut self.from, self.piece.as_mut_slice(), out)? else {
            return Ok(true);
        };
        let Some(read) = self.piece.as_slice().get(..count) else {
            return Err(Ended::NotReadable);
        };
        self.ahead.extend_from_slice(read)?;
        Ok(count > 0)
    }

    // Reads until `length` bytes are ahead, and returns whether there are as many.
    fn has_ahead<W: Write + Drop>(
        &mut self,
        length: u64,
        out: &mut Output<W>,
    ) -> Result<bool, Ended>
        ensures text { KeepsText result (W.contents out.old.to) out.old.waiting.items
            (W.contents out.new.to) out.new.waiting.items }
        ensures taken { OnOk result (TakesNothing (R.remaining self.old.from) self.old.ahead.items
            (R.remaining self.new.from) self.new.ahead.items) }
    {
        for _ in 0..u64::MAX {
            if self.ahead.len() as u64 >= length {
                return Ok(true);
            }
            if !self.read_on(out)? {
                return Ok(false);
            }
        }
        Ok(false)
    }

    // Skips bytes, and returns whether there were as many.
    fn skip<W: Write + Drop>(&mut self, length: u64, out: &mut Output<W>) -> Result<bool, Ended>
        ensures text { KeepsText result (W.contents out.old.to) out.old.waiting.items
            (W.contents out.new.to) out.new.waiting.items }
        ensures taken { IfOk result (λ whole. whole ≡ true → TakesBytes length
            (R.remaining self.old.from) self.old.ahead.items
            (R.remaining self.new.from) self.new.ahead.items) }
    {
        let mut left = length;
        for _ in 0..u64::MAX {
            let there = self.ahead.len();
            if left <= there as u64 {
                self.ahead.advance(left as usize);
                return Ok(true);
            }
            left -= there as u64;
            self.ahead.advance(there);
            if !self.read_on(out)? {
                return Ok(false);
            }
        }
        Ok(false)
    }

    // Returns the next bytes in separate memory, so that a stored response keeps no others. Returns
    // None if fewer are ahead.
    fn take(&mut self, count: u64) -> Result<Option<Bytes>, AllocError>
        ensures from { self.new.from ≡ self.old.from }
        ensures long { IfOk result (λ taken. IfSome taken (λ bytes. length bytes ≡ count)) }
        ensures front { IfOk result (λ taken. IfSome taken (λ bytes.
            self.old.ahead.items ≡ bytes ++ self.new.ahead.items)) }
    {
        let Some(bytes) = self.ahead.as_slice().get(..count as usize) else {
            return Ok(None);
        };
        let taken = Bytes::copy_from_slice(self.alloc, bytes)?;
        self.ahead.advance(taken.len());
        Ok(Some(taken))
    }

    // Reads the head and the body after a line.
    fn after_line<W: Write + Drop>(
        &mut self,
        announced: Announced,
        out: &mut Output<W>,
    ) -> Result<Next, Ended>
        ensures text { KeepsText result (W.contents out.old.to) out.old.waiting.items
            (W.contents out.new.to) out.new.waiting.items }
        ensures taken { IfOk result (λ next. TakesContent next announced
            (R.remaining self.old.from) self.old.ahead.items
            (R.remaining self.new.from) self.new.ahead.items) }
        ensures begun { IfOk result (λ next. next ≢ Next.End) }
    {
        let Announced {
            line,
            head,
            body,
            ..
        } = announced;
        if head > self.longest.head || body > self.longest.body {
            if !self.skip(head, out)? || !self.skip(body, out)? {
                return Ok(Next::Broken(NoFrame::Cut));
            }
            return Ok(Next::Frame(Frame {
                line,
                head: Bytes::new(),
                body: Bytes::new(),
                is_too_long: true,
            }));
        }
        if !self.has_ahead(head.saturating_add(body), out)? {
            return Ok(Next::Broken(NoFrame::Cut));
        }
        match (self.take(head)?, self.take(body)?) {
            (Some(head), Some(body)) => Ok(Next::Frame(Frame {
                line,
                head,
                body,
                is_too_long: false,
            })),
            _ => Ok(Next::Broken(NoFrame::Cut)),
        }
    }

    // Returns the next line, or what the input has instead.
    fn line<W: Write + Drop>(&mut self, out: &mut Output<W>) -> Result<Front, Ended>
        ensures text { KeepsText result (W.contents out.old.to) out.old.waiting.items
            (W.contents out.new.to) out.new.waiting.items }
        ensures ahead { IfOk result (λ front. IsAhead front self.new.ahead.items) }
        ensures taken { OnOk result (TakesNothing (R.remaining self.old.from) self.old.ahead.items
            (R.remaining self.new.from) self.new.ahead.items) }
        ensures end { IfOk result (λ front. front ≡ Front.Partial
            → IsAtEnd (R.remaining self.new.from)) }
    {
        for _ in 0..u64::MAX {
            match front_of(self.alloc, self.ahead.as_slice()) {
                Ok(Front::Partial) => {}
                Ok(Front::Line(announced)) => return Ok(Front::Line(announced)),
                Ok(Front::Broken(cause)) => return Ok(Front::Broken(cause)),
                Err(_) => return Err(Ended::NoMemory),
            }
            match self.read_on(out) {
                Ok(true) => {}
                Ok(false) => return Ok(Front::Partial),
                Err(ended) => return Err(ended),
            }
        }
        Err(Ended::NotReadable)
    }

    pub(crate) fn next<W: Write + Drop>(&mut self, out: &mut Output<W>) -> Result<Next, Ended>
        ensures text { KeepsText result (W.contents out.old.to) out.old.waiting.items
            (W.contents out.new.to) out.new.waiting.items }
        ensures taken { IfOk result (λ next. TakesFrame next
            (R.remaining self.old.from) self.old.ahead.items
            (R.remaining self.new.from) self.new.ahead.items) }
        ensures end { IfOk result (λ next. next ≡ Next.End → TakesAll
            (R.remaining self.old.from) self.old.ahead.items) }
    {
        match self.line(out)? {
            Front::Line(announced) => {
                let line = announced.length.min(self.ahead.len());
                self.ahead.advance(line);
                self.after_line(announced, out)
            }
            Front::Broken(cause) => Ok(Next::Broken(cause)),
            Front::Partial if self.ahead.is_empty() => Ok(Next::End),
            Front::Partial => Ok(Next::Broken(NoFrame::Cut)),
        }
    }
}
