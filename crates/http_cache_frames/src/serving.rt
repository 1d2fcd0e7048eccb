//! The loop over frames.
ghost use Rattle.std.specs.Prelude.{◌≡◌, ◌⊎◌, ⊤, ℕ, List, [], Option, IfOk};
ghost use Rattle.http_cache_frames.specs.Served.{AreServed, HasTaken, HasWritten, IsReported, IsWrittenAt, reason_of};
ghost use Rattle.http_cache_frames.specs.declared.ended.Ended.TheVariants.{NotWritten};
ghost use Rattle.http_cache_frames.specs.declared.frame.Frame.{Frame};
ghost use Rattle.http_cache_frames.specs.declared.reply.Reply.{Reply};

use crate::ended::Ended;
use crate::frame::Frame;
use crate::front::NoFrame;
use crate::input::{Input, Longest, Next};
use crate::output::{Output, PIECE};
use crate::reply::{Notice, Reason, Reply};
use std::alloc::Global;
use std::io::{Read, Write};

/// There is no memory for a reply after a change, so no reply can report the change.
#[derive(Clone, Copy, Debug, PartialEq, Eq)]
pub struct Lost;

/// A handler that answers frames.
pub trait Answers {
    // The reply to a frame, by the states before and after it.
    ghost is_reply: { Self → Frame → Reply → Self → Type 0 } = { λ _ _ _ _. ⊤ };

    /// Returns the reply to a frame.
    ///
    /// # Errors
    ///
    /// `Lost` if something was changed and there is no memory for a reply that reports it.
    fn answer(&mut self, alloc: Global, frame: Frame) -> Result<Reply, Lost>
        ensures is_reply { IfOk result (λ reply. is_reply self.old frame reply self.new) };
}

impl NoFrame {
    /// Returns the reason that the reply reports.
    pub fn reason(self) -> Reason
        ensures { result ≡ reason_of self }
    {
        match self {
            NoFrame::LongLine => Reason::LongLine,
            NoFrame::NoObject => Reason::NoObject,
            NoFrame::NoLength => Reason::NoLength,
            NoFrame::Cut => Reason::Cut,
        }
    }
}

// Writes the reply to input that is no frame, and returns the end.
fn report<W: Write + Drop>(cause: NoFrame, out: &mut Output<W>) -> Ended
    ensures { IsReported cause result (W.contents out.old.to) out.old.waiting.items
        (W.contents out.new.to) out.new.waiting.items }
{
    let reply = Reply::Notice(Notice::Error {
        reason: cause.reason(),
        id: None,
        token: None,
    });
    match out.put(&reply) {
        Ok(()) => Ended::Broken(cause),
        Err(ended) => ended,
    }
}

// Reads frames to the end of the input or to the last one to answer, and writes the reply to each.
fn turns<A: Answers, R: Read + Drop, W: Write + Drop>(
    alloc: Global,
    answers: &mut A,
    input: &mut Input<R>,
    out: &mut Output<W>,
) -> Ended
    ensures { (left base : Option (List ℕ))
        → HasTaken left (R.remaining input.old.from) input.old.ahead.items []
        → HasWritten base (W.contents out.old.to) out.old.waiting.items []
        → AreServed A.is_reply answers.old left base (W.contents out.new.to)
        out.new.waiting.items result }
{
    if let Err(ended) = out.put(&Reply::Notice(Notice::Protocol)) {
        return ended;
    }
    for _ in 0..u64::MAX {
        let frame = match input.next(out) {
            Ok(Next::Frame(frame)) => frame,
            Ok(Next::End) => return Ended::Well,
            Ok(Next::Broken(cause)) => return report(cause, out),
            Err(ended) => return ended,
        };
        let Ok(reply) = answers.answer(alloc, frame) else {
            return Ended::NoMemory;
        };
        if let Err(ended) = out.put(&reply) {
            return ended;
        }
        if reply.is_quit() {
            return Ended::Well;
        }
    }
    Ended::NotReadable
}

// Writes the collected replies, unless writing has failed, and returns the end.
fn finish<W: Write + Drop>(ended: Ended, out: &mut Output<W>) -> Ended
    ensures end { (result ≡ ended) ⊎ (result ≡ NotWritten) }
    ensures written { (base : Option (List ℕ)) → (replies : List Reply) → (text : List ℕ)
        → IsWrittenAt ended base (W.contents out.old.to) out.old.waiting.items replies text
        → IsWrittenAt result base (W.contents out.new.to) [] replies text }
{
    if ended == Ended::NotWritten {
        return Ended::NotWritten;
    }
    match out.flush() {
        Ok(()) => ended,
        Err(_) => Ended::NotWritten,
    }
}

/// The end of serving, and the writer.
#[derive(Drop)]
pub struct Served<W: Drop> {
    /// The way in which it ended.
    pub ended: Ended,
    /// The writer.
    pub to: W,
}

/// Reads frames and writes the reply to each, up to the end of the input, `quit` or input that is
/// no frame.
///
/// The replies to all answered frames are written before each read and at the end. If writing
/// fails, a beginning of them is written.
pub fn serve<A: Answers, R: Read + Drop, W: Write + Drop>(
    alloc: Global,
    answers: &mut A,
    from: R,
    to: W,
    longest: Longest,
) -> Served<W>
    ensures served { AreServed A.is_reply answers.old (R.remaining from) (W.contents to)
        (W.contents result.to) [] result.ended }
{
    let Ok(mut input) = Input::new(alloc, from, longest) else {
        return Served {
            ended: Ended::NoMemory,
            to,
        };
    };
    let Ok(waiting) = Vec::with_capacity(alloc, PIECE) else {
        return Served {
            ended: Ended::NoMemory,
            to,
        };
    };
    let mut out = Output::new(alloc, to, waiting);
    let ended = turns(alloc, answers, &mut input, &mut out);
    let ended = finish(ended, &mut out);
    Served {
        ended,
        to: out.into_writer(),
    }
}
