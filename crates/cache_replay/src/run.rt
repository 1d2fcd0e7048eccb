//! Replays each line of the input.
ghost use Rattle.std.specs.Prelude.{◌≡◌, ◌≢◌, ◌<◌, ◌+◌, ◌-◌, ◌^◌, min, map, [], Ok, None, IfOk, IfSome, string_bytes};
ghost use Rattle.std.specs.Io.KnownBytes.{IsAtEnd};
ghost use Rattle.std.specs.Io.BufRead.{first_piece, DropsThrough};
ghost use Rattle.serde_json.specs.View.{view};
ghost use Rattle.cache_replay.specs.Verdicts.{IsComparison, IsVerdictOn, IsLineVerdict, HasVerdict, agreeing};
ghost use Rattle.cache_replay.specs.Verdicts.{differing, IsTallyOf};

use crate::compare::{Difference, RecordedAnswer, first_difference, recorded_answer_from};
use crate::full_answer::{End, write_full_answer};
use crate::reader::{Line, LineReader};
use cache_script::{script_from_bytes, script_from_value};
use serde_json::Value;
use std::alloc::Global;
use std::io;
use std::io::{BufRead, ErrorKind, Write};

/// The numbers of lines that have the recorded answer, and that differ or couldn't be read.
#[derive(Clone, Copy, Debug, Default, PartialEq, Eq)]
pub struct Tally {
    /// The number of lines that have the recorded answer.
    pub agree: u64,
    /// The number of lines that differ or couldn't be read.
    pub differ: u64,
}

impl Tally {
    /// Returns the exit status, 1 if a line differs.
    pub fn exit_status(&self) -> u8
        ensures none { self.now.differ ≡ 0 → result ≡ 0 }
        ensures some { 0 < self.now.differ → result ≡ 1 }
    {
        if self.differ == 0 { 0 } else { 1 }
    }

    fn add(&mut self, verdict: LineVerdict)
        ensures agree { self.new.agree ≡ min (self.old.agree + agreeing verdict) (2 ^ 64 - 1) }
        ensures differ { self.new.differ ≡ min (self.old.differ + differing verdict) (2 ^ 64 - 1) }
    {
        self.agree = self.agree.saturating_add(verdict.agreeing());
        self.differ = self.differ.saturating_add(verdict.differing());
    }
}

#[derive(Clone, Copy)]
enum LineVerdict {
    Agrees,
    Differs,
    Unreadable,
    Answered,
}

impl LineVerdict {
    fn agreeing(self) -> u64
        ensures { result ≡ agreeing self }
    {
        match self {
            LineVerdict::Agrees => 1,
            LineVerdict::Differs | LineVerdict::Unreadable | LineVerdict::Answered => 0,
        }
    }

    fn differing(self) -> u64
        ensures { result ≡ differing self }
    {
        match self {
            LineVerdict::Differs | LineVerdict::Unreadable => 1,
            LineVerdict::Agrees | LineVerdict::Answered => 0,
        }
    }
}

fn write_difference<W: Write>(
    writer: &mut W,
    number: u64,
    difference: &Difference<'_>,
) -> io::Result<()> {
    let position = difference.position.saturating_add(1);
    writeln!(
        writer,
        "line {number} differs at line {position} of its answer"
    )?;
    match difference.wanted {
        Some(line) => writeln!(writer, "  wanted: {line}")?,
        None => writeln!(writer, "  wanted no line")?,
    }
    match difference.got {
        Some(line) => writeln!(writer, "  got: {line}"),
        None => writeln!(writer, "  got no line"),
    }
}

// A script that ended with an error has that as its last line.
fn compare<W: Write>(
    alloc: Global,
    writer: &mut W,
    number: u64,
    recorded: RecordedAnswer<'_>,
    text: &mut String,
) -> io::Result<LineVerdict>
    ensures { IfOk result
        (IsComparison (map view recorded.entry.lines.now) (string_bytes text.new)) }
{
    let end = write_full_answer(alloc, text, script_from_value(alloc, recorded.script));
    if end != End::Done {
        add_end(text, end)?;
    }
    match first_difference(recorded.lines, text.as_str()) {
        None => Ok(LineVerdict::Agrees),
        Some(difference) => {
            write_difference(writer, number, &difference)?;
            Ok(LineVerdict::Differs)
        }
    }
}

fn answer<W: Write>(
    alloc: Global,
    writer: &mut W,
    line: &[u8],
    text: &mut String,
) -> io::Result<LineVerdict>
    ensures { IfOk result (λ verdict. verdict ≡ LineVerdict.Answered) }
{
    let end = write_full_answer(alloc, text, script_from_bytes(alloc, line));
    add_end(text, end)?;
    writer.write_all(text.as_bytes())?;
    Ok(LineVerdict::Answered)
}

fn add_end(text: &mut String, end: End) -> io::Result<()> {
    use std::fmt::Write;
    writeln!(text, "{end}")?;
    Ok(())
}

fn refuse<W: Write>(writer: &mut W, number: u64, why: &str) -> io::Result<LineVerdict>
    ensures { IfOk result (λ verdict. verdict ≡ LineVerdict.Unreadable) }
{
    writeln!(writer, "line {number} {why}")?;
    Ok(LineVerdict::Unreadable)
}

fn judge<W: Write>(
    alloc: Global,
    writer: &mut W,
    number: u64,
    line: &[u8],
    value: &Value,
    text: &mut String,
) -> io::Result<LineVerdict>
    ensures { IfOk result (IsVerdictOn (view value.now) (string_bytes text.new)) }
{
    if value.get("answer").is_none() {
        return answer(alloc, writer, line, text);
    }
    match recorded_answer_from(value) {
        Some(recorded) => compare(alloc, writer, number, recorded, text),
        None => refuse(writer, number, "has no recorded answer"),
    }
}

fn replay_line<W: Write>(
    alloc: Global,
    writer: &mut W,
    number: u64,
    line: &[u8],
    text: &mut String,
) -> io::Result<LineVerdict>
    ensures { IfOk result (IsLineVerdict line.now (string_bytes text.new)) }
{
    text.clear();
    match Value::from_slice(alloc, line) {
        Ok(value) => judge(alloc, writer, number, line, &value, text),
        Err(e) => {
            if e.is_memory() {
                refuse(writer, number, "found no memory")
            } else {
                answer(alloc, writer, line, text)
            }
        }
    }
}

fn next_verdict<R: BufRead, W: Write>(
    alloc: Global,
    lines: &mut LineReader<R>,
    writer: &mut W,
    number: u64,
    line: &mut Vec<u8>,
    text: &mut String,
) -> io::Result<Option<LineVerdict>>
    ensures some { IfOk result (λ verdict. IfSome verdict (λ v.
        IfSome (R.remaining lines.old.inner) (λ rest.
        (rest ≢ []) × HasVerdict (first_piece 10 rest) v))) }
    ensures rest { IfOk result (λ verdict. IfSome verdict (λ _.
        DropsThrough (R.remaining lines.old.inner) (R.remaining lines.new.inner) 10)) }
    ensures none { result ≡ Ok None → IsAtEnd (R.remaining lines.old.inner) }
{
    match lines.next_line(line)? {
        Line::End => Ok(None),
        Line::TooLong => Ok(Some(refuse(writer, number, "is too long")?)),
        Line::Whole => Ok(Some(replay_line(alloc, writer, number, line.as_slice(), text)?)),
    }
}

fn write_tally<W: Write>(writer: &mut W, tally: Tally) -> io::Result<()> {
    if tally == Tally::default() {
        return Ok(());
    }
    let Tally { agree, differ } = tally;
    writeln!(writer, "{agree} scripts agree, {differ} differ")
}

/// Replays each line to the end of the input.
pub fn run<R: BufRead, W: Write>(alloc: Global, reader: &mut R, writer: &mut W) -> io::Result<Tally>
    ensures tally { IfOk result (λ tally.
        IfSome (R.remaining reader.old) (λ bytes. IsTallyOf bytes tally)) }
{
    let mut lines = LineReader::new(reader);
    let mut line = Vec::new(alloc);
    let mut text = String::new(alloc);
    let mut tally = Tally::default();
    for number in 1..u64::MAX {
        match next_verdict(alloc, &mut lines, writer, number, &mut line, &mut text)? {
            Some(verdict) => tally.add(verdict),
            None => {
                write_tally(writer, tally)?;
                return Ok(tally);
            }
        }
    }
    // There are more lines than can be counted.
    Err(io::Error::from(ErrorKind::Other))
}
