//! The replies of the process: one frame for each frame that it reads.
ghost use Rattle.std.specs.Prelude.{◌≡◌, ◌++◌, true, option_map, OnOk};
ghost use Rattle.http_cache_frames.specs.Reply.{word_text, end_text, member_text, optional_text, reason_text, reason_code, stored_text, done_text};
ghost use Rattle.http_cache_frames.specs.Reply.{error_text, pair_text, message_text, lengths_text, stale_text};
ghost use Rattle.http_cache_frames.specs.Reply.{notice_text, reply_text};
ghost use Rattle.http_cache_frames.specs.Served.{IsQuit};

use bytes::Bytes;
use itoa::Buffer;
use std::alloc::AllocError;

/// The numbers of what the process stores and does.
#[derive(Clone, Copy, Debug, Default, PartialEq, Eq)]
pub struct Counts {
    /// The number of stored responses.
    pub responses: u64,
    /// What they count for the limit of bytes.
    pub bytes: u64,
    /// The number of removed responses whose files couldn't be removed, if the store is failing.
    pub failing: Option<u64>,
    /// The number of requests under way.
    pub under_way: u64,
    /// The number of frames that were read.
    pub frames: u64,
    /// The number of requests that a stored response answered without validation.
    pub hits: u64,
    /// The number of requests for which a stored response had to be validated.
    pub validations: u64,
    /// The number of requests that were forwarded as they are.
    pub misses: u64,
    /// The number of frames that were refused.
    pub errors: u64,
}

/// The reason why a frame is refused.
#[derive(Clone, Copy, Debug, PartialEq, Eq)]
pub enum Reason {
    /// A line is longer than 4,096 bytes.
    LongLine,
    /// A line isn't a JSON object.
    NoObject,
    /// A length isn't a number of bytes.
    NoLength,
    /// The input ends within a frame.
    Cut,
    /// The head or the body exceeds the limit.
    TooLong,
    /// There is no known member, or no id.
    NoSuchFrame,
    /// The member of the frame isn't a token.
    NoToken,
    /// The time is missing or invalid.
    NoTime,
    /// The token isn't under way.
    UnknownToken,
    /// The bytes aren't the head of a message.
    MalformedHead,
    /// The head has more fields than a map holds.
    FullHead,
    /// The status is from 100 to 199.
    NotFinal,
    /// `rest` is combined with a body, or is neither a length nor `true`.
    NoRest,
    /// `target` isn't an absolute URI.
    NoTarget,
    /// More requests are under way than the limit.
    TooMany,
    /// There is not enough memory.
    Memory,
}

impl Reason {
    /// Returns the text of a reason.
    #[tactic(auto, unfolding(crate::specs::Reply::reason_text))]
    pub fn text(self) -> &'static str
        ensures { result.now ≡ reason_text self }
    {
        match self {
            Reason::LongLine => "a line is longer than 4096 bytes",
            Reason::NoObject => "a line isn't an object of JSON",
            Reason::NoLength => "a length isn't a number of bytes",
            Reason::Cut => "the input ends within a frame",
            Reason::TooLong => "the head or the body is too long",
            Reason::NoSuchFrame => "no such frame",
            Reason::NoToken => "no token",
            Reason::NoTime => "no time",
            Reason::UnknownToken => "unknown token",
            Reason::MalformedHead => "the head is malformed",
            Reason::FullHead => "the head has too many fields",
            Reason::NotFinal => "the status isn't final",
            Reason::NoRest => "rest isn't a length or true",
            Reason::NoTarget => "the target isn't an absolute URI",
            Reason::TooMany => "too many requests under way",
            Reason::Memory => "out of memory",
        }
    }

    /// Returns the code of a reason, for a caller that doesn't compare texts.
    #[tactic(auto, unfolding(crate::specs::Reply::reason_code))]
    pub fn code(self) -> &'static str
        ensures { result.now ≡ reason_code self }
    {
        match self {
            Reason::LongLine => "long-line",
            Reason::NoObject => "no-object",
            Reason::NoLength => "no-length",
            Reason::Cut => "cut",
            Reason::TooLong => "too-long",
            Reason::NoSuchFrame => "no-such-frame",
            Reason::NoToken => "no-token",
            Reason::NoTime => "no-time",
            Reason::UnknownToken => "unknown-token",
            Reason::MalformedHead => "malformed-head",
            Reason::FullHead => "full-head",
            Reason::NotFinal => "not-final",
            Reason::NoRest => "no-rest",
            Reason::NoTarget => "no-target",
            Reason::TooMany => "too-many",
            Reason::Memory => "out-of-memory",
        }
    }
}

/// A frame without a head and a body.
#[derive(Clone, Copy, Debug, PartialEq, Eq)]
pub enum Notice {
    /// The version of the protocol, before any other frame.
    Protocol,
    /// The end of a validation after its answer.
    Done {
        /// The caller's id of the request.
        id: u64,
    },
    /// A request whose response has to be there whole before it is answered.
    More {
        /// The caller's id of the request.
        id: u64,
        /// The token with which the caller hands over the body.
        token: u64,
        /// The length of the longest body that is stored.
        most: u64,
    },
    /// A request that waits for another one.
    Wait {
        /// The caller's id of the request.
        id: u64,
        /// The token of the other request.
        token: u64,
    },
    /// The receipt for a piece of a body.
    Part {
        /// The token of the request.
        token: u64,
    },
    /// The end of a sweep.
    Swept {
        /// The caller's id.
        id: u64,
        /// The number of removed responses.
        removed: u64,
    },
    /// The removal of what was stored for a target.
    Removed {
        /// The caller's id.
        id: u64,
        /// The number of removed responses.
        responses: u64,
    },
    /// The numbers of what the process stores and does.
    Stats {
        /// The caller's id.
        id: u64,
        /// The numbers.
        counts: Counts,
    },
    /// The end of the process.
    Quit {
        /// The caller's id.
        id: u64,
    },
    /// There is no response, and no stored response may be used instead. The request is over.
    NoResponse {
        /// The caller's id of the request.
        id: u64,
        /// The token of the request.
        token: u64,
    },
    /// The refusal of a frame.
    Error {
        /// The reason.
        reason: Reason,
        /// The id of the refused frame, if it has one.
        id: Option<u64>,
        /// The token of the refused frame, if it has one.
        token: Option<u64>,
    },
}

/// A frame that the process writes.
#[derive(Debug, Drop)]
pub enum Reply {
    /// A frame without a head and a body.
    Notice(Notice),
    /// A response that answers a request. Without a body here, the caller has it.
    Answer {
        /// The caller's id of the request.
        id: u64,
        /// The head.
        head: Vec<u8>,
        /// The body.
        body: Option<Bytes>,
    },
    /// A response that answers a request, while the caller collects the body to store.
    Collect {
        /// The caller's id of the request.
        id: u64,
        /// The token with which the caller hands over the body.
        token: u64,
        /// The length of the longest body that is stored.
        most: u64,
        /// The head.
        head: Vec<u8>,
        /// The body. Without one here, it is the received one.
        body: Option<Bytes>,
    },
    /// A response that answers a request, with the first piece of its body.
    Begun {
        /// The caller's id of the request.
        id: u64,
        /// The token with which the caller asks for the next piece.
        token: u64,
        /// The number of bytes after this piece.
        left: u64,
        /// The head.
        head: Vec<u8>,
        /// The piece.
        body: Bytes,
    },
    /// A further piece of the body of an answer.
    Piece {
        /// The token with which the caller asks for the next piece.
        token: u64,
        /// The number of bytes after this piece.
        left: u64,
        /// The piece.
        body: Bytes,
    },
    /// A stale response that answers a request, and the validation to send meanwhile.
    Stale {
        /// The caller's id of the request.
        id: u64,
        /// The token of the validation.
        token: u64,
        /// The head.
        head: Vec<u8>,
        /// The body.
        body: Bytes,
        /// The head of the validation request, which has no body.
        request: Vec<u8>,
    },
    /// A request to send. Without a body here, the caller has it.
    Send {
        /// The caller's id of the request.
        id: u64,
        /// The token with which the caller reports the outcome.
        token: u64,
        /// The head.
        head: Vec<u8>,
        /// The body.
        body: Option<Bytes>,
    },
}

// The name of a member, with the text before it.
#[derive(Clone, Copy)]
enum Word {
    Answer,
    Done,
    More,
    Next,
    NoResponse,
    Part,
    Protocol,
    Quit,
    Removed,
    Send,
    Stats,
    Swept,
    Wait,
    Body,
    Bytes,
    Errors,
    Files,
    Frames,
    Head,
    Hits,
    Id,
    Left,
    Misses,
    Count,
    Request,
    Responses,
    Store,
    Token,
    UnderWay,
    Validations,
}

impl Word {
    #[tactic(auto, unfolding(crate::specs::Reply::word_text))]
    fn text(self) -> &'static str
        ensures { result.now ≡ word_text self }
    {
        match self {
            Word::Answer => "{\"answer\":",
            Word::Done => "{\"done\":",
            Word::More => "{\"more\":",
            Word::Next => "{\"next\":",
            Word::NoResponse => { "{\"error\":\"no response\",\"code\":\"no-response\",\"id\":" }
            Word::Part => "{\"part\":",
            Word::Protocol => "{\"protocol\":",
            Word::Quit => "{\"quit\":",
            Word::Removed => "{\"removed\":",
            Word::Send => "{\"send\":",
            Word::Stats => "{\"stats\":",
            Word::Swept => "{\"swept\":",
            Word::Wait => "{\"wait\":",
            Word::Body => ",\"body\":",
            Word::Bytes => ",\"bytes\":",
            Word::Errors => ",\"errors\":",
            Word::Files => ",\"store\":\"failing\",\"files\":",
            Word::Frames => ",\"frames\":",
            Word::Head => ",\"head\":",
            Word::Hits => ",\"hits\":",
            Word::Id => ",\"id\":",
            Word::Left => ",\"left\":",
            Word::Misses => ",\"misses\":",
            Word::Count => ",\"removed\":",
            Word::Request => ",\"request\":",
            Word::Responses => ",\"responses\":",
            Word::Store => ",\"store\":",
            Word::Token => ",\"token\":",
            Word::UnderWay => ",\"under_way\":",
            Word::Validations => ",\"validations\":",
        }
    }
}

fn push_member(out: &mut Vec<u8>, word: Word, number: u64) -> Result<(), AllocError>
    ensures { OnOk result (out.new.items ≡ out.old.items ++ member_text word number) }
{
    let mut digits = Buffer::new();
    out.extend_from_slice(word.text().as_bytes())?;
    out.extend_from_slice(digits.format(number).as_bytes())
}

#[tactic(auto, unfolding(crate::specs::Reply::pair_text))]
fn push_pair(
    out: &mut Vec<u8>,
    word: Word,
    number: u64,
    other: Word,
    second: u64,
) -> Result<(), AllocError>
    ensures { OnOk result (out.new.items ≡ out.old.items ++ pair_text word number other second) }
{
    push_member(out, word, number)?;
    push_member(out, other, second)
}

fn push_optional(out: &mut Vec<u8>, word: Word, number: Option<u64>) -> Result<(), AllocError>
    ensures { OnOk result (out.new.items ≡ out.old.items ++ optional_text word number) }
{
    match number {
        Some(number) => push_member(out, word, number),
        None => Ok(()),
    }
}

fn push_end(out: &mut Vec<u8>) -> Result<(), AllocError>
    ensures { OnOk result (out.new.items ≡ out.old.items ++ end_text) }
{
    out.extend_from_slice(b"}\n")
}

// Appends the lengths of a message, the end of the line, and the message.
#[tactic(auto, unfolding(crate::specs::Reply::message_text))]
fn push_message(out: &mut Vec<u8>, head: &[u8], body: Option<&Bytes>) -> Result<(), AllocError>
    ensures { OnOk result (out.new.items ≡ out.old.items ++ message_text head.now
        (option_map (λ bytes. bytes.now) body.entry)) }
{
    push_member(out, Word::Head, head.len() as u64)?;
    match body {
        Some(body) => {
            push_member(out, Word::Body, body.len() as u64)?;
            push_end(out)?;
            out.extend_from_slice(head)?;
            out.extend_from_slice(body.as_slice())
        }
        None => {
            out.extend_from_slice(b",\"body\":0,\"rest\":true}\n")?;
            out.extend_from_slice(head)
        }
    }
}

// Appends the lengths of a response and of a request's head, and the end of the line.
#[tactic(auto, unfolding(crate::specs::Reply::lengths_text))]
fn push_lengths(out: &mut Vec<u8>, head: u64, body: u64, request: u64) -> Result<(), AllocError>
    ensures { OnOk result (out.new.items ≡ out.old.items ++ lengths_text head body request) }
{
    push_member(out, Word::Head, head)?;
    push_member(out, Word::Body, body)?;
    push_member(out, Word::Request, request)?;
    push_end(out)
}

// Appends a response, and the head of a request to send meanwhile.
#[tactic(auto, unfolding(crate::specs::Reply::stale_text))]
fn push_stale(
    out: &mut Vec<u8>,
    head: &[u8],
    body: &Bytes,
    request: &[u8],
) -> Result<(), AllocError>
    ensures { OnOk result (out.new.items ≡ out.old.items ++ stale_text head.now body.now
        request.now) }
{
    push_lengths(
        out,
        head.len() as u64,
        body.len() as u64,
        request.len() as u64,
    )?;
    out.extend_from_slice(head)?;
    out.extend_from_slice(body.as_slice())?;
    out.extend_from_slice(request)
}

impl Counts {
    #[tactic(auto, unfolding(crate::specs::Reply::stored_text))]
    fn push_stored(&self, out: &mut Vec<u8>) -> Result<(), AllocError>
        ensures { OnOk result (out.new.items ≡ out.old.items ++ stored_text self.now) }
    {
        push_pair(
            out,
            Word::Responses,
            self.responses,
            Word::Bytes,
            self.bytes,
        )?;
        push_pair(
            out,
            Word::UnderWay,
            self.under_way,
            Word::Frames,
            self.frames,
        )
    }

    #[tactic(auto, unfolding(crate::specs::Reply::done_text))]
    fn push_done(&self, out: &mut Vec<u8>) -> Result<(), AllocError>
        ensures { OnOk result (out.new.items ≡ out.old.items ++ done_text self.now) }
    {
        push_pair(
            out,
            Word::Hits,
            self.hits,
            Word::Validations,
            self.validations,
        )?;
        push_pair(out, Word::Misses, self.misses, Word::Errors, self.errors)
    }
}

#[tactic(auto, unfolding(crate::specs::Reply::error_text))]
fn push_error(
    out: &mut Vec<u8>,
    reason: Reason,
    id: Option<u64>,
    token: Option<u64>,
) -> Result<(), AllocError>
    ensures { OnOk result (out.new.items ≡ out.old.items ++ error_text reason id token) }
{
    out.extend_from_slice(b"{\"error\":\"")?;
    out.extend_from_slice(reason.text().as_bytes())?;
    out.extend_from_slice(b"\",\"code\":\"")?;
    out.extend_from_slice(reason.code().as_bytes())?;
    out.extend_from_slice(b"\"")?;
    push_optional(out, Word::Id, id)?;
    push_optional(out, Word::Token, token)?;
    push_end(out)
}

fn push_line(out: &mut Vec<u8>, word: Word, id: u64) -> Result<(), AllocError>
    ensures { OnOk result (out.new.items ≡ out.old.items ++ member_text word id ++ end_text) }
{
    push_member(out, word, id)?;
    push_end(out)
}

// Appends a line with an id and one more number.
fn push_counted(
    out: &mut Vec<u8>,
    word: Word,
    id: u64,
    other: Word,
    number: u64,
) -> Result<(), AllocError>
    ensures { OnOk result (out.new.items
        ≡ out.old.items ++ pair_text word id other number ++ end_text) }
{
    push_pair(out, word, id, other, number)?;
    push_end(out)
}

impl Notice {
    #[tactic(auto, unfolding(crate::specs::Reply::notice_text))]
    fn push(&self, out: &mut Vec<u8>) -> Result<(), AllocError>
        ensures { OnOk result (out.new.items ≡ out.old.items ++ notice_text self.now) }
    {
        match *self {
            Notice::Protocol => push_line(out, Word::Protocol, 1),
            Notice::Done { id } => push_line(out, Word::Done, id),
            Notice::Quit { id } => push_line(out, Word::Quit, id),
            Notice::Part { token } => push_line(out, Word::Part, token),
            Notice::Wait { id, token } => push_counted(out, Word::Wait, id, Word::Token, token),
            Notice::More { id, token, most } => {
                push_pair(out, Word::More, id, Word::Token, token)?;
                push_line(out, Word::Store, most)
            }
            Notice::Swept { id, removed } => {
                push_counted(out, Word::Swept, id, Word::Count, removed)
            }
            Notice::Removed { id, responses } => {
                push_counted(out, Word::Removed, id, Word::Responses, responses)
            }
            Notice::NoResponse { id, token } => {
                push_counted(out, Word::NoResponse, id, Word::Token, token)
            }
            Notice::Stats { id, counts } => {
                push_member(out, Word::Stats, id)?;
                counts.push_stored(out)?;
                counts.push_done(out)?;
                push_optional(out, Word::Files, counts.failing)?;
                push_end(out)
            }
            Notice::Error { reason, id, token } => push_error(out, reason, id, token),
        }
    }
}

impl Reply {
    /// Returns whether it is the reply to `quit`.
    pub(crate) fn is_quit(&self) -> bool
        ensures { result ≡ true → IsQuit self.now }
    {
        matches!(self, Reply::Notice(Notice::Quit { .. }))
    }

    /// Appends the text of a reply.
    ///
    /// # Errors
    ///
    /// `AllocError` if there is not enough memory. A part of the text may then have been appended.
    #[tactic(auto, unfolding(crate::specs::Reply::reply_text))]
    pub fn push(&self, out: &mut Vec<u8>) -> Result<(), AllocError>
        ensures { OnOk result (out.new.items ≡ out.old.items ++ reply_text self.now) }
    {
        match self {
            Reply::Notice(notice) => notice.push(out),
            Reply::Answer { id, head, body } => {
                push_member(out, Word::Answer, *id)?;
                push_message(out, head.as_slice(), body.as_ref())
            }
            Reply::Collect {
                id,
                token,
                most,
                head,
                body,
            } => {
                push_pair(out, Word::Answer, *id, Word::Token, *token)?;
                push_member(out, Word::Store, *most)?;
                push_message(out, head.as_slice(), body.as_ref())
            }
            Reply::Begun {
                id,
                token,
                left,
                head,
                body,
            } => {
                push_pair(out, Word::Answer, *id, Word::Token, *token)?;
                push_member(out, Word::Left, *left)?;
                push_message(out, head.as_slice(), Some(body))
            }
            Reply::Piece { token, left, body } => {
                push_pair(out, Word::Next, *token, Word::Left, *left)?;
                push_message(out, &[], Some(body))
            }
            Reply::Stale {
                id,
                token,
                head,
                body,
                request,
            } => {
                push_pair(out, Word::Answer, *id, Word::Token, *token)?;
                push_stale(out, head.as_slice(), body, request.as_slice())
            }
            Reply::Send {
                id,
                token,
                head,
                body,
            } => {
                push_pair(out, Word::Send, *id, Word::Token, *token)?;
                push_message(out, head.as_slice(), body.as_ref())
            }
        }
    }
}
