//! An origin server at the other end of two files, such as pipes. Requests are written to one as
//! HTTP/1.1, responses are read from the other.
use bytes::{Bytes, BytesMut};
use http::{Request, Response, Uri, response};
use http_cache_client::Origin;
use http1::{BodySize, Client, Event, Limits, WriteError};
use http1_typed::{header_list, response_parts};
use httparse::spans::{EMPTY_HEADER_SPAN, HeaderSpan};
use jiff::Timestamp;
use std::alloc::{AllocError, AllocFailed, Global};
use std::hash::RandomState;
use std::io::{self, Read, Write};
use std::time::Clock;

// The greatest number of fields of a response.
const MOST_FIELDS: usize = 64;

/// The reason why there is no response.
#[derive(Debug, Drop)]
pub enum NoResponse {
    /// There is not enough memory.
    Memory,
    /// The request can't be written as HTTP/1.1.
    Unwritable(WriteError),
    /// The received bytes are no response.
    Unreadable,
    /// The files or the clock failed.
    Failed(io::Error),
}

impl From<AllocError> for NoResponse {
    fn from(_e: AllocError) -> NoResponse {
        NoResponse::Memory
    }
}

impl<T: Drop> From<AllocFailed<T>> for NoResponse {
    fn from(_e: AllocFailed<T>) -> NoResponse {
        NoResponse::Memory
    }
}

impl From<WriteError> for NoResponse {
    fn from(e: WriteError) -> NoResponse {
        NoResponse::Unwritable(e)
    }
}

impl From<io::Error> for NoResponse {
    fn from(e: io::Error) -> NoResponse {
        NoResponse::Failed(e)
    }
}

// The response that is being read.
#[derive(Drop)]
struct Arriving {
    head: Option<response::Parts>,
    body: Vec<u8>,
}

/// A connection to an origin server.
#[derive(Drop)]
pub struct Wire<'a, R, W, C> {
    alloc: Global,
    keys: RandomState,
    clock: &'a C,
    reader: R,
    writer: W,
    input: BytesMut,
    client: Client,
}

// Returns the target in origin form (RFC 9112, section 3.2.1).
fn origin_form(target: &Uri) -> &str {
    match target.path_and_query() {
        Some(path) => path.as_str(),
        None => "/",
    }
}

impl<'a, R: Read, W: Write, C: Clock> Wire<'a, R, W, C> {
    /// Returns a connection over a reader and a writer.
    pub fn new(
        alloc: Global,
        keys: RandomState,
        clock: &'a C,
        reader: R,
        writer: W,
    ) -> Wire<'a, R, W, C> {
        Wire {
            alloc,
            keys,
            clock,
            reader,
            writer,
            input: BytesMut::new(alloc),
            client: Client::new(Limits::default()),
        }
    }

    // Writes a request, whose Content-Length is its body's own.
    fn write(&mut self, request: &Request<Bytes>) -> Result<(), NoResponse> {
        let mut output = Vec::new(self.alloc);
        let headers = header_list(self.alloc, request.headers())?;
        let method = request.method().as_str().as_bytes();
        let target = origin_form(request.uri()).as_bytes();
        let body = request.body();
        let size = if body.is_empty() {
            BodySize::Empty
        } else {
            BodySize::Known(body.len() as u64)
        };
        self.client
            .write_request(&mut output, method, target, headers.as_slice(), size)?;
        self.client.write_data(&mut output, body.as_slice())?;
        self.client.write_end(&mut output, &[])?;
        self.writer.write_all(output.as_slice())?;
        Ok(self.writer.flush()?)
    }

    // Reads more bytes. Returns whether the end of the input ends the response.
    fn read_more(&mut self) -> Result<bool, NoResponse> {
        self.input.reserve(8192)?;
        if self.input.read_from(&mut self.reader)? > 0 {
            return Ok(false);
        }
        match self.client.read_eof() {
            Ok(Event::End(_)) => Ok(true),
            _ => Err(NoResponse::Unreadable),
        }
    }

    // Takes the next part of the input. Returns whether the response is whole.
    fn step(
        &mut self,
        spans: &mut [HeaderSpan],
        arriving: &mut Arriving,
    ) -> Result<bool, NoResponse> {
        let Ok(read) = self.client.read(self.input.as_slice(), spans) else {
            return Err(NoResponse::Unreadable);
        };
        match read.event {
            Event::NeedMore => return self.read_more(),
            Event::Informational(_) => {}
            Event::Head(head) => {
                let text = Bytes::copy_from_slice(self.alloc, self.input.as_slice())?;
                match response_parts(self.alloc, self.keys, &text, &head, spans) {
                    Ok(head) => arriving.head = Some(head),
                    Err(_) => return Err(NoResponse::Unreadable),
                }
            }
            Event::Data(piece) => {
                let bytes = piece.of(self.input.as_slice());
                arriving.body.extend_from_slice(bytes)?;
            }
            Event::End(_) => {
                self.input.advance(read.consumed);
                return Ok(true);
            }
            Event::Paused | Event::Upgraded | Event::Closed => return Err(NoResponse::Unreadable),
        }
        self.input.advance(read.consumed);
        Ok(false)
    }

    fn read(&mut self) -> Result<Response<Bytes>, NoResponse> {
        let mut spans = [EMPTY_HEADER_SPAN; MOST_FIELDS];
        let mut arriving = Arriving {
            head: None,
            body: Vec::new(self.alloc),
        };
        for _ in 0..u64::MAX {
            if self.step(&mut spans, &mut arriving)? {
                break;
            }
        }
        let Arriving { head, body } = arriving;
        match head {
            Some(head) => Ok(Response::from_parts(head, Bytes::from_vec(body)?)),
            None => Err(NoResponse::Unreadable),
        }
    }
}

impl<R: Read, W: Write, C: Clock> Origin for Wire<'_, R, W, C> {
    type Error = NoResponse;

    ghost use Rattle.std.specs.Prelude.{⊤};

    ghost sent = { λ before request response after. ⊤ };

    fn send(
        &mut self,
        request: &Request<Bytes>,
    ) -> Result<(Response<Bytes>, Timestamp), NoResponse> {
        self.write(request)?;
        let response = self.read()?;
        match Timestamp::now(self.clock) {
            Ok(now) => Ok((response, now)),
            Err(_) => Err(NoResponse::Unreadable),
        }
    }
}
