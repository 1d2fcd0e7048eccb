//! The origin server of a proxy, which accepts only complete responses.
ghost use Rattle.std.specs.Prelude.{◌≡◌};
ghost use Rattle.http.specs.Response.{head_of, body_of};
ghost use Rattle.http_cache_proxy.specs.Origin.{is_whole};

use bytes::Bytes;
use http::{Method, Request, Response};
use http_cache_client::Origin;
use http_cache_decisions::complete::is_complete;
use jiff::Timestamp;

/// The reason why there is no response to forward.
#[derive(Debug, PartialEq, Eq, Drop)]
pub enum NoAnswer<E> {
    /// The body isn't as long as its Content-Length, so it was cut off (RFC 9112, section 8).
    Cut,
    /// There is no response.
    Missing(E),
}

/// An origin server. A response with a body of another length than its Content-Length counts as
/// none.
#[derive(Debug, Drop)]
pub struct WholeOrigin<O> {
    /// The origin server itself.
    pub origin: O,
}

fn is_whole(method: &Method, response: &Response<Bytes>) -> bool
    ensures { result ≡ is_whole method.now response.now }
{
    let length = response.body().len() as u64;
    is_complete(method, response.status(), response.headers(), length)
}

impl<O: Origin> Origin for WholeOrigin<O>
where
    O::Error: Drop,
{
    type Error = NoAnswer<O::Error>;

    ghost use Rattle.http_cache_proxy.specs.Origin.{HasSentWhole};

    ghost sent = { λ before request outcome after.
        HasSentWhole O.sent before.origin after.origin request outcome };

    fn send(
        &mut self,
        request: &Request<Bytes>,
    ) -> Result<(Response<Bytes>, Timestamp), NoAnswer<O::Error>> {
        match self.origin.send(request) {
            Ok((response, received)) => {
                if is_whole(request.method(), &response) {
                    Ok((response, received))
                } else {
                    Err(NoAnswer::Cut)
                }
            }
            Err(cause) => Err(NoAnswer::Missing(cause)),
        }
    }
}
