//! The reasons why a proxy answers a request itself.
ghost use Rattle.std.specs.Prelude.{◌≡◌};
ghost use Rattle.http_cache_proxy.specs.Failure.{failure_status, failure_detail, failure_of};

use crate::origin::NoAnswer;
use http::StatusCode;
use http_cache_client::FetchError;
use http_cache_intermediary::Refusal;

/// The reason why a proxy answers a request itself.
#[derive(Clone, Copy, Debug, PartialEq, Eq)]
pub enum Failure {
    /// The request is refused. The status is the refusal's.
    Refused(Refusal),
    /// The head of the request can't be forwarded, for instance because of too many fields. Nothing
    /// was sent. The status is 400.
    Unsendable,
    /// There is not enough memory, and nothing was sent. The status is 503.
    Memory,
    /// There is not enough memory for an answer, after a request may have been sent. The status is
    /// 500.
    Lost,
    /// The response was cut off, and no stored response may be used instead. The status is 502.
    Cut,
    /// The origin server gave no response, and no stored response may be used instead. The status
    /// is 504.
    NoResponse,
}

impl Failure {
    /// Returns the status of the answer.
    pub fn status(self) -> StatusCode
        ensures { result ≡ failure_status self }
    {
        match self {
            Failure::Refused(refusal) => refusal.status(),
            Failure::Unsendable => StatusCode::BAD_REQUEST,
            Failure::Memory => StatusCode::SERVICE_UNAVAILABLE,
            Failure::Lost => StatusCode::INTERNAL_SERVER_ERROR,
            Failure::Cut => StatusCode::BAD_GATEWAY,
            Failure::NoResponse => StatusCode::GATEWAY_TIMEOUT,
        }
    }

    /// Returns the detail of Cache-Status in the answer (RFC 9211, section 2.8).
    pub fn detail(self) -> &'static str
        ensures { result.now ≡ failure_detail self }
    {
        match self {
            Failure::Refused(refusal) => refusal.detail(),
            Failure::Unsendable => "fields",
            Failure::Memory | Failure::Lost => "out of memory",
            Failure::Cut => "response cut off",
            Failure::NoResponse => "no response",
        }
    }
}

pub(crate) fn failure_of<E: Drop>(cause: FetchError<NoAnswer<E>>) -> Failure
    ensures { result ≡ failure_of cause }
{
    match cause {
        FetchError::Memory => Failure::Memory,
        FetchError::Lost => Failure::Lost,
        FetchError::Origin(NoAnswer::Cut) => Failure::Cut,
        FetchError::Origin(NoAnswer::Missing(_)) => Failure::NoResponse,
    }
}
