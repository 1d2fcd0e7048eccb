//! The body of a response, in memory or elsewhere.
use bytes::Bytes;

/// The body of a response.
#[derive(Debug, Drop)]
pub enum Body {
    /// The bytes of the body.
    Here(Bytes),
    /// The caller's body, with its length in bytes if known. Such a response is never stored.
    Elsewhere(Option<u64>),
}

impl From<Bytes> for Body {
    ghost use Rattle.std.specs.Prelude.{◌≡◌};
    ghost use Rattle.http_cache_decisions.specs.declared.body.Body.TheVariants.{Here};

    ghost from_gives = { λ bytes body. body ≡ Here bytes };

    fn from(bytes: Bytes) -> Body {
        Body::Here(bytes)
    }
}
