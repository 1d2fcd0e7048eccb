//! The policy: whether its response may be stored, how old it is and how long it stays fresh.
ghost use Rattle.std.specs.Prelude.{◌≡◌, ◌-◌, ℤ, ◌≤ℤ◌, ◌≤◌, ◌↔◌, true, codes, IsTrue, IfOk};
ghost use Rattle.std.specs.Prelude.{IsOkUnless};
ghost use Rattle.std.specs.Duration.{as_nanos};
ghost use Rattle.http.specs.declared.version.TheConstants.Version.{HTTP_11};
ghost use Rattle.http_cache_fields.specs.Headers.{headers_of};
ghost use Rattle.http_cache_fields.specs.Directives.{cache_control, has};
ghost use Rattle.http_cache_rules.specs.Options.{options_of, default_options};
ghost use Rattle.http_cache_rules.specs.Exchange.{exchange_in};

mod like;

use http::{HeaderMap, Method, StatusCode, Uri, Version, request};
use http_cache_fields::CacheError;
use http_cache_fields::directives::{CacheControl, directives_of_response};
use http_cache_fields::headers::copy_of_map;
use http_cache_fields::kept::keep;
use http_cache_rules::asks::forbids_storing;
use http_cache_rules::freshness::{Freshness, LifetimeSource};
use http_cache_rules::lifetime::{elapsed_time, lifetime_of, received_age};
pub use http_cache_rules::options::{CacheOptions, Fraction};
pub use http_cache_rules::parts::StoredParts;
use http_cache_rules::storable::{has_explicit_expiration, is_storable};
use http_cache_rules::stored_directives::StoredDirectives;
use jiff::Timestamp;
pub use like::{RequestLike, ResponseLike};
use std::alloc::{AllocError, Global};
use std::marker::Model;
use std::time::Duration;

/// A request, its response and the time of receipt. It decides when the response may be used again.
#[derive(Debug, Drop)]
pub struct CachePolicy {
    parts: StoredParts,
    found: Findings,
}

impl Model for CachePolicy {
    ghost use Rattle.http_cache_rules.specs.Exchange.{Exchange, exchange_code, exchange_in};

    ghost Value = { Exchange };

    ghost coded = { exchange_code };

    ghost use Rattle.http_cache_policy.specs.Inside.{IsDerived};

    ghost view = { λ p. exchange_in p.parts };

    ghost invariant = { IsDerived };
}

/// Returns a copy of a target.
pub(crate) fn copy_of_target(target: &Uri) -> Result<Uri, AllocError>
    ensures { IfOk result (λ copy. copy ≡ target.now) }
{
    target.clone()
}

/// Returns the head of a request for a target, with a copy of a method.
pub(crate) fn request_with(
    method: &Method,
    uri: Uri,
    headers: HeaderMap,
) -> Result<request::Parts, AllocError>
    ensures { IfOk result (λ request. request
        ≡ record { method = method.now; uri = uri; version = HTTP_11; headers = headers }) }
{
    Ok(request::Parts {
        method: method.clone()?,
        uri,
        version: Version::HTTP_11,
        headers,
    })
}

// They are read once, so that later answers allocate nothing.
#[derive(Clone, Copy, Debug)]
struct Findings {
    request_no_store: bool,
    directives: StoredDirectives,
    storable: bool,
    received_age: u64,
    source: LifetimeSource,
    lifetime: Duration,
}

impl Findings {
    ghost use Rattle.http_cache_policy.specs.Inside.{AreFindingsIn};

    fn of(alloc: Global, parts: &StoredParts) -> Result<Findings, AllocError>
        ensures { IfOk result (λ found. AreFindingsIn (exchange_in parts.now) found) }
    {
        let request_no_store = forbids_storing(&parts.request_headers);
        let directives = StoredDirectives::of(alloc, &parts.response_headers)?;
        let storable = is_storable(parts, request_no_store, &directives);
        let freshness = lifetime_of(alloc, storable, parts, &directives)?;
        Ok(Findings {
            request_no_store,
            directives,
            storable,
            received_age: received_age(&parts.response_headers),
            source: freshness.source,
            lifetime: freshness.lifetime,
        })
    }
}

impl CachePolicy {
    ghost use Rattle.http_cache_fields.specs.CargoCult.{has_cargo_cult, without_cargo_cult};
    ghost use Rattle.http_cache_policy.specs.Exchange.{exchange_of, stored_directives, request_directives};
    ghost use Rattle.http_cache_policy.specs.Kept.{kept_exchange};
    ghost use Rattle.http_cache_rules.specs.Storing.{has_explicit_expiration};
    ghost use Rattle.http_cache_rules.specs.Storability.{is_storable};
    ghost use Rattle.http_cache_rules.specs.StoredDirectives.{stored_directives_of};
    ghost use Rattle.http_cache_rules.specs.Freshness.{lifetime};
    ghost use Rattle.http_cache_rules.specs.Freshness.{freshness_seen, freshness};
    ghost use Rattle.http_cache_policy.specs.Age.{age_at, time_to_live_at, is_stale_at};
    ghost use Rattle.http_cache_policy.specs.Verdict.{lets_stale_out};

    /// Returns the policy of a request and its response, received at `response_time`, with the
    /// default options.
    ///
    /// The only error is `Memory`.
    pub fn new<Req: RequestLike, Res: ResponseLike>(
        alloc: Global,
        req: &Req,
        res: &Res,
        response_time: Timestamp,
    ) -> Result<CachePolicy, CacheError>
        ensures value { IfOk result (λ policy. policy ≡ kept_exchange (exchange_of
            (Req.seen req.now) (Res.seen res.now) default_options response_time.nanosecond)) }
        ensures settled { IfOk result (λ policy. kept_exchange policy ≡ policy) }
        ensures only_memory { IsOkUnless result CacheError.Memory }
    {
        CachePolicy::new_options(alloc, req, res, response_time, CacheOptions::default())
    }

    /// Returns the policy of a request and its response, received at `response_time`.
    ///
    /// If `ignore_cargo_cult` is set, and the response has both of its marks, the directives that
    /// it names, Expires and Pragma aren't kept. The only error is `Memory`.
    pub fn new_options<Req: RequestLike, Res: ResponseLike>(
        alloc: Global,
        req: &Req,
        res: &Res,
        response_time: Timestamp,
        opts: CacheOptions,
    ) -> Result<CachePolicy, CacheError>
        ensures value { IfOk result (λ policy. policy ≡ kept_exchange (exchange_of
            (Req.seen req.now) (Res.seen res.now) (options_of opts) response_time.nanosecond)) }
        ensures without_cargo_cult { opts.ignore_cargo_cult ≡ true
            → has_cargo_cult (cache_control (Res.seen res.now).headers) ≡ true
            → IfOk result (λ policy. stored_directives policy
            ≡ without_cargo_cult (cache_control (Res.seen res.now).headers)) }
        ensures settled { IfOk result (λ policy. kept_exchange policy ≡ policy) }
        ensures only_memory { IsOkUnless result CacheError.Memory }
    {
        let parts = StoredParts {
            target: req.uri(alloc)?,
            method: req.method().clone()?,
            status: res.status(),
            request_headers: copy_of_map(req.headers())?,
            response_headers: copy_of_map(res.headers())?,
            options: opts,
            response_time,
        };
        CachePolicy::from_details(alloc, parts)
    }

    /// Returns the policy of its parts, as `new_options` does of copies of a request and a
    /// response.
    ///
    /// The only error is `Memory`.
    #[tactic(auto, unfolding(crate::specs::Kept::kept_exchange))]
    #[inline(always)]
    pub fn from_details(alloc: Global, mut parts: StoredParts) -> Result<CachePolicy, CacheError>
        ensures value { IfOk result (λ policy. policy ≡ kept_exchange (exchange_in parts)) }
        ensures only_memory { IsOkUnless result CacheError.Memory }
    {
        let ignores = parts.options.ignore_cargo_cult;
        keep(alloc, &mut parts.response_headers, ignores)?;
        let found = Findings::of(alloc, &parts)?;
        Ok(CachePolicy { parts, found })
    }

    /// Returns a copy of the policy. The only error is `Memory`.
    pub fn try_clone(&self, _alloc: Global) -> Result<CachePolicy, CacheError>
        ensures value { IfOk result (λ copy. copy ≡ self.now) }
        ensures only_memory { IsOkUnless result CacheError.Memory }
    {
        let parts = &self.parts;
        Ok(CachePolicy {
            parts: StoredParts {
                target: copy_of_target(&parts.target)?,
                method: parts.method.clone()?,
                status: parts.status,
                request_headers: copy_of_map(&parts.request_headers)?,
                response_headers: copy_of_map(&parts.response_headers)?,
                options: parts.options,
                response_time: parts.response_time,
            },
            found: self.found,
        })
    }

    /// Returns all that is stored.
    pub(crate) fn parts(&self) -> &StoredParts
        ensures value { exchange_in result.now ≡ self.now }
        ensures settled { kept_exchange self.now ≡ self.now }
    {
        &self.parts
    }

    /// Returns the target URI of the stored request, by which a store may file the policy.
    pub fn stored_target(&self) -> &Uri
        ensures { result.now ≡ self.now.target }
    {
        &self.parts.target
    }

    /// Returns the method of the stored request.
    pub fn stored_method(&self) -> &Method
        ensures { result.now ≡ self.now.method }
    {
        &self.parts.method
    }

    /// Returns the status of the stored response.
    pub fn stored_status(&self) -> StatusCode
        ensures { result ≡ self.now.status }
    {
        self.parts.status
    }

    /// Returns the headers of the stored response, as later 304 responses renewed them.
    ///
    /// They are without what `ignore_cargo_cult` removes.
    pub fn stored_headers(&self) -> &HeaderMap
        ensures headers { headers_of result.now ≡ self.now.response_headers }
        ensures settled { kept_exchange self.now ≡ self.now }
    {
        &self.parts.response_headers
    }

    /// Returns the options that the policy was made with.
    pub fn stored_options(&self) -> CacheOptions
        ensures { options_of result ≡ self.now.options }
    {
        self.parts.options
    }

    /// Returns the time at which the stored response was received.
    pub fn stored_response_time(&self) -> Timestamp
        ensures { result.nanosecond ≡ self.now.response_time }
    {
        self.parts.response_time
    }

    /// Returns the headers of the stored request, by which it is matched.
    pub fn stored_request_headers(&self) -> &HeaderMap
        ensures { headers_of result.now ≡ self.now.request_headers }
    {
        &self.parts.request_headers
    }

    /// Returns whether the stored response may be used although it is stale (RFC 7234, section
    /// 4.2.4).
    ///
    /// It has to be storable, without `must-revalidate` and `no-cache`.
    pub(crate) fn lets_stale_out(&self) -> bool
        ensures { result ≡ lets_stale_out self.now }
    {
        let said = &self.found.directives;
        self.is_storable() && !said.must_revalidate && !said.no_cache
    }

    /// Returns whether the stored response has an explicit lifetime.
    pub(crate) fn has_explicit_expiration(&self) -> bool
        ensures { result ≡ has_explicit_expiration self.now }
    {
        has_explicit_expiration(&self.parts, &self.found.directives)
    }

    /// Returns how long the stored response stays fresh.
    pub(crate) fn lifetime(&self) -> Duration
        ensures { as_nanos result ≡ lifetime self.now }
    {
        self.found.lifetime
    }

    /// Returns the findings in the stored directives.
    pub(crate) fn directives(&self) -> &StoredDirectives
        ensures { result.now ≡ stored_directives_of (stored_directives self.now) }
    {
        &self.found.directives
    }

    /// Returns whether the stored request forbids to store the response.
    pub(crate) fn request_no_store(&self) -> bool
        ensures { result ≡ has (request_directives self.now) (codes "no-store") }
    {
        self.found.request_no_store
    }

    /// Returns the directives by which the policy decides, in order.
    ///
    /// They are the stored response's, without what `ignore_cargo_cult` removes. `no-cache` in
    /// Pragma counts if there is no Cache-Control (RFC 7234, sections 5.2 and 5.4). Each call reads
    /// them anew; the only error is `Memory`.
    pub fn stored_directives(&self, alloc: Global) -> Result<CacheControl, CacheError>
        ensures value { IfOk result (λ directives. directives ≡ stored_directives self.now) }
        ensures only_memory { IsOkUnless result CacheError.Memory }
    {
        Ok(directives_of_response(alloc, self.stored_headers())?)
    }

    /// Returns the freshness lifetime and its source (RFC 7234, section 4.2.1).
    #[tactic(auto, unfolding(crate::specs::Age::time_to_live_at))]
    pub fn freshness(&self) -> Freshness
        ensures value { freshness_seen result ≡ freshness self.now }
        ensures lifetime { as_nanos result.lifetime ≡ lifetime self.now }
        ensures left { (moment : ℤ) → time_to_live_at self.now moment
            ≡ as_nanos result.lifetime - age_at self.now moment }
    {
        Freshness {
            source: self.found.source,
            lifetime: self.found.lifetime,
        }
    }

    /// Returns whether the response may be stored (RFC 7234, section 3).
    pub fn is_storable(&self) -> bool
        ensures { result ≡ is_storable self.now }
    {
        self.found.storable
    }

    /// Returns the current age: the received Age and the time since then, at most `Duration::MAX`
    /// (RFC 7234, section 4.2.3).
    pub fn age(&self, now: Timestamp) -> Duration
        ensures value { as_nanos result ≡ age_at self.now now.nanosecond }
        ensures rises { (earlier : ℤ) → earlier ≤ℤ now.nanosecond
            → age_at self.now earlier ≤ as_nanos result }
    {
        let received = Duration::from_secs(self.found.received_age);
        received.saturating_add(elapsed_time(self.parts.response_time, now))
    }

    /// Returns the remaining lifetime at `now`, or zero (RFC 7234, section 4.2).
    #[tactic(auto, unfolding(crate::specs::Age::time_to_live_at))]
    pub fn time_to_live(&self, now: Timestamp) -> Duration
        ensures { as_nanos result ≡ time_to_live_at self.now now.nanosecond }
    {
        self.found.lifetime.saturating_sub(self.age(now))
    }

    /// Returns whether no lifetime remains at `now` (RFC 7234, section 4.2).
    #[tactic(auto, unfolding(crate::specs::Age::is_stale_at, crate::specs::Age::time_to_live_at))]
    pub fn is_stale(&self, now: Timestamp) -> bool
        ensures value { result ≡ is_stale_at self.now now.nanosecond }
        ensures nothing_left { IsTrue result ↔ (time_to_live_at self.now now.nanosecond ≡ 0) }
    {
        self.found.lifetime.as_nanos() <= self.age(now).as_nanos()
    }
}
