//! What a stored response counts in memory, and how an index holds it.
ghost use Rattle.std.specs.Prelude.{◌≡◌, length};
ghost use Rattle.std.specs.Option.{option_map_or};
ghost use Rattle.http_cache_fields.specs.Headers.{headers_of};
ghost use Rattle.http_cache_memory_store.specs.Size.{headers_cost, target_cost, response_cost, capped};
ghost use Rattle.http_cache_memory_store.specs.Size.{line_cost};

use crate::entry::Entry;
use bytes::Bytes;
use http::header::{HeaderName, HeaderValue};
use http::{HeaderMap, Uri};
use http_cache_policy::policy::CachePolicy;
use http_cache_store::worth::can_be_used_again;
use http_cache_store::{ResponseId, StoredResponse};
use jiff::Timestamp;

// What a stored response takes in memory besides its texts, and each of its field lines.
const FIXED: u64 = 3072;

const LINE: u64 = 192;

fn line_cost(name: &HeaderName, value: &HeaderValue) -> u64
    ensures { result ≡ capped (line_cost name.now value.now.bytes) }
{
    (name.as_str().len() as u64)
        .saturating_add(value.len() as u64)
        .saturating_add(LINE)
}

fn head_cost(headers: &HeaderMap) -> u64
    ensures { result ≡ capped (headers_cost (headers_of headers.now)) }
{
    // The length comes with the proof that all names are different.
    let _length = headers.len();
    let mut cost = 0u64;
    for (name, value) in headers.iter() {
        cost = cost.saturating_add(line_cost(name, value));
    }
    cost
}

#[tactic(auto, unfolding(crate::specs::Size::target_cost))]
fn target_cost(target: &Uri) -> u64
    ensures { result ≡ capped (target_cost target.now) }
{
    let query = target.query().map_or(0, str::len);
    let authority = match target.authority() {
        Some(authority) => authority.as_str().len(),
        None => 0,
    };
    (target.path().len() as u64)
        .saturating_add(query as u64)
        .saturating_add(authority as u64)
}

/// Returns what a response counts in memory: its field lines and those of its request, its target,
/// its body, and what it takes besides.
#[tactic(auto, unfolding(crate::specs::Size::response_cost))]
pub(crate) fn response_cost(policy: &CachePolicy, body: &Bytes) -> u64
    ensures { result ≡ response_cost policy.now body.now }
{
    FIXED
        .saturating_add(head_cost(policy.stored_headers()))
        .saturating_add(head_cost(policy.stored_request_headers()))
        .saturating_add(target_cost(policy.stored_target()))
        .saturating_add(body.len() as u64)
}

impl Entry for StoredResponse {
    ghost use Rattle.http_cache_memory_store.specs.Stored.{cost_of};
    ghost use Rattle.http_cache_memory_store.specs.Stored.{seen_of};

    type Head = CachePolicy;

    ghost seen = { seen_of };

    ghost cost = { cost_of };

    ghost exchange = { λ policy. policy };

    fn id(&self) -> ResponseId {
        self.id
    }

    fn cost(&self) -> u64 {
        match &self.body {
            Some(body) => response_cost(&self.policy, body),
            None => response_cost(&self.policy, &Bytes::new()),
        }
    }

    fn can_be_used_again(&self, now: Timestamp) -> bool {
        can_be_used_again(&self.policy, now)
    }

    fn renew(&mut self, head: CachePolicy) {
        self.policy = head;
    }
}
