//! Which requests under way may be older than an invalidation of their target.
ghost use Rattle.std.specs.Prelude.{◌≡◌, ◌≤◌, ◌⊎◌, ℕ, List, All, OnOk};
ghost use Rattle.http_cache_store.specs.Target.{text_of};
ghost use Rattle.http_cache_errands.specs.Invalidations.{token_at, last_of};

use http_cache_store::Target;
use std::alloc::{AllocError, Global};
use std::collections::BTreeMap;

// The greatest number of targets whose invalidations are kept apart.
const MOST: usize = 4_096;

/// The invalidations of targets, each as the token that was assigned next at that time.
///
/// A request with a lower token was sent before, so its response may be older than the
/// invalidation (RFC 9111, section 4.4). If there is no room for a target, its invalidation counts
/// for every target.
#[derive(Debug, Drop)]
pub struct Invalidations {
    by_text: BTreeMap<String, u64>,
    // The token that counts for every target.
    floor: u64,
    // The greatest token of an invalidation.
    latest: u64,
    ghost are_older: { (text : List ℕ) → token_at by_text text ≤ latest },
    ghost is_older: { floor ≤ latest },
}

impl Invalidations {
    /// Returns no invalidations.
    pub fn new(alloc: Global) -> Invalidations
        ensures { (text : List ℕ) → last_of result.floor result.by_text text ≡ 0 }
    {
        Invalidations {
            by_text: BTreeMap::new(alloc),
            floor: 0,
            latest: 0,
        }
    }

    /// Returns the token that was assigned next when the target was invalidated last, or 0 if it
    /// wasn't.
    pub fn last(&self, target: &Target) -> u64
        ensures { result ≡ last_of self.now.floor self.now.by_text (text_of target.now) }
    {
        match self.by_text.get(target.as_str()) {
            Some(token) => self.floor.max(*token),
            None => self.floor,
        }
    }

    /// Records the invalidation of a target.
    pub fn add(&mut self, alloc: Global, target: &Target, next_token: u64)
        ensures added { next_token ≤ last_of self.new.floor self.new.by_text (text_of target.now) }
        ensures kept { (text : List ℕ) → last_of self.old.floor self.old.by_text text
            ≤ last_of self.new.floor self.new.by_text text }
    {
        let latest = self.latest.max(next_token);
        self.latest = latest;
        if self.by_text.len() < MOST && insert(alloc, &mut self.by_text, target, latest).is_ok() {
            return;
        }
        self.by_text.clear();
        self.floor = latest;
    }

    /// Records the invalidation of several targets.
    pub fn add_all(&mut self, alloc: Global, targets: &[Target], next_token: u64)
        ensures added { All (λ target. next_token
            ≤ last_of self.new.floor self.new.by_text (text_of target)) targets.now }
        ensures kept { (text : List ℕ) → last_of self.old.floor self.old.by_text text
            ≤ last_of self.new.floor self.new.by_text text }
    {
        for target in targets {
            self.add(alloc, target, next_token);
        }
    }
}

fn insert(
    alloc: Global,
    by_text: &mut BTreeMap<String, u64>,
    target: &Target,
    token: u64,
) -> Result<(), AllocError>
    ensures there { OnOk result (token_at by_text.new (text_of target.now) ≡ token) }
    ensures others { (text : List ℕ) → (token_at by_text.new text ≡ token)
        ⊎ (token_at by_text.new text ≡ token_at by_text.old text) }
{
    let text = String::from_str(alloc, target.as_str())?;
    if by_text.insert(text, token).is_err() {
        return Err(AllocError);
    }
    Ok(())
}
