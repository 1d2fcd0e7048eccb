//! Finds the last requests over the network, whose headers may be assumed.
ghost use Rattle.std.specs.Prelude.{◌≡◌, ◌-◌, ◌≤◌, [], ◌∷◌, ◌++◌, List, length, drop};
ghost use Rattle.std.specs.Prelude.{option_map, OnOk};
ghost use Rattle.http_cache_recording.specs.Entry.{entry_seen};
ghost use Rattle.http_cache_walk.specs.Order.{SentSeen, sent_seen};
ghost use Rattle.http_cache_walk.specs.Sources.{is_source, len_to_end, host_of};
ghost use Rattle.http_cache_walk.specs.Sources.{sources_seen, source_in, HoldsSources};

use crate::order::Sent;
use crate::texts::put;
use http_cache_recording::{Answer, Entry, Kind};
use std::alloc::{AllocError, Global};
use std::collections::BTreeMap;

/// The last such request for each target, and at each host.
#[derive(Drop)]
pub(crate) struct Sources<'a> {
    by_target: BTreeMap<String, &'a Entry>,
    by_host: BTreeMap<String, &'a Entry>,
}

fn is_source(entry: &Entry) -> bool
    ensures { result ≡ is_source (entry_seen entry.now) }
{
    matches!(
        (entry.kind, &entry.answer),
        (Kind::Asked, Answer::Received(_))
    )
}

// Up to the first `/` or `?` from an index on.
fn len_to_end(text: &[u8], start: usize) -> usize
    ensures value { result ≡ len_to_end (drop start text.now) }
    ensures within { result ≤ length text.now - start }
{
    text.iter()
        .skip(start)
        .take_while(|b| !(**b == b'/' || **b == b'?'))
        .count()
}

#[tactic(auto, unfolding(crate::specs::Sources::host_of))]
fn host_of(target: &str) -> &str
    ensures { result.now ≡ host_of target.now }
{
    let bytes = target.as_bytes();
    let len = bytes.len();
    let start = len_to_end(bytes, 0) + 2;
    let end = start + len_to_end(bytes, start);
    if end < len { &target[..end] } else { target }
}

impl<'a> Sources<'a> {
    /// Returns no sources.
    pub(crate) fn new(alloc: Global) -> Sources<'a>
        ensures { HoldsSources [] (sources_seen result) }
    {
        Sources {
            by_target: BTreeMap::new(alloc),
            by_host: BTreeMap::new(alloc),
        }
    }

    fn at_host(&self, target: &str) -> Option<&'a Entry>
        ensures { option_map (λ e. entry_seen e.now) result
            ≡ (sources_seen self.now).by_host (host_of target.now) }
    {
        self.by_host.get(host_of(target)).copied()
    }

    /// Returns the request from which a header is assumed: the last for the target, or else at the
    /// host.
    ///
    /// Cookies are always taken from the last at the host.
    #[tactic(auto, unfolding(crate::specs::Sources::source_in))]
    pub(crate) fn of(&self, target: &str, name: &str) -> Option<&'a Entry>
        ensures { option_map (λ e. entry_seen e.now) result
            ≡ source_in (sources_seen self.now) target.now name.now }
    {
        if name == "cookie" {
            return self.at_host(target);
        }
        match self.by_target.get(target) {
            Some(entry) => Some(*entry),
            None => self.at_host(target),
        }
    }

    /// Adds a request, if the network was asked as a store would have asked.
    pub(crate) fn add(&mut self, alloc: Global, sent: &Sent<'a>) -> Result<(), AllocError>
        ensures { (before : List SentSeen) → HoldsSources before (sources_seen self.old) → OnOk
            result (HoldsSources (before ++ sent_seen sent.now ∷ []) (sources_seen self.new)) }
    {
        if !is_source(sent.entry) {
            return Ok(());
        }
        let (target, entry) = (sent.target(), sent.entry);
        put(&mut self.by_target, String::from_str(alloc, target)?, entry)?;
        put(
            &mut self.by_host,
            String::from_str(alloc, host_of(target))?,
            entry,
        )?;
        Ok(())
    }
}
