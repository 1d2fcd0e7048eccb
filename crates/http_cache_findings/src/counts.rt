//! Sums under labels, `group/name`.
ghost use Rattle.std.specs.Prelude.{◌≡◌, ◌+◌, ◌-◌, ◌^◌, min, [], ◌∷◌, IfOk, OnOk, string_bytes};
ghost use Rattle.http_cache_findings.specs.Counts.{label_of, when, total_in, HoldsCounts, CountsAlso};
ghost use Rattle.http_cache_findings.specs.Counts.{is_noticed, is_in_full};
ghost use Rattle.http_cache_walk.specs.Sources.{is_asked};

use http_cache_recording::Kind;
use http_cache_walk::row::Again;
use http_cache_walk::texts::put;
use std::alloc::{AllocError, Global};
use std::collections::BTreeMap;

/// Sums of an audit, by `group/name`.
#[derive(Drop)]
pub struct Counts {
    alloc: Global,
    pub by_label: BTreeMap<String, u64>,
}

#[tactic(auto, unfolding(crate::specs::Counts::label_of))]
fn label_of(alloc: Global, group: &str, name: &str) -> Result<String, AllocError>
    ensures { IfOk result (λ label. string_bytes label ≡ label_of group.now name.now) }
{
    format!(in alloc; "{group}/{name}")
}

pub(crate) fn is_in_full(again: Option<Again>) -> bool
    ensures { result ≡ is_in_full again }
{
    matches!(again, Some(Again::InFull))
}

/// Returns whether a store could have answered a request of a kind.
pub fn is_asked(kind: Kind) -> bool
    ensures { result ≡ is_asked kind }
{
    matches!(kind, Kind::Asked)
}

impl Counts {
    /// Returns counts of nothing.
    pub fn new(alloc: Global) -> Counts
        ensures { HoldsCounts [] result }
    {
        Counts {
            alloc,
            by_label: BTreeMap::new(alloc),
        }
    }

    /// Returns the count under a label.
    pub fn total(&self, label: &str) -> u64
        ensures { result ≡ total_in self.now label.now }
    {
        self.by_label.get(label).copied().unwrap_or(0)
    }

    /// Returns the count of a name in a group.
    pub fn total_of(&self, group: &str, name: &str) -> Result<u64, AllocError>
        ensures { IfOk result (λ n. n ≡ total_in self.now (label_of group.now name.now)) }
    {
        let label = label_of(self.alloc, group, name)?;
        Ok(self.total(label.as_str()))
    }

    // The greatest count is 2^64 - 1.
    fn with_more(&self, label: &str, amount: u64) -> u64
        ensures { result ≡ min (total_in self.now label.now + amount) (2 ^ 64 - 1) }
    {
        self.total(label).saturating_add(amount)
    }

    /// Adds an amount to the count of a name in a group.
    pub fn add(&mut self, group: &str, name: &str, amount: u64) -> Result<(), AllocError>
        ensures { OnOk result (CountsAlso ((label_of group.now name.now, amount) ∷ [])
            self.old self.new) }
    {
        let label = label_of(self.alloc, group, name)?;
        let count = self.with_more(label.as_str(), amount);
        put(&mut self.by_label, label, count)?;
        Ok(())
    }

    /// Adds an amount, if a condition holds.
    #[tactic(auto, using(crate::proofs::CountsLemmas::also_none))]
    pub fn add_if(
        &mut self,
        holds: bool,
        group: &str,
        name: &str,
        amount: u64,
    ) -> Result<(), AllocError>
        ensures { OnOk result (CountsAlso (when holds (label_of group.now name.now, amount))
            self.old self.new) }
    {
        if holds {
            self.add(group, name, amount)
        } else {
            Ok(())
        }
    }

    /// Returns whether the recording seems to be made with the browser's cache off, or by a hard
    /// reload.
    ///
    /// At least half of the requests for a store, or of the repeated ones, then have `no-cache`.
    pub fn is_noticed(&self) -> bool
        ensures { result ≡ is_noticed self.now }
    {
        let of_all = self.total("counts/no_cache");
        let of_repeated = self.total("counts/no_cache_repeated");
        of_all > 0 && of_all.saturating_add(of_all) >= self.total("kinds/asked")
            || of_repeated > 0
                && of_repeated.saturating_add(of_repeated) >= self.total("counts/repeated")
    }
}
