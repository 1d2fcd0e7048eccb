//! Decides what to change first: the urls whose advice saves most, by the costs of two walks.
ghost use Rattle.std.specs.Prelude.{◌≡◌, ◌++◌, IfOk, OnOk, true};
ghost use Rattle.std.specs.List.{flat_map, list_all};
ghost use Rattle.std.specs.Option.{option_map_or, option_to_list};
ghost use Rattle.http_cache_findings.specs.Changes.{price, change_by, saves, key_by, key_at, keys_of, change_if, change_at, AreChanges};

use crate::counts::Counts;
use crate::picks::{Base, Pick};
use crate::remedy::Remedy;
use std::alloc::{AllocError, Global};

/// A change of a url's headers.
#[derive(Clone, Copy)]
pub struct Change {
    /// The index of the advice that it follows, which has its url.
    pub remedy: usize,
    /// The requests for the url, and what to send.
    pub pick: Pick,
    /// The bytes that its requests cost now, in the later loads or at the visit a day later.
    pub cost_now: u64,
    /// The bytes that they cost with what is advised.
    pub cost_then: u64,
}

/// The costs of a recording, and those with what is advised.
#[derive(Clone, Copy)]
pub struct Prices<'a> {
    /// Which requests count.
    pub base: Base,
    /// The costs now.
    pub present: &'a Counts,
    /// The costs with what is advised.
    pub advised: &'a Counts,
}

// Returns the cost of the requests for a url.
fn price(base: Base, costs: &Counts, url: &str) -> Result<u64, AllocError>
    ensures { IfOk result (λ n. n ≡ price base costs.now url.now) }
{
    match base {
        Base::Later => costs.total_of("later_cost", url),
        Base::Visit => costs.total_of("bytes", url),
    }
}

fn change_by(prices: &Prices<'_>, index: usize, remedy: &Remedy) -> Result<Change, AllocError>
    ensures { IfOk result (λ c. c ≡ change_by prices.now.base
        prices.now.present.now prices.now.advised.now index remedy.now) }
{
    let url = remedy.url.as_str();
    Ok(Change {
        remedy: index,
        pick: remedy.pick,
        cost_now: price(prices.base, prices.present, url)?,
        cost_then: price(prices.base, prices.advised, url)?,
    })
}

fn push_key(keys: &mut Vec<(u64, usize)>, index: usize, change: &Change) -> Result<(), AllocError>
    ensures { OnOk result (keys.new.items ≡ keys.old.items ++ key_by index change.now) }
{
    if change.pick.is_much && change.cost_then < change.cost_now {
        keys.push((u64::MAX - (change.cost_now - change.cost_then), index))?;
    }
    Ok(())
}

fn push_key_of(
    keys: &mut Vec<(u64, usize)>,
    prices: &Prices<'_>,
    index: usize,
    remedy: &Remedy,
) -> Result<(), AllocError>
    ensures { OnOk result (keys.new.items ≡ keys.old.items ++ key_at prices.now.base
        prices.now.present.now prices.now.advised.now (index, remedy.now)) }
{
    let change = change_by(prices, index, remedy)?;
    push_key(keys, index, &change)
}

// Returns the keys of the changes that save bytes, where many are sent.
fn keys_of(
    alloc: Global,
    prices: &Prices<'_>,
    remedies: &[Remedy],
) -> Result<Vec<(u64, usize)>, AllocError>
    ensures { IfOk result (λ keys. keys.items ≡ keys_of prices.now.base
        prices.now.present.now prices.now.advised.now remedies.now) }
{
    let mut keys = Vec::new(alloc);
    for index in 0..remedies.len() {
        push_key_of(&mut keys, prices, index, &remedies[index])?;
    }
    Ok(keys)
}

fn change_if(change: Change) -> Option<Change>
    ensures { option_to_list result ≡ change_if change }
{
    if change.cost_then < change.cost_now {
        Some(change)
    } else {
        None
    }
}

fn change_at(
    prices: &Prices<'_>,
    remedies: &[Remedy],
    key: (u64, usize),
) -> Result<Option<Change>, AllocError>
    ensures { IfOk result (λ change. option_to_list change ≡ change_at prices.now.base
        prices.now.present.now prices.now.advised.now remedies.now key) }
{
    match remedies.get(key.1) {
        Some(remedy) => Ok(change_if(change_by(prices, key.1, remedy)?)),
        None => Ok(None),
    }
}

fn push_some(all: &mut Vec<Change>, change: Option<Change>) -> Result<(), AllocError>
    ensures { OnOk result (all.new.items ≡ all.old.items ++ option_to_list change) }
{
    match change {
        Some(change) => Ok(all.push(change)?),
        None => Ok(()),
    }
}

fn push_change_at(
    all: &mut Vec<Change>,
    prices: &Prices<'_>,
    remedies: &[Remedy],
    key: (u64, usize),
) -> Result<(), AllocError>
    ensures { OnOk result (all.new.items ≡ all.old.items ++ change_at prices.now.base
        prices.now.present.now prices.now.advised.now remedies.now key) }
{
    let change = change_at(prices, remedies, key)?;
    push_some(all, change)
}

fn changes_in(
    alloc: Global,
    prices: &Prices<'_>,
    remedies: &[Remedy],
    order: &[(u64, usize)],
) -> Result<Vec<Change>, AllocError>
    ensures { IfOk result (λ all. all.items ≡ flat_map (change_at prices.now.base
        prices.now.present.now prices.now.advised.now remedies.now) order.now) }
{
    let mut all = Vec::with_capacity(alloc, order.len())?;
    for key in order {
        push_change_at(&mut all, prices, remedies, *key)?;
    }
    Ok(all)
}

/// Returns the changes that save bytes: the greatest saving first, and in the order of their first
/// requests if the savings are equal. Urls for which few bytes are sent are left out.
pub fn changes_of(
    alloc: Global,
    prices: &Prices<'_>,
    remedies: &[Remedy],
) -> Result<Vec<Change>, AllocError>
    ensures changes { IfOk result (λ all. AreChanges prices.now.base
        prices.now.present.now prices.now.advised.now remedies.now all.items) }
    ensures saves { IfOk result (λ all. list_all saves all.items ≡ true) }
{
    let mut order = keys_of(alloc, prices, remedies)?;
    order.sort_unstable();
    changes_in(alloc, prices, remedies, order.as_slice())
}
