//! What a recording with a first load costs, now and with what is advised, and what to change first.
ghost use Rattle.std.specs.Prelude.{◌≡◌, map, IfOk};
ghost use Rattle.http_cache_semantics.specs.Options.{options_of};
ghost use Rattle.http_cache_recording.specs.Entry.{recorded_seen};
ghost use Rattle.http_cache_findings.specs.Outlook.{AreOutlook, present_of, advised_of};

use crate::changes::{Change, Prices, changes_of};
use crate::facts::{After, Facts, after_of};
use crate::later::{Visits, visits_of};
use crate::picks::{Base, all_by, base_of, remedies_of};
use crate::remedy::Remedy;
use crate::visit::Span;
use http::Uri;
use http_cache_recording::Recorded;
use http_cache_semantics::CacheOptions;
use std::alloc::{AllocError, Global};

/// The costs of a recording, and what to change first.
#[derive(Drop)]
pub struct Outlook {
    /// The sums by which changes are ordered.
    pub base: Base,
    /// All bytes of these sums.
    pub all: u64,
    /// The costs of later visits.
    pub visits: Visits,
    /// What is advised, for the urls for which that may save bytes.
    pub remedies: Vec<Remedy>,
    /// The costs with what is advised.
    pub after: After,
    /// What to change first, the greatest saving first.
    pub changes: Vec<Change>,
}

fn prices_of<'a>(base: Base, facts: &'a Facts, visits: &'a Visits, after: &'a After) -> Prices<'a>
    ensures base { result.base ≡ base }
    ensures present { result.present.now ≡ present_of base facts.now visits.now }
    ensures advised { result.advised.now ≡ advised_of base after.now }
{
    match base {
        Base::Later => Prices {
            base,
            present: &facts.costs,
            advised: &after.costs,
        },
        Base::Visit => Prices {
            base,
            present: &visits.day,
            advised: &after.visits.day,
        },
    }
}

/// Returns the costs of a recording and what to change first, and the recording as it was.
pub fn outlook_of(
    alloc: Global,
    recorded: Vec<Recorded>,
    target: &Uri,
    options: &CacheOptions,
    facts: &Facts,
    span: Span,
) -> Result<(Outlook, Vec<Recorded>), AllocError>
    ensures { IfOk result (λ made. AreOutlook (map recorded_seen recorded.items)
        (options_of options.now) target.now facts.now span made.0) }
{
    let mut recorded = recorded;
    let repeats = facts.repeats.as_slice();
    let visits = visits_of(alloc, &mut recorded, repeats, span, target, *options)?;
    let base = base_of(&facts.sums)?;
    let all = all_by(base, &facts.sums, &visits)?;
    let remedies = remedies_of(alloc, recorded.as_slice(), facts, base, &visits)?;
    let advised = remedies.as_slice();
    let (after, recorded) = after_of(alloc, recorded, target, options, advised, facts, &span)?;
    let prices = prices_of(base, facts, &visits, &after);
    let changes = changes_of(alloc, &prices, advised)?;
    let outlook = Outlook {
        base,
        all,
        visits,
        remedies,
        after,
        changes,
    };
    Ok((outlook, recorded))
}
