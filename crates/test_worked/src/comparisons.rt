//! Which fractions, options and explanations are equal.
use http_cache_semantics::policy::Fraction;
use http_cache_semantics::{CacheOptions, CachePolicy};
use std::alloc::Global;
use std::test::Fail;
use test_cases::fixtures::{after, policy, request, with};

#[test]
fn fractions_are_compared_as_given(rt: HostRuntime) -> Result<(), Fail> {
    let tenth = Fraction::new(1, 10).ok_or("no fraction")?;
    let same = Fraction::new(2, 20).ok_or("no fraction")?;
    assert_eq!(rt; tenth == same, false);
    let opts = CacheOptions::default();
    assert_eq!(rt;
        opts == CacheOptions {
            cache_heuristic: tenth,
            ..opts
        },
        true
    );
    assert_eq!(rt;
        opts == CacheOptions {
            cache_heuristic: same,
            ..opts
        },
        false
    );
    Ok(())
}

// They are equal if the ages are.
fn is_same_at(alloc: Global, policy: &CachePolicy, one: i64, other: i64) -> Result<bool, Fail> {
    let (one, other) = (after(one)?, after(other)?);
    with(request(alloc, "GET", ""), |request| {
        Ok(policy.explain(request, one) == policy.explain(request, other))
    })
}

#[test]
fn explanations_are_compared(rt: HostRuntime) -> Result<(), Fail> {
    with(policy(rt.alloc(), "Cache-Control: max-age=10"), |policy| {
        assert_eq!(rt; is_same_at(rt.alloc(), policy, 1, 1)?, true);
        assert_eq!(rt; is_same_at(rt.alloc(), policy, 1, 2)?, false);
        Ok(())
    })
}
