//! The texts of errors.
use http_cache_semantics::CacheError;
use std::test::Fail;

#[test]
fn texts_of_errors(rt: HostRuntime) -> Result<(), Fail> {
    let errors = [
        (CacheError::Memory, "no memory"),
        (CacheError::HeaderMapFull, "header map full"),
        (CacheError::DateNotPrintable, "date not printable"),
        (CacheError::Malformed, "malformed stored form"),
    ];
    for (error, wanted) in errors {
        let text = format!(in rt.alloc(); "{error}")?;
        assert_eq!(rt; text.as_str(), wanted);
    }
    Ok(())
}
