//! Tests the texts of targets, and the targets of references in a response.
use http::{HeaderMap, Uri};
use http_cache_memory_store::Target;
use std::alloc::Global;
use std::test::Fail;
use test_cases::fixtures::{field, headers};

// A request target, the field lines, and the text of the target.
fn requests() -> &'static str {
    "http://A.example:80/X?Y||http//a.example/X?Y
     https://a.example:443||https//a.example/
     https://a.example:80/||https//a.example:80/
     /x|Host: A.example|//a.example/x
     /x?||///x?"
}

// A reference in the response to a request for http://a.example/x/y?q, and the text of its target, or
// `no` if it names none of that origin.
fn references() -> &'static str {
    "/z|http//a.example/z
     z?r#f|http//a.example/x/z?r
     ../z|http//a.example/z
     ./|http//a.example/x/
     ?r|http//a.example/x/y?r
     #f|http//a.example/x/y?q
     HTTP://A.example:80/z|http//a.example/z
     //a.example/z|http//a.example/z
     /z?u=http://b.example/|http//a.example/z?u=http://b.example/
     z?u=http://b.example/|http//a.example/x/z?u=http://b.example/
     http://a.example//z/.|http//a.example//z/
     http://a.example|http//a.example/
     https://a.example/z|no
     http://b.example/z|no
     http://u@a.example/z|no
     mailto:a.example|no
     http://|no"
}

// The examples of RFC 3986, section 5.4, whose base is http://a/b/c/d;p?q.
fn resolved() -> &'static str {
    "g:h|no
     g|http//a/b/c/g
     ./g|http//a/b/c/g
     g/|http//a/b/c/g/
     /g|http//a/g
     //g|no
     ?y|http//a/b/c/d;p?y
     g?y|http//a/b/c/g?y
     #s|http//a/b/c/d;p?q
     g#s|http//a/b/c/g
     g?y#s|http//a/b/c/g?y
     ;x|http//a/b/c/;x
     g;x|http//a/b/c/g;x
     g;x?y#s|http//a/b/c/g;x?y
     .|http//a/b/c/
     ./|http//a/b/c/
     ..|http//a/b/
     ../|http//a/b/
     ../g|http//a/b/g
     ../..|http//a/
     ../../|http//a/
     ../../g|http//a/g
     ../../../g|http//a/g
     ../../../../g|http//a/g
     /./g|http//a/g
     /../g|http//a/g
     g.|http//a/b/c/g.
     .g|http//a/b/c/.g
     g..|http//a/b/c/g..
     ..g|http//a/b/c/..g
     ./../g|http//a/b/g
     ./g/.|http//a/b/c/g/
     g/./h|http//a/b/c/g/h
     g/../h|http//a/b/c/h
     g;x=1/./y|http//a/b/c/g;x=1/y
     g;x=1/../y|http//a/b/c/y
     g?y/./x|http//a/b/c/g?y/./x
     g?y/../x|http//a/b/c/g?y/../x
     g#s/./x|http//a/b/c/g
     http:g|no"
}

fn of_request(alloc: Global, case: &str) -> Result<Target, Fail> {
    let uri = Uri::from_str(alloc, field(case, 0)?)?;
    Ok(Target::of(alloc, &uri, &headers(alloc, field(case, 1)?)?)?)
}

#[test]
fn texts_of_targets(rt: HostRuntime) -> Result<(), Fail> {
    for case in requests().lines() {
        let target = of_request(rt.alloc(), case)?;
        assert_eq!(rt; target.as_str(), field(case, 2)?);
    }
    Ok(())
}

fn named(alloc: Global, base: &str, reference: &str) -> Result<Option<Target>, Fail> {
    let uri = Uri::from_str(alloc, base)?;
    Ok(Target::named(alloc, &uri, &HeaderMap::new(alloc), reference)?)
}

fn text_named(alloc: Global, base: &str, reference: &str) -> Result<String, Fail> {
    match named(alloc, base, reference)? {
        Some(target) => Ok(String::from_str(alloc, target.as_str())?),
        None => Ok(String::from_str(alloc, "no")?),
    }
}

#[test]
fn references_of_the_same_origin(rt: HostRuntime) -> Result<(), Fail> {
    for case in references().lines() {
        let text = text_named(rt.alloc(), "http://a.example/x/y?q", field(case, 0)?)?;
        assert_eq!(rt; text.as_str(), field(case, 1)?);
    }
    Ok(())
}

#[test]
fn references_are_resolved(rt: HostRuntime) -> Result<(), Fail> {
    for case in resolved().lines() {
        let text = text_named(rt.alloc(), "http://a/b/c/d;p?q", field(case, 0)?)?;
        assert_eq!(rt; text.as_str(), field(case, 1)?);
    }
    Ok(())
}
