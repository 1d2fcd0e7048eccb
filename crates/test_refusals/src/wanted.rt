//! The right results, worked out by hand from docs/RULES.md.
use crate::answer::Ages;

/// The directives of the response, as received.
pub const DIRECTIVES: &str = "max-age=10\npre-check=1\npost-check=2\na=b c\npublic";

/// The directives by which the policy decides, without cargo cult.
pub const STORED_DIRECTIVES: &str = "max-age=10\na=b c\npublic";

/// All directives on one line.
pub const DIRECTIVES_LINE: &str = "max-age=10, pre-check=1, post-check=2, a=\"b c\", public";

/// The answer after five and a half seconds.
pub const FRESH: &str = r#"fresh 200
age: 5
cache-control: max-age=10, a="b c", public
date: Mon, 01 Jan 2024 00:00:05 +0000
etag: "c"
last-modified: Sat, 23 Sep 2023 00:00:00 GMT
vary: Accept
warning: 214 - "x"
x: 2"#;

/// The request that validates the stored response.
pub const VALIDATED: &str = r#"stale
accept: a
if-modified-since: Sat, 23 Sep 2023 00:00:00 GMT
if-none-match: "z", "c""#;

/// The request if the response may not be stored.
pub const PLAIN: &str = "stale\naccept: a";

/// The request that doesn't match, with all of its own headers.
pub const UNMATCHED: &str = "unmatched\naccept: b\nte: x";

/// The request if a HEAD doesn't match.
pub const UNMATCHED_HEAD: &str = r#"unmatched
accept: b
if-modified-since: Sat, 23 Sep 2023 00:00:00 GMT
if-none-match: "c""#;

/// The answer with a 304 after ten seconds.
pub const NOT_MODIFIED: &str = r#"not modified 200
age: 0
cache-control: max-age=10, a="b c", public
date: Mon, 01 Jan 2024 00:00:10 +0000
etag: "c"
last-modified: Sat, 23 Sep 2023 00:00:00 GMT
vary: Accept
warning: 214 - "x"
x: 3"#;

/// The policy after that 304.
pub const RENEWED: Ages = Ages {
    nanos: 10_000_000_000,
    is_storable: true,
    age: 0,
    left: 10_000_000_000,
};

/// The answer with a response of status 500 after twenty seconds.
pub const MODIFIED: &str = r#"modified 500
age: 0
cache-control: max-age=3
date: Mon, 01 Jan 2024 00:00:20 +0000
x: 4"#;

/// The policy after that response.
pub const REPLACED: Ages = Ages {
    nanos: 20_000_000_000,
    is_storable: false,
    age: 0,
    left: 0,
};

/// The outcomes of the steps, from the policy of the exchange on.
pub const OUTCOMES: [&str; 8] = [
    FRESH,
    "restarted",
    VALIDATED,
    NOT_MODIFIED,
    r#"fresh 200
age: 9
cache-control: max-age=10, a="b c", public
date: Mon, 01 Jan 2024 00:00:19 +0000
etag: "c"
last-modified: Sat, 23 Sep 2023 00:00:00 GMT
vary: Accept
warning: 214 - "x"
x: 3"#,
    MODIFIED,
    "stale\naccept: b",
    "unmatched\naccept: b",
];

/// The outcomes of the steps of the longest example.
pub const EXAMPLE_OUTCOMES: [&str; 6] = [
    "fresh 200\nage: 5\ncache-control: max-age=10\ndate: Mon, 01 Jan 2024 00:00:05 +0000",
    "restarted",
    "stale",
    "not modified 200\nage: 0\ncache-control: max-age=10\ndate: Mon, 01 Jan 2024 00:00:10 +0000",
    "fresh 200\nage: 9\ncache-control: max-age=10\ndate: Mon, 01 Jan 2024 00:00:19 +0000",
    "modified 500\nage: 0\ndate: Mon, 01 Jan 2024 00:00:20 +0000",
];

/// The stored response as it may be sent.
pub const SENT: &str = r#"sent 200
age: 5
cache-control: max-age=10, a="b c", public
etag: "c"
last-modified: Sat, 23 Sep 2023 00:00:00 GMT
vary: Accept
warning: 110 - "s", 214 - "x"
x: 1
x: 2"#;

/// The headers that a proxy forwards, without those that Connection lists.
pub const PASSED_ON: &str = r#"cache-control: max-age=10, pre-check=1, post-check=2, a="b c", public
etag: "c"
last-modified: Sat, 23 Sep 2023 00:00:00 GMT
vary: Accept
warning: 110 - "s", 214 - "x"
x: 1
x: 2"#;

/// The headers of the response, with one line for each name.
pub const JOINED: &str = r#"cache-control: max-age=10, pre-check=1, post-check=2, a="b c", public
connection: X-Gone
etag: "c"
last-modified: Sat, 23 Sep 2023 00:00:00 GMT
vary: Accept
warning: 110 - "s", 214 - "x"
x: 1, 2
x-gone: 1"#;

/// The headers of the response after the 304.
pub const UPDATED: &str = r#"cache-control: max-age=10, pre-check=1, post-check=2, a="b c", public
connection: X-Gone
etag: "c"
last-modified: Sat, 23 Sep 2023 00:00:00 GMT
vary: Accept
warning: 110 - "s", 214 - "x"
x: 3
x-gone: 1"#;

/// The fourth cache in a row, which received an age of 3 seconds after 3.7 seconds.
pub const HANDED_ON: Ages = Ages {
    nanos: 5_000_000_000,
    is_storable: true,
    age: 4_300_000_000,
    left: 5_700_000_000,
};

/// The oldest of the variants, which is fresh.
pub const CHOSEN: (usize, &str) = (
    2,
    r#"fresh 200
age: 5
cache-control: max-age=100
date: Mon, 01 Jan 2024 00:00:05 +0000
etag: "1"
vary: Accept"#,
);

/// The newest of the variants, which has to be validated.
pub const CHOSEN_STALE: (usize, &str) = (0, "stale\naccept: a\nif-none-match: \"3\"");

/// None of the variants.
pub const NOT_CHOSEN: (usize, &str) = (0, "nothing");

/// The member of Cache-Status for a request that has another Accept.
pub const CACHE_STATUS: &str = "\"example cache\"; fwd=vary-miss; detail=\"Accept\"";

/// A member of Cache-Status with all of its parameters.
pub const MEMBER: &str = "a; fwd=stale; fwd-status=304; stored; ttl=60; detail=\"max-age=5\"";
