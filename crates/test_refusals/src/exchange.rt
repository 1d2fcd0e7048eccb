//! The exchanges on which the calls are made, as scripts, and what their policies should be.
use crate::answer::Ages;

/// An exchange.
#[derive(Clone, Copy)]
pub struct Exchange {
    /// The script, with `$VARY` for the names in the response's Vary.
    pub script: &'static str,
    /// The names in Vary.
    pub vary: &'static str,
    /// The stored form of its policy.
    pub form: &'static str,
    /// What the policy should be after five and a half seconds.
    pub ages: Ages,
}

/// The usual exchange.
pub const MAIN: Exchange = Exchange {
    script: SCRIPT,
    vary: "Accept",
    form: FORM,
    ages: TEN_SECONDS,
};

/// The usual exchange with a Vary that also has a name of 200 letters, so that a copy of it would
/// allocate.
pub const VARIED: Exchange = Exchange {
    script: SCRIPT,
    vary: concat!(
        "Accept, ",
        "nnnnnnnnnnnnnnnnnnnnnnnnnnnnnnnnnnnnnnnnnnnnnnnnnnnnnnnnnnnnnnnnnnnnnnnnnnnnnnnnnnnnnnnnnnnnnnnnnnnn",
        "nnnnnnnnnnnnnnnnnnnnnnnnnnnnnnnnnnnnnnnnnnnnnnnnnnnnnnnnnnnnnnnnnnnnnnnnnnnnnnnnnnnnnnnnnnnnnnnnnnnn",
    ),
    form: FORM,
    ages: TEN_SECONDS,
};

/// An exchange whose response may not be stored.
pub const PRIVATE: Exchange = Exchange {
    script: PRIVATE_SCRIPT,
    vary: "Accept",
    form: PRIVATE_FORM,
    ages: Ages {
        nanos: 5_500_000_000,
        is_storable: false,
        age: 5_500_000_000,
        left: 0,
    },
};

/// The longest example.
pub const EXAMPLE: Exchange = Exchange {
    script: EXAMPLE_SCRIPT,
    vary: "",
    form: EXAMPLE_FORM,
    ages: TEN_SECONDS,
};

/// Three exchanges under one key, of which the exchange itself is the newest.
pub const VARIANTS: Exchange = Exchange {
    script: VARIANTS_SCRIPT,
    vary: "Accept",
    form: VARIANTS_FORM,
    ages: Ages {
        nanos: 5_500_000_000,
        is_storable: true,
        age: 5_500_000_000,
        left: 0,
    },
};

// The response is fresh for ten seconds.
const TEN_SECONDS: Ages = Ages {
    nanos: 5_500_000_000,
    is_storable: true,
    age: 5_500_000_000,
    left: 4_500_000_000,
};

const SCRIPT: &str = concat!(
    r#"{"options":{"shared":true,"cache_heuristic":[1,10],"immutable_min_time_to_live":[86400,0],"#,
    r#""ignore_cargo_cult":true},"received":[1704067200,0],"#,
    r#""request":{"uri":"/a","method":"GET","headers":[["Accept","a"]]},"response":{"status":200,"#,
    r#""headers":[["Cache-Control","max-age=10, pre-check=1, post-check=2, a=\"b c\", public"],"#,
    r#"["Connection","X-Gone"],["ETag","\"c\""],["Last-Modified","Sat, 23 Sep 2023 00:00:00 GMT"],["Vary","$VARY"],"#,
    r#"["Warning","110 - \"s\", 214 - \"x\""],["X","1"],["X","2"],["X-Gone","1"]]},"steps":["#,
    r#"{"ask":{"uri":"/a","method":"GET","headers":[["Accept","a"]]},"at":[1704067205,500000000]},"restart","#,
    r#"{"ask":{"uri":"/a","method":"GET","headers":[["Accept","a"],["If-None-Match","\"z\""],["If-Range","y"],"#,
    r#"["TE","x"]]},"at":[1704067210,0]},"#,
    r#"{"receive":{"uri":"/a","method":"GET","headers":[["Accept","a"]]},"#,
    r#""response":{"status":304,"headers":[["ETag","\"c\""],["X","3"]]},"at":[1704067210,0]},"#,
    r#"{"ask":{"uri":"/a","method":"GET","headers":[["Accept","a"]]},"at":[1704067219,0]},"#,
    r#"{"receive":{"uri":"/a","method":"GET","headers":[["Accept","a"]]},"#,
    r#""response":{"status":500,"headers":[["Cache-Control","max-age=3"],["X","4"]]},"at":[1704067220,0]},"#,
    r#"{"ask":{"uri":"/a","method":"GET","headers":[["Accept","b"],["TE","x"]]},"at":[1704067205,0]},"#,
    r#"{"ask":{"uri":"/a","method":"HEAD","headers":[["Accept","b"],["TE","x"]]},"at":[1704067205,0]}]}"#,
);

/// The stored form of the usual exchange's policy.
pub const FORM: &str = concat!(
    r#"{"method":"GET","opts":{"cache_heuristic":[1,10],"ignore_cargo_cult":true,"#,
    r#""immutable_min_time_to_live":[86400,0],"shared":true},"req":{"accept":["61"]},"#,
    r#""res":{"cache-control":["6d61782d6167653d31302c20613d22622063222c207075626c6963"],"#,
    r#""connection":["582d476f6e65"],"etag":["226322"],"#,
    r#""last-modified":["5361742c2032332053657020323032332030303a30303a303020474d54"],"vary":["416363657074"],"#,
    r#""warning":["313130202d202273222c20323134202d20227822"],"x":["31","32"],"x-gone":["31"]},"#,
    r#""response_time":[1704067200,0],"status":200,"uri":"/a"}"#,
);

const PRIVATE_SCRIPT: &str = concat!(
    r#"{"options":{"shared":true,"cache_heuristic":[1,10],"immutable_min_time_to_live":[86400,0],"#,
    r#""ignore_cargo_cult":true},"received":[1704067200,0],"#,
    r#""request":{"uri":"/a","method":"GET","headers":[["Accept","a"]]},"response":{"status":200,"#,
    r#""headers":[["Cache-Control","max-age=10, private"],["ETag","\"c\""],"#,
    r#"["Last-Modified","Sat, 23 Sep 2023 00:00:00 GMT"],["Vary","$VARY"]]},"steps":["#,
    r#"{"ask":{"uri":"/a","method":"GET","headers":[["Accept","a"],["If-None-Match","\"z\""],["If-Range","y"],"#,
    r#"["TE","x"]]},"at":[1704067210,0]}]}"#,
);

const PRIVATE_FORM: &str = concat!(
    r#"{"method":"GET","opts":{"cache_heuristic":[1,10],"ignore_cargo_cult":true,"#,
    r#""immutable_min_time_to_live":[86400,0],"shared":true},"req":{"accept":["61"]},"#,
    r#""res":{"cache-control":["6d61782d6167653d31302c2070726976617465"],"etag":["226322"],"#,
    r#""last-modified":["5361742c2032332053657020323032332030303a30303a303020474d54"],"vary":["416363657074"]},"#,
    r#""response_time":[1704067200,0],"status":200,"uri":"/a"}"#,
);

const EXAMPLE_SCRIPT: &str = concat!(
    r#"{"options":{"shared":true,"cache_heuristic":[1,10],"immutable_min_time_to_live":[86400,0],"#,
    r#""ignore_cargo_cult":false},"received":[1704067200,0],"request":{"uri":"/a","method":"GET","headers":[]},"#,
    r#""response":{"status":200,"headers":[["Cache-Control","max-age=10"]]},"steps":["#,
    r#"{"ask":{"uri":"/a","method":"GET","headers":[]},"at":[1704067205,500000000]},"restart","#,
    r#"{"ask":{"uri":"/a","method":"GET","headers":[]},"at":[1704067210,0]},"#,
    r#"{"receive":{"uri":"/a","method":"GET","headers":[]},"#,
    r#""response":{"status":304,"headers":[]},"at":[1704067210,0]},"#,
    r#"{"ask":{"uri":"/a","method":"GET","headers":[]},"at":[1704067219,0]},"#,
    r#"{"receive":{"uri":"/b","method":"GET","headers":[]},"#,
    r#""response":{"status":500,"headers":[]},"at":[1704067220,0]}]}"#,
);

const EXAMPLE_FORM: &str = concat!(
    r#"{"method":"GET","opts":{"cache_heuristic":[1,10],"ignore_cargo_cult":false,"#,
    r#""immutable_min_time_to_live":[86400,0],"shared":true},"req":{},"#,
    r#""res":{"cache-control":["6d61782d6167653d3130"]},"response_time":[1704067200,0],"status":200,"uri":"/a"}"#,
);

// Three requests, and the exchanges that are stored before, the newest last.
const VARIANTS_SCRIPT: &str = concat!(
    r#"{"options":{"shared":true,"cache_heuristic":[1,10],"immutable_min_time_to_live":[86400,0],"#,
    r#""ignore_cargo_cult":false},"received":[1704067200,0],"#,
    r#""request":{"uri":"/a","method":"GET","headers":[["Accept","a"]]},"#,
    r#""response":{"status":200,"headers":[["Cache-Control","max-age=1"],["ETag","\"3\""],["Vary","$VARY"]]},"#,
    r#""steps":["#,
    r#"{"ask":{"uri":"/a","method":"GET","headers":[["Accept","a"]]},"at":[1704067205,0]},"#,
    r#"{"ask":{"uri":"/a","method":"GET","headers":[["Accept","a"]]},"at":[1704067400,0]},"#,
    r#"{"ask":{"uri":"/a","method":"HEAD","headers":[["Accept","b"],["TE","x"]]},"at":[1704067205,0]},"#,
    r#"{"receive":{"uri":"/a","method":"GET","headers":[["Accept","a"]]},"response":{"status":200,"headers":["#,
    r#"["Cache-Control","max-age=100"],["ETag","\"1\""],["Vary","$VARY"]]},"at":[1704067200,0]},"#,
    r#"{"receive":{"uri":"/a","method":"GET","headers":[["Accept","b"]]},"response":{"status":200,"headers":["#,
    r#"["Cache-Control","max-age=100"],["ETag","\"1\""],["Vary","$VARY"]]},"at":[1704067200,0]},"#,
    r#"{"receive":{"uri":"/a","method":"GET","headers":[["Accept","a"]]},"response":{"status":200,"headers":["#,
    r#"["Cache-Control","max-age=1"],["ETag","\"3\""],["Vary","$VARY"]]},"at":[1704067200,0]}]}"#,
);

const VARIANTS_FORM: &str = concat!(
    r#"{"method":"GET","opts":{"cache_heuristic":[1,10],"ignore_cargo_cult":false,"#,
    r#""immutable_min_time_to_live":[86400,0],"shared":true},"req":{"accept":["61"]},"#,
    r#""res":{"cache-control":["6d61782d6167653d31"],"etag":["223322"],"vary":["416363657074"]},"#,
    r#""response_time":[1704067200,0],"status":200,"uri":"/a"}"#,
);
