//! Requests a page three times, through a caching client.
#![tactic(auto)]

use bytes::Bytes;
use http::{Request, Response};
use http_cache_client::{Client, Origin};
use http_cache_memory_store::{Limits, MemoryStore};
use http_cache_semantics::CacheOptions;
use jiff::Timestamp;
use std::alloc::Global;
use std::hash::RandomState;

// Replaces the network: has a page that is fresh for ten seconds, and the time of its response.
#[derive(Drop)]
struct Site {
    alloc: Global,
    now: Timestamp,
    asked: u32,
}

impl Origin for Site {
    type Error = http::Error;

    ghost use Rattle.std.specs.Prelude.{⊤};

    ghost sent = { λ before request response after. ⊤ };

    fn send(&mut self, _: &Request<Bytes>) -> Result<(Response<Bytes>, Timestamp), http::Error> {
        self.asked = self.asked.saturating_add(1);
        let page = Response::builder(self.alloc)
            .header("cache-control", "max-age=10")
            .body(Bytes::from_static(b"a page"))?;
        Ok((page, self.now))
    }
}

fn main(rt: HostRuntime) -> anyhow::Result<()> {
    let alloc = rt.alloc();
    let name = String::from_str(alloc, "first_answer")?;
    let store = MemoryStore::new(alloc, RandomState::new(&rt)?, Limits::default())?;
    let mut client = Client::new(store, CacheOptions::default(), name);
    let mut site = Site {
        alloc,
        now: Timestamp::UNIX_EPOCH,
        asked: 0,
    };
    let request = Request::get(alloc, "https://example.com/page").body(Bytes::new())?;
    for seconds in [0, 5, 15] {
        site.now = Timestamp::from_second(1_704_067_200 + seconds)?;
        let now = site.now;
        let answer = client.fetch(alloc, &mut site, &request, now)?;
        println!(rt;
            "after {seconds} s: {} bytes, the site was asked {} times",
            answer.body().len(),
            site.asked
        )?;
    }
    Ok(())
}
