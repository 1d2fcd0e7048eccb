//! The session that answers the frames, over a store that counts.
ghost use Rattle.http_cache_session.specs.Session.{GivesNext};
ghost use Rattle.http_cache_wire.specs.Wire.{given_token};
ghost use Rattle.http_cache_session.specs.State.{next_token};

use http_cache_client::Client;
use http_cache_disk_store::DiskStore;
use http_cache_frames::{Answers, Frame, Lost, Reply};
use http_cache_memory_store::{MemoryStore, Store};
use http_cache_session::{Session, Settings, Stored};
use std::alloc::Global;

/// A store that counts what it stores.
pub trait Counted {
    /// Returns the amount that is stored.
    fn stored(&self) -> Stored;
}

impl Counted for MemoryStore {
    fn stored(&self) -> Stored {
        Stored {
            responses: self.len() as u64,
            bytes: self.size(),
            failing: None,
        }
    }
}

impl Counted for DiskStore<HostRuntime> {
    fn stored(&self) -> Stored {
        Stored {
            responses: self.len() as u64,
            bytes: self.size(),
            failing: if self.is_failing() {
                Some(self.stuck())
            } else {
                None
            },
        }
    }
}

// Reports on standard error that the store is failing from now on, or no longer.
fn report(rt: &HostRuntime, before: Stored, now: Stored) {
    if before.failing == now.failing {
        return;
    }
    let _ = match now.failing {
        Some(files) => eprintln!(rt;
            "cacheserve: the store is failing: files of {files} removed responses are still there"
        ),
        None => eprintln!(rt; "cacheserve: the store has recovered"),
    };
}

/// The session that answers the frames.
#[derive(Drop)]
pub struct Cache<S: Drop> {
    rt: HostRuntime,
    session: Session<S>,
}

impl<S: Store + Drop> Cache<S> {
    /// Returns a session with nothing under way.
    pub fn new(rt: &HostRuntime, client: Client<S>, settings: Settings) -> Cache<S> {
        Cache {
            rt: *rt,
            session: Session::new(rt.alloc(), client, settings),
        }
    }

    /// Returns the store, and drops the session.
    pub fn into_store(self) -> S {
        let Cache { session, .. } = self;
        session.into_store()
    }
}

impl<S: Store + Counted + Drop> Answers for Cache<S> {
    ghost is_reply = { λ before frame reply after. GivesNext (given_token reply)
        (next_token before.session) (next_token after.session) };

    fn answer(&mut self, alloc: Global, frame: Frame) -> Result<Reply, Lost> {
        let stored = self.session.store().stored();
        let reply = self.session.answer(alloc, frame, stored);
        report(&self.rt, stored, self.session.store().stored());
        reply
    }
}
