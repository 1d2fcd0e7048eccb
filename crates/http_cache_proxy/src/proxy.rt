//! A caching proxy: a client and its origin server as a service of `http_server`.
ghost use Rattle.std.specs.Prelude.{◌≡◌, string_bytes, IfOk};

use crate::clock::TimeSource;
use crate::fetch::answer_to;
use crate::origin::WholeOrigin;
use crate::write::write_outcome;
use bytes::Bytes;
use http::Request;
use http_cache_client::{Client, Origin};
use http_cache_intermediary::Intermediary;
use http_cache_memory_store::Store;
use http_server::{Response, Service};
use std::alloc::{AllocError, Global};

/// Answers requests from stored responses, or by forwarding them to an origin server.
#[derive(Drop)]
pub struct Proxy<S: Drop, O, C> {
    /// The allocator.
    pub alloc: Global,
    /// The client, with what it stores.
    pub client: Client<S>,
    /// The origin server, which receives the client's requests.
    pub origin: WholeOrigin<O>,
    /// The clock that dates received requests.
    pub clock: C,
    /// The intermediary, with the client's name.
    pub intermediary: Intermediary,
}

impl<S: Store + Drop, O: Origin + Drop, C: TimeSource + Drop> Proxy<S, O, C> {
    /// Returns a proxy with a client's name, over that client and an origin server.
    ///
    /// # Errors
    ///
    /// `AllocError` if there is not enough memory.
    pub fn new(
        alloc: Global,
        client: Client<S>,
        origin: O,
        clock: C,
    ) -> Result<Proxy<S, O, C>, AllocError>
        ensures parts { IfOk result (λ proxy. (proxy.client ≡ client) × (proxy.origin.origin ≡ origin)
            × (proxy.clock ≡ clock)) }
        ensures name { IfOk result (λ proxy. proxy.intermediary ≡ string_bytes client.name) }
    {
        let intermediary = Intermediary::new(alloc, client.name())?;
        Ok(Proxy {
            alloc,
            client,
            origin: WholeOrigin { origin },
            clock,
            intermediary,
        })
    }
}

impl<S: Store + Drop, O: Origin, C: TimeSource> Service for Proxy<S, O, C>
where
    O::Error: Drop,
{
    ghost use Rattle.http_cache_proxy.specs.Proxy.{IsProxied};

    ghost answers = { λ old request response new. IsProxied
        ⟦<WholeOrigin<O> as Origin>⟧.sent old.origin new.origin old.intermediary
        (S.stored old.client.store) (S.next_id old.client.store)
        (S.stored new.client.store) (S.next_id new.client.store)
        C.shown old.clock new.clock request response };

    fn call(
        &mut self,
        request: &Request<Bytes>,
        response: &mut Response,
    ) -> Result<(), AllocError> {
        let time = self.clock.now();
        let answer = answer_to(
            self.alloc,
            &self.intermediary,
            &mut self.client,
            &mut self.origin,
            request,
            &time,
        );
        write_outcome(
            self.alloc,
            &self.intermediary,
            response,
            request,
            answer,
            time,
        );
        Ok(())
    }
}
