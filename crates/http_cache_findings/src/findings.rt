//! What a report finds in a recording: numbers, urls and enums, without words or layout. A url has
//! no query if queries are left out.
use crate::advice::Advice;
use crate::lint::Flaw;
use crate::picks::Base;
use crate::urls::Life;
use http_cache_semantics::explain::Obstacles;

/// The loads of a recording.
#[derive(Drop)]
pub struct Loads {
    /// The url of the page that was loaded first, or an empty text.
    pub page: String,
    /// How often that page was loaded.
    pub of_page: u64,
    /// How often other pages were loaded.
    pub of_others: u64,
    /// The url of the other pages, if they have one.
    pub other: Option<String>,
    /// The seconds from the first request of the first load to the last response.
    pub seconds: u128,
}

/// The bytes that were sent for the loads of a recording.
#[derive(Clone, Copy)]
pub struct Sent {
    /// All of the first load.
    pub first_load: u64,
    /// All of the later loads.
    pub later_loads: u64,
    /// For requests of the first load that a cache could answer.
    pub asked_first_load: u64,
    /// For requests of the later loads that a cache could answer.
    pub asked_later_loads: u64,
}

/// The repeated requests, and what stored responses save of them.
#[derive(Clone, Copy)]
pub struct Repeated {
    /// The repeated requests.
    pub requests: u64,
    /// The ones that a stored response answers.
    pub fresh: u64,
    /// The bytes that these responses took when they were received.
    pub saved: u64,
}

/// What requests cost in bytes, by two walks over the recording.
#[derive(Clone, Copy)]
pub struct Price {
    /// The cost as recorded.
    pub now: u64,
    /// The cost with what is advised.
    pub then: u64,
}

impl Price {
    /// Returns by how many bytes the cost falls, or 0 if it rises.
    pub fn saved(self) -> u64 {
        self.now.saturating_sub(self.then)
    }
}

/// A url whose headers are to be changed.
#[derive(Drop)]
pub struct ChangedUrl {
    /// The url.
    pub url: String,
    /// What its response says of caching.
    pub says: String,
    /// What to send.
    pub advice: Advice,
    /// The number of its requests for which bytes are sent when the page is loaded again.
    pub requests: u64,
    /// These bytes.
    pub bytes: u64,
    /// The cost of these requests. It falls.
    pub cost: Price,
    /// The cost of its requests in the first load.
    pub first_load: Price,
    /// The cost of its requests in the later loads, if only answers with 304 are added.
    pub by_304: Price,
}

/// What a visit costs.
#[derive(Clone, Copy)]
pub struct VisitCost {
    /// The known bytes.
    pub bytes: u64,
    /// The requests that a 304 answers.
    pub confirmed: u64,
    /// The responses whose size is unknown.
    pub unknown: u64,
}

/// What a visit costs after some seconds.
#[derive(Clone, Copy)]
pub struct LaterVisit {
    /// The seconds after the recording.
    pub after: u64,
    /// Its costs now.
    pub now: VisitCost,
    /// Its costs with what is advised.
    pub advised: VisitCost,
}

/// What a visit does with a url.
#[derive(Clone, Copy, PartialEq, Eq)]
pub enum Act {
    /// Its full response is sent again.
    Again,
    /// A 304 confirms what is stored.
    Confirmed,
    /// Nothing is asked.
    Nothing,
}

/// A url that later visits request, or whose lifetime is guessed.
#[derive(Drop)]
pub struct VisitedUrl {
    /// The url.
    pub url: String,
    /// The status of its full response.
    pub status: u16,
    /// The bytes of that.
    pub bytes: u64,
    /// How long it stays fresh.
    pub life: Life,
    /// What each visit does with it.
    pub acts: Vec<Act>,
    /// What to send, if a visit then asks for less.
    pub advice: Option<Advice>,
    /// Whether a visit requests it, or asks for less with what is advised.
    pub is_listed: bool,
}

/// The urls of the first load that state no lifetime, so that each cache guesses one.
#[derive(Drop)]
pub struct Guesses {
    /// The number of these urls.
    pub urls: u64,
    /// The bytes of their full responses.
    pub bytes: u64,
    /// The least guessed lifetime, in seconds.
    pub least: u64,
    /// The greatest guessed lifetime, in seconds.
    pub most: u64,
    /// For each visit, the number of these urls that a 304 confirms.
    pub confirmed: Vec<u64>,
}

/// Something that looks wrong in a response.
#[derive(Clone, Copy, PartialEq, Eq)]
pub enum Fault {
    /// A flaw of its headers.
    Flaw(Flaw),
    /// A part of pages says `no-store`.
    UnstoredPart,
    /// The lifetime of a page is guessed.
    GuessedPage,
    /// The server sends all of it to its own validator.
    InFull,
}

/// A url in whose response something looks wrong.
#[derive(Drop)]
pub struct FaultyUrl {
    /// The url.
    pub url: String,
    /// What its response says of caching.
    pub says: String,
    /// What looks wrong.
    pub faults: Vec<Fault>,
}

/// Urls whose query changes while the response doesn't.
#[derive(Drop)]
pub struct ChangingQuery {
    /// The url up to its query.
    pub base: String,
    /// The number of urls.
    pub urls: u64,
    /// The cost of the later loads with what is advised, and then without the query too.
    pub cost: Price,
}

/// A stored response.
#[derive(Drop)]
pub struct Held {
    /// Its lifetime in seconds.
    pub seconds: u64,
    /// What sets the lifetime, such as `max-age`.
    pub by: &'static str,
    /// The text that sets it, as written.
    pub source: Option<String>,
    /// The age with which it was received, in seconds.
    pub age: u64,
    /// The lifetime left then, in seconds.
    pub left: u64,
}

/// A response that isn't stored.
#[derive(Drop)]
pub struct Refused {
    /// The method of its request.
    pub method: String,
    /// Its status.
    pub status: u64,
    /// Why it isn't stored.
    pub obstacles: Obstacles,
}

/// What a cache does with a response.
#[derive(Drop)]
pub enum Storing {
    /// It stores the response.
    Held(Held),
    /// It doesn't.
    Refused(Refused),
    /// There is no response that it could store.
    Nothing,
}

/// A url that a browser's cache and a CDN's treat differently.
#[derive(Drop)]
pub struct SplitUrl {
    /// The url.
    pub url: String,
    /// What a browser's cache does with its response.
    pub browser: Storing,
    /// What a CDN's cache does with it.
    pub cdn: Storing,
}

/// A url of the first load that needs no change.
#[derive(Drop)]
pub struct GoodUrl {
    /// The url.
    pub url: String,
    /// The mean bytes of its requests in the later loads.
    pub bytes: u64,
}

/// Requests that aren't judged.
#[derive(Drop)]
pub struct Apart {
    /// Their kind.
    pub name: String,
    /// The number of requests.
    pub requests: u64,
    /// The bytes that were sent for them.
    pub bytes: u64,
}

/// What a report finds in a recording. Lists of urls begin with the greatest bytes.
#[derive(Drop)]
pub struct Findings {
    /// Whether the cache serves many users.
    pub is_shared: bool,
    /// The loads.
    pub loads: Loads,
    /// What was sent.
    pub sent: Sent,
    /// The repeated requests.
    pub repeated: Repeated,
    /// Which requests decide what to change.
    pub base: Base,
    /// All bytes of these requests.
    pub all: u64,
    /// The changes that save bytes, the greatest saving first.
    pub changes: Vec<ChangedUrl>,
    /// Visits an hour, a day, a week and thirty days later. There are none if no request of a first
    /// load was recorded, and then each list of urls is empty.
    pub visits: Vec<LaterVisit>,
    /// The urls that visits request, and those whose lifetime is guessed.
    pub visited: Vec<VisitedUrl>,
    /// The urls whose lifetime is guessed.
    pub guesses: Guesses,
    /// What looks wrong.
    pub faults: Vec<FaultyUrl>,
    /// The queries that change while the response doesn't.
    pub queries: Vec<ChangingQuery>,
    /// The urls that a browser's cache and a CDN's treat differently.
    pub split: Vec<SplitUrl>,
    /// The urls for which nothing is asked for thirty days.
    pub kept: Vec<GoodUrl>,
    /// The urls that say `no-cache`, and that a 304 confirms.
    pub checked: Vec<GoodUrl>,
    /// The requests that aren't judged.
    pub apart: Vec<Apart>,
    /// Whether the recording was made with the cache off.
    pub cache_off: bool,
    /// Whether the recording shows no credentials.
    pub no_credentials: bool,
}

/// What is found in a response of which only the head was read.
#[derive(Drop)]
pub struct HeadFindings {
    /// The url, or the name of the response.
    pub url: String,
    /// The status.
    pub status: u64,
    /// The bytes that were sent.
    pub bytes: u64,
    /// What a browser's cache does with it.
    pub browser: Storing,
    /// What a CDN's cache does with it.
    pub cdn: Storing,
    /// What visits an hour, a day, a week and thirty days later do with it. There are none if no
    /// cache could answer for it.
    pub acts: Vec<Act>,
    /// What looks wrong.
    pub faults: Vec<Fault>,
    /// What to send, if the first three visits then ask for less.
    pub advice: Option<Advice>,
}
