//! What a site's owner should change first, by a recorded session or by heads of responses, as a
//! tree of numbers, urls and enums.
#![tactic(auto)]

pub mod advice;
mod by_size;
pub mod by_url;
pub mod change;
mod changes;
mod copies;
pub mod cost;
pub mod counts;
mod facts;
mod faults;
pub mod findings;
pub mod gather;
mod good;
mod guesses;
mod later;
pub mod lint;
mod loads;
mod outlook;
pub mod picks;
mod plain;
mod queries;
mod remedy;
pub mod responses;
mod says;
pub mod split;
pub mod urls;
mod visit;
pub mod whatif;
