//! Replays scripts by the library's public calls, writes their full answers, and compares recorded
//! ones.
#![tactic(auto)]

mod compare;
pub mod full_answer;
pub mod reader;
pub mod run;
mod shown;
