//! Worked cases by direct calls, as tests. Nothing here is for use.
#![tactic(auto)]

#[cfg(test)]
mod comparisons;
#[cfg(test)]
mod errors;
#[cfg(test)]
mod limits;
#[cfg(test)]
mod own_messages;
#[cfg(test)]
mod targets;
#[cfg(test)]
mod variants;
