//! Tests over readers and writers that stutter, fail and never end. Nothing here is for use.
#![tactic(auto)]

#[cfg(test)]
mod replays;
#[cfg(test)]
mod scripts;
