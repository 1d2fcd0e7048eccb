//! Names every public item that programs are written against, at its path and with its types. So a
//! renaming, or a change of a signature, doesn't compile. Nothing here is for use.
#![tactic(auto)]

mod directives;
mod messages;
mod policies;
mod runs;
mod scripts;
mod variants;
