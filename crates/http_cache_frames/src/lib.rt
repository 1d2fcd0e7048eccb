//! Frames of the cache process, as `docs/PROTOCOL.md` defines them: what bytes begin with, the
//! members of a line, the text of a reply, and the loop that reads frames and writes replies.
//!
//! It relies on the kit's JSON, and knows nothing of HTTP or caching: the loop's caller answers the
//! frames.
#![tactic(auto)]

mod ended;
mod frame;
mod front;
mod input;
mod line;
mod output;
mod reply;
mod serving;

pub use ended::Ended;
pub use frame::Frame;
pub use front::{Announced, Front, NoFrame, front_of};
pub use input::Longest;
pub use line::{has_member, is_true_under, length_under, number_under, text_under};
pub use reply::{Counts, Notice, Reason, Reply};
pub use serving::{Answers, Lost, Served, serve};
