//! Reads a recorded session (HAR 1.2), entry by entry, or heads of responses. It knows nothing of
//! caching.
#![tactic(auto)]

mod element;
pub mod entry;
mod error;
mod fields;
pub mod heads;
mod mend;
mod moment;
mod number;
mod printed;
pub mod recording;
mod target;

pub use entry::{Answer, Body, Entry, Kind, Printed, Reading, Recorded};
pub use error::ReadingError;
pub use fields::{field_name, has_room, value_of_line};
pub use recording::{LONGEST, recording_from_bytes};
