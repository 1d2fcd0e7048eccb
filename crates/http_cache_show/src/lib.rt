//! What is found in a recorded session, as a text of one screen, as JSON, as lines and as a page.
//!
//! No contract says which words a form has; files of the tests do. A page has texts of a recording
//! only between tags, and each byte of a text is printable.
#![tactic(auto)]

// Adds a template with items in its holes, to a page or a report, or to a text.
macro_rules! fill {
    ($alloc:expr, $out:expr; $template:expr; $($item:expr),+) => {
        $crate::item::fill($alloc, $out, $template, &[$($item),+])
    };
    ($to:expr; $template:expr; $($item:expr),+) => {
        $to.fill($template, &[$($item),+])
    };
}

// Returns a template with items in its holes.
macro_rules! filled {
    ($alloc:expr; $template:expr; $($item:expr),+) => {
        $crate::item::filled($alloc, $template, &[$($item),+])
    };
}

pub mod error;
pub mod escape;
mod heads_report;
pub mod html;
pub mod item;
mod lines;
mod members;
mod numbers;
mod object;
mod page;
mod page_findings;
mod page_requests;
pub mod printable;
mod report;
pub mod run;
mod script;
mod style;
pub mod words;
