//! The names of files in the directory.

/// The file that the process holds, and which says how the directory was left.
pub(crate) const LOCK: &str = "lock";

/// What a file is, by its name.
#[derive(Clone, Copy)]
pub(crate) enum Name {
    /// A response: `0123456789abcdef`.
    Response(u64),
    /// The new head of a response: `0123456789abcdef.head`.
    Head(u64),
    /// A file that was being written: `0123456789abcdef.tmp`.
    Unfinished(u64),
    /// The lock.
    Lock,
    /// A file of another program.
    Foreign,
}

// Returns the id that 16 hex digits say.
fn id_in(digits: &str) -> Option<u64> {
    if digits.len() != 16 {
        return None;
    }
    for byte in digits.as_bytes() {
        if !matches!(*byte, b'0'..=b'9' | b'a'..=b'f') {
            return None;
        }
    }
    u64::from_str_radix(digits, 16).ok()
}

/// Returns what the file with a name is.
pub(crate) fn name_of(text: &str) -> Name {
    if text == LOCK {
        return Name::Lock;
    }
    let (digits, ending) = text.split_once('.').unwrap_or((text, ""));
    match (id_in(digits), ending) {
        (Some(id), "") if !text.ends_with('.') => Name::Response(id),
        (Some(id), "head") => Name::Head(id),
        (Some(id), "tmp") => Name::Unfinished(id),
        _ => Name::Foreign,
    }
}

/// Returns what is after the id in the name of a file.
pub(crate) fn ending_of(name: Name) -> &'static str {
    match name {
        Name::Head(_) => ".head",
        Name::Unfinished(_) => ".tmp",
        Name::Response(_) | Name::Lock | Name::Foreign => "",
    }
}
