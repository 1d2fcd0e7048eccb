//! Reads the value of a directive that counts seconds (RFC 7234, section 1.2.1).
ghost use Rattle.std.specs.Prelude.{◌≡◌, Option, Some, None, option_copied};
ghost use Rattle.http_cache_rules.specs.DeltaSeconds.{said_by_value, is_said, number_in, seconds_in};

use http_cache_fields::text::number;

/// The value of a directive that counts seconds.
#[derive(Clone, Copy, Debug, PartialEq, Eq)]
pub enum DeltaSeconds {
    /// The directive is missing.
    Absent,
    /// The directive has no value.
    WithoutValue,
    /// The value isn't a number.
    NoNumber,
    /// The number of seconds.
    Number(u64),
}

impl DeltaSeconds {
    /// Returns the reading of a directive that is present, by its value.
    pub fn of_value(value: Option<&str>) -> DeltaSeconds
        ensures { result ≡ said_by_value (Some (option_copied value.entry)) }
    {
        let Some(text) = value else {
            return DeltaSeconds::WithoutValue;
        };
        match number(text) {
            Some(seconds) => DeltaSeconds::Number(seconds),
            None => DeltaSeconds::NoNumber,
        }
    }

    /// Returns whether the directive is present.
    pub fn is_said(self) -> bool
        ensures { result ≡ is_said self }
    {
        match self {
            DeltaSeconds::Absent => false,
            _ => true,
        }
    }

    /// Returns the number, if there is one.
    pub fn number(self) -> Option<u64>
        ensures { result ≡ number_in self }
    {
        match self {
            DeltaSeconds::Number(seconds) => Some(seconds),
            _ => None,
        }
    }

    /// Returns the seconds of a directive that has a value. A value that is no number counts as 0.
    pub fn seconds(self) -> Option<u64>
        ensures { result ≡ seconds_in self }
    {
        match self {
            DeltaSeconds::Number(seconds) => Some(seconds),
            DeltaSeconds::NoNumber => Some(0),
            _ => None,
        }
    }
}
