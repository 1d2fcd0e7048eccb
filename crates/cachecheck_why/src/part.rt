//! A part of a value, and its position.
use crate::fault::{Cause, Fault, Position};
use serde_json::Value;

/// A part of a value that is read as a script.
#[derive(Clone, Copy)]
pub struct Part<'a> {
    /// The part.
    pub value: &'a Value,
    /// The position of the part.
    pub position: Position,
}

impl<'a> Part<'a> {
    /// Returns the fault of a part that isn't `wanted`.
    pub fn is_not(self, wanted: &'static str) -> Fault<'a> {
        self.fault(Cause::IsNot(wanted))
    }

    /// Returns the fault of this cause.
    pub fn fault(self, cause: Cause<'a>) -> Fault<'a> {
        Fault {
            position: self.position,
            cause,
        }
    }

    /// Returns `Err` if the part is no object, or has a member of another name.
    pub fn has_only(self, names: &[&str]) -> Result<(), Fault<'a>> {
        let Some(members) = self.value.as_object() else {
            return Err(self.is_not("an object"));
        };
        for name in members.keys() {
            if !names.iter().any(|known| *known == name.as_str()) {
                return Err(self.fault(Cause::Superfluous(name.as_str())));
            }
        }
        Ok(())
    }

    /// Returns the member of this name, or `Err` if it is missing.
    pub fn member(self, name: &'static str) -> Result<Part<'a>, Fault<'a>> {
        match self.value.get(name) {
            Some(value) => Ok(Part {
                value,
                position: self.position.under(name),
            }),
            None => Err(self.fault(Cause::Missing(name))),
        }
    }

    /// Returns the text of the member of this name, or `Err`.
    pub fn text(self, name: &'static str) -> Result<&'a str, Fault<'a>> {
        let part = self.member(name)?;
        part.value.as_str().ok_or(part.is_not("a text"))
    }
}
