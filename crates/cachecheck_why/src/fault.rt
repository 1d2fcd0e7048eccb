//! What is wrong with a script, and where.
use std::fmt;

/// The position of a part of a script: of a member, a member of that, or a field.
#[derive(Clone, Copy, Default)]
pub struct Position {
    /// The index of the step, if the part is in one.
    pub step: Option<usize>,
    /// The member of the script or of the step; empty for the script or the step itself.
    pub member: &'static str,
    /// The member of `member`; empty for `member` itself.
    pub inner: &'static str,
    /// The index of the field, if the part is one.
    pub header: Option<usize>,
}

impl Position {
    /// Returns the position of a member of the part at this position.
    pub fn under(self, name: &'static str) -> Position {
        if self.member.is_empty() {
            Position {
                member: name,
                ..self
            }
        } else {
            Position {
                inner: name,
                ..self
            }
        }
    }
}

fn dotted<W: fmt::Write>(f: &mut fmt::Formatter<W>, name: &str) -> fmt::Result {
    if name.is_empty() {
        return Ok(());
    }
    write!(f, ".{name}")
}

fn indexed<W: fmt::Write>(f: &mut fmt::Formatter<W>, index: Option<usize>) -> fmt::Result {
    match index {
        Some(index) => write!(f, "[{index}]"),
        None => Ok(()),
    }
}

impl fmt::Display for Position {
    fn fmt<W: fmt::Write>(&self, f: &mut fmt::Formatter<W>) -> fmt::Result {
        write!(f, "script")?;
        if self.step.is_some() {
            write!(f, ".steps")?;
        }
        indexed(f, self.step)?;
        dotted(f, self.member)?;
        dotted(f, self.inner)?;
        indexed(f, self.header)
    }
}

/// Why a part can't be in a script.
#[derive(Clone, Copy)]
pub enum Cause<'a> {
    /// The member of this name is missing.
    Missing(&'static str),
    /// No such part has a member of this name.
    Superfluous(&'a str),
    /// The part isn't what it has to be.
    IsNot(&'static str),
    /// The allocator is out of memory, which says nothing about the part.
    Memory,
}

/// A part that can't be in a script.
#[derive(Clone, Copy)]
pub struct Fault<'a> {
    /// The position of the part.
    pub position: Position,
    /// Why the part can't be in a script.
    pub cause: Cause<'a>,
}

impl fmt::Display for Fault<'_> {
    fn fmt<W: fmt::Write>(&self, f: &mut fmt::Formatter<W>) -> fmt::Result {
        let position = self.position;
        match self.cause {
            Cause::Missing(name) => write!(f, "{position}: no member {name}"),
            Cause::Superfluous(name) => write!(f, "{position}: a superfluous member {name:?}"),
            Cause::IsNot(wanted) => write!(f, "{position}: not {wanted}"),
            Cause::Memory => write!(f, "out of memory"),
        }
    }
}
