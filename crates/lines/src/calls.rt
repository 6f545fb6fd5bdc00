//! The calls that a line can make, and why a line is none.
ghost use Rattle.std.specs.Prelude.{◌≡◌, Some};
ghost use Rattle.lines.specs.Expected.{expected_text, line_error_text};
ghost use Rattle.lines.specs.declared.calls.LineError.TheVariants.{NotACall, Memory};

use std::alloc::AllocError;
use std::error::Error;
use std::fmt;

/// A call of a rule book.
#[derive(Debug, PartialEq, Eq, Drop)]
pub enum Call {
    Declare { size: u16 },
    Lay { code: Vec<u8> },
    /// Write out a rule into a buffer with room for so many bytes.
    Write { rule: u16, room: u16 },
    Judge { row: Vec<u16> },
}

/// What should have stood on a line: any call, or the operands of the call that it names.
#[derive(Clone, Copy, Debug, PartialEq, Eq, Hash)]
pub enum Expected {
    Call,
    Declare,
    Lay,
    Write,
    Judge,
}

impl Expected {
    /// The same in words.
    // `Display` writes them too; this gives them to those who write no text.
    pub fn text(self) -> &'static str
        ensures text { result.now ≡ expected_text self }
    {
        match self {
            Expected::Call => "expected declare, lay, write or judge",
            Expected::Declare => "expected declare SIZE, a number up to 65535",
            Expected::Lay => "expected lay BYTE BYTE .., each of two hexadecimal digits",
            Expected::Write => "expected write RULE or write RULE ROOM, numbers up to 65535",
            Expected::Judge => "expected judge CHOICE CHOICE .., numbers up to 65535",
        }
    }
}

impl fmt::Display for Expected {
    ghost output = { λ e. Some (expected_text e) };

    fn fmt<W: fmt::Write>(&self, f: &mut fmt::Formatter<W>) -> fmt::Result {
        f.write_str(self.text())
    }
}

/// Why a line was not read into a call.
#[derive(Clone, Copy, Debug, PartialEq, Eq)]
pub enum LineError {
    NotACall(Expected),
    Memory(AllocError),
}

impl fmt::Display for LineError {
    ghost output = { λ e. Some (line_error_text e) };

    fn fmt<W: fmt::Write>(&self, f: &mut fmt::Formatter<W>) -> fmt::Result {
        match self {
            LineError::NotACall(expected) => write!(f, "{expected}"),
            // `AllocError` prints this too, but states no text.
            LineError::Memory(_) => f.write_str("memory allocation failed"),
        }
    }
}

impl Error for LineError {}

impl From<Expected> for LineError {
    ghost from_gives = { λ expected e. e ≡ NotACall expected };

    fn from(expected: Expected) -> LineError {
        Self::NotACall(expected)
    }
}

impl From<AllocError> for LineError {
    ghost from_gives = { λ error e. e ≡ Memory error };

    fn from(error: AllocError) -> LineError {
        Self::Memory(error)
    }
}
