//! What can be wrong with a rule code, and where.
ghost use Rattle.std.specs.Prelude.{◌≡◌, Some};
ghost use Rattle.plfd.specs.Faults.{fault_number};
ghost use Rattle.plfd.specs.Words.{fault_words};

use std::error::Error;
use std::fmt;

/// A fault of a rule code; each has a number of its own.
#[derive(Clone, Copy, Debug, PartialEq, Eq, Hash)]
pub enum CodeFault {
    Empty = 4,
    UnknownCommand = 5,
    CutShort = 6,
    UndeclaredSetting = 7,
    NoSuchChoice = 8,
    TooFewFormulas = 9,
    TooManyFormulas = 10,
    NodesFull = 11,
}

/// A fault with the offset of the command that has it.
#[derive(Clone, Copy, Debug, PartialEq, Eq, Hash)]
pub struct CodeRefusal {
    pub fault: CodeFault,
    pub offset: usize,
}

impl CodeFault {
    /// The number by which a refusal tells it.
    pub fn number(self) -> u8
        ensures value { result ≡ fault_number self }
    {
        self as u8
    }

    /// The fault with the offset of the command that has it.
    pub fn at(self, offset: usize) -> CodeRefusal
        ensures fault { result.fault ≡ self }
        ensures offset { result.offset ≡ offset }
    {
        CodeRefusal {
            fault: self,
            offset,
        }
    }
}

impl fmt::Display for CodeFault {
    ghost output = { λ fault. Some (fault_words fault) };

    fn fmt<W: fmt::Write>(&self, f: &mut fmt::Formatter<W>) -> fmt::Result {
        f.write_str(match self {
            CodeFault::Empty => "the code is empty",
            CodeFault::UnknownCommand => "unknown command",
            CodeFault::CutShort => "the command is cut short",
            CodeFault::UndeclaredSetting => "the setting is not declared",
            CodeFault::NoSuchChoice =>
                "the setting has no such choice, or the range runs backwards",
            CodeFault::TooFewFormulas => "the command takes more formulas than there are",
            CodeFault::TooManyFormulas => "more than one formula is left at the end",
            CodeFault::NodesFull => "1,024 nodes are in use already",
        })
    }
}

impl Error for CodeFault {}
