//! The answers of a book's calls.
ghost use Rattle.std.specs.Prelude.{Some};
ghost use Rattle.std.specs.Fmt.{WritesOnOk};
ghost use Rattle.script.specs.Saying.{code_said, answer_said};

use crate::digits::{PIECE, spell};
use std::fmt;

/// What a call of a book gave that was not refused.
#[derive(Debug, PartialEq, Eq, Drop)]
pub enum Answer {
    /// The number of the setting that was declared.
    Setting(u8),
    /// The number of the rule that was laid.
    Rule(u16),
    /// The code that was written out.
    Code(Vec<u8>),
    Verdict(bool),
}

/// Writes the code's bytes, each behind a space in two hexadecimal digits.
// A piece of the code at a time: a `write!` for each byte takes four times as long.
fn write_code<W: fmt::Write>(f: &mut fmt::Formatter<W>, code: &[u8]) -> fmt::Result
    ensures writes { WritesOnOk W.write_str_gives f.old result (code_said code.now) f.new }
{
    f.write_str("code")?;
    let mut words = [[0; 3]; PIECE];
    for piece in code.chunks(PIECE) {
        f.write_str(spell(piece, &mut words))?;
    }
    Ok(())
}

impl fmt::Display for Answer {
    ghost output = { λ answer. Some (answer_said answer) };

    fn fmt<W: fmt::Write>(&self, f: &mut fmt::Formatter<W>) -> fmt::Result {
        match self {
            Answer::Setting(number) => write!(f, "setting {number}"),
            Answer::Rule(number) => write!(f, "rule {number}"),
            Answer::Code(code) => write_code(f, code.as_slice()),
            Answer::Verdict(true) => f.write_str("yes"),
            Answer::Verdict(false) => f.write_str("no"),
        }
    }
}
