//! The operands of a call: bytes in hexadecimal, and decimal numbers.
ghost use Rattle.std.specs.Prelude.{◌≡◌, ℕ, List, IfOk, IfErr, Some, vec_items, Option};
ghost use Rattle.lines.specs.Calls.{FailsWith};
ghost use Rattle.lines.specs.Operands.{byte_of, number_of, each_of};
ghost use Rattle.lines.specs.Words.{texts};

use crate::calls::{Expected, LineError};
use std::alloc::Global;

/// What a single word can be read as.
pub(crate) trait Operand {
    ghost reads: { List ℕ → Option Self };

    fn read(word: &str) -> Option<Self>
        ensures value { result ≡ reads word.now };
}

/// Two hexadecimal digits.
impl Operand for u8 {
    ghost reads = { byte_of };

    fn read(word: &str) -> Option<u8> {
        let [high, low] = word.as_bytes() else {
            return None;
        };
        let high = char::from(*high).to_digit(16)?;
        let low = char::from(*low).to_digit(16)?;
        Some((16 * high + low) as u8)
    }
}

/// One or more decimal digits, and no sign.
impl Operand for u16 {
    ghost reads = { number_of };

    fn read(word: &str) -> Option<u16> {
        if word.starts_with('+') {
            return None;
        }
        word.parse().ok()
    }
}

/// All words read as operands, or what was expected where one cannot be.
pub(crate) fn read_each<T: Operand + Drop>(
    alloc: Global,
    words: &[&str],
    expected: Expected,
) -> Result<Vec<T>, LineError>
    ensures values { IfOk result (λ v. each_of T.Operand.reads (texts words.now) ≡ Some (vec_items v)) }
    ensures fails { IfErr result (λ e. FailsWith expected (each_of T.Operand.reads (texts words.now)) e) }
{
    words
        .iter()
        .map(|word| T::read(word).ok_or(LineError::NotACall(expected)))
        .try_collect(alloc)
}
