//! The words of a line, and the line with single spaces between them.
ghost use Rattle.std.specs.Prelude.{◌≡◌, IfOk, string_bytes};
ghost use Rattle.lines.specs.Words.{texts, words_of, spaced};

use std::alloc::{AllocError, Global};

/// The line's words.
pub(crate) fn split_words<'a>(alloc: Global, line: &'a str) -> Result<Vec<&'a str>, AllocError>
    ensures words { IfOk result (λ v. texts v.items ≡ words_of line.now) }
{
    line.split(' ')
        .filter(|piece| !piece.is_empty())
        .collect(alloc)
}

/// The line's words with single spaces between them.
pub fn echo(alloc: Global, line: &str) -> Result<String, AllocError>
    ensures words { IfOk result (λ s. string_bytes s ≡ spaced (words_of line.now)) }
{
    split_words(alloc, line)?.as_slice().join(alloc, " ")
}
