//! Sets of the choices 0 to 65,535.
ghost use Rattle.std.specs.Prelude.{◌≡◌, ℕ, ◌+◌, ◌*◌, ◌<◌, ◌&&◌, nat_lt};
ghost use Rattle.kinds.specs.Sets.{most, between};
ghost use Rattle.kinds.specs.Masks.{marks};
ghost use Rattle.kinds.specs.Wides.{word, spans};
ghost use Rattle.std.proofs.Common.{rules};

use crate::mask::{MASK_CHOICES, Mask};
use crate::set_kind::{MOST_CHOICES, SetKind, range_behind};
use std::array;

/// How many masks hold a bit for each 16-bit number.
const WORDS: usize = 1024;

/// A set held in 8 KiB: the first mask has the choices 0 to 63, the next those from 64 on, and so forth.
#[derive(Clone, Copy, Debug, PartialEq, Eq, Hash)]
pub struct Wide {
    words: [Mask; WORDS],
}

/// The least choice that is held in the word `i`.
fn first_choice(i: usize) -> u16
    requires { i < WORDS }
    ensures { result ≡ i * 64 }
{
    i as u16 * MASK_CHOICES
}

impl Wide {
    /// What `f` makes of each word and the word of `other` at its place.
    fn zip_with<F: Fn(Mask, Mask) -> Mask>(&self, other: &Wide, f: F) -> Wide
        requires { F.IsAlwaysCallable f }
        ensures words { (i : ℕ) → i < WORDS → F.post f (word self.now i) (word other.now i) (word result i) }
    {
        // In place: an array that `from_fn` makes takes 1.4 times as long.
        let mut words = self.words;
        for (i, word) in words.iter_mut().enumerate() {
            *word = f(*word, other.words[i]);
        }
        Wide { words }
    }
}

impl SetKind for Wide {
    ghost member = { spans };

    ghost limit = { most };

    ghost room = { Prim.search rules };

    ghost bound = { Prim.search rules };

    ghost within = { Prim.search rules };

    fn capacity() -> u32 {
        MOST_CHOICES
    }

    fn range(lo: u16, hi: u16) -> Wide {
        // The part that falls to the word `i`; the clauses that are inferred would say less.
        let part = |i: usize|
            requires { i < WORDS }
            ensures members { (u : ℕ) → marks result u ≡ (between lo hi (i * 64 + u) && nat_lt u 64) }
        { range_behind(u32::from(first_choice(i)), lo, hi) };
        Wide {
            words: array::from_fn(part),
        }
    }

    fn meet(self, other: Wide) -> Wide {
        self.zip_with(&other, Mask::meet)
    }

    fn difference(self, other: Wide) -> Wide {
        self.zip_with(&other, Mask::difference)
    }

    fn least(self) -> Option<u16> {
        self.words
            .iter()
            .enumerate()
            .find_map(|(i, word)| Some(first_choice(i) + word.least()?))
    }
}
