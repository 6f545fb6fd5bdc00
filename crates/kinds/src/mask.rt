//! Sets of the choices 0 to 63.
#![tactic(auto, using(crate::proofs::Bits::bits_64))]

ghost use Rattle.std.specs.Prelude.{◌≡◌, ℕ, ◌&&◌, nat_lt};
ghost use Rattle.kinds.specs.Masks.{marks};
ghost use Rattle.std.proofs.Common.{rules};

use crate::set_kind::SetKind;

/// How many choices a mask has: one for each of its bits.
pub(crate) const MASK_CHOICES: u16 = 64;

/// A set whose members are the places of the bits that are 1. The lowest bit has the place 0.
#[derive(Clone, Copy, Debug, PartialEq, Eq, Hash)]
pub struct Mask {
    bits: u64,
}

impl Mask {
    /// The choices below `end`.
    fn below(end: u32) -> Mask
        ensures members { (v : ℕ) → marks result v ≡ (nat_lt v end && nat_lt v 64) }
    {
        // The other choices' bits, and then all but these.
        Mask {
            bits: !u64::MAX.unbounded_shl(end),
        }
    }
}

impl SetKind for Mask {
    ghost member = { marks };

    ghost limit = { 64 };

    ghost room = { Prim.search rules };

    ghost bound = { Prim.search rules };

    ghost within = { Prim.search rules };

    fn capacity() -> u32 {
        u32::from(MASK_CHOICES)
    }

    fn range(lo: u16, hi: u16) -> Mask {
        let below_lo = Mask::below(u32::from(lo));
        Mask::below(u32::from(hi) + 1).difference(below_lo)
    }

    fn meet(self, other: Mask) -> Mask {
        Mask {
            bits: self.bits & other.bits,
        }
    }

    fn difference(self, other: Mask) -> Mask {
        Mask {
            bits: self.bits & !other.bits,
        }
    }

    fn least(self) -> Option<u16> {
        (self.bits != 0).then(|| self.bits.trailing_zeros() as u16)
    }
}
