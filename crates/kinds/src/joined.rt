//! Two kinds as one.
ghost use Rattle.kinds.specs.Joins.{joined, joined_limit};
ghost use Rattle.std.proofs.Common.{rules};

use crate::set_kind::{MOST_CHOICES, SetKind, range_behind};

/// A set of each of two kinds. The choices of `A` come first, and those of `B` are counted on from there.
/// A choice of `B` that would then be no 16-bit number is no choice of the join: `second` may have it, but it is no member.
// No `PartialEq`: sets of one membership may differ in what `second` has past the choices of the join.
#[derive(Clone, Copy, Debug)]
pub struct Joined<A, B> {
    first: A,
    second: B,
}

impl<A: SetKind, B: SetKind> SetKind for Joined<A, B> {
    ghost member = { λ s. joined A.SetKind.limit (A.SetKind.member s.first) (B.SetKind.member s.second) };

    ghost limit = { joined_limit A.SetKind.limit B.SetKind.limit };

    ghost room = { Prim.search rules };

    ghost bound = { Prim.search rules };

    ghost within = { Prim.search rules };

    fn capacity() -> u32 {
        (A::capacity() + B::capacity()).min(MOST_CHOICES)
    }

    fn range(lo: u16, hi: u16) -> Joined<A, B> {
        Joined {
            first: A::range(lo, hi),
            second: range_behind(A::capacity(), lo, hi),
        }
    }

    // `meet` and `difference` go by halves of two types: one function for both would take two closures, and be no plainer.
    fn meet(self, other: Joined<A, B>) -> Joined<A, B> {
        Joined {
            first: self.first.meet(other.first),
            second: self.second.meet(other.second),
        }
    }

    fn difference(self, other: Joined<A, B>) -> Joined<A, B> {
        Joined {
            first: self.first.difference(other.first),
            second: self.second.difference(other.second),
        }
    }

    fn least(self) -> Option<u16> {
        // No `or_else`: over two kinds the proof does not see into its closure.
        if let Some(choice) = self.first.least() {
            return Some(choice);
        }
        let behind = self.second.least()?;
        // A choice past the cap is no member, and if the least of the second half is one, so are all of them.
        u16::try_from(A::capacity() + u32::from(behind)).ok()
    }
}
