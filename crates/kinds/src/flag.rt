//! Sets of the choices 0 and 1.
ghost use Rattle.kinds.specs.Flags.{has};
ghost use Rattle.std.proofs.Common.{rules};

use crate::set_kind::SetKind;

/// The four sets of two choices.
#[derive(Clone, Copy, Debug, PartialEq, Eq, Hash)]
pub enum Flag {
    Neither,
    Zero,
    One,
    Both,
}

impl SetKind for Flag {
    ghost member = { has };

    ghost limit = { 2 };

    ghost room = { Prim.search rules };

    ghost bound = { Prim.search rules };

    ghost within = { Prim.search rules };

    fn capacity() -> u32 {
        2
    }

    fn range(lo: u16, hi: u16) -> Flag {
        match (lo, hi) {
            (0, 0) => Flag::Zero,
            (0, _) => Flag::Both,
            (1, 1..) => Flag::One,
            _ => Flag::Neither,
        }
    }

    fn meet(self, other: Flag) -> Flag {
        match (self, other) {
            (Flag::Both, set) | (set, Flag::Both) => set,
            (Flag::Zero, Flag::Zero) => Flag::Zero,
            (Flag::One, Flag::One) => Flag::One,
            _ => Flag::Neither,
        }
    }

    fn difference(self, other: Flag) -> Flag {
        match (self, other) {
            (set, Flag::Neither) => set,
            (Flag::Zero | Flag::Both, Flag::One) => Flag::Zero,
            (Flag::One | Flag::Both, Flag::Zero) => Flag::One,
            _ => Flag::Neither,
        }
    }

    fn least(self) -> Option<u16> {
        match self {
            Flag::Neither => None,
            Flag::Zero | Flag::Both => Some(0),
            Flag::One => Some(1),
        }
    }
}
