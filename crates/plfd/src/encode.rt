//! The command of a node, byte for byte.
ghost use Rattle.std.specs.Prelude.{◌≡◌, ℕ, ◌≤◌, List, [], ◌∷◌, length, take};
ghost use Rattle.plfd.specs.Code.{command, connective_byte};

use crate::nodes::{Atom, Connective, Node};
use std::marker::Model;

/// The bytes of one command. A contract sees them as a list: the first `count` of six, since a command has at most
/// five operands.
// They lie in an array, since there is no heap here; an `ArrayVec` is filled from a slice with an error to handle.
#[derive(Drop)]
pub struct Encoded {
    bytes: [u8; 6],
    count: usize,
}

impl Model for Encoded {
    ghost Value = { List ℕ };

    ghost view = { λ command. take command.count command.bytes };

    ghost invariant = { λ command. command.count ≤ 6 };
}

impl Encoded {
    /// A command without operands.
    fn single(byte: u8) -> Encoded
        ensures value { result ≡ byte ∷ [] }
    {
        Encoded {
            bytes: [byte, 0, 0, 0, 0, 0],
            count: 1,
        }
    }

    /// The command's bytes and no more.
    pub fn as_slice(&self) -> &[u8]
        ensures value { result.now ≡ self.now }
        ensures few { length result.now ≤ 6 }
    {
        &self.bytes[..self.count]
    }
}

impl Connective {
    /// Its command byte.
    fn byte(self) -> u8
        ensures value { result ≡ connective_byte self }
    {
        self as u8
    }
}

impl Node {
    /// Its command, operands and all.
    pub fn encode(self) -> Encoded
        ensures value { result ≡ command self }
    {
        match self {
            Node::Constant(true) => Encoded::single(0x01),
            Node::Constant(false) => Encoded::single(0x02),
            Node::Atomic(Atom::Is { setting, choice }) => {
                let [high, low] = choice.to_be_bytes();
                Encoded {
                    bytes: [0x03, setting, high, low, 0, 0],
                    count: 4,
                }
            }
            Node::Atomic(Atom::Range { setting, lo, hi }) => {
                let [lo_high, lo_low] = lo.to_be_bytes();
                let [hi_high, hi_low] = hi.to_be_bytes();
                Encoded {
                    bytes: [0x04, setting, lo_high, lo_low, hi_high, hi_low],
                    count: 6,
                }
            }
            Node::Not => Encoded::single(0x05),
            Node::Join(connective) => Encoded::single(connective.byte()),
        }
    }
}
