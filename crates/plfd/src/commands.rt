//! Reading one command of a rule code.
ghost use Rattle.std.specs.Prelude.{◌≡◌, ℕ, ◌+◌};
ghost use Rattle.plfd.specs.Answers.{given, unless};
ghost use Rattle.plfd.specs.Cursor.{ahead, passed};
ghost use Rattle.plfd.specs.Faults.{told_fault, told_code};
ghost use Rattle.plfd.specs.Formula.{choosable};
ghost use Rattle.plfd.specs.Reading.{decoded, setting_checks, commanded};

use crate::faults::{CodeFault, CodeRefusal};
use crate::nodes::{Atom, Connective, Node};
use crate::reader::Reader;
use crate::settings::Setting;

impl Setting {
    /// Whether it has the choices that the atom speaks of.
    fn offers(self, atom: Atom) -> bool
        ensures value { result ≡ choosable self atom }
    {
        match atom {
            Atom::Is { choice, .. } => self.has(choice),
            Atom::Range { lo, hi, .. } => lo <= hi && self.has(hi),
        }
    }
}

impl Node {
    /// The node of the command at the front of the bytes.
    fn decode(bytes: &[u8]) -> Result<Node, CodeFault>
        ensures value { (at : ℕ) → told_fault at result ≡ decoded at bytes.now }
    {
        // One table of all commands: a `TryFrom<u8>` for the connectives would only move four of its rows elsewhere.
        let node = match *bytes {
            [0x01, ..] => Node::Constant(true),
            [0x02, ..] => Node::Constant(false),
            [0x03, setting, high, low, ..] => Node::Atomic(Atom::Is {
                setting,
                choice: u16::from_be_bytes([high, low]),
            }),
            [0x04, setting, lo_high, lo_low, hi_high, hi_low, ..] => Node::Atomic(Atom::Range {
                setting,
                lo: u16::from_be_bytes([lo_high, lo_low]),
                hi: u16::from_be_bytes([hi_high, hi_low]),
            }),
            [0x05, ..] => Node::Not,
            [0x06, ..] => Node::Join(Connective::And),
            [0x07, ..] => Node::Join(Connective::Or),
            [0x08, ..] => Node::Join(Connective::Implies),
            [0x09, ..] => Node::Join(Connective::Iff),
            [] | [0x03 | 0x04, ..] => return Err(CodeFault::CutShort),
            [_, ..] => return Err(CodeFault::UnknownCommand),
        };
        Ok(node)
    }

    /// Refuses an atom over a setting that is not declared, or that lacks such a choice.
    fn check(self, settings: &[Setting]) -> Result<Node, CodeFault>
        ensures value { (at : ℕ) → told_fault at result ≡ unless (setting_checks settings.now at self) (given self) }
    {
        if let Node::Atomic(atom) = self {
            let setting = settings
                .get(usize::from(atom.setting()))
                .ok_or(CodeFault::UndeclaredSetting)?;
            if !setting.offers(atom) {
                return Err(CodeFault::NoSuchChoice);
            }
        }
        Ok(self)
    }
}

impl Reader<'_> {
    /// The node of the command ahead, if it is one over these settings.
    fn decode_over(&self, settings: &[Setting]) -> Result<Node, CodeFault>
        ensures answer { (at : ℕ) → told_fault at result ≡ commanded settings.now at (ahead self.now) }
    {
        Node::decode(self.ahead())?.check(settings)
    }

    /// The node of the command ahead, over declared settings. The reader moves behind the command, unless it is refused.
    // The settings are handed in: a reader that held them could read nothing but the codes of rules.
    pub fn command(&mut self, settings: &[Setting]) -> Result<Node, CodeRefusal>
        ensures answer { told_code result ≡ commanded settings.now self.old.place (ahead self.old) }
        ensures bytes { self.new.bytes.now ≡ self.old.bytes.now }
        ensures place { self.new.place ≡ self.old.place + passed result }
    {
        let node = self
            .decode_over(settings)
            .map_err(|fault| fault.at(self.place))?;
        self.place += 1 + node.operands();
        Ok(node)
    }
}
