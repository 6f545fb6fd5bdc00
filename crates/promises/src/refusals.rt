//! Why a call is refused. A refused call changes nothing.
ghost use Rattle.std.specs.Prelude.{◌≡◌, Some};
ghost use Rattle.promises.specs.declared.refusals.Refusal.TheVariants.{RuleCode};
ghost use Rattle.promises.specs.Refusals.{reason_of, number_of, value_of};
ghost use Rattle.promises.specs.Words.{refusal_words};

use plfd::faults::CodeRefusal;
use std::error::Error;
use std::fmt;

/// A refusal has a number, and some name an offset or a setting.
#[derive(Clone, Copy, Debug, PartialEq, Eq, Hash)]
pub enum Refusal {
    SizeZero,
    SettingsFull,
    SuppositionOpen,
    /// The rule code has a fault, at an offset.
    RuleCode(CodeRefusal),
    RulesFull,
    RowTooShort,
    NoSuchRule,
    BufferTooShort,
    /// This setting's choice, the lowest such, is none of its choices.
    NotAChoice(u8),
}

impl Refusal {
    /// The number that tells it from all others.
    pub fn number(self) -> u8
        ensures value { result ≡ number_of (reason_of self) }
    {
        // Two refusals carry a value, so their enum has no discriminants to cast.
        match self {
            Refusal::SizeZero => 1,
            Refusal::SettingsFull => 2,
            Refusal::SuppositionOpen => 3,
            Refusal::RuleCode(refusal) => refusal.fault.number(),
            Refusal::RulesFull => 12,
            Refusal::RowTooShort => 17,
            Refusal::NoSuchRule => 20,
            Refusal::BufferTooShort => 21,
            Refusal::NotAChoice(_) => 22,
        }
    }

    /// The offset or the setting that it names, if it names one.
    pub fn value(self) -> Option<usize>
        ensures value { result ≡ value_of (reason_of self) }
    {
        match self {
            Refusal::RuleCode(refusal) => Some(refusal.offset),
            Refusal::RulesFull => Some(0),
            Refusal::NotAChoice(setting) => Some(usize::from(setting)),
            _ => None,
        }
    }
}

impl From<CodeRefusal> for Refusal {
    ghost from_gives = { λ code refusal. refusal ≡ RuleCode code };

    fn from(code: CodeRefusal) -> Refusal {
        Refusal::RuleCode(code)
    }
}

impl fmt::Display for Refusal {
    ghost output = { λ refusal. Some (refusal_words refusal) };

    fn fmt<W: fmt::Write>(&self, f: &mut fmt::Formatter<W>) -> fmt::Result {
        match self {
            Refusal::SizeZero => f.write_str("a setting needs at least one choice"),
            Refusal::SettingsFull => f.write_str("128 settings exist already"),
            Refusal::SuppositionOpen => f.write_str("a supposition is open"),
            Refusal::RuleCode(CodeRefusal { fault, .. }) => write!(f, "{fault}"),
            Refusal::RulesFull => f.write_str("256 rules stand already"),
            Refusal::RowTooShort => f.write_str("the row is shorter than the settings"),
            Refusal::NoSuchRule => f.write_str("there is no such rule"),
            Refusal::BufferTooShort => f.write_str("the buffer is too short"),
            Refusal::NotAChoice(_) => f.write_str("the setting has no such choice"),
        }
    }
}

impl Error for Refusal {}
