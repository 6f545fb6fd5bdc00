//! What every kind of set does.
ghost use Rattle.std.specs.Prelude.{◌≡◌, ℕ, ◌+◌, ◌≤◌, Bool, false, not, ◌&&◌, nat_lt};
ghost use Rattle.kinds.specs.Sets.{most, between, Empty, Least};

/// The most choices that a kind can have: a choice is a 16-bit number.
pub(crate) const MOST_CHOICES: u32 = 65_536;

/// A kind of sets of choices. A set is known by its members alone: nothing here says how it is held.
/// No function refuses an operand, and none alters it.
pub trait SetKind: Copy {
    /// Whether a choice is a member of a set.
    ghost member: { Self → ℕ → Bool };

    /// The capacity.
    ghost limit: { ℕ };

    /// How many choices there are. They are the numbers below this one.
    fn capacity() -> u32
        ensures value { result ≡ limit };

    /// The choices from `lo` to `hi`, both included, so far as the kind has them: none where `lo` is above `hi`.
    // Two numbers, as an atom has them, which is `Copy`; a `RangeInclusive` is not.
    fn range(lo: u16, hi: u16) -> Self
        ensures members { (v : ℕ) → member result v ≡ (between lo hi v && nat_lt v limit) };

    /// The members of both.
    fn meet(self, other: Self) -> Self
        ensures members { (v : ℕ) → member result v ≡ (member self v && member other v) };

    /// The members that `other` lacks.
    fn difference(self, other: Self) -> Self
        ensures members { (v : ℕ) → member result v ≡ (member self v && not (member other v)) };

    /// The least member, or `None` where there is none.
    fn least(self) -> Option<u16>
        ensures finds { Least (member self) result };

    /// A kind has at least one choice.
    ghost room: { 1 ≤ limit };

    /// It has no more choices than there are 16-bit numbers.
    ghost bound: { limit ≤ most };

    /// No number from the capacity on is a member of any set.
    ghost within: { (s : Self) (v : ℕ) → limit ≤ v → member s v ≡ false };
}

/// The set without members.
pub(crate) fn empty<K: SetKind>() -> K
    ensures members { Empty (K.SetKind.member result) }
{
    K::range(1, 0)
}

/// The part of the range from `lo` to `hi` that falls to a kind whose choice v is the choice `start` + v of a larger one.
pub(crate) fn range_behind<K: SetKind>(start: u32, lo: u16, hi: u16) -> K
    ensures members { (v : ℕ) → K.SetKind.member result v ≡ (between lo hi (start + v) && nat_lt v K.SetKind.limit) }
{
    match u16::try_from(start) {
        Ok(start) if start <= hi => K::range(lo.saturating_sub(start), hi - start),
        // A kind that starts behind `hi` has no part of the range.
        _ => empty(),
    }
}
