//! The laws of the walk, the closed tableau and the examination. Each function's contract is one law, over any page.
ghost use Rattle.tableau.specs.Laws.{WalkDecides, WalkKeepsItsAllowance, WalkEndsWhereItSays, NoneIsClosed, ClosedIsSound, ExaminationIsExact, SameRulesWalkAlike, WalkStaysWithinLimits, TapeStaysShort};
ghost use Rattle.tableau.specs.Worked.{WorkedPagesComeOut};

/// A walk that is not spent answers none exactly where no assignment keeps every rule. What it finds has a member in each
/// setting's set, and every pick of one member from each is an assignment that keeps them all.
pub fn walk_decides()
    ensures law { WalkDecides }
{}

/// The steps of a walk never pass its allowance, and it is spent only with all of it. For w nodes, 2^w - 1 steps are enough.
pub fn walk_keeps_its_allowance()
    ensures law { WalkKeepsItsAllowance }
{}

/// A walk ends where its outcome says: found past the last entry with the sets there, none with no branch left, spent with
/// another step due.
pub fn walk_ends_where_it_says()
    ensures law { WalkEndsWhereItSays }
{}

/// The tape of a none is a closed tableau, and each of its numbers is a byte.
pub fn tape_of_a_none_is_a_closed_tableau()
    ensures law { NoneIsClosed }
{}

/// Where bytes are a closed tableau, whoever wrote them, no assignment keeps every rule.
pub fn closed_tableau_leaves_no_assignment()
    ensures law { ClosedIsSound }
{}

/// Bytes are accepted exactly where they are a closed tableau, with the number of its commands.
pub fn examination_accepts_exactly_the_closed_tableaux()
    ensures law { ExaminationIsExact }
{}

/// Two pages with equal codes in the same order, on which the settings that they name were declared alike, walk alike:
/// the same outcome, steps and tape, and the same sets of those settings, whatever else they declare.
pub fn same_rules_walk_alike()
    ensures law { SameRulesWalkAlike }
{}

/// Wherever a walk over a page within a book's limits has come, a branch has at most 1,024 entries and 1,024 narrowings,
/// and at most 1,024 splits wait. With at most 2^60 steps allowed, its tape is shorter than 2^63 bytes.
pub fn walk_stays_within_limits()
    ensures places { WalkStaysWithinLimits }
    ensures length { TapeStaysShort }
{}

/// Each page of the table of worked pages comes out as listed there.
pub fn worked_pages_come_out_as_listed()
    ensures law { WorkedPagesComeOut }
{}
