//! The judging of a row of choices.
ghost use Rattle.std.specs.Prelude.{◌≡◌, ◌<◌, ◌≤◌, length};
ghost use Rattle.plfd.specs.Formula.{truth};
ghost use Rattle.promises.specs.Judging.{chosen, all_true, JudgeGives};
ghost use Rattle.promises.specs.Refusals.{told};
ghost use Rattle.book.specs.Places.{formula_at};
ghost use Rattle.book.specs.Searching.{FindsLowest};
ghost use Rattle.book.specs.View.{rules_of, page_of};

use crate::book::Book;
use plfd::nodes::Node;
use promises::refusals::Refusal;

/// A book and a row that has a choice for each of its settings.
#[derive(Drop)]
struct Judgement<'a> {
    book: &'a Book,
    row: &'a [u16],
    ghost long: { length book.now.settings ≤ length row.now },
}

impl Judgement<'_> {
    /// The lowest setting whose choice in the row is none of its choices.
    fn outside(&self) -> Option<usize>
        ensures finds { FindsLowest self.now.book.now.settings (chosen self.now.row.now) result }
    {
        let settings = self.book.settings.as_slice();
        // Both lists end together, so that each turn tests one end.
        settings
            .iter()
            .zip(&self.row[..settings.len()])
            .position(|(setting, choice)| !setting.has(*choice))
    }

    /// The truth of the formula whose last node is at `place`, from the truth of its sides.
    fn truth_at(&self, place: usize) -> bool
        requires within { place < length self.now.book.now.nodes.placed }
        ensures value { result ≡ truth (chosen self.now.row.now) (formula_at self.now.book.now.nodes.placed place) }
    {
        let nodes = &self.book.nodes;
        match nodes.placed.as_slice()[place].node {
            Node::Constant(value) => value,
            Node::Atomic(atom) => atom.covers(self.row[usize::from(atom.setting())]),
            Node::Not => !self.truth_at(place - 1),
            Node::Join(connective) => {
                let left = self.truth_at(nodes.left_of(place));
                connective.joins(left, self.truth_at(place - 1))
            }
        }
    }

    /// Whether every standing rule is true in the row.
    fn all_true(&self) -> bool
        ensures value { result ≡ all_true (chosen self.now.row.now) (rules_of self.now.book.now.nodes.placed) }
    {
        let ends = self.book.ends.as_slice();
        ends.iter().all(|end| self.truth_at(usize::from(*end) - 1))
    }
}

impl Book {
    /// Says whether the row, one choice a setting, keeps every standing rule.
    pub fn judge(&self, row: &[u16]) -> Result<bool, Refusal>
        ensures gives { JudgeGives (page_of self.now) row.now (told result) }
    {
        if row.len() < self.settings.len() {
            return Err(Refusal::RowTooShort);
        }
        let judgement = Judgement { book: self, row };
        if let Some(setting) = judgement.outside() {
            return Err(Refusal::NotAChoice(setting as u8));
        }
        Ok(judgement.all_true())
    }
}
