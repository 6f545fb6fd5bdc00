//! The laying of rules: a code is read into the nodes, behind those that stand.
ghost use Rattle.std.specs.Prelude.{◌≡◌, ◌+◌, ◌-◌, ◌≤◌, length};
ghost use Rattle.plfd.specs.Answers.{given, unless};
ghost use Rattle.plfd.specs.Code.{arity};
ghost use Rattle.plfd.specs.Faults.{told_code};
ghost use Rattle.plfd.specs.Reading.{stack_checks, end_checks, read};
ghost use Rattle.promises.specs.Laying.{LayGives, LayMeans};
ghost use Rattle.promises.specs.Refusals.{told};
ghost use Rattle.book.specs.Growing.{Added, Behind, Tried};
ghost use Rattle.book.specs.Places.{made, Fitting};
ghost use Rattle.book.specs.View.{page_of};

use crate::book::Book;
use crate::nodes::Nodes;
use plfd::faults::{CodeFault, CodeRefusal};
use plfd::nodes::Node;
use plfd::reader::Reader;
use plfd::settings::Setting;
use promises::refusals::Refusal;

/// Refuses a code that ends at this offset and made no formula, or more than one.
fn expect_one(formulas: usize, offset: usize) -> Result<(), CodeRefusal>
    ensures answer { told_code result ≡ unless (end_checks formulas offset) (given tt) }
{
    match formulas {
        0 => Err(CodeFault::Empty.at(offset)),
        1 => Ok(()),
        _ => Err(CodeFault::TooManyFormulas.at(offset)),
    }
}

impl Nodes {
    /// Adds the node of a command, where the commands before it made so many formulas, and gives how many there are then.
    // There are no more formulas than nodes, so their number fits.
    #[tactic(auto, using(crate::proofs::Stack::made_few))]
    fn add(&mut self, node: Node, formulas: usize, offset: usize) -> Result<usize, CodeRefusal>
        requires few { formulas ≤ length (made self.old.placed) }
        ensures answer { told_code result ≡ unless (stack_checks formulas (length self.old.placed) offset node) (given (formulas - arity node + 1)) }
        ensures placed { Added self.old.placed node result self.new.placed }
    {
        let below = formulas
            .checked_sub(node.arity())
            .ok_or(CodeFault::TooFewFormulas.at(offset))?;
        if self.placed.is_full() {
            return Err(CodeFault::NodesFull.at(offset));
        }
        self.push(node);
        Ok(below + 1)
    }

    /// Adds the nodes of a code, as far as it can be read. Which of them stand after a refusal is left open: `lay` drops them.
    fn read(&mut self, settings: &[Setting], code: &[u8]) -> Result<(), CodeRefusal>
        requires fitting { Fitting settings.now self.old.placed }
        ensures reads { Tried (read settings.now (length self.old.placed) code.now) settings.now self.old.placed self.new.placed (Behind self.old.placed self.new.placed) result }
    {
        let mut reader = Reader::new(code);
        let mut formulas = 0usize;
        // An iterator over commands would give an offset, a node and a refusal at once, and be no plainer.
        while reader.left() > 0 {
            let offset = reader.place();
            let node = reader.command(settings)?;
            formulas = self.add(node, formulas, offset)?;
        }
        expect_one(formulas, code.len())
    }

    /// Adds the nodes of a code, or none where it is refused.
    fn lay(&mut self, settings: &[Setting], code: &[u8]) -> Result<(), CodeRefusal>
        requires fitting { Fitting settings.now self.old.placed }
        ensures result { Tried (read settings.now (length self.old.placed) code.now) settings.now self.old.placed self.new.placed (self.new.placed ≡ self.old.placed) result }
    {
        let standing = self.placed.len();
        let read = self.read(settings, code);
        if read.is_err() {
            self.truncate(standing);
        }
        read
    }
}

impl Book {
    /// Lays the rule whose code this is, and gives its number, counted from 0 among the standing rules.
    pub fn lay(&mut self, code: &[u8]) -> Result<u16, Refusal>
        ensures gives { LayGives (page_of self.old) code.now (told result) (page_of self.new) }
        ensures means { LayMeans (page_of self.old) code.now (told result) (page_of self.new) }
    {
        let rule = self.ends.len();
        if self.ends.is_full() {
            return Err(Refusal::RulesFull);
        }
        self.nodes.lay(self.settings.as_slice(), code)?;
        self.ends.push(self.nodes.placed.len() as u16);
        Ok(rule as u16)
    }
}
