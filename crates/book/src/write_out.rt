//! The writing out of a rule: its code, the same bytes as laid.
ghost use Rattle.std.specs.Prelude.{◌≡◌, ◌+◌, ◌<◌, ◌≤◌, ◌++◌, length, take, drop};
ghost use Rattle.promises.specs.Refusals.{told};
ghost use Rattle.promises.specs.Writing.{WriteOutGives};
ghost use Rattle.book.specs.Places.{commands, nodes_of_rule};
ghost use Rattle.book.specs.View.{page_of};

use crate::book::{Book, MAX_NODES};
use crate::nodes::Placed;
use promises::refusals::Refusal;

/// Copies the bytes into the buffer, from the place `at` on, and gives the place behind them.
fn copy(bytes: &[u8], buffer: &mut [u8], at: usize) -> usize
    requires room { at + length bytes.now ≤ length buffer.old }
    ensures value { result ≡ at + length bytes.now }
    ensures buffer { buffer.new ≡ take at buffer.old ++ (bytes.now ++ drop (at + length bytes.now) buffer.old) }
{
    let end = at + bytes.len();
    buffer[at..end].copy_from_slice(bytes);
    end
}

/// How many bytes the commands of the nodes have.
fn code_length(nodes: &[Placed]) -> usize
    requires few { length nodes.now ≤ MAX_NODES }
    ensures value { result ≡ length (commands nodes.now) }
{
    nodes.iter().map(|placed| 1 + placed.node.operands()).sum()
}

/// Writes the commands of the nodes to the buffer's start, and gives their length.
fn write(nodes: &[Placed], buffer: &mut [u8]) -> usize
    requires room { length (commands nodes.now) ≤ length buffer.old }
    ensures value { result ≡ length (commands nodes.now) }
    ensures buffer { buffer.new ≡ commands nodes.now ++ drop (length (commands nodes.now)) buffer.old }
{
    let mut at = 0;
    for placed in nodes {
        let command = placed.node.encode();
        at = copy(command.as_slice(), buffer, at);
    }
    at
}

impl Book {
    /// The nodes of a standing rule.
    fn nodes_of_rule(&self, rule: usize) -> &[Placed]
        requires stands { rule < length self.now.ends }
        ensures value { result.now ≡ nodes_of_rule self.now.nodes.placed self.now.ends rule }
        ensures few { length result.now ≤ MAX_NODES }
    {
        let ends = self.ends.as_slice();
        let start = if rule == 0 {
            0
        } else {
            usize::from(ends[rule - 1])
        };
        &self.nodes.placed.as_slice()[start..usize::from(ends[rule])]
    }

    /// Copies the rule's code, the same bytes as laid, to the buffer's start, and gives its length.
    pub fn write_out(&self, rule: u16, buffer: &mut [u8]) -> Result<usize, Refusal>
        ensures gives { WriteOutGives (page_of self.now) rule buffer.old (told result) buffer.new }
    {
        let rule = usize::from(rule);
        if rule >= self.ends.len() {
            return Err(Refusal::NoSuchRule);
        }
        let nodes = self.nodes_of_rule(rule);
        if buffer.len() < code_length(nodes) {
            return Err(Refusal::BufferTooShort);
        }
        Ok(write(nodes, buffer))
    }
}
