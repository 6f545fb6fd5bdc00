//! The nodes of formulas, in postfix order.
ghost use Rattle.std.specs.Prelude.{◌≡◌, ◌+◌, ◌<◌, ◌≤◌, [], ◌∷◌, ◌++◌, length, take};
ghost use Rattle.plfd.specs.Formula.{nodes};
ghost use Rattle.plfd.specs.Code.{arity, top, below};
ghost use Rattle.book.specs.declared.book.TheConstants.{MAX_NODES};
ghost use Rattle.book.specs.Places.{stack, formula_at, made, made_nodes, record_of, Spans, Supplied};

use crate::book::MAX_NODES;
use crate::table::Table;
use plfd::nodes::Node;

/// A node at its place in postfix order; `span` counts the nodes of the formula that ends here.
#[derive(Clone, Copy, Debug, PartialEq, Eq)]
pub struct Placed {
    pub(crate) node: Node,
    pub(crate) span: u16,
}

/// Nodes of formulas, one formula behind the other: each node finds the sides that it takes before it.
// Places and no boxes: memory is fixed, and postfix order is that of the codes.
#[derive(Drop)]
pub struct Nodes {
    pub(crate) placed: Table<Placed, MAX_NODES>,
    ghost few: { length placed ≤ MAX_NODES },
    ghost spans: { Spans placed },
    ghost supplied: { Supplied placed },
}

impl Nodes {
    /// No nodes.
    pub(crate) fn new() -> Nodes
        ensures placed { result.placed ≡ [] }
    {
        let unseen = Placed {
            node: Node::Constant(false),
            span: 0,
        };
        Nodes {
            placed: Table::new(unseen),
        }
    }

    /// The last node of the left side, of two sides that end before the place `end`. The right side's nodes lie between.
    pub(crate) fn left_of(&self, end: usize) -> usize
        requires within { end ≤ length self.now.placed }
        requires sides { 2 ≤ length (stack self.now.placed end) }
        ensures place { result + 1 + nodes (top (stack self.now.placed end)) ≡ end }
        ensures before { result + 1 < end }
        ensures formula { formula_at self.now.placed result ≡ top (below (stack self.now.placed end)) }
    {
        let right = end - 1;
        right - usize::from(self.placed.as_slice()[right].span)
    }

    /// How many nodes the formula has that the node makes of the formulas before it.
    fn span_of(&self, node: Node) -> u16
        requires enough { arity node ≤ length (made self.now.placed) }
        ensures value { result ≡ made_nodes self.now.placed node }
    {
        let placed = self.placed.as_slice();
        let end = placed.len();
        match node {
            Node::Constant(_) | Node::Atomic(_) => 1,
            Node::Not => placed[end - 1].span + 1,
            Node::Join(_) => placed[self.left_of(end)].span + placed[end - 1].span + 1,
        }
    }

    /// One node more, upon the formulas before it.
    pub(crate) fn push(&mut self, node: Node)
        requires enough { arity node ≤ length (made self.old.placed) }
        requires room { length self.old.placed < MAX_NODES }
        ensures placed { self.new.placed ≡ self.old.placed ++ record_of self.old.placed node ∷ [] }
    {
        let span = self.span_of(node);
        self.placed.push(Placed { node, span });
    }

    /// Drops all nodes but the first `count`.
    pub(crate) fn truncate(&mut self, count: usize)
        ensures placed { self.new.placed ≡ take count self.old.placed }
    {
        self.placed.truncate(count);
    }
}
