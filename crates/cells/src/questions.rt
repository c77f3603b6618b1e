// The cells of a store, as they are read, and questions about their sets.
ghost use Rattle.cells.specs.Words.{WellFormed};

use super::layout::{ALL, EMPTY, HEADS, HIGH, LOW, NEXT, place};
use super::node::Node;
use stores::in_words::FLOOR;

// The words of a store, to be read. That a cell's number is one of them is a clause of each method: no type ties a number to the words.
#[derive(Clone, Copy)]
pub struct Cells<'a> {
    pub words: &'a [u32],
    pub ghost formed: { WellFormed words.now },
}

impl Cells<'_> {
    ghost use Rattle.std.specs.Prelude.{◌≡◌, ◌<◌};
    ghost use Rattle.cells.specs.Cells.{seek, mean};
    ghost use Rattle.cells.specs.Words.{switches, count, cell_at, next_at, cells_of, LowestOf};
    ghost use Rattle.cells.specs.Nodes.{cell_of};

    // The cell of a number.
    pub fn node(&self, cell: u32) -> Node
        requires { cell < count self.now.words.now }
        ensures { cell_of result ≡ cell_at self.now.words.now cell }
    {
        let place = place(cell);
        Node {
            switch: self.words[place],
            low: self.words[place + LOW],
            high: self.words[place + HIGH],
        }
    }

    // The cell after one on its chain, or 0, which ends a chain in the words.
    pub(crate) fn next(&self, cell: u32) -> u32
        requires { cell < count self.now.words.now }
        ensures { result ≡ next_at self.now.words.now cell }
    {
        self.words[place(cell) + NEXT]
    }

    // The number of a cell, if it is held. Numbers fall along a chain, and a cell's is above its sides', so that the search can end there.
    pub(crate) fn seek(&self, x: Node) -> Option<u32>
        requires { x.switch < switches self.now.words.now }
        ensures { result ≡ seek (cells_of self.now.words.now) (cell_of x) (count self.now.words.now) }
    {
        let mut cell = self.words[HEADS + x.chain()];
        while cell > x.low.max(x.high) {
            if self.node(cell) == x {
                return Some(cell);
            }
            cell = self.next(cell);
        }
        None
    }

    // Whether a configuration is in the set of a cell.
    pub fn holds(&self, cell: u32, k: u32) -> bool
        requires { cell < count self.now.words.now }
        ensures { result ≡ mean (cells_of self.now.words.now) cell k }
    {
        let mut at = cell;
        while at >= FLOOR {
            let node = self.node(at);
            at = if (k >> node.switch) % 2 == 1 {
                node.high
            } else {
                node.low
            };
        }
        at == ALL
    }

    // The lowest configuration of the set of a cell: low sides first, since only cell 0 means the empty set.
    pub fn lowest(&self, cell: u32) -> Option<u32>
        requires { cell < count self.now.words.now }
        ensures { LowestOf self.now.words.now cell result }
    {
        if cell == EMPTY {
            return None;
        }
        let mut at = cell;
        let mut k = 0u32;
        while at >= FLOOR {
            let node = self.node(at);
            if node.low != EMPTY {
                at = node.low;
            } else {
                k += 1u32 << node.switch;
                at = node.high;
            }
        }
        Some(k)
    }
}
