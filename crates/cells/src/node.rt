// What tells a cell from the others.
ghost use Rattle.std.specs.Prelude.{◌≡◌, ◌+◌, ◌*◌, ◌≤◌, length};
ghost use Rattle.cells.specs.Words.{chain_of, written};
ghost use Rattle.cells.specs.Nodes.{cell_of};

use super::layout::{CHAINS, HIGH, LOW, NO_SWITCH, place};

// A cell: a switch, and the numbers of the cells for it off and on.
#[derive(Clone, Copy, PartialEq, Eq)]
pub struct Node {
    pub switch: u32,
    pub low: u32,
    pub high: u32,
}

impl Node {
    // A cell that asks no switch: both its sides are itself.
    pub(crate) fn leaf(cell: u32) -> Self
        ensures { cell_of result ≡ (32, cell, cell) }
    {
        Node {
            switch: NO_SWITCH,
            low: cell,
            high: cell,
        }
    }

    // Writes the cell to the place of a number.
    pub(crate) fn write(self, words: &mut [u32], cell: u32)
        requires { 1090 + 4 * cell + 4 ≤ length words.old }
        ensures { words.new ≡ written words.old cell (cell_of self) }
    {
        let place = place(cell);
        words[place] = self.switch;
        words[place + LOW] = self.low;
        words[place + HIGH] = self.high;
    }

    // The chain of the cell.
    pub(crate) fn chain(self) -> usize
        ensures { result ≡ chain_of (cell_of self) }
    {
        (self.switch as usize + 3 * self.low as usize + 5 * self.high as usize) % CHAINS
    }
}
