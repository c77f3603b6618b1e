// Where things lie in the words: the number of switches, the number of cells, the chain heads, the working words, then the cells.
ghost use Rattle.std.specs.Prelude.{◌≡◌, ◌+◌, ◌*◌, ◌≤◌, length};
ghost use Rattle.cells.specs.Words.{capacity};

use stores::in_words::MAX_CAPACITY;

// The first of the chain heads.
pub const HEADS: usize = 2;

// How many chains there are.
pub const CHAINS: usize = 64;

// The first of the working words.
pub const WORKING: usize = 66;

// How many pairs of a key and an answer the working words hold.
pub const PAIRS: usize = 512;

// The first word of cell 0.
pub const CELLS: usize = 1_090;

// A cell is a switch, the low side, the high side and the next cell of its chain.
pub const CELL_WORDS: usize = 4;

pub const LOW: usize = 1;

pub const HIGH: usize = 2;

pub const NEXT: usize = 3;

// The switch of the two cells that ask none.
pub const NO_SWITCH: u32 = 32;

// The cell of the empty set, and the cell of all configurations.
pub const EMPTY: u32 = 0;

pub const ALL: u32 = 1;

// The first word of a cell.
pub(crate) fn place(cell: u32) -> usize
    ensures { result ≡ 1090 + 4 * cell }
{
    CELLS + CELL_WORDS * cell as usize
}

// How many cells there is room for. So few words are the least that any write here needs; no type ties a length to bare words.
pub(crate) fn room(words: &[u32]) -> u32
    requires { 1090 ≤ length words.now }
    ensures { result ≡ capacity words.now }
{
    ((words.len() - CELLS) / CELL_WORDS).min(MAX_CAPACITY) as u32
}
