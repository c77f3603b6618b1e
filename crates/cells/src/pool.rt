// The pool of cells: each lies on the chain that its switch and sides give, newest first, so that none is added twice. 0 ends a chain.
// What writes takes the bare words: tried as methods of a struct round them, each had to promise instead that it leaves the same words in it.
ghost use Rattle.std.specs.Prelude.{◌≡◌, ◌+◌, ◌*◌, ◌<◌, ◌≤◌, length, OnErr};
ghost use Rattle.stores.specs.declared.fault.StoreFault.TheVariants.{NoSwitch};
ghost use Rattle.cells.specs.Cells.{node, Sides};
ghost use Rattle.cells.specs.Nodes.{cell_of};
ghost use Rattle.cells.specs.Words.{WellFormed, Valid, switches, count, cells_of, switch_of, pushed, popped, Cut, StepOutcome, SameWorking, Operated};

use super::layout::{ALL, CELL_WORDS, EMPTY, HEADS, NEXT, place, room};
use super::node::Node;
use super::questions::Cells;
use stores::fault::StoreFault;
use stores::in_words::{COUNT_WORD, N_WORD};

// Adds a cell, which heads its chain.
pub(crate) fn push_cell(words: &mut [u32], x: Node) -> u32
    requires { (1090 + 4 * count words.old + 4 ≤ length words.old) × (count words.old < 65535) }
    ensures number { result ≡ count words.old }
    ensures after { words.new ≡ pushed words.old (cell_of x) }
{
    let cell = words[COUNT_WORD];
    let head = HEADS + x.chain();
    let older = words[head];
    x.write(words, cell);
    words[place(cell) + NEXT] = older;
    words[head] = cell;
    words[COUNT_WORD] = cell + 1;
    cell
}

// The number of a cell: it is held, or added. A cell whose sides are one asks nothing, and that one is taken.
pub fn join_cells(words: &mut [u32], x: Node) -> Result<u32, StoreFault>
    requires { (WellFormed words.old) × (Sides (switches words.old) (cells_of words.old) (cell_of x)) }
    ensures outcome { StepOutcome words.old words.new (node (cells_of words.old) (cell_of x)) result }
    ensures working { SameWorking words.old words.new }
    ensures same { OnErr result (words.new ≡ words.old) }
{
    if x.low == x.high {
        return Ok(x.low);
    }
    if let Some(found) = (Cells { words }).seek(x) {
        return Ok(found);
    }
    if words[COUNT_WORD] >= room(words) {
        return Err(StoreFault::Full);
    }
    Ok(push_cell(words, x))
}

// The configurations that have switch `i` on: one cell at most is added, and no working word is used.
pub fn switch_cell(words: &mut [u32], i: u32) -> Result<u32, StoreFault>
    requires { Valid words.old }
    ensures { Operated words.old words.new (i < switches words.old) NoSwitch (switch_of words.old i) result }
{
    if i >= words[N_WORD] {
        return Err(StoreFault::NoSwitch);
    }
    join_cells(
        words,
        Node {
            switch: i,
            low: EMPTY,
            high: ALL,
        },
    )
}

// Takes the last cell out of its chain and away.
pub(crate) fn pop_cell(words: &mut [u32])
    requires { (WellFormed words.old) × (2 < count words.old) }
    ensures { words.new ≡ popped words.old }
{
    let cell = words[COUNT_WORD] - 1;
    let place = place(cell);
    let head = HEADS + (Cells { words }).node(cell).chain();
    words[head] = words[place + NEXT];
    words[place..place + CELL_WORDS].fill(0);
    words[COUNT_WORD] = cell;
}

// Takes the cells from number `held` on away.
pub fn cut_cells(words: &mut [u32], held: u32)
    requires { (WellFormed words.old) × ((2 ≤ held) × (held ≤ count words.old)) }
    ensures { Cut words.old words.new held }
{
    // the words themselves count
    while words[COUNT_WORD] > held {
        pop_cell(words);
    }
}
