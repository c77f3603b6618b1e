// The operations on the sets of cells: shortcuts, the memory of answers, the two sides, then the cell over them.
// What writes takes the bare words, for the reason that `pool` of `cells` gives.
ghost use Rattle.std.specs.Prelude.{◌≡◌, ◌<◌, ◌≤◌, OnOk};
ghost use Rattle.stores.specs.declared.fault.StoreFault.TheVariants.{NoNumber};
ghost use Rattle.cells.specs.Cells.{level, low_at, high_at};
ghost use Rattle.operations.specs.Ops.{meaning, known_of};
ghost use Rattle.operations.specs.Taken.{Parted};
ghost use Rattle.cells.specs.Words.{WellFormed, Valid, switches, count, cells_of, op_of, StepOutcome, Remembers, Operated};

use super::working::{Working, recall, remember};
use cells::layout::{ALL, EMPTY};
use cells::node::Node;
use cells::pool::{cut_cells, join_cells};
use cells::questions::Cells;
use stores::connective::Connective;
use stores::fault::StoreFault;
use stores::in_words::{COUNT_WORD, FLOOR};

// One more than the switch of a cell, or 0. No Option, since levels are compared.
pub(crate) fn level_of(cells: &Cells<'_>, cell: u32) -> u32
    requires { cell < count cells.now.words.now }
    ensures is { result ≡ level (cells_of cells.now.words.now) cell }
    ensures within { result ≤ switches cells.now.words.now }
{
    if cell < FLOOR {
        0
    } else {
        cells.node(cell).switch + 1
    }
}

// The two sides of a cell at a switch.
#[derive(Clone, Copy)]
pub(crate) struct Sided {
    pub(crate) low: u32,
    pub(crate) high: u32,
}

// The highest switch that two cells ask, and their sides at it.
#[derive(Clone, Copy)]
pub(crate) struct Parts {
    pub(crate) switch: u32,
    pub(crate) a: Sided,
    pub(crate) b: Sided,
}

// The sides of a cell at a switch: itself twice where it asks a lower one.
pub(crate) fn sides_at(cells: &Cells<'_>, switch: u32, cell: u32) -> Sided
    requires { (cell < count cells.now.words.now) × (switch < switches cells.now.words.now) }
    ensures low { result.low ≡ low_at (cells_of cells.now.words.now) switch cell }
    ensures high { result.high ≡ high_at (cells_of cells.now.words.now) switch cell }
{
    if level_of(cells, cell) == switch + 1 {
        let node = cells.node(cell);
        Sided {
            low: node.low,
            high: node.high,
        }
    } else {
        Sided {
            low: cell,
            high: cell,
        }
    }
}

// Two cells, one of which asks a switch, taken apart.
pub(crate) fn take_apart(cells: &Cells<'_>, a: u32, b: u32) -> Parts
    requires { (a < count cells.now.words.now) × ((b < count cells.now.words.now) × (2 ≤ b)) }
    ensures { Parted cells.now.words.now a b result }
{
    let switch = level_of(cells, a).max(level_of(cells, b)) - 1;
    Parts {
        switch,
        a: sides_at(cells, switch, a),
        b: sides_at(cells, switch, b),
    }
}

// The answer where it needs no recursion.
pub(crate) fn known(op: Connective, a: u32, b: u32) -> Option<u32>
    ensures { result ≡ known_of op a b }
{
    match (op, a, b) {
        (Connective::Both, EMPTY, _) | (Connective::Both, _, EMPTY) => Some(EMPTY),
        (Connective::Both, ALL, x) | (Connective::Both, x, ALL) => Some(x),
        (Connective::Either, ALL, _) | (Connective::Either, _, ALL) => Some(ALL),
        (Connective::Either, EMPTY, x) | (Connective::Either, x, EMPTY) => Some(x),
        (Connective::Less, EMPTY, _) | (Connective::Less, _, ALL) => Some(EMPTY),
        (Connective::Less, x, EMPTY) => Some(x),
        (Connective::Less, ..) if a == b => Some(EMPTY),
        _ if a == b => Some(a),
        _ => None,
    }
}

// An operation on the sets of two cells.
pub(crate) fn combine(words: &mut [u32], op: Connective, a: u32, b: u32) -> Result<u32, StoreFault>
    requires formed { WellFormed words.old }
    requires remembers { Remembers (meaning op) words.old }
    requires a { a < count words.old }
    requires b { b < count words.old }
    ensures outcome { StepOutcome words.old words.new (op_of (meaning op) words.old a b) result }
    ensures remembers { OnOk result (Remembers (meaning op) words.new) }
{
    if let Some(r) = known(op, a, b) {
        return Ok(r);
    }
    let cells = Cells { words };
    if let Some(found) = recall(&cells, op, a, b) {
        return Ok(found);
    }
    let p = take_apart(&cells, a, b);
    let low = combine(words, op, p.a.low, p.b.low)?;
    let high = combine(words, op, p.a.high, p.b.high)?;
    let node = Node {
        switch: p.switch,
        low,
        high,
    };
    let r = join_cells(words, node)?;
    remember(words, a, b, r);
    Ok(r)
}

// An operation on two held sets.
pub fn operate(words: &mut [u32], op: Connective, a: u32, b: u32) -> Result<u32, StoreFault>
    requires { Valid words.old }
    ensures { Operated words.old words.new ((a < count words.old) × (b < count words.old)) NoNumber (op_of (meaning op) words.old a b) result }
{
    let held = words[COUNT_WORD];
    if a >= held || b >= held {
        return Err(StoreFault::NoNumber);
    }
    let guard = Working { words };
    match combine(guard.words, op, a, b) {
        Ok(r) => Ok(r),
        Err(e) => {
            cut_cells(guard.words, held);
            Err(e)
        }
    }
}
