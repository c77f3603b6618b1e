// The working words, which remember the answers at pairs of cells while one operation runs, and are zero between operations.
// What writes takes the bare words, for the reason that `pool` of `cells` gives.
ghost use Rattle.std.specs.Prelude.{◌≡◌, ◌+◌, ◌*◌, ◌<◌, ◌≤◌, length, IfSome};
ghost use Rattle.operations.specs.Ops.{meaning};
ghost use Rattle.cells.specs.Words.{count, Correct, Remembers, slot, remembered, Swept};

use cells::layout::{CELLS, PAIRS, WORKING};
use cells::questions::Cells;
use stores::connective::Connective;

// The key of two cells is the first times this, and the second.
const KEY: u32 = 65_536;

// The pair of words for an operation on two cells.
fn pair(a: u32, b: u32) -> usize
    ensures { result ≡ 66 + 2 * slot a b }
{
    WORKING + 2 * ((a as usize + 3 * b as usize) % PAIRS)
}

// What is remembered of an operation on two cells.
pub(crate) fn recall(cells: &Cells<'_>, op: Connective, a: u32, b: u32) -> Option<u32>
    requires remembers { Remembers (meaning op) cells.now.words.now }
    requires a { (a < count cells.now.words.now) × (0 < a) }
    requires b { b < count cells.now.words.now }
    ensures { IfSome result (λ x. Correct (meaning op) cells.now.words.now a b x) }
{
    let place = pair(a, b);
    if cells.words[place] == a * KEY + b {
        Some(cells.words[place + 1])
    } else {
        None
    }
}

// Remembers the answer of an operation on two cells.
pub(crate) fn remember(words: &mut [u32], a: u32, b: u32, r: u32)
    requires room { 1090 ≤ length words.old }
    requires small { (a < 65536) × (b < 65536) }
    ensures { words.new ≡ remembered words.old a b r }
{
    let place = pair(a, b);
    words[place] = a * KEY + b;
    words[place + 1] = r;
}

// Zeroes the working words.
pub(crate) fn sweep(words: &mut [u32])
    requires { 1090 ≤ length words.old }
    ensures { Swept words.old words.new }
{
    words[WORKING..CELLS].fill(0);
}

// The words of a store while an operation runs: on every way out the working words are zero again.
pub(crate) struct Working<'a> {
    pub(crate) words: &'a mut [u32],
}

impl Drop for Working<'_> {
    fn drop(self)
        requires { 1090 ≤ length self.words.now }
        ensures { Swept self.entry.words.now self.exit.0.now }
    {
        let Working { words } = self;
        sweep(words);
    }
}
