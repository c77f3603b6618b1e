// Making a store in words that are handed in.
ghost use Rattle.std.specs.Prelude.{◌≤◌, length};
ghost use Rattle.stores.specs.Making.{Prepared};
ghost use Rattle.cells.specs.Words.{Wiped, New, due};

use super::layout::{ALL, EMPTY, place, room};
use super::node::Node;
use stores::MAX_SWITCHES;
use stores::fault::StoreFault;
use stores::in_words::{COUNT_WORD, FLOOR, N_WORD};

// The words of a store with no more than the two cells that every store has.
const FEWEST_WORDS: usize = 1_098;

// Zeroes the words that a store uses.
pub(crate) fn wipe(words: &mut [u32])
    requires { 1090 ≤ length words.old }
    ensures { Wiped words.old words.new }
{
    let end = place(room(words));
    words[..end].fill(0);
}

// Writes a new store of `n` switches into the words, or leaves them as they were.
pub fn prepare(words: &mut [u32], n: u32) -> Result<(), StoreFault>
    ensures { Prepared due New words.old n words.new result }
{
    if n as usize > MAX_SWITCHES {
        return Err(StoreFault::TooManySwitches);
    }
    if words.len() < FEWEST_WORDS {
        return Err(StoreFault::TooSmall);
    }
    wipe(words);
    words[N_WORD] = n;
    words[COUNT_WORD] = FLOOR;
    Node::leaf(EMPTY).write(words, EMPTY);
    Node::leaf(ALL).write(words, ALL);
    Ok(())
}
