// Making a store in words that are handed in.
ghost use Rattle.stores.specs.Making.{Prepared};
ghost use Rattle.bitmaps.specs.Making.{due, renewed};

use super::layout::{FULL_SLOT, MAX_SWITCHES, Switches, fill};
use stores::fault::StoreFault;
use stores::in_words::{COUNT_WORD, FLOOR, N_WORD};

// Writes a new store of `n` switches into the words, or leaves them as they were.
pub(crate) fn prepare(words: &mut [u64], n: u32) -> Result<(), StoreFault>
    ensures { Prepared due renewed words.old n words.new result }
{
    if n > MAX_SWITCHES {
        return Err(StoreFault::TooManySwitches);
    }
    let switches = Switches { n };
    let slots = switches.capacity(words.len());
    if slots < FLOOR {
        return Err(StoreFault::TooSmall);
    }
    fill(words, 0, switches.start(slots), 0);
    fill(
        words,
        switches.start(FULL_SLOT),
        switches.start(FLOOR),
        switches.full_word(),
    );
    words[N_WORD] = u64::from(n);
    words[COUNT_WORD] = u64::from(FLOOR);
    Ok(())
}
