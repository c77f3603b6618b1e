// Taking slots off.
ghost use Rattle.std.specs.Prelude.{◌≡◌, ◌<◌, ◌≤◌, slice_index};
ghost use Rattle.bitmaps.specs.Meaning.{Valid, cut_words};

use super::layout::{Switches, fill};
use stores::in_words::{COUNT_WORD, N_WORD};

// Takes the slots from number `kept` on off.
pub(crate) fn cut_slots(words: &mut [u64], kept: u32)
    requires valid { Valid words.old }
    requires kept { (2 ≤ kept) × (kept < slice_index words.old 1) }
    ensures { words.new ≡ cut_words words.old kept }
{
    let switches = Switches {
        n: words[N_WORD] as u32,
    };
    let held = words[COUNT_WORD] as u32;
    fill(words, switches.start(kept), switches.start(held), 0);
    words[COUNT_WORD] = u64::from(kept);
}
