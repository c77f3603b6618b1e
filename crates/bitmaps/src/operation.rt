// The operations that append a set: the words of the new slot.
ghost use Rattle.std.specs.Prelude.{◌≡◌, ℕ, ◌+◌, ◌*◌, ◌^◌, ◌<◌, length, None, slice_index};
ghost use Rattle.stores.specs.Sets.{on};
ghost use Rattle.stores.specs.Outcome.{Accepted, refusal};
ghost use Rattle.bitmaps.specs.Layout.{width, slots};
ghost use Rattle.bitmaps.specs.Meaning.{means, Valid, one, cut_words};
ghost use Rattle.bitmaps.specs.Operations.{op_of, Operands, connected, NewWord, Written};

use super::layout::{FULL_SLOT, Slots, Switches, WORD_SWITCHES};
use stores::connective::Connective;
use stores::in_words::{COUNT_WORD, N_WORD};

// Each word of the configurations that have switch `i` on, for the switches that tell the bits of a word apart.
const PATTERNS: [u64; 6] = [
    0xAAAA_AAAA_AAAA_AAAA,
    0xCCCC_CCCC_CCCC_CCCC,
    0xF0F0_F0F0_F0F0_F0F0,
    0xFF00_FF00_FF00_FF00,
    0xFFFF_0000_FFFF_0000,
    0xFFFF_FFFF_0000_0000,
];

// An operation of the store's contract, with its arguments.
#[derive(Clone, Copy)]
pub(crate) enum Operation {
    Switch(u32),
    Join(Connective, u32, u32),
}

// Word `t` of the configurations that have switch `i` on.
fn switch_word(i: u32, t: usize) -> u64
    requires { i < 10 }
    ensures { (p : ℕ) → p < 64 → on p result ≡ on i (t * 64 + p) }
{
    if i < WORD_SWITCHES {
        PATTERNS[i as usize]
    } else if (t >> (i - WORD_SWITCHES)) % 2 == 1 {
        u64::MAX
    } else {
        0
    }
}

// A word of the set that is made of two, from a word of each.
fn joined_word(how: Connective, a: u64, b: u64) -> u64
    ensures bits { (p : ℕ) → p < 64 → on p result ≡ connected how (on p a) (on p b) }
    ensures unused { (m : ℕ) → a < 2 ^ m → b < 2 ^ m → result < 2 ^ m }
{
    match how {
        Connective::Both => a & b,
        Connective::Either => a | b,
        Connective::Less => a & !b,
    }
}

impl Operation {
    // Word `t` of the set that is worked out.
    fn word(self, slots: &Slots<'_>, t: usize) -> u64
        requires operands { Operands slots.now.switches.n (slice_index slots.now.words.now 1) self }
        requires place { t < width slots.now.switches.n }
        ensures { NewWord slots.now.switches.n slots.now.words.now self t result }
    {
        match self {
            Operation::Switch(i) => slots.word(FULL_SLOT, t) & switch_word(i, t),
            Operation::Join(how, a, b) => joined_word(how, slots.word(a, t), slots.word(b, t)),
        }
    }

    // Writes that set into the first free slot. Takes the bare words, as `append` and `cut_slots` do: between their writes no store is in order.
    fn write(self, words: &mut [u64])
        requires valid { Valid words.old }
        requires operands { Operands (slice_index words.old 0) (slice_index words.old 1) self }
        requires room { slice_index words.old 1 < slots (length words.old) (slice_index words.old 0) }
        ensures { Written (slice_index words.old 0) (slice_index words.old 1) self words.old words.new }
    {
        let switches = Switches {
            n: words[N_WORD] as u32,
        };
        let to = switches.start(words[COUNT_WORD] as u32);
        // an index, since a word at the same place of each operand's slot makes the new one
        for t in 0..switches.slot_words() {
            let word = self.word(&Slots { words, switches }, t);
            words[to + t] = word;
        }
    }

    // Appends that set, where no refusal is due.
    pub(crate) fn append(self, words: &mut [u64])
        requires valid { Valid words.old }
        requires due { refusal (means words.old) 1 (op_of self) ≡ None }
        ensures valid { Valid words.new }
        ensures accepted { Accepted means cut_words words.old words.new 1 (op_of self) (slice_index words.old 1) }
    {
        self.write(words);
        words[COUNT_WORD] += 1;
    }
}
