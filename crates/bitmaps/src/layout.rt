// Where things lie in the words of a bitmap store: the number of switches, the number of slots, then the slots.
ghost use Rattle.std.specs.Prelude.{◌≡◌, ℕ, ◌+◌, ◌^◌, ◌<◌, ◌≤◌, length, slice_index};
ghost use Rattle.stores.specs.Sets.{LowestIf};
ghost use Rattle.bitmaps.specs.Layout.{width, used, full, slots, start};
ghost use Rattle.bitmaps.specs.Meaning.{slot, Held};

use stores::in_words::MAX_CAPACITY;

// The most switches that a bitmap store admits.
pub const MAX_SWITCHES: u32 = 10;

// The words before the slots.
pub(crate) const HEADER: usize = 2;

// The two slots that are never released.
pub(crate) const EMPTY_SLOT: u32 = 0;

pub(crate) const FULL_SLOT: u32 = 1;

pub(crate) const WORD_BITS: u32 = 64;

// So many switches tell the bits of one word apart; each further one doubles the words.
pub(crate) const WORD_SWITCHES: u32 = 6;

// Writes `v` into the words from `from` to `to`, which a proof then knows one by one.
pub(crate) fn fill(words: &mut [u64], from: usize, to: usize, v: u64)
    requires { (from ≤ to) × (to ≤ length words.old) }
    ensures made { (i : ℕ) → from ≤ i → i < to → slice_index words.new i ≡ v }
    ensures before { (i : ℕ) → i < from → slice_index words.new i ≡ slice_index words.old i }
    ensures after { (i : ℕ) → to ≤ i → slice_index words.new i ≡ slice_index words.old i }
{
    words[from..to].fill(v);
}

// The number of a store's switches, which tells where everything lies.
#[derive(Clone, Copy)]
pub(crate) struct Switches {
    pub(crate) n: u32,
    ghost few: { n ≤ 10 },
}

impl Switches {
    // The words of a slot.
    pub(crate) fn slot_words(self) -> usize
        ensures value { result ≡ width self.n }
        ensures bounds { (0 < result) × (result ≤ 16) }
    {
        1 << self.n.saturating_sub(WORD_SWITCHES)
    }

    // How many slots go into so many words.
    pub(crate) fn capacity(self, words: usize) -> u32
        ensures { result ≡ slots words self.n }
    {
        (words.saturating_sub(HEADER) / self.slot_words()).min(MAX_CAPACITY) as u32
    }

    // A word of the slot that has every configuration: bits that stand for none are 0.
    pub(crate) fn full_word(self) -> u64
        ensures { result ≡ full self.n }
    {
        u64::MAX >> (WORD_BITS - (1u32 << self.n).min(WORD_BITS))
    }

    // Where slot `j` begins.
    pub(crate) fn start(self, j: u32) -> usize
        ensures { result ≡ start self.n j }
    {
        HEADER + j as usize * self.slot_words()
    }
}

// The slots that are held, to be read. They are there too while the next one is being written.
#[derive(Clone, Copy)]
pub(crate) struct Slots<'a> {
    pub(crate) words: &'a [u64],
    pub(crate) switches: Switches,
    ghost held: { Held switches.n words.now },
}

impl Slots<'_> {
    // Word `t` of slot `j`.
    pub(crate) fn word(&self, j: u32, t: usize) -> u64
        requires { (j < slice_index self.now.words.now 1) × (t < width self.now.switches.n) }
        ensures value { result ≡ slice_index self.now.words.now (start self.now.switches.n j + t) }
        ensures unused { result < 2 ^ used self.now.switches.n }
    {
        self.words[self.switches.start(j) + t]
    }

    // The lowest configuration in slot `j`, if any.
    pub(crate) fn lowest(&self, j: u32) -> Option<u32>
        requires { j < slice_index self.now.words.now 1 }
        ensures { LowestIf (slot self.now.switches.n self.now.words.now j) result }
    {
        let from = self.switches.start(j);
        let slot = &self.words[from..from + self.switches.slot_words()];
        let t = slot.iter().position(|word| *word != 0)?;
        Some(t as u32 * WORD_BITS + slot[t].trailing_zeros())
    }
}
