// Bitmap stores: each set has one bit for every configuration, in words that are handed in. May use `faults` and `stores`.
// Promises: all that a store promises, and every word after making, an operation, a refusal and a release.
#![tactic(auto)]

ghost use Rattle.bitmaps.specs.Meaning.{Valid};

mod cutting;
pub mod layout;
mod making;
mod operation;

use cutting::cut_slots;
use layout::{EMPTY_SLOT, FULL_SLOT, Slots, Switches, WORD_BITS};
use operation::Operation;
use stores::Store;
use stores::connective::Connective;
use stores::fault::StoreFault;
use stores::in_words::{COUNT_WORD, FLOOR, InWords, N_WORD};

// Of one form with a diagram store, but for the word and for what the words mean: so each is a type of its own.
#[derive(Drop)]
pub struct Bitmaps<'a> {
    words: &'a mut [u64],
    ghost valid: { Valid words.now },
}

impl Bitmaps<'_> {
    ghost use Rattle.std.specs.Prelude.{◌≡◌, slice_index};
    ghost use Rattle.stores.specs.Outcome.{Outcome, refusal};
    ghost use Rattle.bitmaps.specs.Meaning.{means, one};
    ghost use Rattle.bitmaps.specs.Operations.{op_of};
    ghost use Rattle.bitmaps.specs.Stores.{rollback};

    // The slots that are held.
    fn slots(&self) -> Slots<'_>
        ensures words { result.words.now ≡ self.now.words.now }
        ensures switches { result.switches.n ≡ slice_index self.now.words.now 0 }
    {
        let switches = Switches {
            n: self.words[N_WORD] as u32,
        };
        Slots {
            words: self.words,
            switches,
        }
    }

    // The first refusal due to an operation, by rising number.
    fn due(&self, operation: Operation) -> Option<StoreFault>
        ensures { result ≡ refusal (means self.now.words.now) 1 (op_of operation) }
    {
        let switches = self.slots().switches;
        let count = self.len();
        match operation {
            Operation::Switch(i) => {
                if i >= switches.n {
                    return Some(StoreFault::NoSwitch);
                }
            }
            Operation::Join(_, a, b) => {
                if a >= count || b >= count {
                    return Some(StoreFault::NoNumber);
                }
            }
        }
        if count >= switches.capacity(self.words.len()) {
            return Some(StoreFault::Full);
        }
        None
    }

    // Appends the set that an operation works out and answers its number, or changes nothing.
    fn apply(&mut self, operation: Operation) -> Result<u32, StoreFault>
        ensures { Outcome (λ s. means s.words.now) rollback (λ _. one) self.old self.new (op_of operation) result }
    {
        if let Some(fault) = self.due(operation) {
            return Err(fault);
        }
        let number = self.len();
        operation.append(self.words);
        Ok(number)
    }
}

impl<'a> Store for Bitmaps<'a> {
    ghost use Rattle.bitmaps.specs.Meaning.{means, one};
    ghost use Rattle.bitmaps.specs.Cutting.{means_consistent, one_bound};
    ghost use Rattle.bitmaps.specs.Stores.{rollback};
    ghost use Rattle.bitmaps.specs.Laws.{rollback_is_lawful};

    ghost model = { λ s. means s.words.now };

    ghost need = { λ s op. one op };

    ghost consistent = { λ s. means_consistent s.words.now s.valid };

    ghost need_bound = { λ s op. one_bound s.words.now op };

    ghost rollback = { rollback };

    ghost rollback_laws = { rollback_is_lawful };

    fn none(&self) -> u32 {
        EMPTY_SLOT
    }

    fn top(&self) -> u32 {
        FULL_SLOT
    }

    fn switches(&self) -> u32 {
        self.slots().switches.n
    }

    fn len(&self) -> u32 {
        self.words[COUNT_WORD] as u32
    }

    fn switch(&mut self, i: u32) -> Result<u32, StoreFault> {
        self.apply(Operation::Switch(i))
    }

    fn join(&mut self, how: Connective, a: u32, b: u32) -> Result<u32, StoreFault> {
        self.apply(Operation::Join(how, a, b))
    }

    fn holds(&self, a: u32, k: u32) -> Result<bool, StoreFault> {
        if a >= self.len() {
            return Err(StoreFault::NoNumber);
        }
        let slots = self.slots();
        if k >= 1 << slots.switches.n {
            return Err(StoreFault::NoConfiguration);
        }
        let word = slots.word(a, (k / WORD_BITS) as usize);
        Ok((word >> (k % WORD_BITS)) % 2 == 1)
    }

    fn find(&self, a: u32) -> Result<Option<u32>, StoreFault> {
        let held = self.len();
        if a >= held {
            return Err(StoreFault::NoNumber);
        }
        Ok(self.slots().lowest(a))
    }

    // As over diagrams: one function that takes how slots or cells are cut would be longer.
    fn cut(&mut self, to: u32) {
        let kept = to.max(FLOOR);
        if kept < self.len() {
            cut_slots(self.words, kept);
        }
    }
}

impl<'a> InWords<'a> for Bitmaps<'a> {
    ghost use Rattle.stores.specs.Making.{Prepared, Made};
    ghost use Rattle.bitmaps.specs.Meaning.{means};
    ghost use Rattle.bitmaps.specs.Making.{due, room, renewed};

    type Word = u64;

    ghost lies_in = { λ s. s.words.now };

    ghost due = { due };

    ghost room = { room };

    ghost renewed = { renewed };

    fn prepare(words: &mut [u64], n: u32) -> Result<(), StoreFault>
        ensures { Prepared due renewed words.old n words.new result }
    {
        making::prepare(words, n)
    }

    fn make(words: &'a mut [u64], n: u32) -> Result<Bitmaps<'a>, StoreFault> {
        making::prepare(words, n)?;
        Ok(Bitmaps { words })
    }
}
