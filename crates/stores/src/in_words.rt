// Stores that lie in words that are handed in.
ghost use Rattle.std.specs.Prelude.{ℕ, List, Option};
ghost use Rattle.stores.specs.declared.fault.StoreFault.{StoreFault as Fault};
ghost use Rattle.stores.specs.Making.{Prepared, Made};

use super::Store;
use crate::fault::StoreFault;

// Where the number of switches stands, and how many sets are held.
pub const N_WORD: usize = 0;

pub const COUNT_WORD: usize = 1;

// The empty set and all configurations, which are never released.
pub const FLOOR: u32 = 2;

// The most sets that are held, however many words there are: two of their numbers then go into one word.
pub const MAX_CAPACITY: usize = 65_535;

// What the stores in words have in common, besides their first two words.
pub trait InWords<'a>: Store {
    type Word;

    // the words that a store lies in
    ghost lies_in: { Self → List Self.Word };

    // the refusal due to making a store of n switches in these words
    ghost due: { List Self.Word → ℕ → Option Fault };

    // how many sets such a store has room for
    ghost room: { List Self.Word → ℕ → ℕ };

    // what its words are, in words that were these
    ghost renewed: { List Self.Word → ℕ → List Self.Word → Type 0 };

    // Writes a new store of `n` switches into the words, or leaves them as they were.
    fn prepare(words: &mut [Self::Word], n: u32) -> Result<(), StoreFault>
        ensures { Prepared due renewed words.old n words.new result };

    // A new store of `n` switches in the words.
    fn make(words: &'a mut [Self::Word], n: u32) -> Result<Self, StoreFault>
        ensures { Made Self.model lies_in due room renewed words.old n result };
}
