// Diagram stores: each set is a cell of one reduced ordered binary decision diagram, in words that are handed in.
// May use `faults`, `stores`, `cells` and `operations`. Promises: all that a store promises, every word after making, an operation, a refusal and
// a release, and that two numbers are equal exactly when their sets are.
#![tactic(auto)]

ghost use Rattle.cells.specs.Words.{Valid};

use cells::layout::{ALL, EMPTY};
use cells::pool::{cut_cells, switch_cell};
use cells::questions::Cells;
use operations::apply::operate;
use stores::Store;
use stores::connective::Connective;
use stores::fault::StoreFault;
use stores::in_words::{COUNT_WORD, FLOOR, InWords, N_WORD};

// Of one form with a bitmap store, but for the word and for what the words mean: so each is a type of its own.
#[derive(Drop)]
pub struct Diagrams<'a> {
    words: &'a mut [u32],
    ghost valid: { Valid words.now },
}

impl Diagrams<'_> {
    ghost use Rattle.std.specs.Prelude.{◌≡◌};

    // The cells that are held.
    fn cells(&self) -> Cells<'_>
        ensures { result.words.now ≡ self.now.words.now }
    {
        Cells { words: self.words }
    }
}

impl<'a> Store for Diagrams<'a> {
    ghost use Rattle.diagrams.specs.Meaning.{means, lacking};
    ghost use Rattle.diagrams.specs.Cutting.{means_consistent, lacking_bound};
    ghost use Rattle.diagrams.specs.Stores.{rollback};
    ghost use Rattle.diagrams.specs.Laws.{rollback_is_lawful};

    ghost model = { λ s. means s.words.now };

    ghost need = { λ s op. lacking s.words.now op };

    ghost consistent = { λ s. means_consistent s.words.now s.valid };

    ghost need_bound = { λ s op. lacking_bound s.words.now s.valid op };

    ghost rollback = { rollback };

    ghost rollback_laws = { rollback_is_lawful };

    fn none(&self) -> u32 {
        EMPTY
    }

    fn top(&self) -> u32 {
        ALL
    }

    fn switches(&self) -> u32 {
        self.words[N_WORD]
    }

    fn len(&self) -> u32 {
        self.words[COUNT_WORD]
    }

    fn switch(&mut self, i: u32) -> Result<u32, StoreFault> {
        switch_cell(self.words, i)
    }

    fn join(&mut self, how: Connective, a: u32, b: u32) -> Result<u32, StoreFault> {
        operate(self.words, how, a, b)
    }

    fn holds(&self, a: u32, k: u32) -> Result<bool, StoreFault> {
        if a >= self.len() {
            return Err(StoreFault::NoNumber);
        }
        if k >= 1 << self.switches() {
            return Err(StoreFault::NoConfiguration);
        }
        Ok(self.cells().holds(a, k))
    }

    fn find(&self, a: u32) -> Result<Option<u32>, StoreFault> {
        if a >= self.len() {
            return Err(StoreFault::NoNumber);
        }
        Ok(self.cells().lowest(a))
    }

    // As over bitmaps: one function that takes how slots or cells are cut would be longer.
    fn cut(&mut self, to: u32) {
        let kept = to.max(FLOOR);
        if kept < self.len() {
            cut_cells(self.words, kept);
        }
    }
}

// As long as there is a store, two of its numbers are equal exactly when their sets are, and no operation adds a cell that its answer does not need.
impl<'a> InWords<'a> for Diagrams<'a> {
    ghost use Rattle.stores.specs.Making.{Prepared, Made};
    ghost use Rattle.cells.specs.Words.{New, due, capacity};
    ghost use Rattle.diagrams.specs.Meaning.{means};
    ghost use Rattle.diagrams.specs.Numbers.{Canonical, Reachable};

    type Word = u32;

    ghost lies_in = { λ s. s.words.now };

    ghost due = { due };

    ghost room = { λ ws n. capacity ws };

    ghost renewed = { New };

    fn prepare(words: &mut [u32], n: u32) -> Result<(), StoreFault>
        ensures { Prepared due New words.old n words.new result }
    {
        cells::making::prepare(words, n)
    }

    fn make(words: &'a mut [u32], n: u32) -> Result<Diagrams<'a>, StoreFault>
        ensures made { Made (λ s. means s.words.now) (λ s. s.words.now) due (λ ws n. capacity ws) New words.old n result }
        ensures canonical { Canonical }
        ensures reachable { Reachable }
    {
        Self::prepare(words, n)?;
        Ok(Diagrams { words })
    }
}
