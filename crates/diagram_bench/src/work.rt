// Three pieces of work on a store of 24 switches. Each counts the operations that it asks.
use dice::Dice;
use std::fmt;
use stores::Store;
use stores::connective::Connective;
use stores::fault::StoreFault;

pub(crate) const SWITCHES: u32 = 24;

const HALF: u32 = 12;

// One more than the number of switches that are a majority.
const ROW: usize = 14;

const RULES: u32 = 60;

const ATTEMPTS: u32 = 1_000;

#[derive(Clone, Copy)]
pub(crate) enum Work {
    Equivalences,
    Majority,
    Rules,
}

impl fmt::Display for Work {
    fn fmt<W: fmt::Write>(&self, f: &mut fmt::Formatter<W>) -> fmt::Result {
        f.write_str(match self {
            Work::Equivalences => "equivalences",
            Work::Majority => "majority",
            Work::Rules => "rules",
        })
    }
}

// A store, and how many operations it was asked.
#[derive(Drop)]
pub(crate) struct Counting<S> {
    pub(crate) store: S,
    pub(crate) asked: u64,
}

impl<S: Store> Counting<S> {
    fn switch(&mut self, i: u32) -> Result<u32, StoreFault> {
        self.asked = self.asked.wrapping_add(1);
        self.store.switch(i)
    }

    fn join(&mut self, how: Connective, a: u32, b: u32) -> Result<u32, StoreFault> {
        self.asked = self.asked.wrapping_add(1);
        self.store.join(how, a, b)
    }

    fn both(&mut self, a: u32, b: u32) -> Result<u32, StoreFault> {
        self.join(Connective::Both, a, b)
    }

    fn either(&mut self, a: u32, b: u32) -> Result<u32, StoreFault> {
        self.join(Connective::Either, a, b)
    }

    // The configurations that are not in a set.
    fn not(&mut self, a: u32) -> Result<u32, StoreFault> {
        let top = self.store.top();
        self.join(Connective::Less, top, a)
    }

    // Two switches are both on or both off.
    fn equal(&mut self, i: u32, j: u32) -> Result<u32, StoreFault> {
        let a = self.switch(i)?;
        let b = self.switch(j)?;
        let on = self.both(a, b)?;
        let any = self.either(a, b)?;
        let off = self.not(any)?;
        self.either(on, off)
    }

    // Switch i is equal to switch i + 12, for all i: the order of the switches is a bad one for it.
    fn equivalences(&mut self) -> Result<u32, StoreFault> {
        let mut all = self.store.top();
        for i in 0..HALF {
            let same = self.equal(i, i + HALF)?;
            all = self.both(all, same)?;
        }
        Ok(all)
    }

    // From "at least j of the switches so far are on", for all j, to the same with one more switch. By index: each entry is made of itself and of the
    // one before it, as that was.
    fn count_switch(&mut self, row: &mut [u32; ROW], on: u32) -> Result<(), StoreFault> {
        for j in (1..ROW).rev() {
            let more = self.both(on, row[j - 1])?;
            row[j] = self.either(more, row[j])?;
        }
        Ok(())
    }

    // At least 13 of the 24 switches are on.
    fn majority(&mut self) -> Result<u32, StoreFault> {
        let mut row = [self.store.none(); ROW];
        row[0] = self.store.top();
        for i in 0..SWITCHES {
            let on = self.switch(i)?;
            self.count_switch(&mut row, on)?;
        }
        Ok(row[ROW - 1])
    }

    // One to three more switches than `first`, at least one of them on.
    fn disjunction(&mut self, dice: &mut Dice, first: u32) -> Result<u32, StoreFault> {
        let mut any = first;
        for _ in 0..dice.roll(3).saturating_add(1) {
            let next = self.switch(dice.roll(SWITCHES))?;
            any = self.either(any, next)?;
        }
        Ok(any)
    }

    // An implication, an exclusion or a small disjunction.
    fn rule(&mut self, dice: &mut Dice) -> Result<u32, StoreFault> {
        let kind = dice.roll(3);
        let a = self.switch(dice.roll(SWITCHES))?;
        if kind == 2 {
            return self.disjunction(dice, a);
        }
        let b = self.switch(dice.roll(SWITCHES))?;
        if kind == 1 {
            let together = self.both(a, b)?;
            return self.not(together);
        }
        let without = self.not(a)?;
        self.either(without, b)
    }

    // The conjunction of 60 rules. A rule that would leave nothing is left out.
    fn rules(&mut self) -> Result<u32, StoreFault> {
        let mut dice = Dice { state: 88_675_123 };
        let mut all = self.store.top();
        let mut kept = 0u32;
        for _ in 0..ATTEMPTS {
            if kept == RULES {
                break;
            }
            let one = self.rule(&mut dice)?;
            let next = self.both(all, one)?;
            if next != self.store.none() {
                all = next;
                kept = kept.wrapping_add(1);
            }
        }
        Ok(all)
    }

    // An enum and no closure: a piece of work has a name that is printed, and is done again and again.
    pub(crate) fn run(&mut self, work: Work) -> Result<u32, StoreFault> {
        match work {
            Work::Equivalences => self.equivalences(),
            Work::Majority => self.majority(),
            Work::Rules => self.rules(),
        }
    }

    // The same work so many times, what it took released after each.
    pub(crate) fn repeat(&mut self, work: Work, rounds: u32) -> Result<(), StoreFault> {
        for _ in 0..rounds {
            let mark = self.store.mark();
            let answer = self.run(work);
            self.store.release(mark);
            let _ = answer?;
        }
        Ok(())
    }
}
