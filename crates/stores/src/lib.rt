// Condition stores: numbered sets of configurations under one contract, so that everything above is written and proved once.
// May use `faults`. Promises: what each operation answers, refuses and leaves in memory, for every implementation alike.
#![tactic(auto)]

ghost use Rattle.std.specs.Prelude.{◌≡◌, ℕ, ◌^◌, ◌<◌, ◌≤◌};
ghost use Rattle.stores.specs.Sets.{empty};
ghost use Rattle.stores.specs.Model.{Model, Consistent, size, set_at};
ghost use Rattle.stores.specs.Outcome.{Op, switch, both, either, less, Outcome, RollbackLaws, CutBack, HoldsOutcome, FindOutcome};
ghost use Rattle.stores.specs.Joined.{joined};

pub mod connective;
pub mod fault;
pub mod in_words;

use connective::Connective;
use fault::StoreFault;

// The most switches that any store admits.
pub const MAX_SWITCHES: usize = 24;

// How many sets were held when it was handed out. It cannot be copied or let go: `release` or `keep` takes it back.
pub struct Mark {
    at: u32,
}

pub trait Store {
    // what the representation means
    ghost model: { Self → Model };

    // how many places an operation needs
    ghost need: { Self → Op → ℕ };

    ghost consistent: { (s : Self) → Consistent (model s) };

    ghost need_bound: { (s : Self) (op : Op) → need s op ≤ 2 ^ (model s).n };

    // the value with its numbers from k on taken off, which pins all memory after a refusal or a release
    ghost rollback: { Self → ℕ → Self };

    ghost rollback_laws: { RollbackLaws model rollback };

    // The number of the empty set.
    fn none(&self) -> u32
        ensures { (result < (model self.now).floor) × (set_at (model self.now) result ≡ empty) };

    // The number of the allowed configurations.
    fn top(&self) -> u32
        ensures { (result < (model self.now).floor) × (set_at (model self.now) result ≡ (model self.now).allowed) };

    // How many switches there are.
    fn switches(&self) -> u32
        ensures { result ≡ (model self.now).n };

    // How many sets are held.
    fn len(&self) -> u32
        ensures { result ≡ size (model self.now) };

    // The allowed configurations with switch `i` on.
    fn switch(&mut self, i: u32) -> Result<u32, StoreFault>
        ensures { Outcome model rollback need self.old self.new (switch i) result };

    // The set that an operation makes of two.
    fn join(&mut self, how: Connective, a: u32, b: u32) -> Result<u32, StoreFault>
        ensures { Outcome model rollback need self.old self.new (joined how a b) result };

    // Is configuration `k` in set `a`?
    fn holds(&self, a: u32, k: u32) -> Result<bool, StoreFault>
        ensures { HoldsOutcome (model self.now) a k result };

    // The lowest configuration of set `a`, if any.
    fn find(&self, a: u32) -> Result<Option<u32>, StoreFault>
        ensures { FindOutcome (model self.now) a result };

    // Cuts the held sets as a release does: an implementation's part of `release`, which callers use.
    fn cut(&mut self, to: u32)
        ensures { CutBack model rollback self.old self.new to };

    // The intersection.
    fn both(&mut self, a: u32, b: u32) -> Result<u32, StoreFault>
        ensures { Outcome model rollback need self.old self.new (both a b) result }
    {
        self.join(Connective::Both, a, b)
    }

    // The union.
    fn either(&mut self, a: u32, b: u32) -> Result<u32, StoreFault>
        ensures { Outcome model rollback need self.old self.new (either a b) result }
    {
        self.join(Connective::Either, a, b)
    }

    // `a` without `b`.
    fn less(&mut self, a: u32, b: u32) -> Result<u32, StoreFault>
        ensures { Outcome model rollback need self.old self.new (less a b) result }
    {
        self.join(Connective::Less, a, b)
    }

    fn mark(&self) -> Mark
        ensures { result.at ≡ size (model self.now) }
    {
        Mark { at: self.len() }
    }

    // Gives back the numbers handed out since the mark, but none below the floor.
    fn release(&mut self, m: Mark)
        ensures { CutBack model rollback self.old self.new m.at }
    {
        let Mark { at } = m;
        self.cut(at);
    }

    // Only takes the mark back.
    fn keep(&mut self, m: Mark)
        ensures { self.new ≡ self.old }
    {
        let Mark { at: _ } = m;
    }
}
