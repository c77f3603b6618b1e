// Working a condition out over any store. May use `stores`, `text`, `expressions` and `stack_machine`.
// Promises: the operations asked and their order, the first refusal among them, and the set that the answer holds.
#![tactic(auto)]

ghost use Rattle.std.specs.Prelude.{◌≡◌, ℕ, List, IfOk, Option};
ghost use Rattle.stores.specs.Outcome.{Advanced};
ghost use Rattle.stores.specs.Steps.{Runs};
ghost use Rattle.stores.specs.Sets.{empty};
ghost use Rattle.stores.proofs.Models.{advanced_none, advanced_trans};
ghost use Rattle.expressions.specs.Grammar.{Expr};
ghost use Rattle.expressions.specs.Conditions.{postfix};
ghost use Rattle.evaluation.specs.Worked.{one, worked, steps_of};
ghost use Rattle.evaluation.specs.Meaning.{Denotes, Valued};

use expressions::condition::{Condition, Step};
use stack_machine::{Interpretation, Stack, work_out};
use stores::Store;
use stores::fault::StoreFault;

// What stands for names: each has the number of a set as its entry, or none.
pub trait Entries {
    ghost lookup: { Self → List ℕ → Option ℕ };

    fn get(&self, name: &[u8]) -> Option<u32>
        ensures { result ≡ lookup self.now name.now };
}

impl<E: Entries> Entries for &E {
    ghost lookup = { λ by. E.lookup by.now };

    fn get(&self, name: &[u8]) -> Option<u32> {
        (**self).get(name)
    }
}

// The numbers of the empty set and of the allowed configurations.
#[derive(Clone, Copy)]
pub struct Constants {
    pub none: u32,
    pub top: u32,
}

// What conditions are worked out with.
#[derive(Clone, Copy)]
pub struct Evaluator<E> {
    pub entries: E,
    pub known: Constants,
}

// The numbers that the steps leave, as the store answers them.
impl<E: Entries, S: Store> Interpretation<S> for Evaluator<E> {
    type Value = u32;

    type Error = StoreFault;

    ghost gives = { λ by i a b s r t. Runs S.model S.rollback S.need (one i (E.lookup by.entries) by.known.none by.known.top a b) s t r };

    ghost goes = { Advanced S.model S.rollback };

    fn apply(&self, step: Step<'_>, a: u32, b: u32, store: &mut S) -> Result<u32, StoreFault> {
        match step {
            Step::Never => Ok(self.known.none),
            Step::Always => Ok(self.known.top),
            Step::Defined(name) => {
                let entry = self.entries.get(name);
                Ok(entry.unwrap_or(self.known.none))
            }
            Step::Not => store.less(self.known.top, a),
            Step::And => store.both(a, b),
            Step::Or => store.either(a, b),
        }
    }

    ghost goes_nowhere = { λ s. advanced_none S.rollback_laws };

    ghost goes_on = { λ s t u p q. advanced_trans S.rollback_laws p q };
}

impl<E: Entries> Evaluator<E> {
    // Works a condition out over the store: operands first, left to right, no shortcuts. The answer is the number of its set.
    pub fn work_out<S: Store>(
        &self,
        condition: &Condition<'_>,
        store: &mut S,
    ) -> Result<u32, StoreFault>
        ensures advanced { Advanced S.model S.rollback store.old store.new }
        ensures runs { (e : Expr) → steps_of condition.now ≡ postfix e → Runs S.model S.rollback S.need (worked e (E.lookup self.now.entries) self.now.known.none self.now.known.top) store.old store.new result }
        ensures means { (e : Expr) → steps_of condition.now ≡ postfix e → Denotes (S.model store.old) self.now.known.none empty → Denotes (S.model store.old) self.now.known.top (S.model store.old).allowed → IfOk result (Valued (S.model store.old) (S.model store.new) (E.lookup self.now.entries) e) }
    {
        work_out(self, condition, Stack::new(), store)
    }
}
