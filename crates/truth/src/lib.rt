// The truth value of a condition, where flags tell which names are defined. May use `text`, `names`, `expressions`, `sources` and
// `stack_machine`.
// Promises: the value of the expression whose steps the condition has; a name without an entry is not defined.
#![tactic(auto)]

ghost use Rattle.std.specs.Prelude.{◌≡◌, ⊤, Ok};
ghost use Rattle.names.specs.Names.{texts};
ghost use Rattle.expressions.specs.Grammar.{Expr};
ghost use Rattle.expressions.specs.Conditions.{postfix};
ghost use Rattle.expressions.specs.Truth.{truth as value_of_lem};
ghost use Rattle.sources.specs.Answers.{steps_of};
ghost use Rattle.truth.specs.Worked.{env_of, one};

use expressions::condition::{Condition, Step};
use names::index_of;
use stack_machine::{Interpretation, Stack, work_out};
use std::convert::Infallible;

// Is `name` defined? `flags` tell it of `names`, in their order.
pub fn is_defined(name: &[u8], names: &[&[u8]], flags: &[bool]) -> bool
    ensures { result ≡ env_of (texts names.now) flags.now name.now }
{
    match index_of(names, name) {
        Some(i) => i < flags.len() && flags[i],
        None => false,
    }
}

// The names with an entry, and the flags that tell which of them are defined.
#[derive(Clone, Copy)]
struct Defined<'a> {
    names: &'a [&'a [u8]],
    flags: &'a [bool],
}

// The values of the steps, none of which is refused.
impl Interpretation<()> for Defined<'_> {
    type Value = bool;

    type Error = Infallible;

    ghost gives = { λ by i a b s r t. r ≡ Ok (one i (env_of (texts by.names.now) by.flags.now) a b) };

    ghost goes = { λ s t. ⊤ };

    fn apply(&self, step: Step<'_>, a: bool, b: bool, _state: &mut ()) -> Result<bool, Infallible> {
        Ok(match step {
            Step::Never => false,
            Step::Always => true,
            Step::Defined(name) => is_defined(name, self.names, self.flags),
            Step::Not => !a,
            Step::And => a && b,
            Step::Or => a || b,
        })
    }

    ghost goes_nowhere = { λ s. tt };

    ghost goes_on = { λ s t u p q. tt };
}

// Does the condition hold, where `flags` tell which of `names` are defined?
pub fn holds(condition: &Condition<'_>, names: &[&[u8]], flags: &[bool]) -> bool
    ensures { (e : Expr) → steps_of condition.now ≡ postfix e → result ≡ value_of_lem e (env_of (texts names.now) flags.now) }
{
    let by = Defined { names, flags };
    match work_out(&by, condition, Stack::new(), &mut ()) {
        Ok(value) => value,
        Err(refusal) => match refusal {},
    }
}
