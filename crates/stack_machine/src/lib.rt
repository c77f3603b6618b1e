// The steps of a condition worked out on a stack, whatever their values are. May use `text` and `expressions`.
// Promises: the operations in their order, operands first, left to right, and the first refusal among them.
#![tactic(auto)]

ghost use Rattle.std.specs.Prelude.{◌≡◌, ◌≤◌, [], Result, reverse};
ghost use Rattle.arrayvec.specs.ArrayVec.{array_vec_len};
ghost use Rattle.expressions.specs.Grammar.{Expr};
ghost use Rattle.expressions.specs.Conditions.{Item, item, items, postfix};
ghost use Rattle.stack_machine.specs.Works.{Answers, Works};
ghost use Rattle.stack_machine.specs.Stack.{first, rest, operands as operands_of, popped};

use arrayvec::ArrayVec;
use expressions::condition::{Condition, MAX_LINE, Step};

// The values that the steps so far have left, the newest last. A condition has at most so many steps, and each leaves one.
pub type Stack<T> = ArrayVec<T, MAX_LINE>;

// What the steps mean, over a state `S` that they may change.
pub trait Interpretation<S> {
    type Value: Copy + Default + Drop;

    type Error: Drop;

    // the answer of a step on its operands and the state that it leaves
    ghost gives: { Self → Item → Self.Value → Self.Value → S → Result Self.Value Self.Error → S → Type 0 };

    // how steps change the state, whatever they answer
    ghost goes: { S → S → Type 0 };

    // Works one step out. A constant and a name have no operand, and `!` has `a` alone.
    fn apply(
        &self,
        step: Step<'_>,
        a: Self::Value,
        b: Self::Value,
        state: &mut S,
    ) -> Result<Self::Value, Self::Error>
        ensures gives { gives self.now (item step.entry) a b state.old result state.new }
        ensures goes { goes state.old state.new };

    ghost goes_nowhere: { (s : S) → goes s s };

    ghost goes_on: { (s t u : S) → goes s t → goes t u → goes s u };
}

// Takes the newest value off; `idle` where there is none.
fn pop<T: Copy + Default + Drop>(stack: &mut Stack<T>, idle: T) -> T
    ensures value { result ≡ first idle (reverse stack.old.items) }
    ensures popped { reverse stack.new.items ≡ rest (reverse stack.old.items) }
    ensures len { array_vec_len stack.new ≤ array_vec_len stack.old }
{
    stack.pop().unwrap_or(idle)
}

// Takes the operands of a step off, with `idle` in the place of those that it does not have.
fn operands<T: Copy + Default + Drop>(step: Step<'_>, idle: T, stack: &mut Stack<T>) -> (T, T)
    ensures value { result ≡ operands_of idle (item step.entry) (reverse stack.old.items) }
    ensures popped { reverse stack.new.items ≡ popped (item step.entry) (reverse stack.old.items) }
    ensures len { array_vec_len stack.new ≤ array_vec_len stack.old }
{
    match step {
        Step::Not => (pop(stack, idle), idle),
        Step::And | Step::Or => {
            let b = pop(stack, idle);
            (pop(stack, idle), b)
        }
        _ => (idle, idle),
    }
}

// Works a condition out: operands first, left to right, no shortcuts. The answer is the value that its last step left.
// The caller, who knows how large a value is, makes the stack.
pub fn work_out<S, I: Interpretation<S>>(
    by: &I,
    condition: &Condition<'_>,
    mut stack: Stack<I::Value>,
    state: &mut S,
) -> Result<I::Value, I::Error>
    requires { stack.items ≡ [] }
    ensures works { (e : Expr) → items condition.now.steps.items ≡ postfix e → (idle : I.Value) × Works (I.gives by.now) idle e Answers state.old result state.new }
    ensures goes { I.goes state.old state.new }
{
    let idle = I::Value::default();
    for step in condition.steps() {
        let (a, b) = operands(*step, idle, &mut stack);
        let value = by.apply(*step, a, b, state)?;
        stack.push(value);
    }
    Ok(pop(&mut stack, idle))
}
