// Reading a condition from a line. Uses the tokens of `text`, and the grammar, the steps and the faults of `expressions`.
// Promises: a condition is read exactly where the grammar derives one, with its steps, and a fault has the number and the place of the first token that
// cannot go on.
#![tactic(auto)]

ghost use Rattle.expressions.specs.Conditions.{condition_at};
ghost use Rattle.expressions.specs.Operands.{tokens_in, Short, RefusesLong};
ghost use Rattle.expressions.specs.Answers.{Answered, Conforms};
ghost use Rattle.expressions.specs.Derived.{Exact, OneOnly, AtFirst, Numbered};
ghost use Rattle.expressions.specs.Examples.{Examples};

mod descent;

use descent::Parser;
use expressions::condition::Condition;
use expressions::fault::ExpressionFault;
use expressions::operand::Operand;

// The condition that stands there, where comments may be known. The line comes without its line feed; faults name it by its number.
pub fn condition<'a>(operand: Operand<'a>) -> Result<Condition<'a>, ExpressionFault>
    ensures long { RefusesLong operand.entry result }
    ensures reads { let o = operand.entry in Short o → Answered o.line.now o.number (condition_at o.comments o.line.now o.from) result }
    ensures grammar { let o = operand.entry in Short o → Conforms o.line.now (tokens_in o) result }
    ensures exact { Exact }
    ensures one { OneOnly }
    ensures place { AtFirst }
    ensures number { Numbered }
    ensures examples { Examples }
{
    let mut parser = Parser::new(operand)?;
    parser.complete()?;
    Ok(Condition {
        line: operand.line,
        steps: parser.steps,
    })
}
