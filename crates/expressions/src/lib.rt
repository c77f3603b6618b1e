// Conditions: the grammar of the expressions in rules and directives, the steps that a condition is worked out by, the faults of a line with one, and
// reading a line that may have one name only, or nothing. Uses the tokens of `text`, and `faults`.
// Promises: reading by the definitions is exact, and each refusal is at the first token that cannot go on, with the number that what is due there gives.
#![tactic(auto)]

ghost use Rattle.expressions.specs.Derived.{Exact, OneOnly, AtFirst, Numbered};
ghost use Rattle.expressions.specs.Examples.{Examples};

pub mod condition;
pub mod fault;
pub mod operand;

// Holds no work: its contract is the laws of the grammar.
pub fn grammar_law()
    ensures exact { Exact }
    ensures one { OneOnly }
    ensures place { AtFirst }
    ensures number { Numbered }
    ensures examples { Examples }
{}
