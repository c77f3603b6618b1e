// Why rule lines are refused.
ghost use Rattle.std.specs.Prelude.{◌≡◌};
ghost use Rattle.rulelines.specs.Faults.{described};
ghost use Rattle.rulelines.specs.declared.fault.RuleFault.TheVariants.{Expression};

use expressions::fault::ExpressionFault;
use faults::{Layer, Refusal};
use stores::fault::StoreFault;

#[derive(Clone, Copy, PartialEq, Eq, Debug)]
pub enum RuleFault {
    // the store's own refusal, with the line being read, 0 outside the lines
    Store { fault: StoreFault, line: usize },
    Expression(ExpressionFault),
    // a line that is neither `switch`, `rule` nor `begin`, or a `switch` line behind the first other line
    Misplaced { line: usize },
    DeclaredTwice { line: usize },
    Undeclared { line: usize },
    // the names handed in are not one for each switch, or two are alike
    Names,
    NoBegin,
}

impl From<ExpressionFault> for RuleFault {
    ghost from_gives = { λ f r. r ≡ Expression f };

    fn from(f: ExpressionFault) -> RuleFault {
        RuleFault::Expression(f)
    }
}

// All that is wrong with the declarations themselves has one number.
const DECLARATIONS: u32 = 23;

impl From<RuleFault> for Refusal {
    ghost from_gives = { λ f r. r ≡ described f };

    fn from(fault: RuleFault) -> Refusal {
        let line = match fault {
            RuleFault::Store { fault, line } => return fault.refusal(line),
            RuleFault::Expression(fault) => return fault.into(),
            RuleFault::Misplaced { line }
            | RuleFault::DeclaredTwice { line }
            | RuleFault::Undeclared { line } => line,
            RuleFault::Names | RuleFault::NoBegin => 0,
        };
        Refusal {
            number: DECLARATIONS,
            layer: Layer::Rules,
            line,
            byte: 0,
        }
    }
}
