// Why a line is no condition, by rising number.
ghost use Rattle.std.specs.Prelude.{◌≡◌};
ghost use Rattle.text.specs.Pulling.{place};
ghost use Rattle.expressions.specs.declared.fault.ExpressionFault.TheVariants.{Token as TokenAt};

use faults::{Layer, Refusal};
use text::Token;

// Each names its line.
#[derive(Clone, Copy, PartialEq, Eq, Debug)]
pub enum ExpressionFault {
    // the line is longer than a line with a condition may be
    LineTooLong {
        line: usize,
    },
    // the token that begins at this byte, or the end one past the line, cannot go on
    Token {
        reason: TokenFault,
        line: usize,
        byte: usize,
    },
}

// Why a token cannot go on, each with its number.
#[derive(Clone, Copy, PartialEq, Eq, Debug)]
pub enum TokenFault {
    // a name must be there, and none or one that is not permitted is
    NameDue = 13,
    // another token that is wrong, missing or surplus
    WrongToken = 14,
    // a name without `defined` where a term must be
    BareName = 15,
    // one more `!` or `(` than may stand around one place
    TooDeep = 16,
}

impl ExpressionFault {
    // The fault of a token that cannot go on in the line of that number.
    pub fn at(reason: TokenFault, line: usize, token: Token) -> ExpressionFault
        ensures { result ≡ TokenAt reason line (place token.entry) }
    {
        ExpressionFault::Token {
            reason,
            line,
            byte: token.part().at,
        }
    }
}

// `LineTooLong` stands beside a case with fields, so its number stands here.
impl From<ExpressionFault> for Refusal {
    ghost use Rattle.std.specs.Prelude.{◌≡◌};
    ghost use Rattle.expressions.specs.Faults.{described};

    ghost from_gives = { λ f r. r ≡ described f };

    fn from(fault: ExpressionFault) -> Refusal {
        match fault {
            ExpressionFault::LineTooLong { line } => Refusal {
                number: 12,
                layer: Layer::Lines,
                line,
                byte: 0,
            },
            ExpressionFault::Token { reason, line, byte } => Refusal {
                number: reason as u32,
                layer: Layer::Expression,
                line,
                byte,
            },
        }
    }
}
