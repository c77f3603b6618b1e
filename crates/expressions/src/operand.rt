// Reading from a line: its tokens, and, where no condition may stand, one name, a name and whatever is behind it, or nothing.
ghost use Rattle.std.specs.Prelude.{◌≡◌, ◌-◌, ◌<◌, length, take, drop, IfOk, MatchResult};
ghost use Rattle.text.specs.Pulling.{left};
ghost use Rattle.expressions.specs.Conditions.{only_name, first_name, nothing_at};
ghost use Rattle.expressions.specs.Operands.{tokens_in, Short, RefusesLong};
ghost use Rattle.expressions.specs.Answers.{Named, Empty};

use crate::condition::MAX_LINE;
use crate::fault::{ExpressionFault, TokenFault};
use text::{Part, Token, Tokens};

// What stands in a line from offset `from` on, where comments may be known. The line comes without its line feed; faults name it by its number.
#[derive(Clone, Copy)]
pub struct Operand<'a> {
    pub line: &'a [u8],
    pub from: usize,
    pub comments: bool,
    pub number: usize,
}

impl<'a> Operand<'a> {
    // The tokens there, unless the line is too long.
    pub fn tokens(self) -> Result<Tokens<'a>, ExpressionFault>
        ensures long { RefusesLong self.entry result }
        ensures short { MatchResult result (λ t. Short self.entry) (λ f. 255 < length self.entry.line.now) }
        ensures left { IfOk result (λ t. left t ≡ tokens_in self.entry) }
        ensures line { IfOk result (λ t. t.line ≡ self.entry.line) }
    {
        if self.line.len() > MAX_LINE {
            Err(ExpressionFault::LineTooLong { line: self.number })
        } else {
            Ok(Tokens::new(self.line, self.from, self.comments))
        }
    }

    // The one name that stands there.
    pub fn only_name(self) -> Result<Part<'a>, ExpressionFault>
        ensures long { RefusesLong self.entry result }
        ensures reads { let o = self.entry in Short o → Named o.line.now (tokens_in o) o.number (only_name o.comments o.line.now o.from) result }
        ensures part { IfOk result (λ p. p.text.now ≡ take (length p.text.now) (drop (p.at - 1) self.entry.line.now)) }
    {
        let mut tokens = self.tokens()?;
        match tokens.next() {
            Token::Name(name) => match tokens.next() {
                Token::End(_) => Ok(name),
                token => Err(ExpressionFault::at(TokenFault::WrongToken, self.number, token)),
            },
            token => Err(ExpressionFault::at(TokenFault::NameDue, self.number, token)),
        }
    }

    // The name that stands first there, whatever is behind it.
    pub fn first_name(self) -> Result<Part<'a>, ExpressionFault>
        ensures long { RefusesLong self.entry result }
        ensures reads { let o = self.entry in Short o → Named o.line.now (tokens_in o) o.number (first_name o.comments o.line.now o.from) result }
        ensures part { IfOk result (λ p. p.text.now ≡ take (length p.text.now) (drop (p.at - 1) self.entry.line.now)) }
    {
        let mut tokens = self.tokens()?;
        match tokens.next() {
            Token::Name(name) => Ok(name),
            token => Err(ExpressionFault::at(TokenFault::NameDue, self.number, token)),
        }
    }

    // That nothing stands there.
    pub fn nothing(self) -> Result<(), ExpressionFault>
        ensures long { RefusesLong self.entry result }
        ensures reads { let o = self.entry in Short o → Empty o.number (nothing_at o.comments o.line.now o.from) result }
    {
        let mut tokens = self.tokens()?;
        match tokens.next() {
            Token::End(_) => Ok(()),
            token => Err(ExpressionFault::at(TokenFault::WrongToken, self.number, token)),
        }
    }
}
