// Reads the tokens of a line by recursive descent, and writes the steps of the condition that they make.
ghost use Rattle.std.specs.Prelude.{◌≡◌, suc, ◌+◌, ◌-◌, ◌<◌, ◌≤◌, [], ◌∷◌, length, take, drop, MatchResult};
ghost use Rattle.text.specs.Pulling.{place, bytes, place_or};
ghost use Rattle.expressions.specs.declared.fault.ExpressionFault.TheVariants.{Token as TokenAt};
ghost use Rattle.expressions.specs.Grammar.{Expr, closing, name_due, term as term_of, ands_of, expr as expr_of, parsed};
ghost use Rattle.expressions.specs.Conditions.{item, kinds, postfix};
ghost use Rattle.expressions.specs.Operands.{Short, RefusesLong};
ghost use Rattle.parser.specs.Ahead.{from};

use arrayvec::ArrayVec;
use expressions::condition::{MAX_LINE, Step};
use expressions::fault::{ExpressionFault, TokenFault};
use expressions::operand::Operand;
use text::{Token, Tokens};

// How many of `!` and `(` may stand around one place.
const MAX_LEVELS: usize = 16;

// What is read of a line, and the steps written for it.
#[derive(Drop)]
pub struct Parser<'a> {
    tokens: Tokens<'a>,
    // the first token that is not read yet
    token: Token<'a>,
    // the line's number
    number: usize,
    pub steps: ArrayVec<Step<'a>, MAX_LINE>,
    // the current token is a part of the line at its place, and there is room for a step of each token ahead
    ghost at: { place token ≡ place_or (suc (length tokens.line.now)) (from token tokens) },
    ghost part: { bytes token ≡ take (length (bytes token)) (drop (place token - 1) tokens.line.now) },
    ghost room: { length steps.items + length (from token tokens) ≤ 255 },
}

impl<'a> Parser<'a> {
    ghost use Rattle.parser.specs.Parsing.{name_first, ahead, Begun, Run, Advanced, Outcome, Completed};

    // At the operand's first token, unless its line is too long.
    pub fn new(operand: Operand<'a>) -> Result<Parser<'a>, ExpressionFault>
        ensures long { RefusesLong operand.entry result }
        ensures begun { MatchResult result (λ p. Short operand.entry × Begun operand.entry p) (λ f. 255 < length operand.entry.line.now) }
    {
        let mut tokens = operand.tokens()?;
        let token = tokens.next();
        Ok(Parser {
            tokens,
            token,
            number: operand.number,
            steps: ArrayVec::new(),
        })
    }

    // All that is ahead, which has to be one expression.
    pub fn complete(&mut self) -> Result<(), ExpressionFault>
        ensures { Completed self.old self.new result (parsed (kinds (ahead self.old))) }
    {
        self.expression(MAX_LEVELS)?;
        match self.token {
            Token::End(_) => Ok(()),
            _ => Err(self.fault(TokenFault::WrongToken)),
        }
    }

    fn advance(&mut self)
        requires { 0 < length (ahead self.old) }
        ensures { Advanced self.old self.new }
    {
        self.token = self.tokens.next();
    }

    fn emit(&mut self, step: Step<'a>)
        requires { length self.old.steps.items + length (ahead self.old) < 255 }
        ensures { Run self.old self.new [] (item step.entry ∷ []) }
    {
        self.steps.push(step);
    }

    fn fault(&self, reason: TokenFault) -> ExpressionFault
        ensures { result ≡ TokenAt reason self.now.number (place self.now.token) }
    {
        ExpressionFault::at(reason, self.number, self.token)
    }

    // A closing parenthesis, which gives no step.
    fn close(&mut self) -> Result<(), ExpressionFault>
        ensures { (e : Expr) → Outcome (λ _. []) self.old self.new result (closing e (kinds (ahead self.old))) }
    {
        match self.token {
            Token::Close(_) => {
                self.advance();
                Ok(())
            }
            _ => Err(self.fault(TokenFault::WrongToken)),
        }
    }

    fn name(&mut self) -> Result<(), ExpressionFault>
        ensures { Outcome postfix self.old self.new result (name_first (kinds (ahead self.old))) }
    {
        match self.token {
            Token::Name(part) => {
                self.advance();
                self.emit(Step::Defined(part.text));
                Ok(())
            }
            _ => Err(self.fault(TokenFault::NameDue)),
        }
    }

    // What stands behind `defined`.
    fn defined(&mut self) -> Result<(), ExpressionFault>
        ensures { Outcome postfix self.old self.new result (name_due (kinds (ahead self.old))) }
    {
        match self.token {
            Token::Open(_) => {
                self.advance();
                self.name()?;
                self.close()
            }
            _ => self.name(),
        }
    }

    // A term, inside which `left` more of `!` and `(` may stand around one place.
    #[cycle(ands_expression_term)]
    fn term(&mut self, left: usize) -> Result<(), ExpressionFault>
        ensures { Outcome postfix self.old self.new result (term_of left (kinds (ahead self.old))) }
    {
        match self.token {
            Token::Zero(_) => {
                self.advance();
                self.emit(Step::Never);
                Ok(())
            }
            Token::One(_) => {
                self.advance();
                self.emit(Step::Always);
                Ok(())
            }
            Token::Defined(_) => {
                self.advance();
                self.defined()
            }
            Token::Not(_) => {
                if left == 0 {
                    return Err(self.fault(TokenFault::TooDeep));
                }
                self.advance();
                self.term(left - 1)?;
                self.emit(Step::Not);
                Ok(())
            }
            Token::Open(_) => {
                if left == 0 {
                    return Err(self.fault(TokenFault::TooDeep));
                }
                self.advance();
                self.expression(left - 1)?;
                self.close()
            }
            Token::Name(_) => Err(self.fault(TokenFault::BareName)),
            Token::And(_) | Token::Or(_) | Token::Close(_) | Token::Other(_) | Token::End(_) => Err(
                self.fault(TokenFault::WrongToken),
            ),
        }
    }

    // Terms joined by `&&`.
    #[cycle(ands_expression_term)]
    fn ands(&mut self, left: usize) -> Result<(), ExpressionFault>
        ensures { Outcome postfix self.old self.new result (ands_of left (kinds (ahead self.old))) }
    {
        self.term(left)?;
        while let Token::And(_) = self.token {
            self.advance();
            self.term(left)?;
            self.emit(Step::And);
        }
        Ok(())
    }

    // These joined by `||`. Stays beside `ands`: one function for both would take the part's reader as a closure, and these three call one another.
    #[cycle(ands_expression_term)]
    fn expression(&mut self, left: usize) -> Result<(), ExpressionFault>
        ensures { Outcome postfix self.old self.new result (expr_of left (kinds (ahead self.old))) }
    {
        self.ands(left)?;
        while let Token::Or(_) = self.token {
            self.advance();
            self.ands(left)?;
            self.emit(Step::Or);
        }
        Ok(())
    }
}
