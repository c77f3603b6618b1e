// The preprocessing directive of a source line. Uses the bytes, runs and comments of `text`.
// Promises: of every line that begins in code which of the ten directives it is, if any, and where the directive's name ends; of every line whether `#`
// stands first, or alone, outside blanks and block comments, and whether its last byte outside blanks is a backslash.
//
// A line comes with its line feed as its last byte, if it has one. There it is left aside as a blank is.
#![tactic(auto)]

ghost use Rattle.std.specs.Prelude.{◌≡◌, false, ◌∷◌, drop, Some, Decides, MatchOption, ◌==◌};
ghost use Rattle.directives.specs.Gaps.{front};
ghost use Rattle.directives.specs.Directives.{past, hash, alone, named, found_in, conditional, final};
ghost use Rattle.directives.specs.Written.{Written, HashFirst, LoneHash, LastIs};

mod gap;
mod name;

pub use gap::after_gap;
use gap::{front_of, is_blank};
use name::directive_named;
use text::run;

// How a condition is written: `if EXPRESSION`, `ifdef NAME` or `ifndef NAME`.
#[derive(Clone, Copy, PartialEq, Eq, Debug)]
pub enum Form {
    Expression,
    Defined,
    Undefined,
}

#[derive(Clone, Copy, PartialEq, Eq, Debug)]
pub enum Directive {
    If(Form),
    Elif(Form),
    Else,
    Endif,
    Define,
    Undef,
}

impl Directive {
    // Does the directive open, divide or close a conditional?
    pub fn is_conditional(self) -> bool
        ensures { result ≡ conditional (Some self) }
    {
        matches!(
            self,
            Directive::If(_) | Directive::Elif(_) | Directive::Else | Directive::Endif
        )
    }
}

// A line's directive with the offset just behind its name.
#[derive(Clone, Copy, PartialEq, Eq, Debug)]
pub struct Found {
    pub directive: Directive,
    pub behind: usize,
}

// What stands behind the `#` that begins `text`, if one does.
fn after_hash(text: &[u8]) -> Option<&[u8]>
    ensures { MatchOption result (hash text.now ≡ false) (λ tail. text.now ≡ 35 ∷ tail.now) }
{
    match text {
        [b'#', tail @ ..] => Some(tail),
        _ => None,
    }
}

// The directive of a line that begins in code.
pub fn find(line: &[u8]) -> Option<Found>
    ensures value { result ≡ found_in line.now }
    ensures law { (f : Found) → (result ≡ Some f → Written line.now f) × (Written line.now f → result ≡ Some f) }
    ensures rest { (f : Found) → result ≡ Some f → drop f.behind line.now ≡ past (named line.now) }
{
    let tail = after_hash(after_gap(line))?;
    let text = after_gap(tail);
    let (name, rest) = text.split_at(run(text));
    let directive = directive_named(name)?;
    Some(Found {
        directive,
        behind: line.len() - rest.len(),
    })
}

// Is `#` the first byte outside blanks and block comments? The line may begin inside a block comment. These two know no place of a line in its source,
// so they take no more than they need of it.
pub fn begins_with_hash(line: &[u8], in_comment: bool) -> bool
    ensures value { result ≡ hash (front in_comment line.now) }
    ensures law { Decides result (HashFirst in_comment line.now) }
{
    after_hash(front_of(line, in_comment)).is_some()
}

// Is `#` the one byte outside blanks and block comments? The line may begin inside a block comment.
pub fn is_lone_hash(line: &[u8], in_comment: bool) -> bool
    ensures value { result ≡ alone (front in_comment line.now) }
    ensures law { Decides result (LoneHash in_comment line.now) }
{
    after_hash(front_of(line, in_comment)).is_some_and(|tail| after_gap(tail).is_empty())
}

// Is the line's last byte outside blanks a backslash?
pub fn ends_in_backslash(line: &[u8]) -> bool
    ensures value { result ≡ (final 0 line.now == 92) }
    ensures law { Decides result (LastIs 92 line.now) }
{
    line.iter().rev().find(|b| !is_blank(**b)) == Some(&b'\\')
}
