// What a rule line is, by its first word.
ghost use Rattle.std.specs.Prelude.{◌≡◌, ℕ, ◌+◌, ◌-◌, ◌^◌, ◌<◌, ◌≤◌, length};
ghost use Rattle.rulelines.specs.Kinds.{kind_of, by_word};

use text::{Part, Token, Tokens};

// A word's line has the offset behind the word.
#[derive(Clone, Copy, PartialEq, Eq, Debug)]
pub enum LineKind {
    Blank,
    Switch { behind: usize },
    Rule { behind: usize },
    Begin { behind: usize },
    Foreign,
}

fn by_word(word: Part<'_>) -> LineKind
    requires { word.at - 1 + length word.text.now < 2 ^ 64 }
    ensures { result ≡ by_word word.entry.text.now (word.entry.at - 1 + length word.entry.text.now) }
{
    let behind = word.at.saturating_sub(1) + word.text.len();
    match word.text {
        b"switch" => LineKind::Switch { behind },
        b"rule" => LineKind::Rule { behind },
        b"begin" => LineKind::Begin { behind },
        _ => LineKind::Foreign,
    }
}

// Comments are unknown in rules: one makes its line foreign.
pub fn kind_of(line: &[u8]) -> LineKind
    ensures { result ≡ kind_of line.now }
{
    let mut tokens = Tokens::new(line, 0, false);
    match tokens.next() {
        Token::End(_) => LineKind::Blank,
        Token::Name(word) => by_word(word),
        _ => LineKind::Foreign,
    }
}
