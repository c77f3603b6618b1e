// The bytes of a line: their classes, and the tokens that they make. Uses nothing.
// Promises: the class of every byte, and of every line its tokens in order, each with its place.
#![tactic(auto)]

ghost use Rattle.std.specs.Prelude.{◌≡◌};
ghost use Rattle.text.specs.Classes.{class_of};

mod scanner;

use Class::{Blank as B, Digit as D, Letter as L, Mark as M, Other as O};
pub use scanner::{Part, Token, Tokens, behind_comment, is, run, word_byte};

#[derive(Clone, Copy, PartialEq, Eq, Debug)]
pub enum Class {
    Letter,
    Digit,
    Blank,
    Mark,
    Other,
}

// The class of each byte, sixteen to a row.
#[rattlefmt::skip]
static CLASS: [Class; 256] = [
    O, O, O, O, O, O, O, O, O, B, O, B, B, B, O, O,
    O, O, O, O, O, O, O, O, O, O, O, O, O, O, O, O,
    B, M, O, O, O, O, M, O, M, M, O, O, O, O, O, O,
    D, D, D, D, D, D, D, D, D, D, O, O, O, O, O, O,
    O, L, L, L, L, L, L, L, L, L, L, L, L, L, L, L,
    L, L, L, L, L, L, L, L, L, L, L, O, O, O, O, L,
    O, L, L, L, L, L, L, L, L, L, L, L, L, L, L, L,
    L, L, L, L, L, L, L, L, L, L, L, O, M, O, O, O,
    O, O, O, O, O, O, O, O, O, O, O, O, O, O, O, O,
    O, O, O, O, O, O, O, O, O, O, O, O, O, O, O, O,
    O, O, O, O, O, O, O, O, O, O, O, O, O, O, O, O,
    O, O, O, O, O, O, O, O, O, O, O, O, O, O, O, O,
    O, O, O, O, O, O, O, O, O, O, O, O, O, O, O, O,
    O, O, O, O, O, O, O, O, O, O, O, O, O, O, O, O,
    O, O, O, O, O, O, O, O, O, O, O, O, O, O, O, O,
    O, O, O, O, O, O, O, O, O, O, O, O, O, O, O, O,
];

pub fn class_of(b: u8) -> Class
    ensures { result ≡ class_of b }
{
    CLASS[b as usize]
}
