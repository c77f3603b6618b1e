// The tokens of a line, pulled one by one.
ghost use Rattle.std.specs.Prelude.{◌≡◌, suc, ◌-◌, ◌<◌, ◌≤◌, List, length, take, drop, Some};
ghost use Rattle.std.specs.Str.{bytes_eq};
ghost use Rattle.text.specs.Classes.{blank};
ghost use Rattle.text.specs.Tokens.{Placed, word_byte, tokens_at, front, gap, between, word as word_of, run as run_of};
ghost use Rattle.text.specs.Pulling.{part_of, bytes, place, placed, begins, in_comment, left, place_or, Pulls};
ghost use Rattle.text.specs.Reading.{Reads};

use crate::{Class, class_of};

// Some bytes of a line, and the place of the first, counted from 1.
#[derive(Clone, Copy)]
pub struct Part<'a> {
    pub text: &'a [u8],
    pub at: usize,
}

// A token with its part of the line; `End` has the empty part one past the line.
#[derive(Clone, Copy)]
pub enum Token<'a> {
    Zero(Part<'a>),
    One(Part<'a>),
    Defined(Part<'a>),
    Not(Part<'a>),
    And(Part<'a>),
    Or(Part<'a>),
    Open(Part<'a>),
    Close(Part<'a>),
    Name(Part<'a>),
    // a byte or a run that is no token of the grammar
    Other(Part<'a>),
    End(Part<'a>),
}

impl<'a> Token<'a> {
    // The part of the line that the token takes.
    pub fn part(self) -> Part<'a>
        ensures { result ≡ part_of self.entry }
    {
        match self {
            Token::Zero(part)
            | Token::One(part)
            | Token::Defined(part)
            | Token::Not(part)
            | Token::And(part)
            | Token::Or(part)
            | Token::Open(part)
            | Token::Close(part)
            | Token::Name(part)
            | Token::Other(part)
            | Token::End(part) => part,
        }
    }
}

// How long a name may be.
const NAME_MAX: usize = 63;

// Is `name` this word?
pub fn is(name: &[u8], word: &[u8]) -> bool
    ensures { result ≡ bytes_eq name.now word.now }
{
    name == word
}

fn blank_byte(b: u8) -> bool
    ensures { result ≡ blank b }
{
    class_of(b) == Class::Blank
}

// Is `b` a letter or a digit?
pub fn word_byte(b: u8) -> bool
    ensures { result ≡ word_byte b }
{
    matches!(class_of(b), Class::Letter | Class::Digit)
}

// What the run of letters and digits `part` is.
fn word<'a>(part: Part<'a>) -> Token<'a>
    requires { 0 < length part.text.now }
    ensures placed { placed result ≡ Some (word_of part.entry.text.now, part.entry.at) }
    ensures part { part_of result ≡ part.entry }
{
    if class_of(part.text[0]) == Class::Digit {
        if is(part.text, b"0") {
            Token::Zero(part)
        } else if is(part.text, b"1") {
            Token::One(part)
        } else {
            Token::Other(part)
        }
    } else if is(part.text, b"defined") {
        Token::Defined(part)
    } else if part.text.len() <= NAME_MAX {
        Token::Name(part)
    } else {
        Token::Other(part)
    }
}

// How many bytes in front are letters and digits.
pub fn run(s: &[u8]) -> usize
    ensures front { take result s.now ≡ run_of s.now }
    ensures within { result ≤ length s.now }
{
    s.iter().position(|b| !word_byte(*b)).unwrap_or(s.len())
}

// The first `len` bytes of `rest`, which stands at `at` of its line.
fn cut<'a>(rest: &'a [u8], len: usize, at: usize) -> Part<'a>
    requires { len ≤ length rest.now }
    ensures text { result.text.now ≡ take len rest.now }
    ensures at { result.at ≡ at }
{
    Part {
        text: &rest[..len],
        at,
    }
}

// The token that begins `rest`, which stands at `at` of its line.
fn first_token<'a>(rest: &'a [u8], at: usize) -> Token<'a>
    ensures placed { placed result ≡ begins at rest.now }
    ensures text { bytes result ≡ take (front rest.now).1 rest.now }
    ensures at { place result ≡ at }
{
    match rest {
        [] => Token::End(cut(rest, 0, at)),
        [b'!', ..] => Token::Not(cut(rest, 1, at)),
        [b'(', ..] => Token::Open(cut(rest, 1, at)),
        [b')', ..] => Token::Close(cut(rest, 1, at)),
        [b'&', b'&', ..] => Token::And(cut(rest, 2, at)),
        [b'|', b'|', ..] => Token::Or(cut(rest, 2, at)),
        [first, ..] if word_byte(*first) => word(cut(rest, run(rest), at)),
        [_, ..] => Token::Other(cut(rest, 1, at)),
    }
}

// What is left behind the end of the block comment that `text` is in; nothing where it has no end.
pub fn behind_comment<'a>(text: &'a [u8]) -> &'a [u8]
    ensures { result.now ≡ drop (in_comment text.now) text.now }
{
    let mut rest = text;
    loop {
        match rest {
            [b'*', b'/', behind @ ..] => return behind,
            [_, tail @ ..] => rest = tail,
            [] => return rest,
        }
    }
}

// What is left behind the blanks in front and, where they are known, the comments.
fn behind_gap<'a>(text: &'a [u8], comments: bool) -> &'a [u8]
    ensures { result.now ≡ drop (gap comments between text.now) text.now }
{
    let mut rest = text;
    loop {
        match rest {
            [b'/', b'*', inside @ ..] if comments => rest = behind_comment(inside),
            [b'/', b'/', ..] if comments => return &[],
            [first, tail @ ..] if blank_byte(*first) => rest = tail,
            _ => return rest,
        }
    }
}

// What is left of the line from offset `from` on; nothing past its end.
fn behind<'a>(line: &'a [u8], from: usize) -> &'a [u8]
    ensures { result.now ≡ drop from line.now }
{
    line.get(from..).unwrap_or_default()
}

// The tokens of a line from some offset on, where comments are known or not.
#[derive(Clone, Copy)]
pub struct Tokens<'a> {
    line: &'a [u8],
    next: usize,
    comments: bool,
}

impl<'a> Tokens<'a> {
    // The tokens behind the first `from` bytes, which are those that the rules read there.
    pub fn new(line: &'a [u8], from: usize, comments: bool) -> Tokens<'a>
        ensures left { left result ≡ tokens_at comments line.now from }
        ensures line { result.line ≡ line.entry }
        ensures comments { result.comments ≡ comments }
        ensures reads { Reads comments (suc from) (drop from line.now) (left result) }
        ensures only { (ps : List Placed) → Reads comments (suc from) (drop from line.now) ps → ps ≡ left result }
    {
        Tokens {
            line,
            next: from,
            comments,
        }
    }

    // Pulls the next token; at the line's end that is `End`, however often it is asked.
    pub fn next(&mut self) -> Token<'a>
        ensures token { Pulls (placed result) (left self.old) (left self.new) }
        ensures place { place result ≡ place_or (suc (length self.old.line.now)) (left self.old) }
        ensures part { bytes result ≡ take (length (bytes result)) (drop (place result - 1) self.old.line.now) }
        ensures within { place result ≤ suc (length self.old.line.now) }
        ensures extent { bytes result ≡ take (front (drop (place result - 1) self.old.line.now)).1 (drop (place result - 1) self.old.line.now) }
        ensures line { self.new.line ≡ self.old.line }
        ensures comments { self.new.comments ≡ self.old.comments }
    {
        let rest = behind_gap(behind(self.line, self.next), self.comments);
        let start = self.line.len() - rest.len();
        let token = first_token(rest, start + 1);
        self.next = start + token.part().text.len();
        token
    }
}
