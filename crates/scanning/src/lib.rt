// Scanning a C source: code, comments, strings and character literals, told apart byte by byte. Uses nothing.
// Promises: the mode behind every byte, and of every line whether it leaves a block comment open, as the law of comments and literals says.
#![tactic(auto)]

ghost use Rattle.std.specs.Prelude.{◌≡◌, Bool};
ghost use Rattle.scanning.specs.Modes.{begun, step, steps, open_in, open_after};
ghost use Rattle.scanning.specs.Pieces.{Scanned};

// What the next byte stands in. Where a byte alone does not tell, it is pending, in a mode of its own.
#[derive(Clone, Copy, PartialEq, Eq, Debug)]
pub enum Mode {
    // outside comments and literals
    Code,
    // behind a `/` of code, which may begin a comment
    Slash,
    // in a block comment
    Block,
    // behind a `*` of a block comment, which may end it
    Star,
    // in a line comment
    Line,
    // in a string
    Text,
    // behind a backslash of a string, which takes the next byte
    TextEscape,
    // in a character literal
    Character,
    // behind a backslash of a character literal, which takes the next byte
    CharacterEscape,
}

// Goes over the bytes of one line. The next line has a scanner of its own, since at a line's end all but a block comment return to code.
#[derive(PartialEq, Eq, Debug, Drop)]
pub struct Scanner {
    mode: Mode,
}

impl Scanner {
    // At the beginning of a line, inside a block comment or in code.
    pub fn new(in_comment: bool) -> Scanner
        ensures { result.mode ≡ begun in_comment }
    {
        Scanner {
            mode: if in_comment { Mode::Block } else { Mode::Code },
        }
    }

    // Goes over one byte.
    pub fn step(&mut self, byte: u8)
        ensures { self.new.mode ≡ step self.old.mode byte }
    {
        match (self.mode, byte) {
            (Mode::Code, b'/') => self.mode = Mode::Slash,
            (Mode::Code, b'"') => self.mode = Mode::Text,
            (Mode::Code, b'\'') => self.mode = Mode::Character,
            (Mode::Slash, b'*') => self.mode = Mode::Block,
            (Mode::Slash, b'/') => self.mode = Mode::Line,
            (Mode::Slash, b'"') => self.mode = Mode::Text,
            (Mode::Slash, b'\'') => self.mode = Mode::Character,
            (Mode::Slash, _) => self.mode = Mode::Code,
            (Mode::Block, b'*') => self.mode = Mode::Star,
            (Mode::Star, b'/') => self.mode = Mode::Code,
            (Mode::Star, b'*') => {}
            (Mode::Star, _) => self.mode = Mode::Block,
            (Mode::Text, b'"') => self.mode = Mode::Code,
            (Mode::Text, b'\\') => self.mode = Mode::TextEscape,
            (Mode::TextEscape, _) => self.mode = Mode::Text,
            (Mode::Character, b'\'') => self.mode = Mode::Code,
            (Mode::Character, b'\\') => self.mode = Mode::CharacterEscape,
            (Mode::CharacterEscape, _) => self.mode = Mode::Character,
            _ => {}
        }
    }

    // Goes over all bytes of a line, or of a part of it.
    pub fn line(&mut self, bytes: &[u8])
        ensures { self.new.mode ≡ steps self.old.mode bytes.now }
    {
        for byte in bytes {
            self.step(*byte);
        }
    }

    // Is a block comment open?
    pub fn in_comment(&self) -> bool
        ensures { result ≡ open_in self.now.mode }
    {
        matches!(self.mode, Mode::Block | Mode::Star)
    }
}

// Is a block comment open after a line that began inside one, or in code? A line feed at its end is a byte as any other. All that it needs of a line.
pub fn open_after(in_comment: bool, line: &[u8]) -> bool
    ensures value { result ≡ open_after in_comment line.now }
    ensures scanned { Scanned in_comment line.now result }
    ensures only { (b : Bool) → Scanned in_comment line.now b → b ≡ result }
{
    let mut scanner = Scanner::new(in_comment);
    scanner.line(line);
    scanner.in_comment()
}
