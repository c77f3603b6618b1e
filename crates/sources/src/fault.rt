// Why a source is refused.
ghost use Rattle.std.specs.Prelude.{◌≡◌};
ghost use Rattle.sources.specs.Faults.{line_fault, conditional_fault, described};
ghost use Rattle.sources.specs.declared.fault.LineFault.TheVariants.{Line as FaultyLine};
ghost use Rattle.sources.specs.declared.fault.SourceFault.TheVariants.{Lines, Expression, Conditionals};

use expressions::fault::ExpressionFault;
use faults::{Layer, Refusal};

#[derive(Clone, Copy, PartialEq, Eq, Debug)]
pub enum LineFault {
    // more bytes or lines than a source may have
    TooLarge,
    Line { reason: LineReason, line: usize },
}

// Why a line cannot stand in a source, each with its number.
#[derive(Clone, Copy, PartialEq, Eq, Debug)]
pub enum LineReason {
    // the line's last byte that is no blank is a backslash
    Continued = 9,
    // a block comment is open behind a conditional directive, a line of `#` alone, or the source
    CommentOpen = 10,
    // `#` stands first behind the comment that the line began in
    HashBehindComment = 11,
}

impl LineReason {
    // The fault of the line of that number.
    pub fn on(self, line: usize) -> LineFault
        ensures { result ≡ FaultyLine self line }
    {
        LineFault::Line { reason: self, line }
    }
}

#[derive(Clone, Copy, PartialEq, Eq, Debug)]
pub struct ConditionalFault {
    pub reason: ConditionalReason,
    pub line: usize,
}

// Why a conditional or a name cannot stand on its line, each with its number.
#[derive(Clone, Copy, PartialEq, Eq, Debug)]
pub enum ConditionalReason {
    // `elif`, `else` or `endif` outside a chain, or `elif` or `else` behind `else`
    OutsideChain = 17,
    TooManyChains = 18,
    TooManyBlocks = 19,
    TooManyNames = 20,
    // a chain is open behind the last line
    ChainOpen = 21,
}

impl ConditionalReason {
    // The fault on the line of that number.
    pub fn on(self, line: usize) -> ConditionalFault
        ensures { result ≡ record { reason = self; line = line } }
    {
        ConditionalFault { reason: self, line }
    }
}

#[derive(Clone, Copy, PartialEq, Eq, Debug)]
pub enum SourceFault {
    Lines(LineFault),
    Expression(ExpressionFault),
    Conditionals(ConditionalFault),
}

impl From<LineFault> for SourceFault {
    ghost from_gives = { λ f r. r ≡ Lines f };

    fn from(f: LineFault) -> SourceFault {
        SourceFault::Lines(f)
    }
}

impl From<ExpressionFault> for SourceFault {
    ghost from_gives = { λ f r. r ≡ Expression f };

    fn from(f: ExpressionFault) -> SourceFault {
        SourceFault::Expression(f)
    }
}

impl From<ConditionalFault> for SourceFault {
    ghost from_gives = { λ f r. r ≡ Conditionals f };

    fn from(f: ConditionalFault) -> SourceFault {
        SourceFault::Conditionals(f)
    }
}

// `TooLarge` stands beside a case with fields, so its number stands here.
impl From<LineFault> for Refusal {
    ghost from_gives = { λ f r. r ≡ line_fault f };

    fn from(f: LineFault) -> Refusal {
        let (number, line) = match f {
            LineFault::TooLarge => (8, 0),
            LineFault::Line { reason, line } => (reason as u32, line),
        };
        Refusal {
            number,
            layer: Layer::Lines,
            line,
            byte: 0,
        }
    }
}

impl From<ConditionalFault> for Refusal {
    ghost from_gives = { λ f r. r ≡ conditional_fault f };

    fn from(f: ConditionalFault) -> Refusal {
        Refusal {
            number: f.reason as u32,
            layer: Layer::Conditionals,
            line: f.line,
            byte: 0,
        }
    }
}

impl From<SourceFault> for Refusal {
    ghost from_gives = { λ f r. r ≡ described f };

    fn from(f: SourceFault) -> Refusal {
        match f {
            SourceFault::Lines(fault) => fault.into(),
            SourceFault::Expression(fault) => fault.into(),
            SourceFault::Conditionals(fault) => fault.into(),
        }
    }
}
