// Reading the `switch` lines.
ghost use Rattle.std.specs.Prelude.{◌≡◌, ℕ, ◌<◌};
ghost use Rattle.names.specs.Names.{texts};
ghost use Rattle.expressions.specs.Conditions.{only_name};
ghost use Rattle.expressions.specs.Placed.{read_in};
ghost use Rattle.rulelines.specs.declared.declaration.DeclarationFault.TheVariants.{Rules, OutOfMemory};
ghost use Rattle.rulelines.specs.Declarations.{NameOutcome, DeclarationsOutcome};

use crate::fault::RuleFault;
use crate::kind::{LineKind, kind_of};
use expressions::operand::Operand;
use lines::first_line;
use names::index_of;
use std::alloc::{AllocError, AllocFailed, Global};

// The names of the switches in order, how many lines were read, and the text from the first line of another kind on.
#[derive(Drop)]
pub struct Declarations<'a> {
    pub names: Vec<&'a [u8]>,
    pub lines: usize,
    pub rest: &'a [u8],
}

// A list of names grows with the text, so it may also find no memory, which is no refusal of the text.
#[derive(Clone, Copy, PartialEq, Eq, Debug)]
pub enum DeclarationFault {
    Rules(RuleFault),
    OutOfMemory,
}

impl From<RuleFault> for DeclarationFault {
    ghost from_gives = { λ f r. r ≡ Rules f };

    fn from(f: RuleFault) -> DeclarationFault {
        DeclarationFault::Rules(f)
    }
}

impl From<AllocError> for DeclarationFault {
    ghost from_gives = { λ _ r. r ≡ OutOfMemory };

    fn from(_e: AllocError) -> DeclarationFault {
        DeclarationFault::OutOfMemory
    }
}

impl<T: Drop> From<AllocFailed<T>> for DeclarationFault {
    ghost from_gives = { λ _ r. r ≡ OutOfMemory };

    fn from(_e: AllocFailed<T>) -> DeclarationFault {
        Self::OutOfMemory
    }
}

// The name of a `switch` line, which may not be one of those before it.
fn new_name<'a>(operand: Operand<'a>, names: &[&[u8]]) -> Result<&'a [u8], RuleFault>
    ensures { NameOutcome (texts names.now) operand.entry.number (read_in operand.entry.line.now operand.entry.number (only_name operand.entry.comments operand.entry.line.now operand.entry.from)) result }
{
    let name = operand.only_name()?;
    if index_of(names, name.text).is_some() {
        return Err(RuleFault::DeclaredTwice {
            line: operand.number,
        });
    }
    Ok(name.text)
}

// Reads the `switch` lines up to the first line of another kind, which is not looked at further.
pub fn read_switches<'a>(heap: Global, text: &'a [u8]) -> Result<Declarations<'a>, DeclarationFault>
    ensures { DeclarationsOutcome text.now result }
{
    let mut declared = Declarations {
        names: Vec::new(heap),
        lines: 0,
        rest: text,
    };
    // no `for`: what stands behind the last line read is a part of the answer
    while !declared.rest.is_empty() {
        let (line, behind) = first_line(declared.rest);
        let number = declared.lines.saturating_add(1);
        match kind_of(line) {
            LineKind::Blank => {}
            LineKind::Switch { behind: from } => {
                let operand = Operand {
                    line,
                    from,
                    comments: false,
                    number,
                };
                let name = new_name(operand, declared.names.as_slice())?;
                declared.names.push(name)?;
            }
            _ => break,
        }
        declared.lines = number;
        declared.rest = behind;
    }
    Ok(declared)
}
