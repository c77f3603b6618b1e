// Reading the lines of a source one by one, for whatever is done with them: what each line is, and its refusal among 9 to 21. Uses `sources` and `conditionals`.
// Promises: the line and the shape behind it are those of the definition, or the refusal is, and then the shape is as it was.
#![tactic(auto)]

ghost use Rattle.reading.specs.Lines.{LineOutcome};

use classification::classify;
use conditionals::Shape;
use sources::fault::SourceFault;
use sources::line::Line;
use sources::place::SourceLine;

// Reads the line, where `shape` is what the lines before it leave open.
pub fn read_line<'a>(shape: &mut Shape<'a>, line: &SourceLine<'a>) -> Result<Line<'a>, SourceFault>
    ensures { LineOutcome line.now shape.old shape.new result }
{
    let read = classify(line)?;
    shape.read(&read, line)?;
    Ok(read)
}
