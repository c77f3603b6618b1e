// What a line of a C source is, by itself. Uses the tokens and conditions of the crates below it, the scanner, the directives and the lines of `sources`.
// Promises: of every line the directive with its condition or name, or that it is plain, or the refusal with its number and place.
#![tactic(auto)]

ghost use Rattle.std.specs.Prelude.{◌≡◌, true, cond, ◌&&◌, ◌||◌, [], ◌∷◌, if◌then◌else◌, None, IfOk};
ghost use Rattle.expressions.specs.Conditions.{name_item, not-item};
ghost use Rattle.expressions.specs.Placed.{read_in};
ghost use Rattle.scanning.specs.Modes.{open_after};
ghost use Rattle.directives.specs.Gaps.{front};
ghost use Rattle.directives.specs.Directives.{hash, alone, found_in};
ghost use Rattle.sources.specs.Lines.{content as content_of};
ghost use Rattle.sources.specs.Classified.{condition_of, made, classified};
ghost use Rattle.sources.specs.Answers.{steps_of, Classifies};
ghost use Rattle.classification.specs.Parts.{conditional_at, checked_line, Tests, Makes};

use arrayvec::ArrayVec;
use directives::{Directive, Form, Found, begins_with_hash, ends_in_backslash, find, is_lone_hash};
use expressions::condition::{Condition, Step};
use expressions::fault::ExpressionFault;
use expressions::operand::Operand;
use parser::condition;
use scanning::open_after;
use sources::fault::{LineFault, LineReason, SourceFault};
use sources::line::{Line, content};
use sources::place::SourceLine;

// The line's directive; it has none where it begins inside a block comment.
fn directive_of(line: &SourceLine<'_>) -> Option<Found>
    ensures { result ≡ cond line.now.in_comment None (found_in line.now.text.now) }
{
    if line.in_comment {
        None
    } else {
        find(line.text)
    }
}

fn is_conditional(found: Option<Found>) -> bool
    ensures { result ≡ conditional_at found }
{
    found.is_some_and(|found| found.directive.is_conditional())
}

// Does the line leave a block comment open where none may be?
fn leaves_comment_open(line: &SourceLine<'_>, conditional: bool) -> bool
    ensures { result ≡ (open_after line.now.in_comment line.now.text.now && (line.now.last || (conditional || alone (front line.now.in_comment line.now.text.now)))) }
{
    open_after(line.in_comment, line.text)
        && (line.last || conditional || is_lone_hash(line.text, line.in_comment))
}

// Does `#` stand first behind the comment that the line began in?
fn hash_behind_comment(line: &SourceLine<'_>) -> bool
    ensures { result ≡ (line.now.in_comment && hash (front line.now.in_comment line.now.text.now)) }
{
    line.in_comment && begins_with_hash(line.text, line.in_comment)
}

// What is refused whatever stands behind a directive's name, by rising number.
fn check_line(line: &SourceLine<'_>, conditional: bool) -> Result<(), LineFault>
    ensures { result ≡ checked_line line.now.last line.now.in_comment line.now.number conditional line.now.text.now }
{
    if ends_in_backslash(line.text) {
        Err(LineReason::Continued.on(line.number))
    } else if leaves_comment_open(line, conditional) {
        Err(LineReason::CommentOpen.on(line.number))
    } else if hash_behind_comment(line) {
        Err(LineReason::HashBehindComment.on(line.number))
    } else {
        Ok(())
    }
}

// That the name, which stands in the line, is defined, or that it is not.
fn name_condition<'a>(line: &'a [u8], name: &'a [u8], negated: bool) -> Condition<'a>
    ensures steps { steps_of result ≡ name_item name.now ∷ (if negated then not-item ∷ [] else []) }
    ensures line { result.line.now ≡ line.now }
{
    let mut steps = ArrayVec::new();
    steps.push(Step::Defined(name));
    if negated {
        steps.push(Step::Not);
    }
    Condition { line, steps }
}

// The condition that stands there, in that form.
fn condition_of<'a>(form: Form, operand: Operand<'a>) -> Result<Condition<'a>, ExpressionFault>
    requires { operand.comments ≡ true }
    ensures steps { Tests (read_in operand.entry.line.now operand.entry.number (condition_of form operand.entry.line.now operand.entry.from)) result }
    ensures line { IfOk result (λ k. k.line.now ≡ operand.entry.line.now) }
{
    match form {
        Form::Expression => condition(operand),
        Form::Defined => operand
            .only_name()
            .map(|name| name_condition(operand.line, name.text, false)),
        Form::Undefined => operand
            .only_name()
            .map(|name| name_condition(operand.line, name.text, true)),
    }
}

// The line, which has that directive.
fn directive_line<'a>(line: &SourceLine<'a>, found: Found) -> Result<Line<'a>, ExpressionFault>
    ensures { Makes (read_in (content_of line.now.text.now) line.now.number (made found.directive line.now.text.now (content_of line.now.text.now) found.behind)) result }
{
    let operand = Operand {
        line: content(line.text),
        from: found.behind,
        comments: true,
        number: line.number,
    };
    match found.directive {
        Directive::If(form) => condition_of(form, operand).map(Line::If),
        Directive::Elif(form) => condition_of(form, operand).map(Line::Elif),
        Directive::Else => operand.nothing().map(|()| Line::Else),
        Directive::Endif => operand.nothing().map(|()| Line::Endif),
        Directive::Define => operand.first_name().map(|name| Line::Define(name.text)),
        Directive::Undef => operand.only_name().map(|name| Line::Undef(name.text)),
    }
}

// What the line is.
pub fn classify<'a>(line: &SourceLine<'a>) -> Result<Line<'a>, SourceFault>
    ensures { Classifies (classified line.now.last line.now.in_comment line.now.number line.now.text.now) result }
{
    let found = directive_of(line);
    check_line(line, is_conditional(found))?;
    match found {
        Some(found) => Ok(directive_line(line, found)?),
        None => Ok(Line::Plain),
    }
}
