// The lines of a C source: how a source divides into lines, what a line can be, and why a source is refused. Uses the conditions of `expressions`.
// Promises: which bytes each line has and where it stands, whether a source is too large, and what each fault says. What a line is, is told in `classification`.
#![tactic(auto)]

pub mod fault;
pub mod line;
pub mod place;
