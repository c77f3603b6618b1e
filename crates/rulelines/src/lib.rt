// The lines of a rule text: their kinds, why they are refused, and the `switch` lines, which declare the names of a product family's switches.
// May use every crate below it but no store. Promises: the names declared and the rest of the text, or the refusal with its place.
#![tactic(auto)]

pub mod declaration;
pub mod fault;
pub mod kind;
