// The cells of reduced ordered binary decision diagrams, in words that are handed in: the inner part of diagram stores, whose callers
// see only the crate `diagrams`. May use `faults` and `stores`.
// Promises: every set has one cell, and the words after a cell is added, after a refusal, a cut and making.
#![tactic(auto)]

pub mod layout;
pub mod making;
pub mod node;
pub mod pool;
pub mod questions;
