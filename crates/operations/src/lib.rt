// The operations on the sets of cells, with the working words as their memory: an inner part of diagram stores, whose callers see only
// the crate `diagrams`. May use `faults`, `stores` and `cells`. Promises: an operation adds exactly the cells that its answer lacks, or
// is refused and changes no word; the working words are zero after it.
#![tactic(auto)]

pub mod apply;
mod working;
