// What one configuration has read so far.
use arrayvec::ArrayVec;

mod chain;
mod steps;

// So many names have an entry at most, and so many chains are open.
pub use conditionals::{MAX_CHAINS, MAX_NAMES};

// An open chain of conditionals: is its outside active, was a block taken, is this block active?
#[derive(Clone, Copy, Default)]
pub struct Frame {
    outside: bool,
    taken: bool,
    active: bool,
}

// Which of the names with an entry are defined, and the open chains, innermost last.
#[derive(Drop)]
pub struct State {
    flags: [bool; MAX_NAMES],
    chains: ArrayVec<Frame, MAX_CHAINS>,
}
