// The operations on two sets.
#[derive(Clone, Copy, PartialEq, Eq, Debug)]
pub enum Connective {
    Both,
    Either,
    Less,
}
