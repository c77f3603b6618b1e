// Lists of names, each a part of a text: finding one, and whether two are alike. Uses nothing.
#![tactic(auto)]

ghost use Rattle.std.specs.Prelude.{◌≡◌};
ghost use Rattle.names.specs.Names.{texts, index_of, distinct};

// The place of `name` in the list, counted from 0.
pub fn index_of(names: &[&[u8]], name: &[u8]) -> Option<usize>
    ensures { result ≡ index_of (texts names.now) name.now }
{
    names.iter().position(|known| *known == name)
}

// Are no two of the names alike?
pub fn all_distinct(names: &[&[u8]]) -> bool
    ensures { result ≡ distinct (texts names.now) }
{
    names
        .iter()
        .enumerate()
        .all(|(i, name)| index_of(&names[..i], name).is_none())
}
