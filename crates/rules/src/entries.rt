// The declared names as entries: each stands for the configurations that have its switch on.
ghost use Rattle.std.specs.Prelude.{◌≡◌};
ghost use Rattle.names.specs.Names.{texts};
ghost use Rattle.rules.specs.Ruled.{entry_of};

use evaluation::Entries;
use names::index_of;

// The switches' names, and the numbers of their sets, in the same order. Two lists: pairs would need a copy of the caller's names.
#[derive(Clone, Copy)]
pub struct Switches<'a> {
    pub names: &'a [&'a [u8]],
    pub numbers: &'a [u32],
}

impl<'a> Entries for Switches<'a> {
    ghost lookup = { λ s. entry_of (texts s.names.now) s.numbers.now };

    fn get(&self, name: &[u8]) -> Option<u32> {
        let i = index_of(self.names, name)?;
        self.numbers.get(i).copied()
    }
}
