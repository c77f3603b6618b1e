// An open chain at its first block, and at each further one.
ghost use Rattle.std.specs.Prelude.{◌≡◌};
ghost use Rattle.preprocessor.specs.Represented.{begun, turned};

use crate::state::Frame;

impl Frame {
    // The first block's condition has the value `holds`.
    pub(crate) fn new(outside: bool, holds: bool) -> Frame
        ensures { result ≡ begun outside holds }
    {
        let active = outside && holds;
        Frame {
            outside,
            taken: active,
            active,
        }
    }

    // The next block, which asks what has the value `holds`: it is active where no block before it was taken.
    pub(crate) fn next(self, holds: bool) -> Frame
        ensures { result ≡ turned holds self }
    {
        let active = self.outside && !self.taken && holds;
        Frame {
            outside: self.outside,
            taken: self.taken || active,
            active,
        }
    }
}
