//! The four editing registers, which rotate, shift or cut each word written into them.
ghost use Rattle.std.specs.Prelude.{◌≡◌};
ghost use Rattle.agc_word.specs.Edits.{edited};

use crate::narrow::Narrow;

/// What an editing register does to a word: CYR rotates it right one place, SR shifts it right one
/// place and keeps the sign, CYL rotates it left one place, EDOP keeps bits 14 to 8 as bits 7 to 1.
#[derive(Clone, Copy, Debug, PartialEq, Eq)]
pub enum Edit {
    Cyr,
    Sr,
    Cyl,
    Edop,
}

impl Narrow {
    /// Returns the word as the editing register stores it.
    #[inline]
    pub fn edit(self, how: Edit) -> Narrow
        ensures { result ≡ edited how self }
    {
        let bits = self.bits();
        match how {
            Edit::Cyr => Narrow::with_bits(bits % 2 * 0o40000 + bits / 2),
            Edit::Sr => Narrow::with_bits(bits / 0o40000 * 0o40000 + bits / 2),
            Edit::Cyl => Narrow::with_bits(bits % 0o40000 * 2 + bits / 0o40000),
            Edit::Edop => Narrow::with_bits(bits % 0o40000 / 0o200),
        }
    }
}
