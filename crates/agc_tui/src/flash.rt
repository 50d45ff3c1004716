//! What is seen of the panel while verb and noun flash.
ghost use Rattle.std.specs.Prelude.{◌≡◌};
ghost use Rattle.agc_tui.specs.Flash.{seen};

use agc_panel::{Digit, Face, Pair};

/// Two digits that show nothing.
const BLANK: Pair = Pair {
    left: Digit::Blank,
    right: Digit::Blank,
};

/// Returns the visible face: verb and noun are blank in the dark half of their flash.
pub(crate) fn seen(blink_off: bool, face: Face) -> Face
    ensures { result ≡ seen blink_off face }
{
    if face.flash && blink_off {
        return Face {
            verb: BLANK,
            noun: BLANK,
            ..face
        };
    }
    face
}
