//! Finds where two films diverge.
ghost use Rattle.std.specs.Prelude.{◌≡◌};
ghost use Rattle.agc_timeline.specs.Divergence.{first_difference, is_same_frame};

use crate::frame::Frame;

/// Returns the cycle at which two films first show different panels, or `None` if they never do.
pub fn first_difference(left: &[Frame], right: &[Frame]) -> Option<u64>
    ensures { result ≡ first_difference left.now right.now }
{
    let mut left = left;
    let mut right = right;
    loop {
        match (left.split_first(), right.split_first()) {
            (Some((left_frame, lefts)), Some((right_frame, rights))) => {
                if !is_same_frame(left_frame, right_frame) {
                    return Some(left_frame.cycle.min(right_frame.cycle));
                }
                left = lefts;
                right = rights;
            }
            (Some((frame, _)), None) => return Some(frame.cycle),
            (None, Some((frame, _))) => return Some(frame.cycle),
            (None, None) => return None,
        }
    }
}

/// Returns whether two frames begin at the same cycle and show the same.
fn is_same_frame(left: &Frame, right: &Frame) -> bool
    ensures { result ≡ is_same_frame left.now right.now }
{
    left.cycle == right.cycle && left.panel.shows_same(&right.panel)
}
