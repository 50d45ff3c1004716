//! Joins a name and its offset with a gap between them: `DIG +2` is `DIG+2`.
ghost use Rattle.std.specs.Prelude.{◌≡◌, ◌<◌, IfOk, get_or, length};
ghost use Rattle.agc_study_args.specs.Joined.{is_gap, joined};
ghost use Rattle.agc_listing.specs.Number.{is_sign};

use std::alloc::{AllocError, Global};

/// Returns a text without the spaces before signs. Fails if out of memory.
#[tactic(auto, unfolding(crate::specs::Joined::joined))]
pub(crate) fn joined(alloc: Global, text: &[u8]) -> Result<Vec<u8>, AllocError>
    ensures { IfOk result (λ whole. whole.items ≡ joined text.now) }
{
    (0..text.len())
        .filter(|at| !is_gap(text, *at))
        .map(|at| byte_at(text, at))
        .collect(alloc)
}

/// Returns whether a space before a sign is at a position.
fn is_gap(text: &[u8], at: usize) -> bool
    requires { at < length text.now }
    ensures { result ≡ is_gap text.now at }
{
    byte_at(text, at) == b' ' && is_sign(byte_at(text, at + 1))
}

fn is_sign(byte: u8) -> bool
    ensures { result ≡ is_sign byte }
{
    byte == b'+' || byte == b'-'
}

/// Returns a byte of a text; 0 past its end.
fn byte_at(text: &[u8], at: usize) -> u8
    ensures { result ≡ get_or text.now at 0 }
{
    text.get(at).copied().unwrap_or(0)
}
