//! What the display feeds to the machine while it takes items.
use agc_ring::Gate;

/// Something that the display's thread offers before each poll.
pub trait Feed {
    ghost use Rattle.std.specs.Prelude.{◌≡◌};

    /// Offers the next thing to feed, without waiting.
    fn offer<G: Gate>(&mut self, gate: &G)
        ensures { self.new ≡ self.old };
}

/// Feeds nothing.
#[derive(Drop)]
pub struct NoFeed;

impl Feed for NoFeed {
    fn offer<G: Gate>(&mut self, _gate: &G) {}
}
