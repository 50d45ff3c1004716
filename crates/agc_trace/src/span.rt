//! A span of a run's machine cycles.

/// A span of machine cycles, both ends included.
#[derive(Clone, Copy, Debug, PartialEq, Eq)]
pub struct Span {
    /// The first cycle.
    pub from: u64,
    /// The last cycle.
    pub to: u64,
}

impl Span {
    ghost use Rattle.std.specs.Prelude.{◌≡◌, ◌+◌, ◌&&◌, max, nat_le};

    /// Returns the span of a whole run, from its start to its stop.
    pub fn whole() -> Span
        ensures { result ≡ record { from = 0; to = 18446744073709551615 } }
    {
        Span {
            from: 0,
            to: u64::MAX,
        }
    }

    /// Returns the last cycle; of a span that would end before it begins, the first one.
    pub fn last(self) -> u64
        ensures { result ≡ max self.from self.to }
    {
        self.from.max(self.to)
    }

    /// Returns whether a cycle is in the span.
    pub fn has(self, cycle: u64) -> bool
        ensures { result ≡ (nat_le self.from cycle && nat_le cycle self.to) }
    {
        self.from <= cycle && cycle <= self.to
    }

    /// Returns whether a cycle is in the span, but not its first one.
    pub fn has_later(self, cycle: u64) -> bool
        ensures { result ≡ (nat_le (self.from + 1) cycle && nat_le cycle self.to) }
    {
        self.from < cycle && cycle <= self.to
    }
}
