//! The lines of a history: a one-order idle loop is one line, with the count of its boundaries.
ghost use Rattle.std.specs.Prelude.{◌≡◌, ◌≤◌, IfSome, IsTrue, None, Some, if◌then◌else◌};
ghost use Rattle.agc_listing.specs.Cell.{same_word};
ghost use Rattle.agc_tui.specs.Fold.{
  again,
  alone,
  counts_up,
  is_quiet,
  repeats,
  same_happening,
  same_order,
  same_registers,
};

use agc_machine::{InHand, Upcoming};
use agc_trace::{Entry, Registers};
use agc_word::{ChannelWrite, Narrow, Wide};

/// A line of the history: one boundary, or the equal ones of an idle loop.
#[derive(Clone, Copy, Debug, PartialEq, Eq)]
pub struct Line {
    /// The last of the boundaries.
    pub last: Entry,
    /// The number of boundaries.
    pub count: u64,
    /// The cycles from each boundary to the next; 0 if there is only one.
    pub period: u64,
}

impl Line {
    /// Returns the line of one boundary.
    pub(crate) fn alone(entry: Entry) -> Line
        ensures { result ≡ alone entry }
    {
        Line {
            last: entry,
            count: 1,
            period: 0,
        }
    }

    /// Returns the line with one more boundary, or `None` if that needs a line of its own.
    pub(crate) fn with(&self, next: &Entry) -> Option<Line>
        ensures line { result ≡ (if counts_up self.now next.now then Some (again self.now next.now) else None) }
        ensures last { IfSome result (λ line. line.last ≡ next.now) }
    {
        if self.counts_up(next) {
            Some(self.again(next))
        } else {
            None
        }
    }

    /// Returns whether a boundary belongs to the line: it repeats the last one, after as many cycles as those before did.
    #[tactic(auto, unfolding(crate::specs::Fold::counts_up))]
    fn counts_up(&self, next: &Entry) -> bool
        ensures { result ≡ counts_up self.now next.now }
    {
        if !repeats(&self.last, next) {
            return false;
        }
        self.count < u64::MAX && (self.count == 1 || next.cycle - self.last.cycle == self.period)
    }

    /// Returns the line with one more boundary, which belongs to it.
    #[tactic(auto, unfolding(crate::specs::Fold::counts_up, crate::specs::Fold::repeats))]
    fn again(&self, next: &Entry) -> Line
        requires { IsTrue (counts_up self.now next.now) }
        ensures { result ≡ again self.now next.now }
    {
        let period = next.cycle - self.last.cycle;
        let count = self.count + 1;
        Line {
            last: *next,
            count,
            period,
        }
    }
}

/// Returns whether a boundary repeats the one before it: the same order, no write, the same registers.
#[tactic(auto, unfolding(crate::specs::Fold::repeats))]
fn repeats(last: &Entry, next: &Entry) -> bool
    ensures same { result ≡ repeats last.now next.now }
    ensures later { IsTrue result → last.now.cycle ≤ next.now.cycle }
{
    is_same_happening(last.happening, next.happening)
        && is_quiet(last.write)
        && is_quiet(next.write)
        && is_same_registers(last.registers, next.registers)
        && last.cycle <= next.cycle
}

/// Returns whether two boundaries run the same order.
fn is_same_happening(one: Upcoming, other: Upcoming) -> bool
    ensures { result ≡ same_happening one other }
{
    match one {
        Upcoming::Order(one) => match other {
            Upcoming::Order(other) => is_same_order(one, other),
            _ => false,
        },
        _ => false,
    }
}

/// Returns whether two orders are the same, at the same place.
fn is_same_order(one: InHand, other: InHand) -> bool
    ensures { result ≡ same_order one other }
{
    one.bank == other.bank
        && one.address == other.address
        && is_same_word(one.word, other.word)
        && one.extracode == other.extracode
}

/// Returns whether the registers are the same.
fn is_same_registers(one: Registers, other: Registers) -> bool
    ensures { result ≡ same_registers one other }
{
    is_same_wide(one.a, other.a)
        && is_same_word(one.l, other.l)
        && is_same_wide(one.q, other.q)
        && one.z == other.z
        && one.erasable_bank == other.erasable_bank
        && one.fixed_bank == other.fixed_bank
}

/// Returns whether two words are the same.
fn is_same_word(one: Narrow, other: Narrow) -> bool
    ensures { result ≡ same_word one other }
{
    one == other
}

/// Returns whether two words of sixteen bits are the same.
fn is_same_wide(one: Wide, other: Wide) -> bool
    ensures { result ≡ same_word one other }
{
    one == other
}

/// Returns whether a boundary shows no write.
fn is_quiet(write: Option<ChannelWrite>) -> bool
    ensures { result ≡ is_quiet write }
{
    write.is_none()
}
