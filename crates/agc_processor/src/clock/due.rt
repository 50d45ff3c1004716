//! What has passed at the start of a machine cycle, and the cycle from which a step is due.
ghost use Rattle.std.specs.Prelude.{◌≡◌, ℕ, ◌<◌, ◌≤◌, ◌^◌, nat_lt, true, false};
ghost use Rattle.agc_processor.specs.Due.{is_due, scaler, time6_periods};
ghost use Rattle.agc_processor.specs.Period.{timer_period};

use crate::clock::period::{PULSES_IN_CYCLE, SCALER_PERIOD, TIME6_PERIOD, TIMER_PERIOD};

/// Returns the counts of the scaler up to a cycle: one every 320 pulses, 3200 a second.
pub fn scaler(cycle: u64) -> u64
    requires { cycle < 2 ^ 41 }
    ensures { result ≡ scaler cycle }
{
    PULSES_IN_CYCLE * cycle / SCALER_PERIOD
}

/// Returns the periods of TIME6 up to a cycle, whether it was on or off: one every 640 pulses, 1600 a second.
pub fn time6_periods(cycle: u64) -> u64
    requires { cycle < 2 ^ 41 }
    ensures { result ≡ time6_periods cycle }
{
    PULSES_IN_CYCLE * cycle / TIME6_PERIOD
}

/// Returns whether a step of TIME1, TIME3, TIME4 or TIME5 is due at a cycle: whether the `first` pulses and the periods
/// of the `taken` steps have passed.
#[inline]
pub fn step_is_due(cycle: u64, first: u64, taken: u64) -> bool
    requires cycle { cycle < 2 ^ 41 }
    requires first { first ≤ timer_period }
    ensures { result ≡ is_due cycle first taken }
{
    let pulses = PULSES_IN_CYCLE * cycle;
    pulses >= first && (pulses - first) / TIMER_PERIOD >= taken
}

/// More steps than any run takes; the cycle of the next one is then unknown.
const BEYOND_COUNTING: u64 = 1 << 48;

/// Returns the cycle from which the next step of TIME1, TIME3, TIME4 or TIME5 is due, if its first step comes at the
/// pulse `first`; 0 after more than 2^48 steps.
pub fn due_from(first: u64, taken: u64) -> u64
    requires later { 0 < first }
    requires first { first ≤ timer_period }
    ensures none { (cycle : ℕ) → cycle < result → is_due cycle first taken ≡ false }
    ensures due { 0 < result → is_due result first taken ≡ true }
    ensures known { taken ≤ 2 ^ 48 → 0 < result }
{
    if taken > BEYOND_COUNTING {
        return 0;
    }
    (first + TIMER_PERIOD * taken).div_ceil(PULSES_IN_CYCLE)
}

/// Returns the cycle from which a period of TIME6 has passed since those that are counted; 0 after more than 2^48
/// periods.
pub fn time6_due_from(counted: u64) -> u64
    ensures none { (cycle : ℕ) → cycle < result → nat_lt counted (time6_periods cycle) ≡ false }
    ensures due { 0 < result → nat_lt counted (time6_periods result) ≡ true }
    ensures known { counted ≤ 2 ^ 48 → 0 < result }
{
    if counted > BEYOND_COUNTING {
        return 0;
    }
    (TIME6_PERIOD * (counted + 1)).div_ceil(PULSES_IN_CYCLE)
}
