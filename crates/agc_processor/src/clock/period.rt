//! The periods of the scaler and the timers, in pulses.

/// The pulses in a machine cycle; a second has 1,024,000.
pub(crate) const PULSES_IN_CYCLE: u64 = 12;
/// The step of TIME1, TIME3, TIME4 and TIME5: a hundredth of a second.
pub(crate) const TIMER_PERIOD: u64 = 10240;
/// The first step of TIME1.
pub const TIME1_FIRST: u64 = 10240;
/// The first step of TIME3.
pub const TIME3_FIRST: u64 = 10240;
/// The first step of TIME4, a quarter of a period before that of TIME3.
pub const TIME4_FIRST: u64 = 7680;
/// The first step of TIME5, a quarter of a period before that of TIME4.
pub const TIME5_FIRST: u64 = 5120;
/// The step of TIME6.
pub(crate) const TIME6_PERIOD: u64 = 640;
/// The count of the scaler.
pub(crate) const SCALER_PERIOD: u64 = 320;
