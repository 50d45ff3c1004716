//! Paces the machine's time by the clock.
ghost use Rattle.std.specs.Prelude.{◌≡◌, ◌<◌, ◌≤◌, ◌^◌, IfSome, false, not};
ghost use Rattle.agc_tui.specs.Pace.{
  capped,
  cycles_in,
  due_at,
  faster_than,
  ratio_of,
  slower_than,
  speed_name,
  speed_named,
};

use std::time::Clock;

/// The speed of the machine.
#[derive(Clone, Copy, Debug, PartialEq, Eq)]
pub enum Speed {
    Hundredth,
    Tenth,
    /// The speed of the hardware: 1,024,000 / 12 cycles a second.
    Real,
    Ten,
    Hundred,
    Thousand,
    /// As fast as possible.
    Fastest,
}

/// A fraction: `times` divided by `parts`.
#[derive(Clone, Copy, Debug, PartialEq, Eq)]
pub struct Ratio {
    pub times: u32,
    pub parts: u32,
}

impl Speed {
    /// Returns the speed as a fraction of the hardware's, or `None` for as fast as possible.
    pub fn ratio(self) -> Option<Ratio>
        ensures ratio { result ≡ ratio_of self }
        ensures parts { IfSome result (λ ratio. 0 < ratio.parts) }
    {
        let (times, parts) = match self {
            Speed::Hundredth => (1, 100),
            Speed::Tenth => (1, 10),
            Speed::Real => (1, 1),
            Speed::Ten => (10, 1),
            Speed::Hundred => (100, 1),
            Speed::Thousand => (1000, 1),
            Speed::Fastest => return None,
        };
        Some(Ratio { times, parts })
    }

    /// Returns the next faster speed.
    fn faster(self) -> Speed
        ensures { result ≡ faster_than self }
    {
        match self {
            Speed::Hundredth => Speed::Tenth,
            Speed::Tenth => Speed::Real,
            Speed::Real => Speed::Ten,
            Speed::Ten => Speed::Hundred,
            Speed::Hundred => Speed::Thousand,
            Speed::Thousand | Speed::Fastest => Speed::Fastest,
        }
    }

    /// Returns the next slower speed.
    fn slower(self) -> Speed
        ensures { result ≡ slower_than self }
    {
        match self {
            Speed::Hundredth | Speed::Tenth => Speed::Hundredth,
            Speed::Real => Speed::Tenth,
            Speed::Ten => Speed::Real,
            Speed::Hundred => Speed::Ten,
            Speed::Thousand => Speed::Hundred,
            Speed::Fastest => Speed::Thousand,
        }
    }

    /// Returns the name of the speed, on the command line and in the picture.
    pub fn name(self) -> &'static str
        ensures { result.now ≡ speed_name self }
    {
        match self {
            Speed::Hundredth => "1/100",
            Speed::Tenth => "1/10",
            Speed::Real => "1",
            Speed::Ten => "10",
            Speed::Hundred => "100",
            Speed::Thousand => "1000",
            Speed::Fastest => "max",
        }
    }

    /// Returns the speed of this name.
    #[tactic(auto, unfolding(crate::specs::Pace::speed_named))]
    pub fn from_name(name: &str) -> Option<Speed>
        ensures { result ≡ speed_named name.now }
    {
        match name {
            "1/100" => Some(Speed::Hundredth),
            "1/10" => Some(Speed::Tenth),
            "1" => Some(Speed::Real),
            "10" => Some(Speed::Ten),
            "100" => Some(Speed::Hundred),
            "1000" => Some(Speed::Thousand),
            "max" => Some(Speed::Fastest),
            _ => None,
        }
    }
}

/// Returns the clock's time in microseconds, or 0 if it cannot be read, so that the machine does not move.
pub fn micros_of<C: Clock>(clock: &C) -> u64 {
    match clock.monotonic() {
        Ok(time) => u64::try_from(time.as_micros()).unwrap_or(u64::MAX),
        Err(_) => 0,
    }
}

/// Returns the number of cycles in `micros` microseconds at a fraction of the hardware's speed, or the largest number.
pub fn cycles_in(micros: u64, ratio: Ratio) -> u64
    requires { 0 < ratio.parts }
    ensures { result ≡ capped (cycles_in micros ratio) }
{
    capped(whole_cycles_in(micros, ratio))
}

/// Returns the same, however large it is.
fn whole_cycles_in(micros: u64, ratio: Ratio) -> u128
    requires { 0 < ratio.parts }
    ensures cycles { result ≡ cycles_in micros ratio }
    ensures range { result < 2 ^ 106 }
{
    micros as u128 * ratio.times as u128 * 1024 / (12_000 * ratio.parts as u128)
}

/// Returns a number, or the largest of 64 bits if it is larger.
fn capped(n: u128) -> u64
    ensures { result ≡ capped n }
{
    match u64::try_from(n) {
        Ok(n) => n,
        Err(_) => u64::MAX,
    }
}

/// A pacer: which cycle is due at which time.
#[derive(Clone, Copy, Debug, PartialEq, Eq)]
pub struct Pacer {
    speed: Speed,
    is_paused: bool,
    /// The machine was at cycle `from` at this time of the clock.
    since: u64,
    from: u64,
}

impl Pacer {
    /// Creates a pacer that starts at `cycle` at this time of the clock.
    pub fn new(speed: Speed, micros: u64, cycle: u64) -> Pacer
        ensures speed { result.speed ≡ speed }
        ensures runs { result.is_paused ≡ false }
        ensures since { result.since ≡ micros }
        ensures from { result.from ≡ cycle }
    {
        Pacer {
            speed,
            is_paused: false,
            since: micros,
            from: cycle,
        }
    }

    /// Restarts the pace at `cycle`, which the machine has reached at this time of the clock.
    pub fn begin_at(&mut self, micros: u64, cycle: u64)
        ensures { self.new ≡ record self.old { since = micros; from = cycle } }
    {
        self.since = micros;
        self.from = cycle;
    }

    /// Returns the cycle that is due at a time of the clock.
    pub fn due(&self, micros: u64) -> u64
        ensures { result ≡ due_at self.now micros }
    {
        if self.is_paused {
            return self.from;
        }
        let Some(ratio) = self.speed.ratio() else {
            return u64::MAX;
        };
        let passed = micros.saturating_sub(self.since);
        capped(self.from as u128 + whole_cycles_in(passed, ratio))
    }

    /// Returns the speed, which is also kept during a pause.
    pub fn speed(&self) -> Speed
        ensures { result ≡ self.now.speed }
    {
        self.speed
    }

    pub fn is_paused(&self) -> bool
        ensures { result ≡ self.now.is_paused }
    {
        self.is_paused
    }

    /// Pauses or resumes.
    pub fn pause_or_go_on(&mut self)
        ensures { self.new ≡ record self.old { is_paused = not self.old.is_paused } }
    {
        self.is_paused = !self.is_paused;
    }

    pub fn go_faster(&mut self)
        ensures { self.new ≡ record self.old { speed = faster_than self.old.speed } }
    {
        self.speed = self.speed.faster();
    }

    pub fn go_slower(&mut self)
        ensures { self.new ≡ record self.old { speed = slower_than self.old.speed } }
    {
        self.speed = self.speed.slower();
    }
}
