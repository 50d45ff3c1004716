//! The event loop: reads keys, runs the machine and draws the screen, at most a hundred times a second.
use crate::prompt::{Prompt, Typing, wanted};
use crate::screen::{Content, DrawFault, Screen, ask_size};
use crate::seeking::{Outcome, SEARCHING_BACK, Seeking, Sought, searching};
use agc_panel::WatchSpec;
use agc_session::{Cancellation, InjectFault, SearchFault};
use agc_tui::{
    Button, Decoder, InputEvent, Operator, Pacer, Ratio, Search, Speed, Way, cycles_in, micros_of,
};
use std::alloc::{AllocError, Global};
use std::io::Write;
use std::thread;
use std::time::{Clock, Duration};

/// The most microseconds that the machine runs before keys are read again.
const TURN: u64 = 15_000;

/// The same while it reruns or searches.
const RERUN_TURN: u64 = 90_000;

/// The milliseconds of sleep between two turns.
const REST: u64 = 10;

/// The most cycles that the machine runs before the clock is read.
const CHUNK: u64 = 100_000;

/// The number of cycles in a second of the machine.
const SECOND: u64 = 85_333;

/// The microseconds for which a pressed key is lit.
const LIT: u64 = 300_000;

/// The microseconds between two requests for the terminal's size; the speed is measured over the same period.
const ASKED_EVERY: u64 = 500_000;

/// The byte that begins a sequence, such as the terminal's reports.
const ESCAPE: u8 = 0x1b;

/// The remark if there is no memory for what is typed.
const NO_MEMORY: &str = "cannot search: out of memory";

/// The speed of the hardware.
const REAL: Ratio = Ratio { times: 1, parts: 1 };

/// How a session ended.
#[derive(Clone, Copy, Debug, PartialEq, Eq)]
pub enum Ended {
    /// The user quit.
    Quit,
    /// The terminal is gone: it can be neither read nor drawn on.
    Gone,
    /// Memory ran out.
    Memory,
}

/// A session on a terminal: its operator, screen and pacer, and what is shown.
#[derive(Drop)]
pub struct EventLoop {
    pub operator: Operator,
    pub screen: Screen,
    pub pacer: Pacer,
    decoder: Decoder,
    /// The line on which a condition is typed.
    prompt: Prompt,
    is_inside: bool,
    /// The places of the tables that can be shown, and whether they are shown.
    watch: Option<WatchSpec>,
    are_tables: bool,
    remark: &'static str,
    /// The search forward that has not ended yet.
    seeking: Option<Seeking>,
    /// A search back goes on, or was cancelled by a byte that is not handled yet.
    is_searching_back: bool,
    runs_at: Option<u64>,
    /// The time of the clock and the cycle of the last request for the terminal's size.
    requested: u64,
    requested_at: u64,
    /// The number of key presses at the last look, and the time until which the last key is lit.
    presses: usize,
    lit_until: u64,
}

/// What a typed byte requests of the caller of the event loop.
#[derive(Clone, Copy, Debug, PartialEq, Eq)]
pub enum Action {
    None,
    /// Go back a little.
    Back,
    /// Go back to the last one.
    BackToLast(Sought),
    Save,
    Quit,
}

impl EventLoop {
    /// Creates an event loop that starts at a speed.
    pub fn new<C: Clock>(
        alloc: Global,
        clock: &C,
        operator: Operator,
        screen: Screen,
        speed: Speed,
        watch: Option<WatchSpec>,
    ) -> EventLoop {
        let micros = micros_of(clock);
        let cycle = operator.cycle();
        EventLoop {
            operator,
            screen,
            pacer: Pacer::new(speed, micros, cycle),
            decoder: Decoder::new(),
            prompt: Prompt::new(alloc),
            is_inside: false,
            watch,
            are_tables: false,
            remark: "",
            seeking: None,
            is_searching_back: false,
            runs_at: None,
            requested: micros,
            requested_at: cycle,
            presses: 0,
            lit_until: 0,
        }
    }

    /// Shows a remark until the next key is typed.
    pub fn say(&mut self, remark: &'static str) {
        self.remark = remark;
    }

    /// Handles a typed byte. Returns what the caller has to do.
    pub fn take<C: Clock>(&mut self, alloc: Global, clock: &C, byte: u8) -> Action {
        if self.prompt.is_open() && byte != ESCAPE && self.decoder.is_plain() {
            return self.type_condition(alloc, clock, byte);
        }
        match self.decoder.take(byte) {
            None => Action::None,
            Some(InputEvent::Size { lines, columns }) => {
                self.screen.resize(lines, columns);
                Action::None
            }
            Some(_) if self.prompt.is_open() => Action::None,
            Some(input_event) => {
                self.remark = "";
                self.prompt.forget_answer();
                self.handle(clock, input_event)
            }
        }
    }

    /// Adds a byte to the condition that is typed. If it is complete, begins to search for it.
    fn type_condition<C: Clock>(&mut self, alloc: Global, clock: &C, byte: u8) -> Action {
        match self.prompt.take(byte) {
            Ok(Typing::GoesOn) => Action::None,
            Ok(Typing::Complete(way)) => self.search_typed(alloc, clock, way),
            Err(AllocError) => self.lack_memory(),
        }
    }

    /// Begins to search for the condition that was typed last.
    fn search_typed<C: Clock>(&mut self, alloc: Global, clock: &C, way: Way) -> Action {
        match self.prompt.check(alloc, self.screen.names()) {
            Ok(true) => {}
            Ok(false) => return Action::None,
            Err(AllocError) => return self.lack_memory(),
        }
        match way {
            Way::Ahead => {
                self.begin_search(clock, Sought::Typed);
                Action::None
            }
            Way::Back => Action::BackToLast(Sought::Typed),
        }
    }

    /// Leaves the line on which a condition is typed, because memory ran out.
    fn lack_memory(&mut self) -> Action {
        self.prompt.close();
        self.remark = NO_MEMORY;
        Action::None
    }

    /// Handles an event.
    fn handle<C: Clock>(&mut self, clock: &C, input_event: InputEvent) -> Action {
        match input_event {
            InputEvent::Quit => {
                self.press_now();
                return Action::Quit;
            }
            InputEvent::Save => {
                self.press_now();
                return Action::Save;
            }
            InputEvent::Back => return Action::Back,
            InputEvent::Search(Search::Previous(target)) => {
                return Action::BackToLast(Sought::ByKey(target));
            }
            InputEvent::Search(Search::Next(target)) => {
                self.begin_search(clock, Sought::ByKey(target));
            }
            InputEvent::Condition(way) => return self.open_prompt(way),
            InputEvent::Key(button) => self.type_key(button),
            InputEvent::Pause | InputEvent::Step if self.is_searching() => {
                self.end_search(clock, "search ended")
            }
            InputEvent::Pause => self.pause_or_go_on(clock),
            InputEvent::Step => self.step(clock),
            InputEvent::Faster => {
                self.pacer.go_faster();
                self.begin_pace(clock);
            }
            InputEvent::Slower => {
                self.pacer.go_slower();
                self.begin_pace(clock);
            }
            InputEvent::Inside => self.is_inside = !self.is_inside,
            InputEvent::Tables => self.show_tables(),
            InputEvent::Size { .. } => {}
        }
        Action::None
    }

    /// Begins to read a condition.
    fn open_prompt(&mut self, way: Way) -> Action {
        match self.prompt.open(way) {
            Ok(()) => Action::None,
            Err(AllocError) => self.lack_memory(),
        }
    }

    /// Queues a key.
    fn type_key(&mut self, button: Button) {
        if self.operator.type_key(button).is_err() {
            self.remark = "key dropped: out of memory";
        }
    }

    /// Presses the key that may be pressed at the present cycle. None may during a rerun.
    fn press_now(&mut self) {
        if self.operator.rerun_end().is_some() {
            return;
        }
        let cycle = self.operator.cycle();
        let pressed = self.operator.go_to(cycle);
        self.note(pressed);
    }

    /// Shows or hides the Executive's tables, if their places are known.
    fn show_tables(&mut self) {
        match self.watch {
            Some(_) => self.are_tables = !self.are_tables,
            None => self.remark = "no tables: start with --watch SPEC",
        }
    }

    /// Restarts the pace from the machine's present cycle.
    fn begin_pace<C: Clock>(&mut self, clock: &C) {
        self.pacer.begin_at(micros_of(clock), self.operator.cycle());
    }

    /// Pauses or resumes. Before a pause takes the last boundaries one by one, so that they are recorded, except during a
    /// rerun, which records its own.
    fn pause_or_go_on<C: Clock>(&mut self, clock: &C) {
        self.pacer.pause_or_go_on();
        if self.pacer.is_paused() && self.operator.rerun_end().is_none() {
            let slowed = self.operator.step_tail();
            self.note(slowed);
        }
        self.begin_pace(clock);
    }

    /// Takes one boundary if the session is paused, else pauses it. During a rerun takes none.
    fn step<C: Clock>(&mut self, clock: &C) {
        if !self.pacer.is_paused() {
            return self.pause_or_go_on(clock);
        }
        if self.operator.rerun_end().is_some() {
            return;
        }
        let stepped = self.operator.step();
        self.note(stepped);
        self.begin_pace(clock);
    }

    /// Stops time, if it runs.
    fn hold<C: Clock>(&mut self, clock: &C) {
        if !self.pacer.is_paused() {
            self.pacer.pause_or_go_on();
        }
        self.begin_pace(clock);
    }

    /// Returns whether a search has not ended yet.
    fn is_searching(&self) -> bool {
        self.is_searching_back || self.seeking.is_some()
    }

    /// Stops time, and begins to search forward. During a rerun does nothing.
    fn begin_search<C: Clock>(&mut self, clock: &C, sought: Sought) {
        if self.operator.rerun_end().is_some() {
            return;
        }
        let Some((_, count)) = wanted(&self.prompt, self.screen.names(), sought) else {
            return;
        };
        self.hold(clock);
        self.seeking = Some(Seeking::new(sought, count, self.operator.cycle()));
    }

    /// Ends a search with a remark.
    fn end_search<C: Clock>(&mut self, clock: &C, remark: &'static str) {
        self.seeking = None;
        self.is_searching_back = false;
        self.remark = remark;
        self.requested = micros_of(clock);
        self.requested_at = self.operator.cycle();
        self.begin_pace(clock);
    }

    /// Ends a search that has come to its end.
    fn end_with<C: Clock>(&mut self, clock: &C, sought: Sought, outcome: Outcome) {
        let remark = match self.prompt.report(outcome, sought) {
            Ok(()) => "",
            Err(AllocError) => NO_MEMORY,
        };
        self.end_search(clock, remark)
    }

    /// Goes on with a search forward, as far as it gets within a turn.
    fn go_on_seeking<C: Clock>(&mut self, clock: &C) {
        let start = micros_of(clock);
        let end = start.saturating_add(RERUN_TURN);
        for _chunk in 0..u64::MAX {
            let Some(seeking) = self.seeking else {
                return;
            };
            if let Some(outcome) = self.seek(seeking) {
                return self.end_with(clock, seeking.sought, outcome);
            }
            let now = micros_of(clock);
            if end <= now || now == start {
                return;
            }
        }
    }

    /// Goes on with a search forward for some cycles. Returns how it ended, if it has ended.
    fn seek(&mut self, seeking: Seeking) -> Option<Outcome> {
        let Seeking { sought, left, end } = seeking;
        let found = wanted(&self.prompt, self.screen.names(), sought);
        let Some((condition, _)) = found else {
            return Some(Outcome::NoneAhead);
        };
        if self.operator.has_stopped() {
            return Some(Outcome::NoneBeforeStop);
        }
        let next = end.min(self.operator.cycle().saturating_add(CHUNK));
        match self.operator.seek(condition, next) {
            Ok(true) if left <= 1 => Some(Outcome::FoundAhead),
            Ok(true) => {
                let left = left.saturating_sub(1);
                self.seeking = Some(Seeking { left, ..seeking });
                None
            }
            Ok(false) if end <= self.operator.cycle() => Some(Outcome::NoneAhead),
            Ok(false) => None,
            Err(fault) => {
                self.note(Err(fault));
                None
            }
        }
    }

    /// Begins a rerun that rebuilds the history, if the inspector is shown and time or the machine has stopped.
    pub fn look_inside(self, alloc: Global) -> EventLoop {
        let stands = self.pacer.is_paused() || self.operator.has_stopped();
        if !self.is_inside || !stands || self.is_searching() {
            return self;
        }
        let operator = self.operator.rebuild_history(alloc);
        EventLoop { operator, ..self }
    }

    /// Begins to go back by a second, or by a tenth of a second during a pause. [`go_on`](EventLoop::go_on) does the rest.
    pub fn back<C: Clock>(self, alloc: Global, clock: &C) -> EventLoop {
        let EventLoop {
            operator,
            screen,
            pacer,
            decoder,
            prompt,
            is_inside,
            watch,
            are_tables,
            requested,
            lit_until,
            ..
        } = self;
        let way = if pacer.is_paused() {
            SECOND / 10
        } else {
            SECOND
        };
        let from = operator.rerun_end().unwrap_or(operator.cycle());
        let (operator, went) = operator.back(alloc, from.saturating_sub(way));
        let requested_at = operator.cycle();
        let presses = operator.presses();
        let mut event_loop = EventLoop {
            operator,
            screen,
            pacer,
            decoder,
            prompt,
            is_inside,
            watch,
            are_tables,
            remark: if went {
                ""
            } else {
                "cannot go back: out of memory"
            },
            seeking: None,
            is_searching_back: false,
            runs_at: None,
            requested,
            requested_at,
            presses,
            lit_until,
        };
        event_loop.begin_pace(clock);
        event_loop
    }

    /// Stops time, and begins to search back; [`back_to_last`](EventLoop::back_to_last) does the rest. Returns false during
    /// a rerun, and then does nothing.
    pub fn begin_search_back<C: Clock>(&mut self, clock: &C) -> bool {
        if self.operator.rerun_end().is_some() {
            return false;
        }
        self.hold(clock);
        self.seeking = None;
        self.is_searching_back = true;
        true
    }

    /// Searches back, and begins to go back to the last one before now. If the search is cancelled, the byte that did it
    /// ends it once it is handled.
    pub fn back_to_last<T: Clock, C: Cancellation>(
        self,
        alloc: Global,
        clock: &T,
        sought: Sought,
        cancellation: &mut C,
    ) -> EventLoop {
        let Some((condition, count)) = wanted(&self.prompt, self.screen.names(), sought) else {
            return EventLoop {
                is_searching_back: false,
                ..self
            };
        };
        let (operator, found) = self
            .operator
            .back_to_last(alloc, condition, count, cancellation);
        let mut event_loop = EventLoop { operator, ..self };
        event_loop.presses = event_loop.operator.presses();
        match found {
            Ok(Some(_)) => event_loop.end_with(clock, sought, Outcome::FoundBehind),
            Ok(None) => event_loop.end_with(clock, sought, Outcome::NoneBehind),
            Err(SearchFault::Memory) => event_loop.end_search(clock, NO_MEMORY),
            Err(SearchFault::Cancelled) => {}
        }
        event_loop
    }

    /// Returns the decoder of the bytes that were handled.
    pub fn decoder(&self) -> Decoder {
        self.decoder
    }

    /// Runs the machine to the cycle that is due now, or as far as it gets within a turn. Goes on with a rerun or a search
    /// first.
    pub fn go_on<C: Clock>(&mut self, clock: &C) {
        if self.operator.rerun_end().is_some() {
            return self.rerun(clock);
        }
        if self.seeking.is_some() {
            return self.go_on_seeking(clock);
        }
        let start = micros_of(clock);
        let due = self.pacer.due(start);
        let end = start.saturating_add(TURN);
        for _chunk in 0..u64::MAX {
            let cycle = self.operator.cycle();
            let next = due.min(cycle.saturating_add(CHUNK));
            let gone = self.operator.go_to(next);
            self.note(gone);
            if due <= self.operator.cycle() || self.operator.cycle() == cycle {
                return;
            }
            let now = micros_of(clock);
            if end <= now || now == start {
                // The machine cannot keep up: the cycles that it is behind are skipped.
                self.begin_pace(clock);
                return;
            }
        }
    }

    /// Goes on with a rerun, as far as it gets within a turn.
    fn rerun<C: Clock>(&mut self, clock: &C) {
        let start = micros_of(clock);
        let end = start.saturating_add(RERUN_TURN);
        for _chunk in 0..u64::MAX {
            self.operator.rerun(CHUNK);
            let now = micros_of(clock);
            if self.operator.rerun_end().is_none() {
                self.requested = now;
                self.requested_at = self.operator.cycle();
                return self.begin_pace(clock);
            }
            if end <= now || now == start {
                return;
            }
        }
    }

    /// Shows why a key was not injected.
    fn note(&mut self, gone: Result<(), InjectFault>) {
        match gone {
            Ok(()) => {}
            Err(InjectFault::Unwanted) => {
                self.remark = "key dropped: the machine has stopped; Backspace goes back"
            }
            Err(InjectFault::TooMany) => {
                self.remark = "key dropped: the script is full, with 65536 events"
            }
            Err(InjectFault::Memory) => self.remark = "key dropped: out of memory",
        }
    }

    /// Draws what has changed. Twice a second requests the terminal's size and measures the speed.
    pub fn draw<C: Clock, W: Write>(
        &mut self,
        alloc: Global,
        clock: &C,
        out: &mut W,
    ) -> Result<(), DrawFault> {
        let micros = micros_of(clock);
        let since = micros.saturating_sub(self.requested);
        if ASKED_EVERY <= since {
            ask_size(out)?;
            if self.operator.rerun_end().is_none() {
                self.measure(since);
            }
            self.requested = micros;
            self.requested_at = self.operator.cycle();
        }
        let pressed = self.lit(micros);
        let search = self.search_line();
        let shown = Content {
            micros,
            pacer: self.pacer,
            pressed,
            runs_at: self.runs_at,
            is_inside: self.is_inside,
            tables: if self.are_tables { self.watch } else { None },
            remark: last_line(&self.prompt, search, self.remark),
        };
        self.screen.draw(alloc, &self.operator, shown, out)
    }

    /// Returns which search goes on; nothing if none does.
    fn search_line(&self) -> &'static str {
        match self.seeking {
            Some(seeking) => searching(seeking.sought),
            None if self.is_searching_back => SEARCHING_BACK,
            None => "",
        }
    }

    /// Returns the lit key: the last one pressed, for a moment.
    fn lit(&mut self, micros: u64) -> Option<Button> {
        if self.presses != self.operator.presses() {
            self.presses = self.operator.presses();
            self.lit_until = micros.saturating_add(LIT);
        }
        if micros < self.lit_until {
            self.operator.last_pressed()
        } else {
            None
        }
    }

    /// Measures the speed over `micros` microseconds as a multiple of the hardware's. It is shown if it is clearly
    /// below the requested speed, or if that is as fast as possible.
    fn measure(&mut self, micros: u64) {
        let cycles = self.operator.cycle().saturating_sub(self.requested_at);
        let times = match cycles_in(micros, REAL) {
            0 => 0,
            real => cycles / real,
        };
        self.runs_at = match self.pacer.speed().ratio() {
            Some(ratio) if ratio.times as u64 * 9 / 10 <= times => None,
            _ => Some(times),
        };
    }
}

/// Returns what the last line says: the condition that is typed, the search that goes on, or the remark on what was done last.
fn last_line<'a>(prompt: &'a Prompt, search: &'static str, remark: &'static str) -> &'a str {
    if prompt.is_open() || search.is_empty() && remark.is_empty() {
        prompt.shown()
    } else if search.is_empty() {
        remark
    } else {
        search
    }
}

/// Sleeps between two turns.
pub fn rest<C: Clock>(clock: &C) {
    thread::sleep(clock, Duration::from_millis(REST));
}
