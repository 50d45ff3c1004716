//! The line on which a condition is typed, in the words that the console takes after `back until`.
ghost use Rattle.std.specs.Prelude.{◌<◌, IfSome};
ghost use Rattle.agc_session.specs.Condition.{IsConditionInRange};

use crate::seeking::{Outcome, Sought, push_outcome, push_outcome_of};
use agc_command::{Command, CommandFault, Search, parse_command, push_fault_with};
use agc_session::Condition;
use agc_symbols::SymbolTable;
use agc_tui::Way;
use std::alloc::{AllocError, Global};

/// The most bytes of a condition.
const LONGEST: usize = 100;

/// What stands before a condition in the console's command.
const COMMAND: &str = "back until ";

/// The most bytes that are shown: the last ones.
const SHOWN: usize = 43;

/// What a condition is, for whoever typed something else.
const USAGE: &str = "type PLACE [if CELL < WORD], write CCC, cell, interrupt or panel";

/// The line on which a condition is typed, and the answer to the last one.
#[derive(Drop)]
pub struct Prompt {
    /// The way in which the condition is searched for, while it is typed.
    way: Option<Way>,
    typed: String,
    /// What the terminal shows of it.
    shown: String,
    /// The console's command with the condition that was typed last.
    last: String,
    answer: String,
}

/// What a typed byte does to the line.
#[derive(Clone, Copy)]
pub enum Typing {
    /// It is typed on, or left.
    GoesOn,
    /// It is complete.
    Complete(Way),
}

impl Prompt {
    /// Creates a line on which nothing is typed.
    pub fn new(alloc: Global) -> Prompt {
        Prompt {
            way: None,
            typed: String::new(alloc),
            shown: String::new(alloc),
            last: String::new(alloc),
            answer: String::new(alloc),
        }
    }

    /// Begins an empty line.
    pub fn open(&mut self, way: Way) -> Result<(), AllocError> {
        self.way = Some(way);
        self.typed.clear();
        self.show(way)
    }

    /// Leaves the line.
    pub fn close(&mut self) {
        self.way = None;
    }

    pub fn is_open(&self) -> bool {
        self.way.is_some()
    }

    /// Returns the line, or the answer to the last one.
    pub fn shown(&self) -> &str {
        if self.is_open() {
            self.shown.as_str()
        } else {
            self.answer.as_str()
        }
    }

    /// Adds a byte to the line. Backspace takes the last one away, or leaves an empty line; so do control-C and control-D. Enter
    /// completes it; an empty one stands for the last condition.
    pub fn take(&mut self, byte: u8) -> Result<Typing, AllocError> {
        let Some(way) = self.way else {
            return Ok(Typing::GoesOn);
        };
        match byte {
            b'\r' | b'\n' => {
                self.close();
                self.keep()?;
                return Ok(Typing::Complete(way));
            }
            0x03 | 0x04 => self.close(),
            0x08 | 0x7f => {
                if self.typed.pop().is_none() {
                    self.close();
                }
            }
            0x20..0x7f if self.typed.len() < LONGEST => self.typed.push(char::from(byte))?,
            _ => {}
        }
        self.show(way)?;
        Ok(Typing::GoesOn)
    }

    /// Keeps what was typed as the last condition, unless nothing was.
    fn keep(&mut self) -> Result<(), AllocError> {
        if self.typed.is_empty() {
            return Ok(());
        }
        self.last.clear();
        self.last.push_str(COMMAND)?;
        self.last.push_str(self.typed.as_str())
    }

    /// Makes the line that is shown.
    fn show(&mut self, way: Way) -> Result<(), AllocError> {
        self.shown.clear();
        self.shown.push_str(match way {
            Way::Ahead => "until: ",
            Way::Back => "back until: ",
        })?;
        let start = self.typed.len().saturating_sub(SHOWN);
        self.shown.push_str(self.typed.get(start..).unwrap_or(""))?;
        self.shown.push_str("_")
    }

    /// Returns whether the last condition is one. If not, the answer says what is wrong.
    pub fn check(
        &mut self,
        alloc: Global,
        names: &Option<SymbolTable>,
    ) -> Result<bool, AllocError> {
        match parse_command(names, self.last.as_bytes()) {
            Ok(Some(Command::BackTo(_))) => return Ok(true),
            Err(fault) => self.refuse(alloc, names, fault)?,
            Ok(_) => self.say(USAGE)?,
        }
        Ok(false)
    }

    /// Returns the search for the last condition, if it is one.
    #[tactic(auto, unfolding(agc_command::specs::Command::IsCommandInRange))]
    fn search(&self, names: &Option<SymbolTable>) -> Option<Search>
        ensures { IfSome result (λ search. (0 < search.count) × IsConditionInRange search.what) }
    {
        match parse_command(names, self.last.as_bytes()) {
            Ok(Some(Command::BackTo(search))) => Some(search),
            _ => None,
        }
    }

    /// Answers what is wrong with a condition, without the name of the fault.
    fn refuse(
        &mut self,
        alloc: Global,
        names: &Option<SymbolTable>,
        fault: CommandFault,
    ) -> Result<(), AllocError> {
        if let CommandFault::Usage(_) = fault {
            return self.say(USAGE);
        }
        let mut text = String::new(alloc);
        push_fault_with(&mut text, names, fault)?;
        match text.split_once(": ") {
            Some((_, sentence)) => self.say(sentence),
            None => self.say(text.as_str()),
        }
    }

    /// Answers how a search ended: by a key, or for the last condition.
    pub fn report(&mut self, outcome: Outcome, sought: Sought) -> Result<(), AllocError> {
        self.answer.clear();
        match sought {
            Sought::ByKey(target) => push_outcome(&mut self.answer, outcome, target),
            Sought::Typed => {
                let condition = self.last.strip_prefix(COMMAND).unwrap_or("");
                push_outcome_of(&mut self.answer, outcome, condition)
            }
        }
    }

    fn say(&mut self, text: &str) -> Result<(), AllocError> {
        self.answer.clear();
        self.answer.push_str(text)
    }

    /// Takes the answer away.
    pub fn forget_answer(&mut self) {
        self.answer.clear();
    }
}

/// Returns the condition of a search, and which hit ends it: 1 for the first one. `None` if no condition was typed.
pub fn wanted(
    prompt: &Prompt,
    names: &Option<SymbolTable>,
    sought: Sought,
) -> Option<(Condition, u64)>
    ensures { IfSome result (λ found. (0 < found.1) × IsConditionInRange found.0) }
{
    match sought {
        Sought::ByKey(target) => Some((target.condition(), 1)),
        Sought::Typed => match prompt.search(names) {
            Some(search) => Some((search.what, search.count)),
            None => None,
        },
    }
}
