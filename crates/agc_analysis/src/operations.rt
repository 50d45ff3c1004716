//! Writes a line for each operation of the interpreter of a run.
use crate::interpreter::{Interpreter, Passing};
use crate::operation_names::named_for;
use agc_io::{Progress, report_at};
use agc_listing::{Cell, Location, location_in, push_rope_place};
use agc_machine::{Machine, Stepped};
use agc_quantities::{Kind, Scale, push_value};
use agc_run_commands::write_text;
use agc_store::place::{ERASABLE_CELLS, FIXED_WORDS};
use agc_store::{Addr, Store};
use agc_symbols::SymbolTable;
use agc_trace::{Span, TraceFault};
use agc_word::Narrow;
use agc_woven::{OperationText, Operations, operations_at};
use std::alloc::{AllocError, Global};
use std::io::Write;

/// The words of the accumulator are fractions.
const FRACTION: Scale = Scale { worth: 1, parts: 1 };

/// What is written of a run.
#[derive(Drop)]
pub(crate) struct OperationPlan {
    pub interpreter: Interpreter,
    /// The range of cycles: operations that begin in it are written.
    pub span: Span,
    /// The names of places, for operands.
    pub names: Option<SymbolTable>,
}

/// What the accumulator holds.
#[derive(Clone, Copy)]
struct Accumulator {
    mode: Narrow,
    words: [Narrow; 7],
}

impl Accumulator {
    fn is_vector(&self) -> bool {
        self.mode.is_minus() && self.mode.magnitude() != 0
    }
}

/// An operation that has begun.
#[derive(Drop)]
struct Begun {
    cycle: u64,
    place: usize,
    text: String,
    before: Accumulator,
    push_down: Narrow,
}

/// The right operation of the word in hand.
#[derive(Drop)]
struct Right {
    place: usize,
    operation: OperationText,
}

/// Follows the interpreter of a machine from place to place.
#[derive(Drop)]
struct Follower<'a> {
    interpreter: Interpreter,
    names: &'a Option<SymbolTable>,
    /// The first cycle of the range.
    from: u64,
    /// The operation that has not ended.
    begun: Option<Begun>,
    /// The right operation that has not begun.
    right: Option<Right>,
    /// Whether a pair was fetched, and its left operation is about to pass where operations begin.
    is_fetched: bool,
}

/// Writes each operation as it ends, so that memory does not grow with the run. Returns whether there was none.
pub(crate) fn write_operations<W: Write, P: Progress>(
    alloc: Global,
    plan: &OperationPlan,
    machine: &mut Machine,
    out: &mut W,
    progress: &mut P,
) -> Result<bool, TraceFault> {
    let (interpreter, span) = (plan.interpreter, plan.span);
    let mut follower = Follower {
        interpreter,
        names: &plan.names,
        from: span.from,
        begun: None,
        right: None,
        is_fetched: false,
    };
    let mut text = String::new(alloc);
    let mut is_empty = true;
    let mut mark = 0u64;
    for _boundary in 0..u64::MAX {
        if machine.cycle() > span.to {
            break;
        }
        if let Some(passing) = interpreter.passing(machine.upcoming()) {
            text.clear();
            follower.pass(alloc, passing, machine, &mut text)?;
            is_empty = is_empty && text.is_empty();
            write_text(&text, out)?;
        }
        match machine.step(None) {
            Stepped::Stopped(_) => break,
            Stepped::Quiet | Stepped::Wrote(_) => {
                mark = report_at(mark, machine.cycle(), progress);
            }
        }
    }
    text.clear();
    follower.end(None, &mut text)?;
    write_text(&text, out)?;
    Ok(is_empty && text.is_empty())
}

impl<'a> Follower<'a> {
    /// Notes that the interpreter is at one of its places, and appends the line of an operation that has ended.
    fn pass(
        &mut self,
        alloc: Global,
        passing: Passing,
        machine: &Machine,
        text: &mut String,
    ) -> Result<(), AllocError> {
        match passing {
            Passing::End => self.end(Some(machine.store()), text),
            Passing::Fetch => {
                self.end(Some(machine.store()), text)?;
                self.fetch(alloc, machine, text)
            }
            Passing::Begin if self.is_fetched => {
                self.is_fetched = false;
                Ok(())
            }
            Passing::Begin => match self.right.take() {
                Some(Right { place, operation }) => {
                    self.end(Some(machine.store()), text)?;
                    self.begin(alloc, place, operation, machine, text)
                }
                None => Ok(()),
            },
        }
    }

    /// Takes the word in hand: its left operation, or its store, begins.
    fn fetch(
        &mut self,
        alloc: Global,
        machine: &Machine,
        text: &mut String,
    ) -> Result<(), AllocError> {
        self.right = None;
        self.is_fetched = false;
        let store = machine.store();
        let address = Addr::of_word(word_at(self.interpreter.word, store));
        let place = match location_in(store, address) {
            Location::Fixed(place) if place < FIXED_WORDS => place as usize,
            _ => return Ok(()),
        };
        let Operations { left, right } = operations_at(alloc, store, self.names, place)?;
        self.is_fetched = store.fixed_at(place).is_minus();
        self.right = match right {
            Some(operation) => Some(Right { place, operation }),
            None => None,
        };
        self.begin(alloc, place, left, machine, text)
    }

    /// Notes that an operation begins. EXIT ends at once: basic orders come behind it.
    fn begin(
        &mut self,
        alloc: Global,
        place: usize,
        operation: OperationText,
        machine: &Machine,
        text: &mut String,
    ) -> Result<(), AllocError> {
        let store = machine.store();
        let OperationText { name, operands } = operation;
        let is_exit = name.as_str() == "EXIT";
        let before = accumulator_in(&self.interpreter, store);
        let mut called = named_for(alloc, name, before.is_vector())?;
        called.push_str(operands.as_str())?;
        self.begun = Some(Begun {
            cycle: machine.cycle(),
            place,
            text: called,
            before,
            push_down: word_at(self.interpreter.push_down, store),
        });
        if is_exit {
            return self.end(Some(store), text);
        }
        Ok(())
    }

    /// Appends the line of the operation that has not ended, if there is one. It has ended if there is a memory now.
    fn end(&mut self, store: Option<&Store>, text: &mut String) -> Result<(), AllocError> {
        let Some(begun) = self.begun.take() else {
            return Ok(());
        };
        if begun.cycle < self.from {
            return Ok(());
        }
        push_begun(text, &begun)?;
        match store {
            Some(store) => push_accumulator(text, accumulator_in(&self.interpreter, store))?,
            None => text.push_str("-")?,
        }
        let push_down = begun.push_down;
        write!(text, " | {push_down}\n")
    }
}

/// Appends where and when an operation began, what it is, and what the accumulator held.
fn push_begun(text: &mut String, begun: &Begun) -> Result<(), AllocError> {
    let cycle = begun.cycle;
    write!(text, "{cycle} ")?;
    push_rope_place(text, begun.place)?;
    text.push_str(" ")?;
    text.push_str(begun.text.as_str())?;
    text.push_str(" | ")?;
    push_accumulator(text, begun.before)?;
    text.push_str(" > ")
}

/// Appends what the accumulator holds as fractions: a scalar, or the three parts of a vector.
fn push_accumulator(text: &mut String, held: Accumulator) -> Result<(), AllocError> {
    let [first, second, third, fourth, fifth, sixth, seventh] = held.words;
    let (kind, words) = if held.mode.magnitude() == 0 {
        (
            Kind::Double(FRACTION),
            [first, second, third, fourth, fifth, sixth],
        )
    } else if held.is_vector() {
        (
            Kind::Vector(FRACTION),
            [first, second, fourth, fifth, sixth, seventh],
        )
    } else {
        (
            Kind::Triple(FRACTION),
            [first, second, third, fourth, fifth, sixth],
        )
    };
    push_value(text, kind, words, true)
}

/// Reads the accumulator.
fn accumulator_in(interpreter: &Interpreter, store: &Store) -> Accumulator {
    let first = interpreter.mpac;
    Accumulator {
        mode: word_at(interpreter.mode, store),
        words: [
            word_at(first, store),
            word_at(first.saturating_add(1), store),
            word_at(first.saturating_add(2), store),
            word_at(first.saturating_add(3), store),
            word_at(first.saturating_add(4), store),
            word_at(first.saturating_add(5), store),
            word_at(first.saturating_add(6), store),
        ],
    }
}

/// Returns the word of the cell with this number; +0 if there is none.
fn word_at(number: u16, store: &Store) -> Narrow {
    if number < ERASABLE_CELLS {
        Cell::new(number).word(store).narrow()
    } else {
        Narrow::PLUS_ZERO
    }
}
