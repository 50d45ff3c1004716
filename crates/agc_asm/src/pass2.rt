//! The second pass over a source: assembles the words of its lines.
ghost use Rattle.std.specs.Prelude.{◌≡◌, ◌≢◌, ◌<◌, Ok, Err, IfOk, IfErr, IfSome, OnOk, map};
ghost use Rattle.agc_store.specs.Places.{fixed_words, fixed_fixed};
ghost use Rattle.agc_asm.specs.FaultText.{later_fault};
ghost use Rattle.agc_vocabulary.specs.Name.{naming_of};
ghost use Rattle.agc_encode.specs.LineKind.{IsKind, kind_of};
ghost use Rattle.agc_asm.specs.Source.{
  IsPlaced,
  IsState,
  ebank_parsed,
  two_added,
  first_state,
  assemble_line,
  basic_woven,
  fault_before,
  leaves_due,
  listed_woven,
  no_word,
  pair_placed,
  shape_woven,
  word_added,
  sbank_parsed,
  stays_put,
  with_banks,
  reported_at,
  word_placed,
  words_in,
  in_cells,
  word_at_counter,
  pair_at_counter,
  word_in_cell,
  pair_in_cells,
  spoken_at,
  spoken_in_rope,
  spoken_state,
  writes_words,
};
ghost use Rattle.agc_encode.specs.LineKind.{counter_after};
ghost use Rattle.agc_encode.specs.LocationCounter.{room_at, IsAt, after_cells};
ghost use Rattle.agc_vocabulary.specs.Body.{plain_line, spelled, tokens};
ghost use Rattle.agc_encode.specs.Interpretive.{due_behind};
ghost use Rattle.agc_encode.specs.Encode.{cell_in, place_in};
ghost use Rattle.agc_encode.specs.Operand.{location_in};
ghost use Rattle.agc_listing.specs.Text.{parsed_by};
ghost use Rattle.agc_listing.specs.Line.{line_named};
ghost use Rattle.agc_asm.specs.declared.fault.AssemblyFault.TheVariants.{Memory};

use crate::fault::AssemblyFault;
use agc_encode::{
    At, Banks, LineKind, LocationCounter, Role, Site, SourceLine, banks_after, cell_in,
    counter_after, due_behind, encode_pair, encode_word, is_banked, kind_of, leads_after,
    location_in, place_in, role_of, spoken_meaning, superbank,
};
use agc_interpretive::{Fault, Pending};
use agc_listing::{PlacedWord, RopeBuilder, read_line};
use agc_store::place::{ERASABLE_BANK_SIZE, FIXED_FIXED};
use agc_vocabulary::{Names, Operation, SourceFault};
use agc_word::Narrow;
use std::alloc::Global;

/// The state after the lines so far: where the next one goes, whether an extracode is expected there, and the banks for
/// words for BB.
#[derive(Clone, Copy)]
pub(crate) struct State {
    pub counter: LocationCounter,
    pub leads: bool,
    pub banks: Banks,
}

impl State {
    /// Starts before the first line.
    pub fn new() -> State
        ensures start { result ≡ first_state }
        ensures range { IsState result }
    {
        State {
            counter: LocationCounter::new(),
            leads: false,
            banks: Banks {
                erasable: 0,
                before: None,
                superbank: 0,
            },
        }
    }
}

/// The result of a line: the state after it, and its words.
#[derive(Clone, Copy)]
pub(crate) struct Step {
    pub state: State,
    pub first: Option<PlacedWord>,
    pub second: Option<PlacedWord>,
}

/// Returns the words of a source with these names, or its first fault in the second pass.
#[tactic(auto, unfolding(crate::specs::Source::words_in, crate::specs::Source::words_from, crate::specs::Source::due_from))]
pub(crate) fn read_words(
    alloc: Global,
    names: &Names,
    lines: &[SourceLine],
) -> Result<RopeBuilder, AssemblyFault>
    ensures words { IfOk result (λ builder. words_in (naming_of names.now) (map (λ line. line.text.now) lines.now)
        ≡ Ok builder) }
    ensures fault { IfErr result (λ why. why ≢ Memory
        → words_in (naming_of names.now) (map (λ line. line.text.now) lines.now) ≡ Err (later_fault why)) }
{
    let mut builder = RopeBuilder::new(alloc)?;
    let mut state = State::new();
    let mut number = 0;
    let mut rest = lines;
    while let [line, after @ ..] = rest {
        number += 1;
        match assemble_line(names, state, line) {
            Ok(step) => {
                state = step.state;
                add_words(&mut builder, number, step)?;
            }
            Err(fault) => return Err(AssemblyFault::Line(number, fault)),
        }
        rest = after;
    }
    match state.counter.due.fault_at_end(false) {
        Some(fault) => Err(AssemblyFault::Line(number, SourceFault::Interpretive(fault))),
        None => Ok(builder),
    }
}

/// Adds the words of a line; a fault carries the line's number.
fn add_words(builder: &mut RopeBuilder, number: usize, step: Step) -> Result<(), AssemblyFault>
    requires { IsPlaced step }
    ensures parsed { OnOk result (two_added builder.old step.first step.second ≡ Ok builder.new) }
    ensures fault { IfErr result (λ why. why ≢ Memory
        → reported_at number (two_added builder.old step.first step.second) ≡ Err (later_fault why)) }
{
    add_word(builder, number, step.first)?;
    add_word(builder, number, step.second)
}

fn add_word(
    builder: &mut RopeBuilder,
    number: usize,
    word: Option<PlacedWord>,
) -> Result<(), AssemblyFault>
    requires { IfSome word (λ word. word.place < fixed_words) }
    ensures parsed { OnOk result (word_added builder.old word ≡ Ok builder.new) }
    ensures fault { IfErr result (λ why. why ≢ Memory
        → reported_at number (word_added builder.old word) ≡ Err (later_fault why)) }
{
    match builder.unless_named(word) {
        Ok(word) => {
            builder.add(word)?;
            Ok(())
        }
        Err(fault) => Err(AssemblyFault::Line(number, SourceFault::Listed(fault))),
    }
}

/// Assembles a line: its words with their places, and where the next line goes.
#[tactic(auto, unfolding(crate::specs::Source::assemble_line, agc_vocabulary::specs::Body::spelled))]
pub(crate) fn assemble_line(
    names: &Names,
    state: State,
    line: &SourceLine,
) -> Result<Step, SourceFault>
    requires { IsState state }
    ensures woven { result ≡ assemble_line (naming_of names.now) state (plain_line line.now.text.now) }
    ensures range { IfOk result (λ step. IsState step.state) }
    ensures placed { IfOk result IsPlaced }
{
    match role_of(&state.counter.due, line) {
        Role::Basic if line.is_listed => listed_woven(state, line.plain),
        Role::Basic => match &line.operation {
            Some(operation) => basic_woven(names, state, operation),
            None => Err(SourceFault::UnknownOrder),
        },
        role => spoken_at(names, state, role, line.words),
    }
}

/// Assembles an interpretive line with these words.
fn spoken_at(names: &Names, state: State, role: Role, words: &[u8]) -> Result<Step, SourceFault>
    requires { IsState state }
    ensures woven { result ≡ spoken_at (naming_of names.now) state role (tokens words.now) state.counter.at }
    ensures range { IfOk result (λ step. IsState step.state) }
    ensures placed { IfOk result IsPlaced }
{
    match state.counter.at {
        At::Bank(_) => spoken_in_rope(names, state, role, words),
        At::Cell(_) => {
            spoken_meaning(
                names,
                u32::from(FIXED_FIXED),
                &state.counter.due,
                role,
                words,
            )?;
            let next = state.counter.after_cells(1)?;
            Ok(Step {
                state: spoken_state(state, role, words, next),
                first: None,
                second: None,
            })
        }
    }
}

/// Assembles an interpretive line in the rope.
fn spoken_in_rope(
    names: &Names,
    state: State,
    role: Role,
    words: &[u8],
) -> Result<Step, SourceFault>
    requires { IsState state }
    ensures woven { result ≡ spoken_in_rope (naming_of names.now) state role (tokens words.now)
        (room_at state.counter state.counter.at 1) }
    ensures range { IfOk result (λ step. IsState step.state) }
    ensures placed { IfOk result IsPlaced }
{
    let place = state.counter.room(1)?;
    let word = spoken_meaning(names, place, &state.counter.due, role, words)?;
    Ok(Step {
        state: spoken_state(state, role, words, state.counter.after_words(1)),
        first: Some(PlacedWord {
            place: place as usize,
            word: Narrow::with_bits(word),
        }),
        second: None,
    })
}

/// Returns the state behind an interpretive line.
fn spoken_state(state: State, role: Role, words: &[u8], counter: LocationCounter) -> State
    requires state { IsState state }
    requires counter { IsAt counter.at }
    ensures after { result ≡ spoken_state state (due_behind state.counter.due role (tokens words.now)) counter }
    ensures range { IsState result }
{
    State {
        counter: counter.due_there(due_behind(&state.counter.due, role, words)),
        leads: false,
        banks: banks_after(false, state.banks),
    }
}

/// Assembles a line of the basic language.
#[tactic(auto, unfolding(agc_vocabulary::specs::Body::spelled))]
fn basic_woven(names: &Names, state: State, operation: &Operation) -> Result<Step, SourceFault>
    requires { IsState state }
    ensures woven { result ≡ basic_woven (naming_of names.now) state (tokens operation.now.body.now)
        (kind_of (naming_of names.now) (spelled (tokens operation.now.body.now))) }
    ensures range { IfOk result (λ step. IsState step.state) }
    ensures placed { IfOk result IsPlaced }
{
    let kind = kind_of(names, operation)?;
    if let Some(fault) = fault_before(&state.counter.due, kind) {
        return Err(SourceFault::Interpretive(fault));
    }
    shape_woven(names, state, operation, kind)
}

/// Returns the fault of a line of the basic language before which operands or a store are due.
fn fault_before(due: &Pending, kind: LineKind) -> Option<Fault>
    ensures { result ≡ fault_before due.now (Ok kind) }
{
    if leaves_due(kind) {
        None
    } else if writes_words(kind) {
        due.fault_before_basic()
    } else {
        due.fault_at_end(false)
    }
}

fn writes_words(kind: LineKind) -> bool
    ensures { result ≡ writes_words kind }
{
    matches!(kind, LineKind::Word | LineKind::Pair)
}

/// Returns whether a line neither writes words nor moves to another place, and so leaves what is due.
fn leaves_due(kind: LineKind) -> bool
    ensures { result ≡ leaves_due kind }
{
    matches!(
        kind,
        LineKind::StandsFor(_)
            | LineKind::StandsHere
            | LineKind::StandsBeside(_)
            | LineKind::StandsApart(_)
            | LineKind::Checks(_)
            | LineKind::Ebank
            | LineKind::Sbank
            | LineKind::Nothing
    )
}

/// Assembles a line of a kind.
#[tactic(auto, unfolding(agc_vocabulary::specs::Body::spelled))]
fn shape_woven(
    names: &Names,
    state: State,
    operation: &Operation,
    kind: LineKind,
) -> Result<Step, SourceFault>
    requires state { IsState state }
    requires kind { IsKind kind }
    ensures woven { result ≡ shape_woven (naming_of names.now) state (tokens operation.now.body.now) (Ok kind) }
    ensures range { IfOk result (λ step. IsState step.state) }
    ensures placed { IfOk result IsPlaced }
{
    match kind {
        LineKind::Word => word_at_counter(names, state, operation),
        LineKind::Pair => pair_at_counter(names, state, operation),
        LineKind::Ebank => ebank_parsed(names, state, operation.rest),
        LineKind::Sbank => sbank_parsed(names, state, operation.rest),
        kind => no_word(state, kind),
    }
}

/// Takes the erasable bank that EBANK= names.
fn ebank_parsed(names: &Names, state: State, rest: &[u8]) -> Result<Step, SourceFault>
    requires { IsState state }
    ensures woven { result ≡ ebank_parsed state (cell_in (location_in (naming_of names.now) (tokens rest.now))) }
    ensures range { IfOk result (λ step. IsState step.state) }
    ensures placed { IfOk result IsPlaced }
{
    let cell = cell_in(location_in(names, rest))?;
    Ok(with_banks(
        state,
        Banks {
            erasable: (cell / u32::from(ERASABLE_BANK_SIZE)) as u8,
            before: Some(state.banks.erasable),
            superbank: state.banks.superbank,
        },
    ))
}

/// Takes the superbank that SBANK= names.
fn sbank_parsed(names: &Names, state: State, rest: &[u8]) -> Result<Step, SourceFault>
    requires { IsState state }
    ensures woven { result ≡ sbank_parsed state (place_in (location_in (naming_of names.now) (tokens rest.now))) }
    ensures range { IfOk result (λ step. IsState step.state) }
    ensures placed { IfOk result IsPlaced }
{
    let place = place_in(location_in(names, rest))?;
    Ok(with_banks(
        state,
        Banks {
            erasable: state.banks.erasable,
            before: state.banks.before,
            superbank: superbank(0, place),
        },
    ))
}

/// Returns the step of a line that only changes the banks.
fn with_banks(state: State, banks: Banks) -> Step
    ensures { result ≡ with_banks state banks }
{
    Step {
        state: State {
            counter: state.counter,
            leads: state.leads,
            banks,
        },
        first: None,
        second: None,
    }
}

/// Assembles a line of a listing.
fn listed_woven(state: State, line: &[u8]) -> Result<Step, SourceFault>
    requires { IsState state }
    ensures woven { result ≡ listed_woven state (line_named line.now) }
    ensures range { IfOk result (λ step. IsState step.state) }
    ensures placed { IfOk result IsPlaced }
{
    match read_line(line) {
        Ok(parsed) => Ok(Step {
            state,
            first: parsed,
            second: None,
        }),
        Err(fault) => Err(SourceFault::Listed(fault)),
    }
}

/// Assembles a line of one word, in the rope or in erasable memory.
fn word_at_counter(names: &Names, state: State, operation: &Operation) -> Result<Step, SourceFault>
    requires { IsState state }
    ensures woven { result ≡ word_at_counter (naming_of names.now) state (tokens operation.now.body.now) state.counter.at }
    ensures range { IfOk result (λ step. IsState step.state) }
    ensures placed { IfOk result IsPlaced }
{
    match state.counter.at {
        At::Bank(_) => word_placed(names, state, operation),
        At::Cell(_) => {
            let word = encode_word(names, site_in_cells(state), operation)?;
            let leads = leads_after(operation, state.leads, word);
            in_cells(state, operation, leads, state.counter.after_cells(1))
        }
    }
}

/// Assembles a line of two words, in the rope or in erasable memory.
fn pair_at_counter(names: &Names, state: State, operation: &Operation) -> Result<Step, SourceFault>
    requires { IsState state }
    ensures woven { result ≡ pair_at_counter (naming_of names.now) state (tokens operation.now.body.now) state.counter.at }
    ensures range { IfOk result (λ step. IsState step.state) }
    ensures placed { IfOk result IsPlaced }
{
    match state.counter.at {
        At::Bank(_) => pair_placed(names, state, operation),
        At::Cell(_) => {
            encode_pair(names, site_in_cells(state), operation)?;
            in_cells(state, operation, false, state.counter.after_cells(2))
        }
    }
}

/// Returns where words in erasable memory are read: as in bank 02, which may name places in any bank.
fn site_in_cells(state: State) -> Site
    ensures here { result.here ≡ fixed_fixed }
    ensures leads { result.leads ≡ state.leads }
    ensures banks { result.banks ≡ state.banks }
{
    Site {
        here: u32::from(FIXED_FIXED),
        leads: state.leads,
        banks: state.banks,
    }
}

/// Returns the step of words in erasable memory, which take cells but are not in the rope.
fn in_cells(
    state: State,
    operation: &Operation,
    leads: bool,
    next: Result<LocationCounter, SourceFault>,
) -> Result<Step, SourceFault>
    requires state { IsState state }
    requires next { IfOk next (λ counter. IsAt counter.at) }
    ensures woven { result ≡ in_cells state (tokens operation.now.body.now) leads next }
    ensures range { IfOk result (λ step. IsState step.state) }
    ensures placed { IfOk result IsPlaced }
{
    Ok(Step {
        state: State {
            counter: next?,
            leads,
            banks: banks_after(is_banked(operation), state.banks),
        },
        first: None,
        second: None,
    })
}

/// Assembles a line of one word in the rope.
fn word_placed(names: &Names, state: State, operation: &Operation) -> Result<Step, SourceFault>
    requires { IsState state }
    ensures woven { result ≡ word_placed (naming_of names.now) state (tokens operation.now.body.now)
        (room_at state.counter state.counter.at 1) }
    ensures range { IfOk result (λ step. IsState step.state) }
    ensures placed { IfOk result IsPlaced }
{
    let place = state.counter.room(1)?;
    let site = Site {
        here: place,
        leads: state.leads,
        banks: state.banks,
    };
    let word = encode_word(names, site, operation)?;
    Ok(Step {
        state: State {
            counter: state.counter.after_words(1),
            leads: leads_after(operation, state.leads, word),
            banks: banks_after(is_banked(operation), state.banks),
        },
        first: Some(PlacedWord {
            place: place as usize,
            word,
        }),
        second: None,
    })
}

/// Assembles a line of two words in the rope.
fn pair_placed(names: &Names, state: State, operation: &Operation) -> Result<Step, SourceFault>
    requires { IsState state }
    ensures woven { result ≡ pair_placed (naming_of names.now) state (tokens operation.now.body.now)
        (room_at state.counter state.counter.at 2) }
    ensures range { IfOk result (λ step. IsState step.state) }
    ensures placed { IfOk result IsPlaced }
{
    let place = state.counter.room(2)?;
    let site = Site {
        here: place,
        leads: state.leads,
        banks: state.banks,
    };
    let pair = encode_pair(names, site, operation)?;
    Ok(Step {
        state: State {
            counter: state.counter.after_words(2),
            leads: false,
            banks: banks_after(is_banked(operation), state.banks),
        },
        first: Some(PlacedWord {
            place: place as usize,
            word: pair.upper,
        }),
        second: Some(PlacedWord {
            place: place as usize + 1,
            word: pair.lower,
        }),
    })
}

/// Assembles a line without words.
fn no_word(state: State, kind: LineKind) -> Result<Step, SourceFault>
    requires at { IsState state }
    requires kind { IsKind kind }
    ensures woven { result ≡ no_word state kind (counter_after state.counter kind) }
    ensures range { IfOk result (λ step. IsState step.state) }
    ensures placed { IfOk result IsPlaced }
{
    let next = counter_after(state.counter, kind)?;
    Ok(Step {
        state: State {
            counter: next,
            leads: state.leads && stays_put(kind),
            banks: state.banks,
        },
        first: None,
        second: None,
    })
}

/// Returns whether an extracode that is expected still is after a line of this kind.
fn stays_put(kind: LineKind) -> bool
    ensures { result ≡ stays_put kind }
{
    !matches!(
        kind,
        LineKind::Moves(_) | LineKind::Bank(_) | LineKind::Resumes
    )
}
