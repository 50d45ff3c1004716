//! Prints a profile: the run as a whole, its interrupts, its orders by mnemonic, its banks, its routines and its words.
ghost use Rattle.std.specs.Prelude.{◌<◌};
ghost use Rattle.agc_store.specs.Places.{fixed_places, fixed_words};
ghost use Rattle.agc_profile.specs.Routine.{size_of};

use agc_listing::{
    Cell, Location, Place, leads_on, listed_address, next_is_extracode, push_order, push_place,
};
use agc_order::{Basic, Extracode};
use agc_processor::Rupt;
use agc_profile::{
    MemoryKind, Profile, Tally, basic_number, extracode_number, is_named, sum_routines,
};
use agc_store::Store;
use agc_store::place::{
    ERASABLE_BANK_SIZE, ERASABLE_CELLS, FIXED_BANK_SIZE, FIXED_PLACES, FIXED_WINDOW, FIXED_WORDS,
};
use agc_symbols::{SymbolTable, push_nearby};
use agc_trace::Layout;
use agc_word::Narrow;
use std::alloc::{AllocError, Global};

/// How a profile is printed.
#[derive(Drop)]
pub struct ProfileForm {
    pub layout: Layout,
    /// Whether words of the rope other than +0 have lines even if they never ran and were never read.
    pub is_whole: bool,
    /// The names of places, printed after them; with names, routines have lines too.
    pub names: Option<SymbolTable>,
}

/// A line of a profile.
#[derive(Clone, Copy)]
struct Row<'a> {
    kind: &'a str,
    name: &'a str,
    /// The order of a word, or the share of a routine.
    detail: &'a str,
    tally: Tally,
    /// How often a word was read as data.
    reads: Option<u64>,
}

/// Appends a profile: lines for the run as a whole, for its interrupts, its orders by mnemonic, its banks, its routines if
/// there are names, and its words, each only if it occurred at all. Fails if out of memory.
pub fn push_profile(
    text: &mut String,
    form: &ProfileForm,
    profile: &Profile,
    store: &Store,
) -> Result<(), AllocError> {
    push_heading(text, form.layout)?;
    push_run(text, form.layout, profile)?;
    push_interrupts(text, form.layout, profile)?;
    push_basics(text, form.layout, profile)?;
    push_extracodes(text, form.layout, profile)?;
    push_erasable_banks(text, form.layout, profile)?;
    push_fixed_banks(text, form.layout, profile)?;
    if let Some(names) = &form.names {
        push_routines(text, form.layout, names, profile, MemoryKind::Erasable)?;
        push_routines(text, form.layout, names, profile, MemoryKind::Fixed)?;
    }
    push_cells(text, form, profile)?;
    push_rope_words(text, form, profile, store)?;
    push_empty_banks(text, form, profile)
}

fn push_heading(text: &mut String, layout: Layout) -> Result<(), AllocError> {
    text.push_str(match layout {
        Layout::Columns => "         times          cycles          data  of what\n",
        Layout::Csv => "kind,name,order,times,cycles,data\n",
    })
}

/// Appends the lines of the run as a whole, which stand there even if nothing occurred.
fn push_run(text: &mut String, layout: Layout, profile: &Profile) -> Result<(), AllocError> {
    let all = profile
        .orders
        .plus(profile.timers)?
        .plus(profile.events)?
        .plus(profile.entries)?;
    push_tally(text, layout, "all", "boundaries", all)?;
    push_tally(text, layout, "all", "orders", profile.orders)?;
    push_tally(text, layout, "all", "timers", profile.timers)?;
    push_tally(text, layout, "all", "events", profile.events)?;
    push_tally(text, layout, "all", "interrupts", profile.entries)?;
    push_tally(text, layout, "all", "in services", profile.serving)?;
    push_tally(text, layout, "all", "under INHINT", profile.inhibited)
}

fn push_interrupts(text: &mut String, layout: Layout, profile: &Profile) -> Result<(), AllocError> {
    for number in 0..10u8 {
        let name = Rupt::numbered(number + 1).name();
        let tally = profile.interrupts.at(usize::from(number));
        push_counted(text, layout, "interrupt", name, tally)?;
    }
    Ok(())
}

fn push_basics(text: &mut String, layout: Layout, profile: &Profile) -> Result<(), AllocError> {
    for order in &Basic::ALL {
        let tally = profile.basics.at(basic_number(*order));
        push_counted(text, layout, "order", order.row().mnemonic, tally)?;
    }
    Ok(())
}

fn push_extracodes(text: &mut String, layout: Layout, profile: &Profile) -> Result<(), AllocError> {
    for order in &Extracode::ALL {
        let tally = profile.extracodes.at(extracode_number(*order));
        push_counted(text, layout, "extracode", order.row().mnemonic, tally)?;
    }
    Ok(())
}

fn push_erasable_banks(
    text: &mut String,
    layout: Layout,
    profile: &Profile,
) -> Result<(), AllocError> {
    let alloc = *text.allocator();
    for bank in 0..8u8 {
        let name = format!(in alloc; "E{bank:01o}")?;
        let size = usize::from(ERASABLE_BANK_SIZE);
        let tally = profile.erasable.of_bank(size, usize::from(bank))?;
        push_counted(text, layout, "bank", name.as_str(), tally)?;
    }
    Ok(())
}

fn push_fixed_banks(
    text: &mut String,
    layout: Layout,
    profile: &Profile,
) -> Result<(), AllocError> {
    let alloc = *text.allocator();
    for bank in 0..0o50u8 {
        let name = format!(in alloc; "{bank:02o}")?;
        let size = usize::from(FIXED_BANK_SIZE);
        let tally = profile.fixed.of_bank(size, usize::from(bank))?;
        push_counted(text, layout, "bank", name.as_str(), tally)?;
    }
    Ok(())
}

/// Appends the lines of the routines of a memory whose orders ran.
fn push_routines(
    text: &mut String,
    layout: Layout,
    names: &SymbolTable,
    profile: &Profile,
    memory: MemoryKind,
) -> Result<(), AllocError> {
    let alloc = *text.allocator();
    let sums = sum_routines(alloc, names, memory, memory.table(profile))?;
    for first in 0..memory.size() {
        let tally = sums.at(first);
        if tally.is_counted() {
            let name = routine_name(alloc, names, memory, first)?;
            let share = share_text(alloc, tally.cycles, profile.orders.cycles)?;
            let row = Row {
                kind: "routine",
                name: name.as_str(),
                detail: share.as_str(),
                tally,
                reads: None,
            };
            push_row(text, layout, &row)?;
        }
    }
    Ok(())
}

/// Returns the place and the name of the routine that begins at a place, or its bank if no name is there.
fn routine_name(
    alloc: Global,
    names: &SymbolTable,
    memory: MemoryKind,
    first: usize,
) -> Result<String, AllocError>
    requires { first < size_of memory }
{
    let at = memory.location(first);
    let mut name = String::new(alloc);
    if is_named(names, at) {
        push_printed(&mut name, memory, first)?;
        push_detail(&mut name, name_of(alloc, names, at)?.as_str())?;
    } else {
        match memory {
            MemoryKind::Fixed => {
                let bank = first / usize::from(FIXED_BANK_SIZE);
                write!(name, "{bank:02o}")?;
            }
            MemoryKind::Erasable => {
                let bank = first / usize::from(ERASABLE_BANK_SIZE);
                write!(name, "E{bank:01o}")?;
            }
        }
    }
    Ok(name)
}

/// Appends the place of a word in a memory, as listings name it.
fn push_printed(text: &mut String, memory: MemoryKind, number: usize) -> Result<(), AllocError>
    requires { number < size_of memory }
{
    match memory {
        MemoryKind::Fixed => push_fixed_place(text, number),
        MemoryKind::Erasable => push_place(text, Cell::new(number as u16).place()),
    }
}

fn push_fixed_place(text: &mut String, number: usize) -> Result<(), AllocError>
    requires { number < fixed_places }
{
    let size = usize::from(FIXED_BANK_SIZE);
    let address = if number < FIXED_WORDS as usize {
        listed_address(number)
    } else {
        FIXED_WINDOW + (number % size) as u16
    };
    push_place(
        text,
        Place::Fixed {
            bank: (number / size) as u8,
            address,
        },
    )
}

/// Appends the lines of the cells of erasable memory.
fn push_cells(text: &mut String, form: &ProfileForm, profile: &Profile) -> Result<(), AllocError> {
    for cell in 0..usize::from(ERASABLE_CELLS) {
        let (tally, reads) = (profile.erasable.at(cell), profile.erasable_data.at(cell));
        push_place_line(text, form, MemoryKind::Erasable, cell, tally, reads)?;
    }
    Ok(())
}

/// Appends the lines of the words in banks that the rope does not have.
fn push_empty_banks(
    text: &mut String,
    form: &ProfileForm,
    profile: &Profile,
) -> Result<(), AllocError> {
    for place in FIXED_WORDS as usize..FIXED_PLACES as usize {
        let (tally, reads) = (profile.fixed.at(place), profile.fixed_data.at(place));
        push_place_line(text, form, MemoryKind::Fixed, place, tally, reads)?;
    }
    Ok(())
}

/// Appends the line of a word by its place and name alone, if it ran or was read.
fn push_place_line(
    text: &mut String,
    form: &ProfileForm,
    memory: MemoryKind,
    number: usize,
    tally: Tally,
    reads: Tally,
) -> Result<(), AllocError>
    requires { number < size_of memory }
{
    if !(tally.is_counted() || reads.is_counted()) {
        return Ok(());
    }
    let alloc = *text.allocator();
    let mut name = String::new(alloc);
    push_printed(&mut name, memory, number)?;
    if let Some(names) = &form.names {
        push_detail(
            &mut name,
            name_of(alloc, names, memory.location(number))?.as_str(),
        )?;
    }
    let row = Row {
        kind: "word",
        name: name.as_str(),
        detail: "",
        tally,
        reads: Some(reads.times),
    };
    push_row(text, form.layout, &row)
}

/// Appends the lines of the words of the rope.
fn push_rope_words(
    text: &mut String,
    form: &ProfileForm,
    profile: &Profile,
    store: &Store,
) -> Result<(), AllocError> {
    let mut leads = false;
    for place in 0..FIXED_WORDS as usize {
        let word = store.fixed_at(place);
        let extracode = leads_on(leads, place);
        let (tally, reads) = (profile.fixed.at(place), profile.fixed_data.at(place));
        if tally.is_counted() || reads.is_counted() || (form.is_whole && word.bits() != 0) {
            let name = rope_word_name(*text.allocator(), form, place)?;
            let order = order_text(*text.allocator(), extracode, word)?;
            let row = Row {
                kind: "word",
                name: name.as_str(),
                detail: order.as_str(),
                tally,
                reads: Some(reads.times),
            };
            push_row(text, form.layout, &row)?;
        }
        leads = next_is_extracode(extracode, word);
    }
    Ok(())
}

/// Returns the place of a word of the rope, with its name if there are names: in columns padded to twelve characters.
fn rope_word_name(alloc: Global, form: &ProfileForm, place: usize) -> Result<String, AllocError>
    requires { place < fixed_words }
{
    let mut text = String::new(alloc);
    push_fixed_place(&mut text, place)?;
    if let Some(names) = &form.names {
        let name = name_of(alloc, names, Location::Fixed(place as u32))?;
        match form.layout {
            Layout::Columns => {
                write!(text, " {name}")?;
                push_spaces(&mut text, 12usize.saturating_sub(name.len()))?;
            }
            Layout::Csv => push_detail(&mut text, name.as_str())?,
        }
    }
    Ok(text)
}

/// Returns a word, and the order that it is.
fn order_text(alloc: Global, extracode: bool, word: Narrow) -> Result<String, AllocError> {
    let mut text = format!(in alloc; "{word} ")?;
    push_order(&mut text, extracode, word)?;
    Ok(text)
}

/// Returns the name of a place: the nearest one, but for a register or a counter only a name of its own.
fn name_of(alloc: Global, names: &SymbolTable, at: Location) -> Result<String, AllocError> {
    let mut name = String::new(alloc);
    if let Some(near) = names.operand_at(at) {
        push_nearby(&mut name, near)?;
    }
    Ok(name)
}

/// Returns a part of a whole in percent, cut to one decimal. Fails if out of memory, or if a number overflows.
fn share_text(alloc: Global, part: u64, whole: u64) -> Result<String, AllocError> {
    let thousandfold = part.checked_mul(1000).ok_or(AllocError)?;
    let tenths = if whole == 0 { 0 } else { thousandfold / whole };
    let (percent, tenth) = (tenths / 10, tenths % 10);
    format!(in alloc; "{percent}.{tenth}%")
}

/// Appends the line of a tally, unless it is zero.
fn push_counted(
    text: &mut String,
    layout: Layout,
    kind: &str,
    name: &str,
    tally: Tally,
) -> Result<(), AllocError> {
    if tally.is_counted() {
        push_tally(text, layout, kind, name, tally)
    } else {
        Ok(())
    }
}

/// Appends the line of a tally that is no word's.
fn push_tally(
    text: &mut String,
    layout: Layout,
    kind: &str,
    name: &str,
    tally: Tally,
) -> Result<(), AllocError> {
    let row = Row {
        kind,
        name,
        detail: "",
        tally,
        reads: None,
    };
    push_row(text, layout, &row)
}

/// Appends a line: how often, how many cycles, how often read as data, and what.
fn push_row(text: &mut String, layout: Layout, row: &Row<'_>) -> Result<(), AllocError> {
    match layout {
        Layout::Columns => push_columns(text, row),
        Layout::Csv => push_values(text, row),
    }
}

fn push_columns(text: &mut String, row: &Row<'_>) -> Result<(), AllocError> {
    push_column(text, 14, row.tally.times)?;
    push_column(text, 16, row.tally.cycles)?;
    match row.reads {
        Some(reads) => push_column(text, 14, reads)?,
        None => text.push_str("             -")?,
    }
    let (kind, name) = (row.kind, row.name);
    write!(text, "  {kind} {name}")?;
    push_detail(text, row.detail)?;
    text.push_str("\n")
}

fn push_values(text: &mut String, row: &Row<'_>) -> Result<(), AllocError> {
    let (kind, detail, tally) = (row.kind, row.detail, row.tally);
    write!(text, "{kind},\"")?;
    push_quoted(text, row.name)?;
    let (times, cycles) = (tally.times, tally.cycles);
    write!(text, "\",{detail},{times},{cycles},")?;
    if let Some(reads) = row.reads {
        write!(text, "{reads}")?;
    }
    text.push_str("\n")
}

/// Appends a number aligned right in a column.
fn push_column(text: &mut String, width: usize, number: u64) -> Result<(), AllocError> {
    let alloc = *text.allocator();
    let digits = format!(in alloc; "{number}")?;
    push_spaces(text, width.saturating_sub(digits.len()))?;
    text.push_str(digits.as_str())
}

fn push_spaces(text: &mut String, count: usize) -> Result<(), AllocError> {
    for _ in 0..count {
        text.push_str(" ")?;
    }
    Ok(())
}

/// Appends a text with each quote in it doubled.
fn push_quoted(text: &mut String, name: &str) -> Result<(), AllocError> {
    for character in name.chars() {
        if character == '"' {
            text.push('"')?;
        }
        text.push(character)?;
    }
    Ok(())
}

/// Appends a space and a text, unless the text is empty.
fn push_detail(text: &mut String, detail: &str) -> Result<(), AllocError> {
    if detail.is_empty() {
        Ok(())
    } else {
        write!(text, " {detail}")
    }
}
