//! Parses a line as a command.
ghost use Rattle.std.specs.Prelude.{◌≡◌, ◌≤◌, ◌∷◌, IfOk, IfSome};
ghost use Rattle.agc_script.specs.Event.{last_cycle};
ghost use Rattle.agc_word.specs.Channels.{IsIoChannel};
ghost use Rattle.agc_word.specs.Text.{words_of};
ghost use Rattle.agc_session.specs.Condition.{IsConditionInRange};
ghost use Rattle.agc_command.specs.Command.{
  IsCommandInRange,
  IsBreakpointInRange,
  IsJobCell,
  ahead_of,
  back_cell,
  back_interrupt,
  back_of,
  back_step,
  back_target,
  back_until,
  back_write,
  back_write_of,
  listing,
  break_of,
  break_at_cell,
  break_cell,
  break_at,
  break_interrupt,
  break_panel,
  break_place,
  break_write,
  break_write_of,
  cells_of,
  channel_of,
  continue_of,
  delete_of,
  has_second_comma,
  is_tables,
  print_of,
  quiet_of,
  command_by,
  event_fault,
  event_of,
  go_of,
  hit_past,
  key_fault,
  key_from,
  request_of,
  save_of,
  step_cell,
  step_of,
  until_of,
  until_target,
  watch_of,
  watch_word,
  way_back,
  words_request,
};

use crate::calls::{read_back_call, read_call};
use crate::command::{BackCall, Command, Rewind, Search, Steps};
use crate::comparison::{read_back_place, read_only_order, read_until_place};
use crate::fault::CommandFault;
use crate::file_name::FileName;
use crate::limits::{after_option, read_ignored, read_limits};
use crate::name::CommandName;
use crate::number::{
    read_channel, read_cycles, read_interrupt, read_spec, read_word, read_written_channel,
};
use crate::place::{read_cell, read_cells_after};
use crate::words::{alone, is_word, only_word};
use agc_listing::first_comma;
use agc_panel::PanelLine;
use agc_script::{FaultKind, Key, LONGEST_LINE, has_high_byte, read_command};
use agc_session::{CallStep, Condition};
use agc_symbols::SymbolTable;
use agc_word::next_word;

/// Parses a line. Returns `None` for a line without words and for a comment, or its fault. With `names`, a symbol can
/// be written for any place: `resolve` of agc_symbols reads it.
#[tactic(auto, unfolding(crate::specs::Command::request_of))]
pub fn parse_command(
    names: &Option<SymbolTable>,
    line: &[u8],
) -> Result<Option<Command>, CommandFault>
    ensures request { result ≡ request_of names.now line.now }
    ensures range { IfOk result (λ parsed. IfSome parsed IsCommandInRange) }
{
    if line.len() > LONGEST_LINE {
        Err(CommandFault::LineTooLong)
    } else if has_high_byte(line) {
        Err(CommandFault::NotAscii)
    } else {
        read_words(names, line)
    }
}

#[tactic(auto, unfolding(crate::specs::Command::words_request))]
fn read_words(names: &Option<SymbolTable>, line: &[u8]) -> Result<Option<Command>, CommandFault>
    ensures words { result ≡ words_request names.now (words_of line.now) }
    ensures range { IfOk result (λ parsed. IfSome parsed IsCommandInRange) }
{
    let Some((first, words)) = next_word(line) else {
        return Ok(None);
    };
    if let [b'#', ..] = first {
        return Ok(None);
    }
    let command = match CommandName::from_word(first) {
        Some(name) => read_named(names, name, words)?,
        None => read_event(first, words, line)?,
    };
    Ok(Some(command))
}

/// Parses the words after a command's name.
#[tactic(auto, unfolding(crate::specs::Command::command_by, crate::specs::Command::IsCommandInRange))]
fn read_named(
    names: &Option<SymbolTable>,
    name: CommandName,
    words: &[u8],
) -> Result<Command, CommandFault>
    ensures command { result ≡ command_by names.now name (words_of words.now) }
    ensures range { IfOk result IsCommandInRange }
{
    match name {
        CommandName::Go => read_go(words),
        CommandName::Step => read_step(names, words),
        CommandName::Over => read_call(names, name, CallStep::Over, words),
        CommandName::Finish => read_call(names, name, CallStep::Finish, words),
        CommandName::Until => read_until(names, words),
        CommandName::Break => read_break(names, words),
        CommandName::Breaks => alone(Command::Breaks, name, words),
        CommandName::Delete => read_delete(words),
        CommandName::Continue => read_continue(words),
        CommandName::Quiet => read_quiet(words),
        CommandName::Panel => alone(Command::Panel, name, words),
        CommandName::Watch => read_watch(names, words),
        CommandName::Registers => alone(Command::Registers, name, words),
        CommandName::Next => alone(Command::Next, name, words),
        CommandName::Ahead => read_ahead(words),
        CommandName::Where => alone(Command::Where, name, words),
        CommandName::Cell => read_cells(names, words),
        CommandName::Print => read_print(names, words),
        CommandName::Channel => read_channel_query(words),
        CommandName::Writes => alone(Command::Writes, name, words),
        CommandName::Back => read_back(names, words),
        CommandName::Script => alone(Command::Script, name, words),
        CommandName::Save => read_save(words),
        CommandName::Help => alone(Command::Help, name, words),
        CommandName::Quit => alone(Command::Quit, name, words),
    }
}

/// Parses an event, if the first word of its line is a command of scripts.
#[tactic(auto, unfolding(crate::specs::Command::event_of, crate::specs::Command::IsCommandInRange))]
fn read_event(first: &[u8], words: &[u8], line: &[u8]) -> Result<Command, CommandFault>
    requires { words_of line.now ≡ first.now ∷ words_of words.now }
    ensures event { result ≡ event_of first.now (words_of words.now) }
    ensures range { IfOk result IsCommandInRange }
{
    if agc_script::Command::from_name(first).is_none() {
        return Err(CommandFault::UnknownCommand);
    }
    match read_command(line) {
        Ok(what) => Ok(Command::Inject(what)),
        Err(kind) => Err(event_fault(kind, first, words)),
    }
}

/// Returns the fault of an event: of a single word after `key`, that it is no key.
#[tactic(auto, unfolding(crate::specs::Command::event_fault))]
fn event_fault(kind: FaultKind, first: &[u8], words: &[u8]) -> CommandFault
    ensures { result ≡ event_fault kind first.now (words_of words.now) }
{
    let Some((word, rest)) = next_word(words) else {
        return CommandFault::BadEvent(kind);
    };
    let alone = next_word(rest).is_none();
    if kind == FaultKind::UnknownWord && alone && is_word(first, "key") {
        key_fault(word)
    } else {
        CommandFault::BadEvent(kind)
    }
}

/// Returns the fault of a word that is no key, with the key that has its first letter.
#[tactic(auto, unfolding(crate::specs::Command::key_fault))]
fn key_fault(word: &[u8]) -> CommandFault
    ensures { result ≡ key_fault word.now }
{
    match word.first() {
        None => CommandFault::UnknownKey(None),
        Some(letter) => {
            let letter = *letter;
            if letter == b'P' || letter == b'p' {
                CommandFault::ProKey
            } else {
                CommandFault::UnknownKey(key_from(letter))
            }
        }
    }
}

/// Returns the key whose name has this first letter, in upper or lower case.
#[tactic(auto, unfolding(crate::specs::Command::key_from))]
fn key_from(letter: u8) -> Option<Key>
    ensures { result ≡ key_from letter }
{
    if letter == b'V' || letter == b'v' {
        Some(Key::Verb)
    } else if letter == b'N' || letter == b'n' {
        Some(Key::Noun)
    } else if letter == b'R' || letter == b'r' {
        Some(Key::Reset)
    } else if letter == b'K' || letter == b'k' {
        Some(Key::KeyRelease)
    } else if letter == b'E' || letter == b'e' {
        Some(Key::Enter)
    } else if letter == b'C' || letter == b'c' {
        Some(Key::Clear)
    } else {
        None
    }
}

#[tactic(auto, unfolding(crate::specs::Command::go_of, crate::specs::Command::IsCommandInRange))]
fn read_go(words: &[u8]) -> Result<Command, CommandFault>
    ensures go { result ≡ go_of (words_of words.now) }
    ensures range { IfOk result IsCommandInRange }
{
    let (first, rest) = next_word(words).ok_or(CommandFault::Usage(CommandName::Go))?;
    if is_word(first, "to") {
        let cycle = only_word(CommandName::Go, rest)?;
        let cycle = read_cycles(cycle)?;
        return Ok(Command::GoTo(cycle));
    }
    let cycles = only_word(CommandName::Go, words)?;
    let cycles = read_cycles(cycles)?;
    Ok(Command::Go(cycles))
}

#[tactic(auto, unfolding(crate::specs::Command::step_of, crate::specs::Command::IsCommandInRange))]
fn read_step(names: &Option<SymbolTable>, words: &[u8]) -> Result<Command, CommandFault>
    ensures step { result ≡ step_of names.now (words_of words.now) }
    ensures range { IfOk result IsCommandInRange }
{
    let Some((boundaries, rest)) = next_word(words) else {
        return Ok(Command::Step(Steps {
            boundaries: 1,
            cell: None,
        }));
    };
    let boundaries = read_cycles(boundaries)?;
    let cell = read_step_cell(names, rest)?;
    Ok(Command::Step(Steps { boundaries, cell }))
}

/// Parses `cell PLACE`, which may be missing.
#[tactic(auto, unfolding(crate::specs::Command::step_cell))]
fn read_step_cell(names: &Option<SymbolTable>, words: &[u8]) -> Result<Option<u16>, CommandFault>
    ensures cell { result ≡ step_cell names.now (words_of words.now) }
    ensures range { IfOk result IsJobCell }
{
    let Some((first, rest)) = next_word(words) else {
        return Ok(None);
    };
    if !is_word(first, "cell") {
        return Err(CommandFault::Usage(CommandName::Step));
    }
    let place = only_word(CommandName::Step, rest)?;
    let cell = read_cell(names, place)?;
    Ok(Some(cell))
}

#[tactic(auto, unfolding(crate::specs::Command::ahead_of, crate::specs::Command::IsCommandInRange))]
fn read_ahead(words: &[u8]) -> Result<Command, CommandFault>
    ensures ahead { result ≡ ahead_of (words_of words.now) }
    ensures range { IfOk result IsCommandInRange }
{
    if next_word(words).is_none() {
        return Ok(Command::Ahead(1));
    }
    let boundaries = only_word(CommandName::Ahead, words)?;
    let boundaries = read_cycles(boundaries)?;
    Ok(Command::Ahead(boundaries))
}

#[tactic(auto, unfolding(crate::specs::Command::until_of, crate::specs::Command::IsBreakpointInRange))]
fn read_until(names: &Option<SymbolTable>, words: &[u8]) -> Result<Command, CommandFault>
    ensures until { result ≡ until_of names.now (words_of words.now) }
    ensures range { IfOk result IsCommandInRange }
{
    let (first, rest) = next_word(words).ok_or(CommandFault::Usage(CommandName::Until))?;
    if is_word(first, "write") {
        let (channel, rest) = next_word(rest).ok_or(CommandFault::Usage(CommandName::Until))?;
        let channel = read_written_channel(channel)?;
        return read_until_target(
            Condition::Write {
                channel: Some(channel),
                word: None,
            },
            rest,
        );
    }
    if is_word(first, "cell") {
        let (place, rest) = next_word(rest).ok_or(CommandFault::Usage(CommandName::Until))?;
        let cell = read_cell(names, place)?;
        return read_until_target(Condition::Cell(cell), rest);
    }
    read_until_place(names, words)
}

/// Parses the words after a breakpoint.
#[tactic(auto, unfolding(crate::specs::Command::until_target, crate::specs::Command::IsCommandInRange))]
pub(crate) fn read_until_target(what: Condition, words: &[u8]) -> Result<Command, CommandFault>
    requires { IsBreakpointInRange what }
    ensures until { result ≡ until_target what (words_of words.now) }
    ensures range { IfOk result IsCommandInRange }
{
    let limits = read_limits(CommandName::Until, words)?;
    Ok(Command::Until { what, limits })
}

#[tactic(auto, unfolding(crate::specs::Command::watch_of, crate::specs::Command::IsCommandInRange))]
fn read_watch(names: &Option<SymbolTable>, words: &[u8]) -> Result<Command, CommandFault>
    ensures watch { result ≡ watch_of names.now (words_of words.now) }
    ensures range { IfOk result IsCommandInRange }
{
    let word = only_word(CommandName::Watch, words)?;
    read_watched(names, word)
}

/// Parses what to watch: tables, or a cell.
#[tactic(auto, unfolding(crate::specs::Command::IsCommandInRange))]
fn read_watched(names: &Option<SymbolTable>, word: &[u8]) -> Result<Command, CommandFault>
    ensures watch { result ≡ watch_word names.now word.now }
    ensures range { IfOk result IsCommandInRange }
{
    if is_tables(word) {
        let spec = read_spec(word)?;
        return Ok(Command::Watch(spec));
    }
    read_break_at_cell(names, word)
}

/// Returns whether a word has two commas or more. Tables have; a place has at most one.
#[tactic(auto, unfolding(crate::specs::Command::is_tables))]
fn is_tables(word: &[u8]) -> bool
    ensures { result ≡ is_tables word.now }
{
    match first_comma(word) {
        Some(first) => first_comma(&word[first + 1..]).is_some(),
        None => false,
    }
}

#[tactic(auto, unfolding(crate::specs::Command::break_of, crate::specs::Command::IsCommandInRange))]
fn read_break(names: &Option<SymbolTable>, words: &[u8]) -> Result<Command, CommandFault>
    ensures breaks { result ≡ break_of names.now (words_of words.now) }
    ensures range { IfOk result IsCommandInRange }
{
    let (first, rest) = next_word(words).ok_or(CommandFault::Usage(CommandName::Break))?;
    if is_word(first, "write") {
        read_break_write(rest)
    } else if is_word(first, "cell") {
        let word = only_word(CommandName::Break, rest)?;
        read_break_at_cell(names, word)
    } else if is_word(first, "interrupt") {
        read_break_interrupt(rest)
    } else if is_word(first, "panel") {
        read_break_panel(rest)
    } else {
        read_break_place(names, words)
    }
}

#[tactic(auto, unfolding(crate::specs::Command::IsCommandInRange, crate::specs::Command::IsBreakpointInRange))]
fn read_break_place(names: &Option<SymbolTable>, words: &[u8]) -> Result<Command, CommandFault>
    ensures breaks { result ≡ break_place names.now (words_of words.now) }
    ensures range { IfOk result IsCommandInRange }
{
    let what = read_only_order(names, CommandName::Break, words)?;
    Ok(break_at(what))
}

#[tactic(auto, unfolding(crate::specs::Command::IsCommandInRange, crate::specs::Command::IsBreakpointInRange))]
fn read_break_at_cell(names: &Option<SymbolTable>, word: &[u8]) -> Result<Command, CommandFault>
    ensures breaks { result ≡ break_at_cell names.now word.now }
    ensures range { IfOk result IsCommandInRange }
{
    let cell = read_cell(names, word)?;
    Ok(break_at(Condition::Cell(cell)))
}

#[tactic(auto, unfolding(crate::specs::Command::IsCommandInRange, crate::specs::Command::IsBreakpointInRange))]
fn read_break_interrupt(words: &[u8]) -> Result<Command, CommandFault>
    ensures breaks { result ≡ break_interrupt (words_of words.now) }
    ensures range { IfOk result IsCommandInRange }
{
    let word = only_word(CommandName::Break, words)?;
    let rupt = read_interrupt(word)?;
    Ok(break_at(Condition::Interrupt(Some(rupt))))
}

/// Parses the words after `break panel`: none, or a line of the panel.
#[tactic(auto, unfolding(crate::specs::Command::break_panel, crate::specs::Command::IsCommandInRange, crate::specs::Command::IsBreakpointInRange))]
fn read_break_panel(words: &[u8]) -> Result<Command, CommandFault>
    ensures breaks { result ≡ break_panel (words_of words.now) }
    ensures range { IfOk result IsCommandInRange }
{
    if next_word(words).is_none() {
        return Ok(Command::Break(Condition::Panel));
    }
    let line = PanelLine::parse(words).ok_or(CommandFault::BadLine)?;
    Ok(Command::Break(Condition::Shows(line)))
}

/// Returns the command that sets a breakpoint.
#[tactic(auto, unfolding(crate::specs::Command::IsCommandInRange, crate::specs::Command::IsBreakpointInRange))]
fn break_at(what: Condition) -> Command
    requires { IsBreakpointInRange what }
    ensures breaks { result ≡ break_at what }
    ensures range { IsCommandInRange result }
{
    Command::Break(what)
}

fn read_break_write(words: &[u8]) -> Result<Command, CommandFault>
    ensures breaks { result ≡ break_write (words_of words.now) }
    ensures range { IfOk result IsCommandInRange }
{
    let (channel, rest) = next_word(words).ok_or(CommandFault::Usage(CommandName::Break))?;
    let channel = read_written_channel(channel)?;
    read_break_word(channel, rest)
}

/// Parses the word after the channel of a write, if there is one.
#[tactic(auto, unfolding(crate::specs::Command::break_write_of, crate::specs::Command::IsCommandInRange, crate::specs::Command::IsBreakpointInRange))]
fn read_break_word(channel: u16, words: &[u8]) -> Result<Command, CommandFault>
    requires { IsIoChannel channel }
    ensures breaks { result ≡ break_write_of channel (words_of words.now) }
    ensures range { IfOk result IsCommandInRange }
{
    let Some((word, rest)) = next_word(words) else {
        return Ok(break_at(Condition::Write {
            channel: Some(channel),
            word: None,
        }));
    };
    let word = read_word(word)?;
    alone(
        break_at(Condition::Write {
            channel: Some(channel),
            word: Some(word),
        }),
        CommandName::Break,
        rest,
    )
}

#[tactic(auto, unfolding(crate::specs::Command::delete_of, crate::specs::Command::IsCommandInRange))]
fn read_delete(words: &[u8]) -> Result<Command, CommandFault>
    ensures delete { result ≡ delete_of (words_of words.now) }
    ensures range { IfOk result IsCommandInRange }
{
    let number = only_word(CommandName::Delete, words)?;
    let number = read_cycles(number)?;
    Ok(Command::Delete(number))
}

#[tactic(auto, unfolding(crate::specs::Command::continue_of, crate::specs::Command::IsCommandInRange))]
fn read_continue(words: &[u8]) -> Result<Command, CommandFault>
    ensures on { result ≡ continue_of (words_of words.now) }
    ensures range { IfOk result IsCommandInRange }
{
    let limits = read_limits(CommandName::Continue, words)?;
    Ok(Command::Continue(limits))
}

#[tactic(auto, unfolding(crate::specs::Command::quiet_of, crate::specs::Command::IsCommandInRange))]
fn read_quiet(words: &[u8]) -> Result<Command, CommandFault>
    ensures quiet { result ≡ quiet_of (words_of words.now) }
    ensures range { IfOk result IsCommandInRange }
{
    let Some((first, rest)) = next_word(words) else {
        return Ok(Command::Quiet(true));
    };
    if !is_word(first, "off") {
        return Err(CommandFault::Usage(CommandName::Quiet));
    }
    alone(Command::Quiet(false), CommandName::Quiet, rest)
}

#[tactic(auto, unfolding(crate::specs::Command::cells_of, crate::specs::Command::IsCommandInRange))]
fn read_cells(names: &Option<SymbolTable>, words: &[u8]) -> Result<Command, CommandFault>
    ensures cells { result ≡ cells_of names.now (words_of words.now) }
    ensures range { IfOk result IsCommandInRange }
{
    let (place, rest) = next_word(words).ok_or(CommandFault::Usage(CommandName::Cell))?;
    let first = read_cell(names, place)?;
    let count = read_cells_after(CommandName::Cell, first, rest)?;
    Ok(Command::Cells { first, count })
}

#[tactic(auto, unfolding(crate::specs::Command::print_of, crate::specs::Command::IsCommandInRange))]
fn read_print(names: &Option<SymbolTable>, words: &[u8]) -> Result<Command, CommandFault>
    ensures print { result ≡ print_of names.now (words_of words.now) }
    ensures range { IfOk result IsCommandInRange }
{
    let (place, rest) = next_word(words).ok_or(CommandFault::Usage(CommandName::Print))?;
    let first = read_cell(names, place)?;
    let count = read_cells_after(CommandName::Print, first, rest)?;
    Ok(Command::Print { first, count })
}

#[tactic(auto, unfolding(crate::specs::Command::channel_of, crate::specs::Command::IsCommandInRange))]
fn read_channel_query(words: &[u8]) -> Result<Command, CommandFault>
    ensures channel { result ≡ channel_of (words_of words.now) }
    ensures range { IfOk result IsCommandInRange }
{
    let channel = only_word(CommandName::Channel, words)?;
    let channel = read_channel(channel)?;
    Ok(Command::Channel(channel))
}

#[tactic(auto, unfolding(crate::specs::Command::save_of, crate::specs::Command::IsCommandInRange))]
fn read_save(words: &[u8]) -> Result<Command, CommandFault>
    ensures save { result ≡ save_of (words_of words.now) }
    ensures range { IfOk result IsCommandInRange }
{
    let name = only_word(CommandName::Save, words)?;
    Ok(Command::Save(FileName::new(name)))
}

#[tactic(auto, unfolding(crate::specs::Command::back_of, crate::specs::Command::IsCommandInRange))]
fn read_back(names: &Option<SymbolTable>, words: &[u8]) -> Result<Command, CommandFault>
    ensures back { result ≡ back_of names.now (words_of words.now) }
    ensures range { IfOk result IsCommandInRange }
{
    let (first, rest) = next_word(words).ok_or(CommandFault::Usage(CommandName::Back))?;
    if is_word(first, "list") {
        let back = read_way_back(names, rest)?;
        return Ok(listing(back));
    }
    read_way_back(names, words)
}

/// Returns the same command; if it goes back, it lists the dropped events.
#[tactic(auto, unfolding(crate::specs::Command::listing, crate::specs::Command::IsCommandInRange))]
fn listing(command: Command) -> Command
    requires { IsCommandInRange command }
    ensures command { result ≡ listing command }
    ensures range { IsCommandInRange result }
{
    match command {
        Command::Back(way) => Command::Back(Rewind {
            cut: way.cut,
            cycle: way.cycle,
            lists: true,
        }),
        Command::BackTo(search) => Command::BackTo(Search {
            what: search.what,
            count: search.count,
            lists: true,
        }),
        Command::BackCall(back) => Command::BackCall(BackCall {
            step: back.step,
            job: back.job,
            lists: true,
        }),
        other => other,
    }
}

/// Parses how to go back: to a cycle, by some boundaries, or to what a search finds.
#[tactic(auto, unfolding(crate::specs::Command::way_back, crate::specs::Command::IsCommandInRange))]
fn read_way_back(names: &Option<SymbolTable>, words: &[u8]) -> Result<Command, CommandFault>
    ensures back { result ≡ way_back names.now (words_of words.now) }
    ensures range { IfOk result IsCommandInRange }
{
    let (first, rest) = next_word(words).ok_or(CommandFault::Usage(CommandName::Back))?;
    if is_word(first, "step") {
        return read_back_step(rest);
    }
    if is_word(first, "until") {
        return read_back_until(names, rest);
    }
    if is_word(first, "over") {
        return read_back_call(names, CallStep::Over, rest);
    }
    if is_word(first, "finish") {
        return read_back_call(names, CallStep::Finish, rest);
    }
    let cycle = only_word(CommandName::Back, words)?;
    let cycle = read_cycles(cycle)?;
    Ok(Command::Back(Rewind {
        cut: cycle,
        cycle,
        lists: false,
    }))
}

#[tactic(auto, unfolding(crate::specs::Command::back_step, crate::specs::Command::IsCommandInRange))]
fn read_back_step(words: &[u8]) -> Result<Command, CommandFault>
    ensures back { result ≡ back_step (words_of words.now) }
    ensures range { IfOk result IsCommandInRange }
{
    if next_word(words).is_none() {
        return Ok(hit_past(0, Condition::Boundary));
    }
    let boundaries = only_word(CommandName::Back, words)?;
    let count = read_cycles(boundaries)?;
    if count == 0 {
        return Err(CommandFault::NoStep);
    }
    Ok(Command::BackTo(Search {
        what: Condition::Boundary,
        count,
        lists: false,
    }))
}

#[tactic(auto, unfolding(crate::specs::Command::back_until, crate::specs::Command::IsCommandInRange))]
fn read_back_until(names: &Option<SymbolTable>, words: &[u8]) -> Result<Command, CommandFault>
    ensures back { result ≡ back_until names.now (words_of words.now) }
    ensures range { IfOk result IsCommandInRange }
{
    let (first, rest) = next_word(words).ok_or(CommandFault::Usage(CommandName::Back))?;
    if is_word(first, "write") {
        read_back_write(rest)
    } else if is_word(first, "cell") {
        read_back_cell(names, rest)
    } else if is_word(first, "interrupt") {
        read_back_interrupt(rest)
    } else if is_word(first, "panel") {
        read_back_target(Condition::Panel, rest)
    } else {
        read_back_place(names, words)
    }
}

/// Returns the search for the last hit before some that are passed over.
#[tactic(auto, unfolding(crate::specs::Command::IsCommandInRange))]
fn hit_past(ignore: u64, what: Condition) -> Command
    requires number { ignore ≤ last_cycle }
    requires range { IsConditionInRange what }
    ensures command { result ≡ hit_past ignore what }
    ensures range { IsCommandInRange result }
{
    Command::BackTo(Search {
        what,
        count: ignore + 1,
        lists: false,
    })
}

fn read_back_write(words: &[u8]) -> Result<Command, CommandFault>
    ensures back { result ≡ back_write (words_of words.now) }
    ensures range { IfOk result IsCommandInRange }
{
    let (channel, rest) = next_word(words).ok_or(CommandFault::Usage(CommandName::Back))?;
    let channel = read_written_channel(channel)?;
    read_back_word(channel, rest)
}

/// Parses the word after the channel of a write to search, if there is one.
#[tactic(auto, unfolding(crate::specs::Command::back_write_of))]
fn read_back_word(channel: u16, words: &[u8]) -> Result<Command, CommandFault>
    ensures back { result ≡ back_write_of channel (words_of words.now) }
    ensures range { IfOk result IsCommandInRange }
{
    let channel = Some(channel);
    let Some((word, rest)) = next_word(words) else {
        return read_back_target(
            Condition::Write {
                channel,
                word: None,
            },
            words,
        );
    };
    if is_word(word, "ignore") {
        return read_back_target(
            Condition::Write {
                channel,
                word: None,
            },
            words,
        );
    }
    let word = Some(read_word(word)?);
    read_back_target(Condition::Write { channel, word }, rest)
}

fn read_back_cell(names: &Option<SymbolTable>, words: &[u8]) -> Result<Command, CommandFault>
    ensures back { result ≡ back_cell names.now (words_of words.now) }
    ensures range { IfOk result IsCommandInRange }
{
    let (place, rest) = next_word(words).ok_or(CommandFault::Usage(CommandName::Back))?;
    let cell = read_cell(names, place)?;
    read_back_target(Condition::Cell(cell), rest)
}

#[tactic(auto, unfolding(crate::specs::Command::back_interrupt))]
fn read_back_interrupt(words: &[u8]) -> Result<Command, CommandFault>
    ensures back { result ≡ back_interrupt (words_of words.now) }
    ensures range { IfOk result IsCommandInRange }
{
    let Some((name, rest)) = next_word(words) else {
        return read_back_target(Condition::Interrupt(None), words);
    };
    if is_word(name, "ignore") {
        return read_back_target(Condition::Interrupt(None), words);
    }
    let rupt = read_interrupt(name)?;
    read_back_target(Condition::Interrupt(Some(rupt)), rest)
}

/// Parses the words after what a search back looks for: the hits to pass over.
#[tactic(auto, unfolding(crate::specs::Command::back_target))]
pub(crate) fn read_back_target(what: Condition, words: &[u8]) -> Result<Command, CommandFault>
    requires { IsConditionInRange what }
    ensures back { result ≡ back_target what (words_of words.now) }
    ensures range { IfOk result IsCommandInRange }
{
    let ignore = read_ignored(CommandName::Back, words)?;
    alone(
        hit_past(ignore, what),
        CommandName::Back,
        after_option(words, "ignore"),
    )
}
