//! Formats the answer to `help`.
ghost use Rattle.std.specs.Prelude.{◌≡◌, ◌++◌, OnOk, flat_map, string_bytes};
ghost use Rattle.agc_repl.specs.Help.{
  all_commands_text,
  events_text,
  help_line,
  help_text,
  purpose_text,
};

use agc_command::CommandName;
use std::alloc::AllocError;

/// Adds a line for each command and for each event, with its syntax, its effect and an example. Fails if memory runs
/// out.
pub fn push_help(text: &mut String) -> Result<(), AllocError>
    ensures { OnOk result (string_bytes text.new ≡ string_bytes text.old ++ help_text) }
{
    push_all_commands(text)?;
    push_events(text)
}

#[tactic(auto, unfolding(crate::specs::Help::all_commands_text, agc_command::specs::Name::all_names))]
fn push_all_commands(text: &mut String) -> Result<(), AllocError>
    ensures { OnOk result (string_bytes text.new ≡ string_bytes text.old ++ all_commands_text) }
{
    push_help_lines(text, &CommandName::ALL)
}

/// Adds the lines of the events.
#[tactic(auto, unfolding(crate::specs::Help::events_text))]
fn push_events(text: &mut String) -> Result<(), AllocError>
    ensures { OnOk result (string_bytes text.new ≡ string_bytes text.old ++ events_text) }
{
    text.push_str(
        "key NAME: presses a key, 0 to 9 + - VERB NOUN ENTR CLR RSET KEYREL. Example: key VERB\npro down, or pro up: turns the PRO switch. Example: pro down\ninput CCC WORD: sets a channel, 5 to 777, to a word, 0 to 77777, octal. Example: input 33 77775\npulse COUNTER KIND: steps a counter, 24 to 60, octal, by pinc, minc, pcdu, mcdu, shinc or shanc. Example: pulse 37 pinc\nraise N: requests an interrupt, 1 to 10, decimal. Example: raise 5\npoke BANK OFFSET WORD: stores a word, 0 to 77777, in bank 0 to 7 at offset 0 to 377, in bank 0 from 10 on, octal. Example: poke 0 100 12345\n",
    )
}

/// Adds the lines of these commands.
fn push_help_lines(text: &mut String, names: &[CommandName]) -> Result<(), AllocError>
    ensures { OnOk result
        (string_bytes text.new ≡ string_bytes text.old ++ flat_map help_line names.now) }
{
    for name in names {
        push_help_line(text, *name)?;
    }
    Ok(())
}

/// Adds the line of a command.
#[tactic(auto, unfolding(crate::specs::Help::help_line))]
fn push_help_line(text: &mut String, name: CommandName) -> Result<(), AllocError>
    ensures { OnOk result (string_bytes text.new ≡ string_bytes text.old ++ help_line name) }
{
    let (usage, purpose) = (name.usage(), purpose(name));
    writeln!(text, "{usage}: {purpose}")
}

/// Returns what a command does.
#[tactic(auto, unfolding(crate::specs::Help::purpose_text))]
fn purpose(name: CommandName) -> &'static str
    ensures { result.now ≡ purpose_text name }
{
    match name {
        CommandName::Go =>
            "runs N cycles, or to cycle C, 0 to 1000000000000, decimal. Example: go 85333",
        CommandName::Step =>
            "takes one boundary, or N, 0 to 1000000000000, decimal, with trace lines; with PLACE, octal, only of those that change the cell, each with the cell. Example: step 10000 cell 0100",
        CommandName::Over =>
            "runs over the call that comes next to the order behind it, for 1000000 cycles or N, decimal; takes one boundary if no call comes; with CELL, octal, only where it has its present word. Example: over",
        CommandName::Finish =>
            "runs out of the routine, to the place that Q names, for 1000000 cycles or N, decimal; CELL as for over. Example: finish within 85333",
        CommandName::Until =>
            "runs on to it, for 1000000 cycles or N, decimal; ignore passes over N hits, decimal; PLACE and CCC, 5 to 777, are octal. Example: until write 10 ignore 2",
        CommandName::Break =>
            "sets a breakpoint; PLACE, CCC, 5 to 777, and WORD, 0 to 77777, are octal; after if, >, = and != compare too, and WORD may be decimal with its sign. Example: break 4100 if 0100 < -3",
        CommandName::Breaks => "lists the breakpoints",
        CommandName::Delete => "deletes breakpoint N, from 1 on, decimal. Example: delete 2",
        CommandName::Continue =>
            "runs on to the first breakpoint that is hit, for 1000000 cycles or N, decimal; ignore passes over N hits, decimal. Example: continue within 85333",
        CommandName::Quiet => "prints no channel writes of runs, or prints them again",
        CommandName::Panel => "shows the panel",
        CommandName::Watch =>
            "sets a breakpoint at a cell, or shows the Executive's tables; all octal. Example: watch 0,200,7,0,330,0,340",
        CommandName::Registers => "shows A, L, Q, Z, EB, FB and BB, octal",
        CommandName::Next => "shows what comes next, as a trace does",
        CommandName::Ahead =>
            "shows the coming boundary, or N, 0 to 1000000000000, decimal, as step would print them. Example: ahead 10",
        CommandName::Where =>
            "shows the place of the order in hand, and what a service interrupted",
        CommandName::Cell =>
            "shows a cell, octal, or N from it on, 1 to 2048, decimal. Example: cell 0100 8",
        CommandName::Print =>
            "shows a cell, octal, or N from it on, 1 to 2048, decimal; in octal and signed decimal. Example: print 0100",
        CommandName::Channel => "shows a channel, 0 to 777, octal. Example: channel 10",
        CommandName::Writes => "shows the number of channel writes so far",
        CommandName::Back =>
            "returns to before cycle C, decimal, to where the Nth last boundary began, from 1 on, decimal, to before a call, or to where the last one that hits it began, numbers as for break, ignore as for until; drops later events, and with list prints them. Example: back until cell 0100",
        CommandName::Script => "prints the script that repeats this session",
        CommandName::Save => "writes that script to a new file. Example: save my.script",
        CommandName::Help => "prints these lines",
        CommandName::Quit => "ends the session, as the end of the input does",
    }
}
