//! Prints an entry of the trace as a line.
ghost use Rattle.std.specs.Prelude.{◌≡◌, ◌++◌, ◌<◌, OnOk, codes, string_bytes};
ghost use Rattle.agc_store.specs.Places.{fixed_window};
ghost use Rattle.agc_machine.specs.Boundary.{HasPlace};
ghost use Rattle.agc_listing.specs.Place.{IsInPrint};
ghost use Rattle.agc_trace.specs.Entry.{FitsLine, FitsWrite};
ghost use Rattle.agc_word.specs.Octal.{word_digits};
ghost use Rattle.agc_trace.specs.Line.{
  entry_text,
  happening_text,
  line_of,
  order_place,
  registers_text,
  shown_text,
};

use crate::entry::{Entry, Registers};
use agc_listing::{Place, push_order, push_place};
use agc_machine::{InHand, Upcoming};
use agc_script::push_what;
use agc_store::Addr;
use agc_store::place::{ERASABLE_WINDOW, FIXED_FIXED, FIXED_WINDOW};
use agc_word::{ChannelWrite, Narrow};
use std::alloc::AllocError;

/// Appends the line of an entry: `CYCLE PLACE WORD ORDER operand | A .. FB ff`, with ` > ccc vvvvv`
/// before the bar for a channel write, and `- event ..`, `- timer ..`, `- interrupt ..` or `- stop
/// ..` if no order ran. Fails if out of memory.
#[tactic(auto, unfolding(crate::specs::Line::line_of))]
pub fn push_line(text: &mut String, entry: &Entry) -> Result<(), AllocError>
    requires { FitsLine entry.now }
    ensures { OnOk result (string_bytes text.new ≡ string_bytes text.old ++ line_of entry.now) }
{
    push_entry(text, entry)?;
    text.push_str("\n")
}

/// Appends an entry without the end of its line.
#[tactic(auto, unfolding(crate::specs::Line::entry_text))]
pub(crate) fn push_entry(text: &mut String, entry: &Entry) -> Result<(), AllocError>
    requires { FitsLine entry.now }
    ensures { OnOk result (string_bytes text.new ≡ string_bytes text.old ++ entry_text entry.now) }
{
    let cycle = entry.cycle;
    write!(text, "{cycle} ")?;
    push_happening(text, entry.happening)?;
    push_write(text, entry.write)?;
    text.push_str(" | ")?;
    push_registers(text, entry.registers)
}

/// Appends what happened, or will happen: an order with its place and its word, or anything else after a dash. Fails if
/// out of memory.
#[tactic(auto, unfolding(crate::specs::Line::happening_text))]
pub fn push_happening(text: &mut String, happening: Upcoming) -> Result<(), AllocError>
    requires { HasPlace happening }
    ensures { OnOk result
        (string_bytes text.new ≡ string_bytes text.old ++ happening_text happening) }
{
    match happening {
        Upcoming::Order(order) => push_in_hand(text, order),
        Upcoming::Event(what) => {
            text.push_str("- event ")?;
            push_what(text, what)
        }
        Upcoming::Timer(timer) => {
            text.push_str("- timer ")?;
            text.push_str(timer.name())
        }
        Upcoming::Interrupt(rupt) => {
            text.push_str("- interrupt ")?;
            text.push_str(rupt.name())
        }
        Upcoming::Stop(why) => {
            text.push_str("- stop ")?;
            text.push_str(why.name())
        }
    }
}

/// Appends an order with its place and its word.
#[tactic(auto, unfolding(crate::specs::Line::happening_text))]
fn push_in_hand(text: &mut String, order: InHand) -> Result<(), AllocError>
    requires { HasPlace (Upcoming.Order order) }
    ensures { OnOk result
        (string_bytes text.new ≡ string_bytes text.old ++ happening_text (Upcoming.Order order)) }
{
    let InHand {
        bank,
        address,
        word,
        extracode,
    } = order;
    let place = order_place(bank, address);
    push_place(text, place)?;
    push_word(text, word)?;
    push_order(text, extracode, word)
}

/// Appends a word between spaces.
fn push_word(text: &mut String, word: Narrow) -> Result<(), AllocError>
    ensures { OnOk result (string_bytes text.new
        ≡ string_bytes text.old ++ codes " " ++ word_digits word ++ codes " ") }
{
    write!(text, " {word} ")
}

/// Returns the place of an order as traces print it. The bank is used only if the address is in a window.
pub fn order_place(bank: u8, address: Addr) -> Place
    requires bank { bank < 0o50 }
    requires erasable { address < fixed_window → bank < 0o10 }
    ensures place { result ≡ order_place bank address }
    ensures range { IsInPrint result }
{
    let address = address.bits();
    match address {
        ERASABLE_WINDOW..FIXED_WINDOW => Place::Erasable { bank, address },
        FIXED_WINDOW..FIXED_FIXED => Place::Fixed { bank, address },
        _ => Place::Plain(address),
    }
}

/// Appends a channel write, if there is one.
pub(crate) fn push_write(text: &mut String, write: Option<ChannelWrite>) -> Result<(), AllocError>
    requires { FitsWrite write }
    ensures { OnOk result (string_bytes text.new ≡ string_bytes text.old ++ shown_text write) }
{
    match write {
        Some(write) => {
            let channel = write.channel;
            let value = write.value;
            write!(text, " > {channel:03o} {value}")
        }
        None => Ok(()),
    }
}

/// Appends the registers: `A aaaaaa L lllll Q qqqqqq Z zzzz EB e FB ff`. Fails if out of memory.
#[tactic(auto, unfolding(crate::specs::Line::registers_text))]
pub fn push_registers(text: &mut String, registers: Registers) -> Result<(), AllocError>
    requires erasable { registers.erasable_bank < 0o10 }
    requires fixed { registers.fixed_bank < 0o100 }
    ensures { OnOk result
        (string_bytes text.new ≡ string_bytes text.old ++ registers_text registers) }
{
    let Registers {
        a,
        l,
        q,
        z,
        erasable_bank,
        fixed_bank,
    } = registers;
    let z = z.bits();
    write!(
        text,
        "A {a} L {l} Q {q} Z {z:04o} EB {erasable_bank:01o} FB {fixed_bank:02o}"
    )
}
