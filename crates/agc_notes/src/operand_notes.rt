//! Notes behind the lines of orders: the order with its operand by its name.
use agc_listing::{Operand, location_named};
use agc_operands::{KnownBanks, OperandNames, operand_name};
use agc_symbols::push_nearby;
use agc_word::{next_word, read_octal};
use std::alloc::AllocError;

/// The bytes with which the registers end: `EB e FB ff`.
const BANKS_BYTES: usize = 10;

/// An order as a line prints it.
#[derive(Clone, Copy, Debug, PartialEq, Eq)]
struct PrintedOrder<'a> {
    mnemonic: &'a str,
    operand: Operand,
    /// What the line says of the banks before the order.
    banks: KnownBanks,
}

/// Appends ` # ` and the order of a line with its operand by its name: behind `next` and the lines of a trace. Appends nothing if
/// the operand has no name, or if a bank that the line does not say decides which place it is.
pub(crate) fn push_operand_note(
    text: &mut String,
    names: OperandNames<'_>,
    line: &[u8],
) -> Result<(), AllocError> {
    let Some(order) = order_in(line) else {
        return Ok(());
    };
    let Some(near) = operand_name(names, order.operand, order.banks) else {
        return Ok(());
    };
    let mnemonic = order.mnemonic;
    write!(text, " # {mnemonic} ")?;
    push_nearby(text, near)
}

/// Returns the order of a line `CYCLE PLACE [NAME] WORD ORDER ..`, or `next PLACE [NAME] WORD ORDER`.
fn order_in(line: &[u8]) -> Option<PrintedOrder<'_>> {
    let (first, rest) = next_word(line)?;
    if first != b"next".as_slice() && !first.iter().all(|byte| byte.is_ascii_digit()) {
        return None;
    }
    let (place, rest) = next_word(rest)?;
    let banks = banks_of_place(place)?;
    let (mnemonic, rest) = next_word(behind_word(rest)?)?;
    let mnemonic = str::from_utf8(mnemonic).ok()?;
    let (operand, _) = next_word(rest)?;
    let operand = operand_of(mnemonic, operand);
    let banks = match banks_after(line) {
        Some((erasable, fixed)) => banks.or_after(mnemonic, operand, erasable, fixed),
        None => banks,
    };
    Some(PrintedOrder {
        mnemonic,
        operand,
        banks,
    })
}

/// Returns what the place of an order tells of the banks: `E3,1400`, `12,2071`, `4100`.
fn banks_of_place(place: &[u8]) -> Option<KnownBanks> {
    location_named(place)?;
    match place {
        [b'E', bank, b',', ..] => Some(KnownBanks {
            erasable: Some(digit(*bank)),
            fixed: None,
        }),
        [high, low, b',', ..] => Some(KnownBanks {
            erasable: None,
            fixed: Some(two_digits(*high, *low)),
        }),
        _ => Some(KnownBanks::NONE),
    }
}

/// Returns what stands behind the word of an order: `WORD ..`, `NAME WORD ..` or `NAME +N WORD ..`. No name is five digits.
fn behind_word(text: &[u8]) -> Option<&[u8]> {
    let (first, rest) = next_word(text)?;
    if is_order_word(first) {
        return Some(rest);
    }
    let (second, rest) = next_word(rest)?;
    if is_order_word(second) {
        return Some(rest);
    }
    let (third, rest) = next_word(rest)?;
    if is_order_word(third) {
        Some(rest)
    } else {
        None
    }
}

fn is_order_word(word: &[u8]) -> bool {
    word.len() == 5 && read_octal(5, word).is_some()
}

/// Returns the operand of an order: four digits are an address, three a channel. EDRUPT has none.
fn operand_of(mnemonic: &str, operand: &[u8]) -> Operand {
    let number = match read_octal(4, operand) {
        Some(number) => number as u16,
        None => return Operand::Nothing,
    };
    match operand.len() {
        4 => Operand::Address(number),
        3 if mnemonic.as_bytes() != b"EDRUPT".as_slice() => Operand::Channel(number),
        _ => Operand::Nothing,
    }
}

/// Returns EB and FB at the end of a line of a trace.
fn banks_after(line: &[u8]) -> Option<(u8, u8)> {
    let start = line.len().checked_sub(BANKS_BYTES)?;
    match line.get(start..)? {
        [
            b'E',
            b'B',
            b' ',
            erasable,
            b' ',
            b'F',
            b'B',
            b' ',
            high,
            low,
        ] => Some((digit(*erasable), two_digits(*high, *low))),
        _ => None,
    }
}

fn two_digits(high: u8, low: u8) -> u8 {
    digit(high).saturating_mul(8).saturating_add(digit(low))
}

fn digit(letter: u8) -> u8 {
    letter.saturating_sub(b'0')
}
