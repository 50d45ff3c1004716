//! Encodes orders: the first word of the order's row plus its operand.
ghost use Rattle.std.specs.Prelude.{◌≡◌, ◌++◌, false, true, ◌<◌, ◌≤◌, ◌^◌, ℕ, Ok, IfOk};
ghost use Rattle.agc_word.specs.Number.{number_from_pattern, pattern_of};
ghost use Rattle.agc_order.specs.Order.{basic_of, extracode_of};
ghost use Rattle.agc_order.specs.Row.{basic_row, extracode_row};
ghost use Rattle.agc_listing.specs.Order.{operand_in, operand_text, order_text};
ghost use Rattle.agc_encode.specs.Row.{
  as_word,
  basic_word,
  extracode_word,
  is_of_another,
  meant,
  meant_operand,
  other_order,
  refusal,
  row_word,
};

use agc_listing::Operand;
use agc_order::{Basic, Extracode, Row, Takes};
use agc_store::place::FIXED_WINDOW;
use agc_vocabulary::SourceFault;
use agc_word::Narrow;

/// Encodes a basic order with an operand as `list` shows it; for DAS and DXCH that is the address of the upper word.
/// The result is the only word that names this order with this operand.
pub fn basic_word(order: Basic, given: Operand) -> Result<Narrow, SourceFault>
    ensures word { result ≡ as_word (basic_word order given) }
    ensures named { IfOk result (λ word. basic_of (pattern_of 15 word) ≡ order) }
    ensures operand { IfOk result (λ word.
        operand_in (basic_row order).takes (pattern_of 15 word) ≡ given) }

    // `list` shows the word with this order's mnemonic and this operand.
    ensures shown { IfOk result (λ word. order_text false word
        ≡ (basic_row order).mnemonic ++ operand_text given) }

    // If a word names this order with this operand, it is the result, so there is no other.
    ensures only { (bits : ℕ) → bits < 2 ^ 15 → basic_of bits ≡ order
        → operand_in (basic_row order).takes bits ≡ given
        → result ≡ Ok (number_from_pattern 15 bits) }
{
    let bits = basic_bits(order, given)?;
    Ok(Narrow::with_bits(bits))
}

#[tactic(auto, unfolding(crate::specs::Row::basic_word))]
fn basic_bits(order: Basic, given: Operand) -> Result<u16, SourceFault>
    ensures word { result ≡ basic_word order given }
    ensures range { IfOk result (λ bits. bits < 2 ^ 15) }
{
    if is_of_another(order, given) {
        return Err(SourceFault::OtherOrder);
    }
    row_word(order.row(), given)
}

/// Encodes an extracode with an operand as `list` shows it; for DCA and DCS that is the address of
/// the upper word. The result is the only word that names this extracode with this operand.
pub fn extracode_word(order: Extracode, given: Operand) -> Result<Narrow, SourceFault>
    ensures word { result ≡ as_word (extracode_word order given) }
    ensures named { IfOk result (λ word. extracode_of (pattern_of 15 word) ≡ order) }
    ensures operand { IfOk result (λ word.
        operand_in (extracode_row order).takes (pattern_of 15 word) ≡ given) }
    ensures shown { IfOk result (λ word. order_text true word
        ≡ (extracode_row order).mnemonic ++ operand_text given) }
    ensures only { (bits : ℕ) → bits < 2 ^ 15 → extracode_of bits ≡ order
        → operand_in (extracode_row order).takes bits ≡ given
        → result ≡ Ok (number_from_pattern 15 bits) }
{
    let bits = extracode_bits(order, given)?;
    Ok(Narrow::with_bits(bits))
}

#[tactic(auto, unfolding(crate::specs::Row::extracode_word))]
fn extracode_bits(order: Extracode, given: Operand) -> Result<u16, SourceFault>
    ensures word { result ≡ extracode_word order given }
    ensures range { IfOk result (λ bits. bits < 2 ^ 15) }
{
    row_word(order.row(), given)
}

/// Returns whether the order's word with this operand would be that of another order.
fn is_of_another(order: Basic, given: Operand) -> bool
    ensures { result ≡ is_of_another order given }
{
    match (order, given) {
        (Basic::Tc, Operand::Address(k)) => k == 3 || k == 4 || k == 6,
        (Basic::Index, Operand::Address(k)) => k == 0o17,
        _ => false,
    }
}

/// Returns the order that a line writes: `TC 3` is RELINT, and `INDEX 17` is RESUME.
pub(crate) fn meant(order: Basic, given: Operand) -> Basic
    ensures { result ≡ meant order given }
{
    if is_of_another(order, given) {
        other_order(given)
    } else {
        order
    }
}

/// Returns the order whose word TC or INDEX has with this address.
fn other_order(given: Operand) -> Basic
    ensures { result ≡ other_order given }
{
    match given {
        Operand::Address(3) => Basic::Relint,
        Operand::Address(4) => Basic::Inhint,
        Operand::Address(6) => Basic::Extend,
        _ => Basic::Resume,
    }
}

/// Returns the operand of the order that a line writes.
pub(crate) fn meant_operand(order: Basic, given: Operand) -> Operand
    ensures { result ≡ meant_operand order given }
{
    if is_of_another(order, given) {
        Operand::Nothing
    } else {
        given
    }
}

/// Encodes an operand in the word of a row.
fn row_word(row: Row, given: Operand) -> Result<u16, SourceFault>
    requires { row.first ≤ 0o70000 }
    ensures word { result ≡ row_word row.first row.takes given }
    ensures range { IfOk result (λ bits. bits < 2 ^ 15) }
{
    let field = match (row.takes, given) {
        (Takes::Nothing, Operand::Nothing) => 0,
        (Takes::Erasable, Operand::Address(k)) if k < 0o2000 => k,
        (Takes::ErasablePair, Operand::Address(k)) if k < 0o2000 => (k + 1) % 0o2000,
        (Takes::Fixed, Operand::Address(k)) if FIXED_WINDOW <= k && k < 0o10000 => k,
        (Takes::Memory, Operand::Address(k)) if k < 0o10000 => k,
        (Takes::MemoryPair, Operand::Address(k)) if k < 0o10000 => (k + 1) % 0o10000,
        (Takes::Channel, Operand::Channel(channel)) if channel < 0o1000 => channel,
        _ => return Err(refusal(row.takes, given)),
    };
    Ok(row.first + field)
}

/// Returns why a row rejects an operand.
fn refusal(takes: Takes, given: Operand) -> SourceFault
    ensures { result ≡ refusal takes given }
{
    match (takes, given) {
        (Takes::Erasable | Takes::ErasablePair, Operand::Address(_)) => SourceFault::ErasableWanted,
        (Takes::Fixed, Operand::Address(_)) => SourceFault::FixedWanted,
        (Takes::Memory | Takes::MemoryPair, Operand::Address(_)) => SourceFault::NoSuchPlace,
        (Takes::Channel, Operand::Channel(_)) => SourceFault::ChannelWanted,
        _ => SourceFault::BadOperand,
    }
}
