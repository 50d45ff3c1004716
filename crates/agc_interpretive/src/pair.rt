//! A pair of operations in a word, and the interpreter's jump tables, which decode it.
ghost use Rattle.std.specs.Prelude.{◌≡◌, ◌<◌, ◌≤◌, Some, IfSome, true};
ghost use Rattle.std.specs.List.{list_all};
ghost use Rattle.agc_interpretive.specs.Jump.{
  decodes,
  entry_in,
  indexes,
  indjump,
  miscjump,
  name_in,
  pair_in,
  pair_word,
  shortt,
  unajump,
};
ghost use Rattle.agc_interpretive.specs.Operation.{operations};

use crate::table::text_in;

/// The operations with an address, by bits 7 to 3 of the code. The order of the jump tables is from memory, not checked.
const INDJUMP: [&str; 32] = [
    "VLOAD", "TAD", "SIGN", "VXSC", "CGOTO", "TLOAD", "DLOAD", "V/SC", "SLOAD", "SSP", "PDDL",
    "MXV", "PDVL", "CCALL", "VXM", "NORM", "DMPR", "DDV", "BDDV", "GSHIFT", "VAD", "VSU", "BVSU",
    "DOT", "VXV", "VPROJ", "DSU", "BDSU", "DAD", "", "DMP", "SETPD",
];

/// The operations without an operand, by bits 7 to 4.
const UNAJUMP: [&str; 16] = [
    "EXIT", "SQRT", "SINE", "COSINE", "ARCSIN", "ARCCOS", "DSQ", "ROUND", "DCOMP", "VDEF", "UNIT",
    "ABVAL", "VSQ", "STADR", "RVQ", "PUSH",
];

/// The short shifts, by bits 7 to 4: two of the places less 1, 0 for rounding, and 1 to the right.
const SHORTT: [&str; 16] = [
    "SL1R", "SR1R", "SL1", "SR1", "SL2R", "SR2R", "SL2", "SR2", "SL3R", "SR3R", "SL3", "SR3",
    "SL4R", "SR4R", "SL4", "SR4",
];

/// Index registers, branches and switches, by bits 7 to 3.
const MISCJUMP: [&str; 32] = [
    "AXT,2", "AXT,1", "AXC,2", "AXC,1", "LXA,2", "LXA,1", "LXC,2", "LXC,1", "SXA,2", "SXA,1",
    "XCHX,2", "XCHX,1", "INCR,2", "INCR,1", "TIX,2", "TIX,1", "XAD,2", "XAD,1", "XSU,2", "XSU,1",
    "BZE", "GOTO", "BPL", "BMN", "RTB", "BHIZ", "CALL", "STQ", "SW/", "", "BOVB", "BOV",
];

/// Encodes a pair from its codes with `*`: the complement of both, each plus 1. `None` exactly for a code above 176
/// octal. Decoding gives both codes back.
pub fn pair_word(left: u16, right: Option<u16>) -> Option<u16>
    ensures word { result ≡ pair_word left right }
    ensures back { IfSome result (λ word. pair_in word ≡ Some (left, right)) }
    ensures range { IfSome result (λ word. word < 0o100000) }
    ensures negative { IfSome result (λ word. 0o40000 ≤ word) }
{
    if left >= 0o177 {
        return None;
    }
    match right {
        None => Some(0o77776 - left),
        Some(right) if right < 0o177 => Some(0o77777 - (0o200 * (right + 1) + left + 1)),
        Some(_) => None,
    }
}

/// Decodes a pair into its codes, as the interpreter does; `None` for a word that is not negative, and for -0.
pub fn pair_in(word: u16) -> Option<(u16, Option<u16>)>
    requires { word < 0o100000 }
    ensures { result ≡ pair_in word }
{
    if word < 0o40000 || word == 0o77777 {
        return None;
    }
    let magnitude = 0o77777 - word - 1;
    let edop = magnitude / 0o200;
    let right = if edop == 0 { None } else { Some(edop - 1) };
    Some((magnitude % 0o200, right))
}

/// Returns the entry of the jump tables for a code: the operation's name, GSHIFT for all general shifts, `SW/` for all
/// switches, and nothing for a code that is free.
#[tactic(auto, unfolding(crate::specs::Jump::name_in))]
pub fn name_in(code: u16) -> &'static str
    requires { code < 0o200 }
    ensures { result.now ≡ name_in code }
{
    let code = usize::from(code);
    if code % 2 == 1 {
        indjump(code / 4)
    } else if code / 2 % 2 == 1 {
        miscjump(code / 4)
    } else if code / 4 % 2 == 1 {
        shortt(code / 8)
    } else {
        unajump(code / 8)
    }
}

fn indjump(place: usize) -> &'static str
    requires { place < 0o40 }
    ensures { result.now ≡ entry_in indjump place }
{
    text_in(&INDJUMP, place)
}

fn unajump(place: usize) -> &'static str
    requires { place < 0o20 }
    ensures { result.now ≡ entry_in unajump place }
{
    text_in(&UNAJUMP, place)
}

fn shortt(place: usize) -> &'static str
    requires { place < 0o20 }
    ensures { result.now ≡ entry_in shortt place }
{
    text_in(&SHORTT, place)
}

fn miscjump(place: usize) -> &'static str
    requires { place < 0o40 }
    ensures { result.now ≡ entry_in miscjump place }
{
    text_in(&MISCJUMP, place)
}

/// Returns whether the first operand of a code is indexed.
pub fn indexes(code: u16) -> bool
    ensures { result ≡ indexes code }
{
    code % 2 == 1 && code / 2 % 2 == 1
}

/// Each operation of the table decodes to its name, with `*` if it is written with it: the jump tables have it at its code.
pub fn operations_are_decoded()
    ensures { list_all decodes operations ≡ true }
{}
