//! The panel in print: eight lines.
ghost use Rattle.std.specs.Prelude.{◌≡◌, ◌++◌, ◌∷◌, [], IfOk, OnOk, Some, codes, map, string_bytes};
ghost use Rattle.agc_panel.specs.Text.{lit_lamps, sign_of, sign_glyph, pair_line, digits_text};
ghost use Rattle.agc_panel.specs.Text.{register_line, flash_line, lamps_line, panel_lines, panel_text};

use crate::face::{Face, Pair, Register};
use crate::lamp::{Lamp, Lamps};
use std::alloc::{AllocError, Global};
use std::fmt;

/// The sign that a register shows.
#[derive(Clone, Copy, Debug, PartialEq, Eq)]
pub enum Sign {
    Plus,
    Minus,
    Blank,
}

impl Register {
    /// Returns the register's sign; plus wins if both relays are on.
    pub fn sign(&self) -> Sign
        ensures { result ≡ sign_of self.now }
    {
        if self.plus {
            Sign::Plus
        } else if self.minus {
            Sign::Minus
        } else {
            Sign::Blank
        }
    }
}

impl fmt::Display for Sign {
    ghost output = { λ sign. Some (sign_glyph sign) };

    fn fmt<W: fmt::Write>(&self, f: &mut fmt::Formatter<W>) -> fmt::Result {
        f.write_str(match self {
            Sign::Plus => "+",
            Sign::Minus => "-",
            Sign::Blank => "_",
        })
    }
}

#[tactic(auto, unfolding(crate::specs::Text::pair_line))]
fn push_pair(text: &mut String, name: &str, pair: Pair) -> Result<(), AllocError>
    ensures { OnOk result (string_bytes text.new
        ≡ string_bytes text.old ++ pair_line name.now pair) }
{
    let Pair { left, right } = pair;
    writeln!(text, "{name} {left}{right}")
}

#[tactic(auto, unfolding(crate::specs::Text::register_line))]
fn push_register(text: &mut String, name: &str, register: &Register) -> Result<(), AllocError>
    ensures { OnOk result (string_bytes text.new
        ≡ string_bytes text.old ++ register_line name.now register.now) }
{
    let sign = register.sign();
    write!(text, "{name} {sign}")?;
    push_digits(text, register)?;
    text.push_str("\n")
}

#[tactic(auto, unfolding(crate::specs::Text::digits_text))]
fn push_digits(text: &mut String, register: &Register) -> Result<(), AllocError>
    ensures { OnOk result (string_bytes text.new
        ≡ string_bytes text.old ++ digits_text register.now) }
{
    let Register {
        d1,
        d2,
        d3,
        d4,
        d5,
        ..
    } = *register;
    write!(text, "{d1}{d2}{d3}{d4}{d5}")
}

#[tactic(auto, unfolding(crate::specs::Text::flash_line))]
fn push_flash(text: &mut String, flash: bool) -> Result<(), AllocError>
    ensures { OnOk result (string_bytes text.new ≡ string_bytes text.old ++ flash_line flash) }
{
    text.push_str(if flash { "FLASH on\n" } else { "FLASH off\n" })
}

/// Returns the lamps that are on, in print order.
fn lit_lamps(alloc: Global, lamps: &Lamps) -> Result<Vec<Lamp>, AllocError>
    ensures { IfOk result (λ lit. lit.items ≡ lit_lamps lamps.now) }
{
    Lamp::PRINTED
        .iter()
        .copied()
        .filter(|lamp| lamps.is_lit(*lamp))
        .collect(alloc)
}

#[tactic(auto, unfolding(crate::specs::Text::lamps_line))]
fn push_lamps(text: &mut String, alloc: Global, lamps: &Lamps) -> Result<(), AllocError>
    ensures { OnOk result (string_bytes text.new ≡ string_bytes text.old ++ lamps_line lamps.now) }
{
    let lit = lit_lamps(alloc, lamps)?;
    if lit.is_empty() {
        return text.push_str("LAMPS none\n");
    }
    let names = lit.join(alloc, ", ")?;
    writeln!(text, "LAMPS {names}")
}

/// Returns the eight lines of the panel as one text.
#[tactic(auto, unfolding(crate::specs::Text::panel_text))]
pub(crate) fn text_of(alloc: Global, face: &Face) -> Result<String, AllocError>
    ensures { IfOk result (λ text. string_bytes text ≡ panel_text face.now) }
{
    let mut text = String::new(alloc);
    push_pair(&mut text, "PROG", face.program)?;
    push_pair(&mut text, "VERB", face.verb)?;
    push_pair(&mut text, "NOUN", face.noun)?;
    push_register(&mut text, "R1", &face.r1)?;
    push_register(&mut text, "R2", &face.r2)?;
    push_register(&mut text, "R3", &face.r3)?;
    push_flash(&mut text, face.flash)?;
    push_lamps(&mut text, alloc, &face.lamps)?;
    Ok(text)
}

/// Returns the eight lines of the panel, one by one.
#[tactic(auto, unfolding(crate::specs::Text::panel_lines))]
pub(crate) fn lines_of(alloc: Global, face: &Face) -> Result<Vec<String>, AllocError>
    ensures { IfOk result (λ lines. map string_bytes lines.items ≡ panel_lines face.now) }
{
    let mut lines = Vec::new(alloc);
    push_pair_lines(&mut lines, alloc, face)?;
    push_register_lines(&mut lines, alloc, face)?;
    lines.push(flash_line(alloc, face.flash)?)?;
    lines.push(lamps_line(alloc, &face.lamps)?)?;
    Ok(lines)
}

fn push_pair_lines(lines: &mut Vec<String>, alloc: Global, face: &Face) -> Result<(), AllocError>
    ensures { OnOk result (map string_bytes lines.new.items ≡ map string_bytes lines.old.items
        ++ pair_line (codes "PROG") face.now.program ∷ pair_line (codes "VERB") face.now.verb
        ∷ pair_line (codes "NOUN") face.now.noun ∷ []) }
{
    lines.push(pair_line(alloc, "PROG", face.program)?)?;
    lines.push(pair_line(alloc, "VERB", face.verb)?)?;
    lines.push(pair_line(alloc, "NOUN", face.noun)?)?;
    Ok(())
}

fn push_register_lines(
    lines: &mut Vec<String>,
    alloc: Global,
    face: &Face,
) -> Result<(), AllocError>
    ensures { OnOk result (map string_bytes lines.new.items ≡ map string_bytes lines.old.items
        ++ register_line (codes "R1") face.now.r1 ∷ register_line (codes "R2") face.now.r2
        ∷ register_line (codes "R3") face.now.r3 ∷ []) }
{
    lines.push(register_line(alloc, "R1", &face.r1)?)?;
    lines.push(register_line(alloc, "R2", &face.r2)?)?;
    lines.push(register_line(alloc, "R3", &face.r3)?)?;
    Ok(())
}

fn pair_line(alloc: Global, name: &str, pair: Pair) -> Result<String, AllocError>
    ensures { IfOk result (λ line. string_bytes line ≡ pair_line name.now pair) }
{
    let mut line = String::new(alloc);
    push_pair(&mut line, name, pair)?;
    Ok(line)
}

fn register_line(alloc: Global, name: &str, register: &Register) -> Result<String, AllocError>
    ensures { IfOk result (λ line. string_bytes line ≡ register_line name.now register.now) }
{
    let mut line = String::new(alloc);
    push_register(&mut line, name, register)?;
    Ok(line)
}

fn flash_line(alloc: Global, flash: bool) -> Result<String, AllocError>
    ensures { IfOk result (λ line. string_bytes line ≡ flash_line flash) }
{
    let mut line = String::new(alloc);
    push_flash(&mut line, flash)?;
    Ok(line)
}

fn lamps_line(alloc: Global, lamps: &Lamps) -> Result<String, AllocError>
    ensures { IfOk result (λ line. string_bytes line ≡ lamps_line lamps.now) }
{
    let mut line = String::new(alloc);
    push_lamps(&mut line, alloc, lamps)?;
    Ok(line)
}
