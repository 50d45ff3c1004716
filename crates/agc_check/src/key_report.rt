//! Reports what is wrong with a text of live keys, or how many keys it names.
ghost use Rattle.std.specs.Prelude.{◌≡◌, ◌++◌, IfOk, OnOk, is_none, is_some, map, string_bytes};
ghost use Rattle.std.specs.List.{list_any};
ghost use Rattle.agc_load.specs.Keys.{all_there};
ghost use Rattle.agc_check.specs.KeyReport.{IsKeyReport, are_keys, key_holdings_text};

use crate::remarks::push_no_key;
use agc_listing::{Report, SHOWN_BYTES};
use agc_load::{is_white, named_keys};
use agc_script::Key;
use std::alloc::{AllocError, Global};

/// Checks a text of live keys. The report gives the number of keys, or the first word that is not a key and what is
/// expected. Fails if out of memory.
#[tactic(auto, unfolding(crate::specs::KeyReport::are_keys))]
pub fn check_keys(alloc: Global, file: &[u8]) -> Result<Report, AllocError>
    ensures sound { IfOk result (λ report. report.is_sound ≡ are_keys file.now) }
    ensures text { IfOk result (λ report. IsKeyReport file.now (string_bytes report.text)) }
{
    let found = named_keys(alloc, file)?;
    let mut text = String::new(alloc);
    let is_sound = are_all_there(found.as_slice());
    if is_sound {
        push_key_holdings(&mut text, found.len())?;
    } else {
        text.push_str("keys: BadKey\n")?;
        let remark = remark(alloc, file)?;
        text.push_str(remark.as_str())?;
    }
    Ok(Report { text, is_sound })
}

/// Returns whether every word names a key.
#[tactic(auto, using(crate::proofs::AllKeys::none_missing))]
fn are_all_there(found: &[Option<Key>]) -> bool
    ensures { result ≡ is_some (all_there found.now) }
{
    !is_one_missing(found)
}

fn is_one_missing(found: &[Option<Key>]) -> bool
    ensures { result ≡ list_any is_none found.now }
{
    found.iter().any(|key| key.is_none())
}

#[tactic(auto, unfolding(crate::specs::KeyReport::key_holdings_text))]
fn push_key_holdings(text: &mut String, count: usize) -> Result<(), AllocError>
    ensures { OnOk result (string_bytes text.new ≡ string_bytes text.old ++ key_holdings_text count) }
{
    writeln!(text, "keys: {count}")
}

/// Returns the line about the first word that is not a key: its number, counted from 1, and what is expected.
fn remark(alloc: Global, file: &[u8]) -> Result<String, AllocError> {
    let mut text = String::new(alloc);
    let words = file.split(|b| is_white(*b)).filter(|name| !name.is_empty());
    for (number, word) in (1..usize::MAX).zip(words) {
        if Key::from_name(word).is_none() {
            write!(text, "    word {number}: ")?;
            push_bad_key(alloc, &mut text, word)?;
            break;
        }
    }
    Ok(text)
}

/// Appends why a word is not a key.
fn push_bad_key(alloc: Global, text: &mut String, word: &[u8]) -> Result<(), AllocError> {
    let word = if word.len() > SHOWN_BYTES {
        let (start, _) = word.split_at(SHOWN_BYTES);
        start
    } else {
        word
    };
    push_no_key(
        alloc,
        text,
        word,
        " is not a key of this file: press it in the script, by `pro down` and `pro up`\n",
    )
}
