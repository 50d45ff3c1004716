//! Reports what the sums and words of whole banks show: banks in other places, twice or missing, and banks whose words were
//! moved or changed bit by bit.
use crate::bank_list::{push_banks, push_list};
use crate::bank_sums::{
    BANKS, RopeBits, SIZE, WordsRead, bits_at, has_last_bit, has_same_words, has_wrong_parity,
    is_first_empty, is_first_named, is_used, is_used_read, looks_inverted, may_be_inverted,
    number_of, sum_read,
};
use agc_mend::{NO_BANK, SumFit, fit_of};
use agc_store::RopeForm;
use std::alloc::{AllocError, Global};

/// The banks of a module.
const MODULE_BANKS: usize = 6;

/// What is known of each bank of a rope.
#[derive(Drop)]
struct Banks {
    form: RopeForm,
    /// Whether it has two different words.
    used: Vec<bool>,
    /// The bank whose number its sum is, or whose complement.
    named: Vec<Option<usize>>,
    /// The bank whose words it has, by its sum and that of another bank; `None` if they are its own or not known.
    held: Vec<Option<usize>>,
    /// How its words have to be read to make its sum right, if that is not as they are.
    read: Vec<Option<WordsRead>>,
}

/// Appends the patterns of whole banks.
pub(crate) fn push_bank_patterns(
    alloc: Global,
    text: &mut String,
    form: RopeForm,
    is_placed: bool,
    rope: &RopeBits,
) -> Result<(), AllocError> {
    let banks = banks_of(alloc, form, rope)?;
    match first_bank(rope, &banks) {
        Some((first, count)) if !is_placed => push_first_bank(text, first, count)?,
        _ => push_moved(alloc, text, rope, &banks)?,
    }
    push_twice(alloc, text, rope, &banks)?;
    if !is_any_moved(&banks) {
        push_missing(text, rope, &banks)?;
    }
    for read in [
        WordsRead::Reversed,
        WordsRead::Exchanged,
        WordsRead::Later,
        WordsRead::Earlier,
        WordsRead::Inverted,
        WordsRead::WordInverted,
    ] {
        push_changed(text, rope, &banks, read)?;
    }
    Ok(())
}

fn banks_of(alloc: Global, form: RopeForm, rope: &RopeBits) -> Result<Banks, AllocError> {
    let mut banks = Banks {
        form,
        used: Vec::new(alloc),
        named: Vec::new(alloc),
        held: Vec::new(alloc),
        read: Vec::new(alloc),
    };
    for bank in 0..BANKS {
        let used = is_used(rope.plain.as_slice(), bank);
        let named = if used {
            number_of(sum_read(rope, bank, WordsRead::Plain))
        } else {
            None
        };
        banks.used.push(used)?;
        banks.named.push(named)?;
    }
    for bank in 0..BANKS {
        let held = if is_in_circle(&banks, bank) || is_in_run(&banks, bank) {
            other_named(&banks, bank)
        } else {
            None
        };
        let read = if is_at(banks.used.as_slice(), bank) && held.is_none() {
            change_of(form, rope, bank)
        } else {
            None
        };
        banks.held.push(held)?;
        banks.read.push(read)?;
    }
    Ok(banks)
}

/// Returns the other bank whose number the sum of a bank is. One wrong bit makes such a sum too, so it shows nothing alone.
fn other_named(banks: &Banks, bank: usize) -> Option<usize> {
    match at(banks.named.as_slice(), bank) {
        Some(other) if other != bank => Some(other),
        _ => None,
    }
}

/// Returns whether the sums of a bank and of another one are each the number of the other.
fn is_exchanged(banks: &Banks, bank: usize) -> bool {
    match other_named(banks, bank) {
        Some(other) => other_named(banks, other) == Some(bank),
        None => false,
    }
}

/// Returns whether the sums lead from a bank to others and back, each the number of the next: of two exchanged banks, or of more.
fn is_in_circle(banks: &Banks, bank: usize) -> bool {
    let mut at = bank;
    for _bank in 0..BANKS {
        match other_named(banks, at) {
            Some(next) if next == bank => return true,
            Some(next) => at = next,
            None => return false,
        }
    }
    false
}

/// Returns whether the sum of the used bank before or after a bank is the number of a bank as far away as for this one.
fn is_in_run(banks: &Banks, bank: usize) -> bool {
    let (before, after) = neighbours(banks, bank);
    are_in_run(banks, bank, before) || are_in_run(banks, bank, after)
}

/// Returns the used banks nearest to a bank.
fn neighbours(banks: &Banks, bank: usize) -> (Option<usize>, Option<usize>) {
    let (mut before, mut after) = (None, None);
    for other in 0..BANKS {
        if is_at(banks.used.as_slice(), other) {
            if other < bank {
                before = Some(other);
            } else if other > bank && after.is_none() {
                after = Some(other);
            }
        }
    }
    (before, after)
}

fn are_in_run(banks: &Banks, bank: usize, next: Option<usize>) -> bool {
    let Some(next) = next else {
        return false;
    };
    if is_exchanged(banks, bank) || is_exchanged(banks, next) {
        return false;
    }
    match (other_named(banks, bank), other_named(banks, next)) {
        (Some(there), Some(other)) => next.saturating_add(there) == bank.saturating_add(other),
        _ => false,
    }
}

/// Returns how the words of a used bank have to be read to make its sum right, if that is not as they are.
fn change_of(form: RopeForm, rope: &RopeBits, bank: usize) -> Option<WordsRead> {
    match fit_in(rope, bank, WordsRead::Plain) {
        SumFit::Neither => [
            WordsRead::Reversed,
            WordsRead::Exchanged,
            WordsRead::Later,
            WordsRead::Earlier,
        ]
        .iter()
        .copied()
        .find(|read| may_be_read(form, rope, bank, *read)),
        fit
            if fits_inverted(bank, fit)
                && looks_inverted(form, rope.plain.as_slice(), bank, WordsRead::Inverted) => {
            Some(WordsRead::Inverted)
        }
        fit
            if fits_inverted(bank, fit)
                && looks_inverted(form, rope.plain.as_slice(), bank, WordsRead::WordInverted) => {
            Some(WordsRead::WordInverted)
        }
        _
            if is_first_named(form, rope.plain.as_slice(), bank)
                && fit_in(rope, bank, WordsRead::Later) != SumFit::Neither => {
            Some(WordsRead::Later)
        }
        _ => None,
    }
}

/// Returns whether the sum of a bank is one of inverted words. That of bank 00 is, +0 or -0, if it fits at all.
fn fits_inverted(bank: usize, fit: SumFit) -> bool {
    fit == SumFit::Complement || fit == SumFit::Number && bank == 0
}

/// Returns whether the sum of a bank is right if its words are read in one way, and no word speaks against that. With its
/// bits or bytes in another order a word has the parity that it had, but in the classic form some unused bits are 1.
fn may_be_read(form: RopeForm, rope: &RopeBits, bank: usize, read: WordsRead) -> bool {
    let bits = rope.plain.as_slice();
    let may_be = match (form, read) {
        (RopeForm::Parity, _) => !has_wrong_parity(bits, bank),
        (RopeForm::Classic, WordsRead::Reversed | WordsRead::Exchanged) => has_last_bit(bits, bank),
        (RopeForm::Classic, _) => true,
    };
    may_be && fit_in(rope, bank, read) != SumFit::Neither
}

fn fit_in(rope: &RopeBits, bank: usize, read: WordsRead) -> SumFit {
    fit_of(bank.min(BANKS) as u8, sum_read(rope, bank, read))
}

/// Returns an element of a list for each bank.
fn at<T: Copy>(list: &[Option<T>], bank: usize) -> Option<T> {
    match list.get(bank) {
        Some(found) => *found,
        None => None,
    }
}

fn is_at(list: &[bool], bank: usize) -> bool {
    list.get(bank).copied().unwrap_or(false)
}

/// Returns the bank with which the file begins and how many banks show it, if the sum of each of its banks is the number of a
/// bank equally far on. The sum of a single bank shows it only if the bank has parity bits, all of them right.
fn first_bank(rope: &RopeBits, banks: &Banks) -> Option<(usize, usize)> {
    let mut first = None;
    let mut count = 0usize;
    let mut is_sound = banks.form == RopeForm::Parity;
    for bank in 0..BANKS {
        if is_at(banks.used.as_slice(), bank) {
            let there = other_named(banks, bank)?.checked_sub(bank)?;
            if first.is_some() && first != Some(there) {
                return None;
            }
            first = Some(there);
            count = count.saturating_add(1);
            is_sound = is_sound && !has_wrong_parity(rope.plain.as_slice(), bank);
        }
    }
    if count < 2 && !is_sound {
        return None;
    }
    Some((first?, count))
}

fn push_first_bank(text: &mut String, first: usize, count: usize) -> Result<(), AllocError> {
    let sure = if count < 2 { "possible" } else { "likely" };
    writeln!(
        text,
        "moved: the file begins with bank {first:02o}, by the sums of {count} of its banks ({sure})\n    mended by: --first-bank {first:02o}"
    )
}

/// Appends the banks whose words are in other banks, and the command that puts them back.
fn push_moved(
    alloc: Global,
    text: &mut String,
    rope: &RopeBits,
    banks: &Banks,
) -> Result<(), AllocError> {
    let mut told = vec![in alloc; false; BANKS]?;
    let mut any = false;
    for bank in 0..BANKS {
        let held = at(banks.held.as_slice(), bank);
        if let Some(other) = held {
            if !is_at(told.as_slice(), bank) {
                any = true;
                if at(banks.held.as_slice(), other) == Some(bank) {
                    push_exchanged(text, rope, bank, other)?;
                    tell(&mut told, other);
                } else {
                    push_run(text, banks, &mut told, bank, other)?;
                }
            }
        }
    }
    if any && !is_any_lost(banks) {
        push_mend(text, banks)
    } else {
        Ok(())
    }
}

/// Returns whether the words of a used bank would be lost if each moved bank were put into its place: its own sum is wrong, and
/// another bank belongs there.
fn is_any_lost(banks: &Banks) -> bool {
    for bank in 0..BANKS {
        let stays = is_at(banks.used.as_slice(), bank) && at(banks.held.as_slice(), bank).is_none();
        if stays && usize::from(source_of(banks, bank)) != bank {
            return true;
        }
    }
    false
}

fn tell(told: &mut Vec<bool>, bank: usize) {
    if let Some(told) = told.get_mut(bank) {
        *told = true;
    }
}

fn push_exchanged(
    text: &mut String,
    rope: &RopeBits,
    bank: usize,
    other: usize,
) -> Result<(), AllocError> {
    let (words, others) = (words_in(rope, bank, 1), words_in(rope, other, 1));
    writeln!(
        text,
        "exchanged: banks {bank:02o} and {other:02o}, {words} and {others} words; the sum of each is the number of the other (likely)"
    )
}

/// Appends the banks from one on whose words are those of banks equally far away.
fn push_run(
    text: &mut String,
    banks: &Banks,
    told: &mut Vec<bool>,
    first: usize,
    other: usize,
) -> Result<(), AllocError> {
    let mut last = first;
    let mut count = 0usize;
    for bank in first..BANKS {
        if is_at(banks.used.as_slice(), bank) {
            let there = bank.saturating_add(other).saturating_sub(first);
            if at(banks.held.as_slice(), bank) != Some(there) || is_at(told.as_slice(), bank) {
                break;
            }
            tell(told, bank);
            last = bank;
            count = count.saturating_add(1);
        }
    }
    if count == 1 {
        return writeln!(
            text,
            "moved: bank {first:02o} has the words of bank {other:02o}; its sum is that number (likely)"
        );
    }
    let end = last.saturating_add(other).saturating_sub(first);
    write!(
        text,
        "moved: banks {first:02o} to {last:02o} have the words of banks {other:02o} to {end:02o}; their sums, {count}, are those numbers (likely)"
    )?;
    let module = (first / MODULE_BANKS).saturating_add(1);
    if is_in_circle(banks, first) {
        // All modules are there, in other places.
    } else if other == first.saturating_add(MODULE_BANKS) {
        write!(text, "; module {module} is missing")?;
    } else if first == other.saturating_add(MODULE_BANKS) {
        let before = module.saturating_sub(1);
        write!(text, "; module {before} is there twice")?;
    }
    text.push_str("\n")
}

/// Appends the command that puts each moved bank into its place. A bank whose words are in no place gets none.
fn push_mend(text: &mut String, banks: &Banks) -> Result<(), AllocError> {
    let alloc = *text.allocator();
    let mut list = Vec::new(alloc);
    for bank in 0..BANKS {
        list.push(source_of(banks, bank))?;
    }
    let name = name_of(banks.form);
    write!(
        text,
        "    mended by: convert ROPE --form {name} --to {name} --banks "
    )?;
    push_list(text, list.as_slice())?;
    text.push_str("\n")
}

pub(crate) fn name_of(form: RopeForm) -> &'static str {
    match form {
        RopeForm::Classic => "classic",
        RopeForm::Parity => "parity",
    }
}

/// Returns the bank that has the words of a bank.
fn source_of(banks: &Banks, bank: usize) -> u8 {
    for from in 0..BANKS {
        if at(banks.held.as_slice(), from) == Some(bank)
            && at(banks.named.as_slice(), bank) != Some(bank)
        {
            return from as u8;
        }
    }
    match at(banks.held.as_slice(), bank) {
        Some(_) => NO_BANK,
        None => bank.min(BANKS) as u8,
    }
}

/// Appends the banks, or modules, that have the same words.
fn push_twice(
    alloc: Global,
    text: &mut String,
    rope: &RopeBits,
    banks: &Banks,
) -> Result<(), AllocError> {
    let mut told = vec![in alloc; false; BANKS]?;
    for module in 0..MODULE_BANKS {
        for before in 0..module {
            if are_same_modules(rope, banks, before, module) {
                let (first, second) = (before.saturating_add(1), module.saturating_add(1));
                write!(text, "twice: module {second}, banks ")?;
                let before = before.saturating_mul(MODULE_BANKS);
                let after = module.saturating_mul(MODULE_BANKS);
                push_banks(text, after, MODULE_BANKS)?;
                write!(text, ", has the words of module {first}, banks ")?;
                push_banks(text, before, MODULE_BANKS)?;
                push_whose(text, rope, banks, before, after, MODULE_BANKS)?;
                for bank in after..after.saturating_add(MODULE_BANKS) {
                    tell(&mut told, bank);
                }
            }
        }
    }
    for bank in 0..BANKS {
        for before in 0..bank {
            if !is_at(told.as_slice(), bank) && is_copy(rope, banks, before, bank) {
                write!(
                    text,
                    "twice: bank {bank:02o} has the words of bank {before:02o}"
                )?;
                push_whose(text, rope, banks, before, bank, 1)?;
                tell(&mut told, bank);
            }
        }
    }
    Ok(())
}

fn is_copy(rope: &RopeBits, banks: &Banks, before: usize, bank: usize) -> bool {
    is_at(banks.used.as_slice(), bank)
        && is_at(banks.used.as_slice(), before)
        && has_same_words(rope.plain.as_slice(), before, bank)
}

/// Returns whether two modules have the same words in at least two banks, and no others.
fn are_same_modules(rope: &RopeBits, banks: &Banks, before: usize, module: usize) -> bool {
    let mut same = 0usize;
    for at in 0..MODULE_BANKS {
        let first = before.saturating_mul(MODULE_BANKS).saturating_add(at);
        let second = module.saturating_mul(MODULE_BANKS).saturating_add(at);
        if is_copy(rope, banks, first, second) {
            same = same.saturating_add(1);
        } else if is_at(banks.used.as_slice(), first) || is_at(banks.used.as_slice(), second) {
            return false;
        }
    }
    same >= 2
}

/// Appends the number of words of two equal parts, which of the two has right sums, and the commands that put the words of the
/// other one back. A part is `count` banks, from `before` and from `after` on.
fn push_whose(
    text: &mut String,
    rope: &RopeBits,
    banks: &Banks,
    before: usize,
    after: usize,
    count: usize,
) -> Result<(), AllocError> {
    let words = words_in(rope, before, count);
    write!(text, ", {words} words (certain)")?;
    if has_own(banks, before, count) {
        text.push_str("; the sums are right for the latter\n")?;
        push_put_back(text, banks.form, after, count)
    } else if has_own(banks, after, count) {
        text.push_str("; the sums are right for the former\n")?;
        push_put_back(text, banks.form, before, count)
    } else {
        text.push_str("; no sum shows which is right\n")
    }
}

/// Appends the commands that put some banks of another dump, DUMP, into a rope.
fn push_put_back(
    text: &mut String,
    form: RopeForm,
    first: usize,
    count: usize,
) -> Result<(), AllocError> {
    let name = name_of(form);
    write!(
        text,
        "    mended by: convert DUMP --form {name} --to {name} --banks "
    )?;
    push_banks(text, first, count)?;
    text.push_str(" > banks, and patch ROPE banks --banks ")?;
    push_banks(text, first, count)?;
    writeln!(text, " --form {name}")
}

/// Returns how many places of some banks have a word.
fn words_in(rope: &RopeBits, first: usize, count: usize) -> usize {
    let (start, end) = (
        first.saturating_mul(SIZE),
        first.saturating_add(count).saturating_mul(SIZE),
    );
    (start..end)
        .filter(|place| bits_at(rope.plain.as_slice(), *place) != 0)
        .count()
}

/// Returns whether each used one of these banks has the sum of its number, and one is used.
fn has_own(banks: &Banks, first: usize, count: usize) -> bool {
    let mut own = 0usize;
    for bank in first..first.saturating_add(count) {
        if is_at(banks.used.as_slice(), bank) {
            if at(banks.named.as_slice(), bank) != Some(bank) {
                return false;
            }
            own = own.saturating_add(1);
        }
    }
    own > 0
}

fn is_any_moved(banks: &Banks) -> bool {
    banks.held.as_slice().iter().any(|held| held.is_some())
}

/// Appends a module without words, if all other banks have words, and the commands that put its words in.
fn push_missing(text: &mut String, rope: &RopeBits, banks: &Banks) -> Result<(), AllocError> {
    let used = banks.used.as_slice();
    for module in 0..MODULE_BANKS {
        let first = module.saturating_mul(MODULE_BANKS);
        let last = first.saturating_add(MODULE_BANKS);
        let is_missing = (0..BANKS).all(|bank| is_at(used, bank) != (first <= bank && bank < last));
        if is_missing {
            let number = module.saturating_add(1);
            let others = words_in(rope, 0, first).saturating_add(words_in(
                rope,
                last,
                BANKS.saturating_sub(last),
            ));
            write!(text, "missing: module {number}, banks ")?;
            push_banks(text, first, MODULE_BANKS)?;
            writeln!(
                text,
                ", has no words, and each other bank has some, {others} in all (likely)"
            )?;
            push_put_back(text, banks.form, first, MODULE_BANKS)?;
        }
    }
    Ok(())
}

/// Appends the banks whose words were changed or moved in one way, and the command that mends them.
fn push_changed(
    text: &mut String,
    rope: &RopeBits,
    banks: &Banks,
    read: WordsRead,
) -> Result<(), AllocError> {
    let alloc = *text.allocator();
    let mut changed = Vec::new(alloc);
    for bank in 0..NO_BANK {
        if at(banks.read.as_slice(), usize::from(bank)) == Some(read) {
            changed.push(bank)?;
        }
    }
    if changed.is_empty() {
        return Ok(());
    }
    if are_all_changed(rope, banks, read) {
        push_all_changed(text, banks.form, rope, read)
    } else if shows_change(rope, banks, read, changed.as_slice()) {
        push_banks_changed(text, banks.form, changed.as_slice(), read)
    } else {
        Ok(())
    }
}

/// Returns whether some banks, but not all, show a change of their words: of a move by one place at least two, of inverted words
/// one other than bank 00, whose sum shows nothing, and no other bank that looks inverted.
fn shows_change(rope: &RopeBits, banks: &Banks, read: WordsRead, changed: &[u8]) -> bool {
    match read {
        WordsRead::Later | WordsRead::Earlier => changed.len() >= 2,
        WordsRead::Inverted | WordsRead::WordInverted => {
            changed.iter().any(|bank| *bank != 0) && !is_other_inverted(rope, banks, read)
        }
        _ => true,
    }
}

/// Returns whether a bank that is not read in one way looks inverted in that way.
fn is_other_inverted(rope: &RopeBits, banks: &Banks, read: WordsRead) -> bool {
    for bank in 0..BANKS {
        let is_other = is_at(banks.used.as_slice(), bank)
            && at(banks.read.as_slice(), bank) != Some(read);
        if is_other && looks_inverted(banks.form, rope.plain.as_slice(), bank, read) {
            return true;
        }
    }
    false
}

/// Appends that all words of a file were changed or moved in one way, and the command that mends them.
fn push_all_changed(
    text: &mut String,
    form: RopeForm,
    rope: &RopeBits,
    read: WordsRead,
) -> Result<(), AllocError> {
    let (kind, option) = names_of(read);
    let name = name_of(form);
    write!(
        text,
        "{kind}: all words; with that undone the sums of all used banks are right"
    )?;
    match bank_cut(form, read) {
        Some(bank) if is_used_read(rope, bank, read) && !has_sum(rope, bank, read) => {
            write!(text, ", but for bank {bank:02o}, which lost a word")?;
        }
        _ => {}
    }
    writeln!(
        text,
        " (likely)\n    mended by: convert ROPE --form {name} {option} --to {name}"
    )
}

/// Appends the banks whose words were changed or moved in one way, and the commands that mend them.
fn push_banks_changed(
    text: &mut String,
    form: RopeForm,
    changed: &[u8],
    read: WordsRead,
) -> Result<(), AllocError> {
    let (kind, option) = names_of(read);
    let name = name_of(form);
    write!(text, "{kind}: the words of banks ")?;
    push_list(text, changed)?;
    text.push_str("; with that undone their sums are right (likely)\n")?;
    write!(
        text,
        "    mended by: convert ROPE --form {name} {option} --to {name} --banks "
    )?;
    push_list(text, changed)?;
    text.push_str(" > banks, and patch ROPE banks --banks ")?;
    push_list(text, changed)?;
    writeln!(text, " --form {name}")
}

/// Returns whether the sums of all used banks, at least two, are right if their words are read in one way. A bank that lost a
/// word by the move does not count.
fn are_all_changed(rope: &RopeBits, banks: &Banks, read: WordsRead) -> bool {
    let cut = bank_cut(banks.form, read);
    let mut used = 0usize;
    for bank in 0..BANKS {
        if is_used_read(rope, bank, read) && (cut != Some(bank) || has_sum(rope, bank, read)) {
            if !may_be_changed(rope, banks, bank, read) {
                return false;
            }
            used = used.saturating_add(1);
        }
    }
    used >= 2
}

fn has_sum(rope: &RopeBits, bank: usize, read: WordsRead) -> bool {
    fit_in(rope, bank, read) != SumFit::Neither
}

/// Returns whether the words of a bank may have been changed in one way, as those of other banks were.
fn may_be_changed(rope: &RopeBits, banks: &Banks, bank: usize, read: WordsRead) -> bool {
    let is_changed = at(banks.read.as_slice(), bank) == Some(read);
    match read {
        WordsRead::Inverted | WordsRead::WordInverted => {
            is_changed
                || fits_inverted(bank, fit_in(rope, bank, WordsRead::Plain))
                    && may_be_inverted(banks.form, rope.plain.as_slice(), bank, read)
        }
        WordsRead::Later => {
            is_changed || is_first_empty(rope.plain.as_slice(), bank) && has_sum(rope, bank, read)
        }
        _ => has_sum(rope, bank, read),
    }
}

/// Returns the bank that lost a word: the first one of the file if all words are one place back, the last one of a whole rope
/// if all are one place on.
fn bank_cut(form: RopeForm, read: WordsRead) -> Option<usize> {
    match (read, form) {
        (WordsRead::Earlier, RopeForm::Classic) => Some(2),
        (WordsRead::Earlier, RopeForm::Parity) => Some(0),
        (WordsRead::Later, _) => Some(0o43),
        _ => None,
    }
}

/// Returns the name of a pattern, and the option of `convert` that undoes it.
fn names_of(read: WordsRead) -> (&'static str, &'static str) {
    match read {
        WordsRead::Plain => ("sound", ""),
        WordsRead::Reversed => ("reversed", "--bits reversed"),
        WordsRead::Exchanged => ("bytes exchanged", "--swap"),
        WordsRead::Later => ("one place on", "--moved on"),
        WordsRead::Earlier => ("one place back", "--moved back"),
        WordsRead::Inverted => ("inverted", "--bits inverted"),
        WordsRead::WordInverted => ("inverted but for the parity bits", "--bits word-inverted"),
    }
}
