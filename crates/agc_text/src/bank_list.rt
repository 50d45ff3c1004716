//! Prints lists of banks, as `--banks` takes them.
use agc_mend::NO_BANK;
use std::alloc::AllocError;

/// Appends some banks from one on, as `06-13`; a single bank is its number.
pub(crate) fn push_banks(text: &mut String, first: usize, count: usize) -> Result<(), AllocError> {
    let last = first.saturating_add(count).saturating_sub(1);
    write!(text, "{first:02o}")?;
    if last > first {
        write!(text, "-{last:02o}")?;
    }
    Ok(())
}

/// Appends a list of banks: each run of neighbours as `06-13`, banks without words as `xx`.
pub(crate) fn push_list(text: &mut String, banks: &[u8]) -> Result<(), AllocError> {
    let mut at = 0usize;
    for _ in 0..banks.len() {
        let Some(first) = banks.get(at).copied() else {
            break;
        };
        if at > 0 {
            text.push_str(",")?;
        }
        let count = run_from(banks, at);
        if first >= NO_BANK {
            text.push_str("xx")?;
        } else {
            push_banks(text, usize::from(first), count)?;
        }
        at = at.saturating_add(count);
    }
    Ok(())
}

/// Returns how many banks of a list from an index on follow each other; 1 for a bank without words.
fn run_from(banks: &[u8], start: usize) -> usize {
    let Some(first) = banks.get(start).copied() else {
        return 1;
    };
    let mut count = 1usize;
    if first >= NO_BANK {
        return count;
    }
    for at in start.saturating_add(1)..banks.len() {
        let next = usize::from(first).saturating_add(count);
        match banks.get(at).copied() {
            Some(bank) if bank < NO_BANK && usize::from(bank) == next => {
                count = count.saturating_add(1);
            }
            _ => break,
        }
    }
    count
}
