//! Indexes names by the number of their location.
ghost use Rattle.std.specs.Prelude.{◌≡◌, ◌<◌, ℕ, get_or, IfOk, OnOk, None, if◌then◌else◌};
ghost use Rattle.std.specs.Prelude.{◌^◌, ◌==◌};
ghost use Rattle.agc_symbols.specs.Index.{AreFirst, first_or};

use crate::location::number_of;
use crate::place_name::PlaceName;
use std::alloc::{AllocError, Global};

/// Returns, for each number, the index of the first name at it. Fails if out of memory.
pub(crate) fn first_names(
    alloc: Global,
    names: &[PlaceName],
) -> Result<Vec<Option<usize>>, AllocError>
    ensures { IfOk result (λ first. AreFirst first.items names.now) }
{
    let mut first = Vec::new(alloc);
    for index in 0..names.len() {
        note_first(&mut first, number_of(names[index].place()), index)?;
    }
    Ok(first)
}

/// Records a name at a number, unless an earlier one is there.
fn note_first(first: &mut Vec<Option<usize>>, number: usize, index: usize) -> Result<(), AllocError>
    requires { number < 2 ^ 34 }
    ensures { OnOk result ((k : ℕ) → get_or first.new.items k None
        ≡ (if number == k then first_or (get_or first.old.items k None) index
        else get_or first.old.items k None)) }
{
    if first.len() <= number {
        first.resize(number + 1, None)?;
    }
    if first[number].is_none() {
        first[number] = Some(index);
    }
    Ok(())
}
