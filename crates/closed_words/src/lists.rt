//! The numbers of a list, each once.
//!
//! The only error is want of memory.

ghost use Rattle.std.specs.Prelude.{◌≡◌, IfOk, filter, not};
ghost use Rattle.table_model.specs.Reading.{each_once, each_once_first, is_among};

use crate::{meet, was_met};
use std::alloc::{AllocError, Global};

/// The numbers, each once: where it stands last.
pub(crate) fn each_once(alloc: Global, numbers: &[u64]) -> Result<Vec<u64>, AllocError>
    ensures { IfOk result (λ once. once.items ≡ each_once numbers.now) }
{
    let mut back = numbers.to_vec(alloc)?;
    back.reverse();
    let mut once = each_once_first(alloc, &back)?;
    once.reverse();
    Ok(once)
}

/// The numbers, each once: where it stands first. It takes one look at a mark for each of them.
pub(crate) fn each_once_first(alloc: Global, numbers: &[u64]) -> Result<Vec<u64>, AllocError>
    ensures { IfOk result (λ once. once.items ≡ each_once_first numbers.now) }
{
    let mut met = Vec::new(alloc);
    let mut once = Vec::new(alloc);
    for number in numbers {
        if !was_met(&met, *number) {
            meet(&mut met, *number)?;
            once.push(*number)?;
        }
    }
    Ok(once)
}

/// Those of the numbers that are none of the others.
pub(crate) fn without(
    alloc: Global,
    numbers: &[u64],
    others: &[u64],
) -> Result<Vec<u64>, AllocError>
    ensures { IfOk result (λ left. left.items ≡ filter (λ number. not (is_among others.now number)) numbers.now) }
{
    let mut left = Vec::new(alloc);
    for number in numbers {
        if !others.contains(number) {
            left.push(*number)?;
        }
    }
    Ok(left)
}
