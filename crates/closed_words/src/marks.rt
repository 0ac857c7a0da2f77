//! Marks: which numbers were met, one mark a number from 0 on. They take as many bytes as the greatest number met.

ghost use Rattle.std.specs.Prelude.{◌≡◌, ℕ, ◌==◌, ◌||◌, OnOk, false, slice_index_or};

use std::alloc::AllocError;

/// Whether the number is marked.
pub fn was_met(met: &[bool], number: u64) -> bool
    ensures { result ≡ slice_index_or met.now number false }
{
    (number as usize) < met.len() && met[number as usize]
}

/// Marks the number. The only error is want of memory.
pub fn meet(met: &mut Vec<bool>, number: u64) -> Result<(), AllocError>
    ensures { OnOk result ((other : ℕ) → slice_index_or met.new.items other false
        ≡ ((other == number) || slice_index_or met.old.items other false)) }
{
    let at = number as usize;
    if at >= met.len() {
        let Some(count) = at.checked_add(1) else {
            return Err(AllocError);
        };
        met.resize(count, false)?;
    }
    met[at] = true;
    Ok(())
}
