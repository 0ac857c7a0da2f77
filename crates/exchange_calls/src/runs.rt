//! Words one after the other.
//!
//! They go by fours: each word of a loop over single words waits for the test of the loop as well.

ghost use Rattle.std.specs.Prelude.{◌≡◌, ◌+◌, ◌^◌, ◌<◌, length, replicate};
ghost use Rattle.exchange_calls.specs.Going.{Reads, goes_by};
ghost use Rattle.exchange_calls.specs.Writes.{Writes};

use crate::steps::Steps;

/// Loads words one after the other.
#[inline(always)]
pub fn load_run<S: Steps>(steps: &mut S, start: u64, row: &mut [u64])
    requires reads { Reads (S.now steps.old) start (length row.old) }
    requires room { start + length row.old < 2 ^ 64 }
    ensures goes { S.now steps.new ≡ goes_by (S.now steps.old) row.new }
    ensures len { length row.new ≡ length row.old }
{
    let mut i = 0;
    for _fours in 0..row.len() / 4 {
        for _one in 0..4usize {
            row[i] = steps.load(start + i as u64);
            i += 1;
        }
    }
    for _rest in i..row.len() {
        row[i] = steps.load(start + i as u64);
        i += 1;
    }
}

/// Stores words one after the other.
#[inline(always)]
pub fn store_run<S: Steps>(steps: &mut S, start: u64, row: &[u64])
    requires writes { Writes (S.now steps.old) start row.now }
    requires room { start + length row.now < 2 ^ 64 }
    ensures goes { S.now steps.new ≡ goes_by (S.now steps.old) (replicate (length row.now) 0) }
{
    let mut i = 0;
    for _fours in 0..row.len() / 4 {
        for _one in 0..4usize {
            steps.store(start + i as u64, row[i]);
            i += 1;
        }
    }
    for _rest in i..row.len() {
        steps.store(start + i as u64, row[i]);
        i += 1;
    }
}
