//! How many calls the seats have answered in all batches.

ghost use Rattle.std.specs.Prelude.{◌≡◌, ℕ, ◌+◌, ◌<◌, ◌≤◌, All, length, vec_len};
ghost use Rattle.batch_rows.specs.declared.rows.TheConstants.{CALL_LIMIT};
ghost use Rattle.batch_history.specs.Batches.{with_counts};
ghost use Rattle.batch_runner.specs.Printed.{BEFORE_LIMIT};

use crate::batch::Batch;
use plain_map::MOST_SEATS;

/// So many calls the seats have answered once this batch is done.
pub fn go_on(before: &mut [u32; MOST_SEATS], batch: &Batch)
    requires seats { vec_len batch.now.answered ≤ 8 }
    requires few { All (λ count. count < CALL_LIMIT) batch.now.answered.items }
    requires before { All (λ count. count ≤ BEFORE_LIMIT) before.old }
    ensures counts { before.new ≡ with_counts before.old batch.now.answered.items }
    ensures most { (most more : ℕ) → All (λ count. count ≤ most) before.old →
        All (λ count. count ≤ more) batch.now.answered.items → All (λ count. count ≤ most + more) before.new }
{
    put_counts(before, &batch.answered);
}

// Adds these counts, seat by seat.
fn put_counts(sums: &mut [u32; MOST_SEATS], counts: &[u32])
    requires seats { length counts.now ≤ 8 }
    requires few { All (λ count. count < CALL_LIMIT) counts.now }
    requires before { All (λ count. count ≤ BEFORE_LIMIT) sums.old }
    ensures { sums.new ≡ with_counts sums.old counts.now }
{
    for (seat, count) in counts.iter().enumerate() {
        sums[seat] += *count;
    }
}
