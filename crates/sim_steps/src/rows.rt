//! The state row that an adder makes: its base's, with the announced ops that are new there.

ghost use Rattle.std.specs.Prelude.{◌≡◌, ℕ, ◌+◌, ◌*◌, ◌<◌, ◌≤◌, length, vec_len, vec_capacity, slice_index};
ghost use Rattle.sim_steps.specs.Program.{apply_op as op_applied, apply_all, with_op, next_row, in_word};

use crate::adds::Op;

/// Makes the next row, in place.
pub(crate) fn make_row(row: &mut Vec<u64>, root: u64, found: &Vec<Op>)
    requires { 7 + 2 * vec_len found.now ≤ vec_len row.old }
    ensures row { row.new.items ≡ next_row root found.now.items row.old.items }
    ensures len { vec_len row.new ≡ vec_len row.old }
    ensures capacity { vec_capacity row.new ≡ vec_capacity row.old }
{
    apply_found(row, found);
    row[0] = root.wrapping_add(1);
}

fn apply_found(row: &mut Vec<u64>, found: &Vec<Op>)
    requires { 7 + 2 * vec_len found.now ≤ vec_len row.old }
    ensures row { row.new.items ≡ apply_all 0 found.now.items row.old.items }
    ensures len { vec_len row.new ≡ vec_len row.old }
    ensures capacity { vec_capacity row.new ≡ vec_capacity row.old }
{
    for seat in 0..found.len() {
        apply_op(row, seat, found[seat]);
    }
}

fn apply_op(row: &mut Vec<u64>, seat: usize, op: Op)
    requires { 8 + 2 * seat < vec_len row.old }
    ensures row { row.new.items ≡ op_applied row.old.items seat op }
    ensures len { vec_len row.new ≡ vec_len row.old }
    ensures capacity { vec_capacity row.new ≡ vec_capacity row.old }
{
    if row[7 + 2 * seat] < op.number && op.class < 3 {
        add_op(row, seat, op);
    }
}

#[tactic(auto, unfolding(crate::specs::Program::with_op))]
fn add_op(row: &mut Vec<u64>, seat: usize, op: Op)
    requires seat { 8 + 2 * seat < vec_len row.old }
    requires class { op.class < 3 }
    ensures row { row.new.items ≡ with_op row.old.items seat op }
    ensures len { vec_len row.new ≡ vec_len row.old }
    ensures capacity { vec_capacity row.new ≡ vec_capacity row.old }
{
    let class = op.class as usize;
    let count = row[1 + class].wrapping_add(1);
    let bytes = row[4 + class].wrapping_add(op.length);
    row[1 + class] = count;
    row[4 + class] = bytes;
    row[7 + 2 * seat] = op.number;
    row[8 + 2 * seat] = count;
}
