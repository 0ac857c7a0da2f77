//! The words of a seat's own bucket rows of which it knows that they are 0.
//!
//! All of them are 0 when the table is opened, and nobody else stores to one. So the words behind the last one that the
//! seat has stored to are 0 without a look.

ghost use Rattle.std.specs.Prelude.{◌≡◌, ◌+◌, ◌*◌, ◌<◌, ◌≤◌, ◌&&◌, nat_le, nat_lt};
ghost use Rattle.word_rows.specs.LayoutView.{shape_of};
ghost use Rattle.word_rows.specs.Shape.{sizes_of};
ghost use Rattle.blank_laws.specs.OwnRows.{own_end, own_start};
ghost use Rattle.shared_table.specs.Zeros.{AreWithout};

use seat_calls::Desk;
use step_counts::SeatRows;
use word_rows::place_laws;

/// The words from one place to before another.
#[derive(Clone, Copy)]
pub struct Zeros {
    pub(crate) from: u64,
    pub(crate) end: u64,
}

impl Zeros {
    /// All words of the seat's own bucket rows.
    #[tactic(auto, unfolding(word_rows::specs::Shape::number_after))]
    pub(crate) fn all(desk: &Desk, sizes: &SeatRows) -> Zeros
        requires { sizes.now ≡ sizes_of (shape_of desk.now.layout) desk.now.seat }
        ensures from { result.from ≡ own_start (shape_of desk.now.layout) desk.now.seat }
        ensures end { result.end ≡ own_end (shape_of desk.now.layout) desk.now.seat }
    {
        place_laws();
        let rows = desk.layout.bucket_row_word(0, 0);
        let width = desk.row_length() as u64;
        let first = desk.first.bucket_rows;
        Zeros {
            from: rows + first * width,
            end: rows + (first + sizes.bucket_rows) * width,
        }
    }

    /// Whether this word is one of them.
    #[inline(always)]
    pub(crate) fn has(&self, at: u64) -> bool
        ensures { result ≡ (nat_le self.now.from at && nat_lt at self.now.end) }
    {
        self.from <= at && at < self.end
    }

    /// Leaves out this word, and those before it.
    #[inline(always)]
    pub(crate) fn leave_out(&mut self, at: u64)
        ensures { AreWithout at self.old self.new }
    {
        if self.has(at) {
            self.from = at + 1;
        }
    }
}
