//! A seat beside its directory, which can be called.

ghost use Rattle.std.specs.Prelude.{◌≡◌, refl};
ghost use Rattle.std.proofs.Common.{rules};
ghost use Rattle.step_counts.specs.StepCounts.{need_of};
ghost use Rattle.word_rows.specs.Shape.{sizes_of};
ghost use Rattle.table_model.specs.Setup.{settings_of};
ghost use Rattle.shared_table.specs.SeatValues.{account_of};
ghost use Rattle.shared_table.specs.Values.{IsOf, IsSame};

use crate::directory::Directory;
use crate::seat::Seat;
use plain_map::{Call, Full, Record, Server};

/// A seat of a directory, beside it.
#[derive(Drop)]
pub struct Caller<'a> {
    pub(crate) seat: Seat,
    pub(crate) directory: &'a Directory,
    ghost of: { IsOf directory.now seat },
}

impl<'a> Server for Caller<'a> {
    ghost answered = { λ c. (account_of c.seat).records };

    ghost spent = { λ c. (account_of c.seat).spent };

    ghost rows = { λ c. sizes_of c.seat.holding.setup.shape c.seat.holding.seat };

    ghost need = { λ c. need_of (settings_of c.seat.holding.setup) };

    ghost stays = { λ c d. IsSame c.seat d.seat × (d.directory.now ≡ c.directory.now) };

    #[inline(always)]
    fn serve(&mut self, packet: u32, call: &Call) -> Result<Record, Full> {
        self.seat.answer(self.directory, packet, call)
    }

    ghost stays_self = { λ s. (record { table = refl; setup = refl; number = refl }, refl) };

    ghost stays_on = { λ s t u p q. (Prim.search rules) };
}

impl<'a> Caller<'a> {
    /// A caller by this seat, which is one of the directory's.
    pub fn new(seat: Seat, directory: &'a Directory) -> Caller<'a>
        requires { IsOf directory.now seat }
        ensures seat { result.seat ≡ seat }
        ensures directory { result.directory.now ≡ directory.now }
    {
        Caller { seat, directory }
    }

    /// The seat again.
    pub fn into_seat(self) -> Seat
        ensures { result ≡ self.entry.seat }
    {
        self.seat
    }
}
