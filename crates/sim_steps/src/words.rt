//! The words of a table, and the step that a seat asks for.

ghost use Rattle.std.specs.Prelude.{◌≡◌, ◌+◌, ◌*◌, ◌^◌, ◌<◌, ◌≤◌};
ghost use Rattle.sim_steps.specs.Layout.{IsAddress, place as place_at, words_of};

/// What a seat knows of its table.
#[derive(Clone, Copy, PartialEq, Eq)]
pub struct Desk {
    /// How many seats there are.
    pub seats: u64,
    /// How many adds all seats together may make.
    pub rows: u64,
    pub seat: u64,
    /// How many adds the seats before this one may make together.
    pub before: u64,
}

/// What a word of the table is.
#[derive(Clone, Copy, PartialEq, Eq)]
pub enum Address {
    Root,
    Announcement(u64),
    Done(u64),
    OpWord(u64, u64),
    StateWord(u64, u64),
}

/// One atomic step: a load, a store, or an exchange of the root.
#[derive(Clone, Copy, PartialEq, Eq)]
pub enum Ask {
    Load(Address),
    Store(Address, u64),
    Exchange(u64, u64),
}

impl Desk {
    ghost use Rattle.sim_steps.specs.Machine.{IsDesk};

    /// The place of a word among the words of the table, from 0.
    pub fn place(&self, address: Address) -> usize
        requires desk { IsDesk self.now }
        requires address { IsAddress self.now.seats self.now.rows address }
        ensures place { result ≡ place_at self.now.seats self.now.rows address }
    {
        let seats = self.seats as usize;
        let rows = self.rows as usize;
        let width = 7 + 2 * seats;
        match address {
            Address::Root => 0,
            Address::Announcement(seat) => 1 + seat as usize,
            Address::Done(seat) => 1 + seats + seat as usize,
            Address::OpWord(row, i) => 1 + 2 * seats + (row as usize * 3 + i as usize),
            Address::StateWord(row, i) => {
                1 + 2 * seats + rows * 3 + (row_start(row as usize, width) + i as usize)
            }
        }
    }

    /// How many words the table has.
    pub fn words(&self) -> usize
        requires { IsDesk self.now }
        ensures words { result ≡ words_of self.now.seats self.now.rows }
        ensures few { result < 2 ^ 40 }
    {
        let seats = self.seats as usize;
        let rows = self.rows as usize;
        1 + 2 * seats + rows * 3 + row_start(1 + rows, 7 + 2 * seats)
    }
}

// So many rows of so many words.
fn row_start(row: usize, width: usize) -> usize
    requires row { row ≤ 2 ^ 32 }
    requires width { width ≤ 23 }
    ensures words { result ≡ row * width }
    ensures few { result ≤ 23 * 2 ^ 32 }
{
    row * width
}
