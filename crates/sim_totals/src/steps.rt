//! The steps of an add on the table's words.
//!
//! **Words**: the root, of all adders; an announcement, a done word, op rows and state rows of each
//! adder, which it alone writes.
//! **Keeps**: the rule `OneRun`.
//! **Steps**: at most `step_bound` of the seats, all sequentially consistent.
//! **Why it ends**: a machine's rest falls with each step, whatever it is told; two exchanges that
//! find another root show that others have applied the add.

ghost use Rattle.std.specs.Prelude.{◌≡◌, ◌++◌, ◌∷◌, [], ◌+◌, ◌^◌, ◌<◌, length, sum};
ghost use Rattle.sim_steps.specs.Totals.{IsAdd};
ghost use Rattle.sim_steps.specs.Layout.{IsAddress, seats_of, room_of, words_of};
ghost use Rattle.sim_steps.specs.Laws.{events_of};
ghost use Rattle.sim_steps.specs.World.{address_of};
ghost use Rattle.sim_steps.specs.Layout.{desk_of};
ghost use Rattle.sim_totals.specs.Rule.{Adds, AsksFor, At, IsSeat, Moved, StartsWith, one, seat_of, seen_of, state_of};
ghost use Rattle.sim_totals.specs.Insides.{Rests};

use crate::rule::{Acts, Asked, OneRun, Plan};
use crate::view::View;
use atomic_table::Shared;
use sim_steps::{Add, AddMachine, Added, Address, Ask, Desk, laws};

pub(crate) type Words = Shared<(), View, Plan, OneRun>;

pub(crate) type Token = atomic_table::Seat<(), View>;

// One step, and what it tells.
fn perform<B: Asked>(words: &Words, token: &mut Token, desk: &Desk, ask: Ask) -> u64
    requires table { token.old.table_id ≡ words.now.table_id }
    requires desk { desk.now ≡ desk_of token.old.me.0.settings (seat_of token.old.me) }
    requires size { words.now.table_id.words ≡ words_of desk.now.seats desk.now.rows }
    requires asked { AsksFor B.add ask token.old.me }
    ensures kept { token.new.table_id ≡ token.old.table_id }
    ensures told { Moved B.add token.old.me result token.new.me }
{
    laws::words();
    match ask {
        Ask::Load(from) => words.load::<Acts<B>>(token, desk.place(from)),
        Ask::Store(to, new) => {
            words.store::<Acts<B>>(token, desk.place(to), new);
            new
        }
        Ask::Exchange(old, new) => {
            words.compare_exchange::<Acts<B>>(token, desk.place(Address::Root), old, new)
        }
    }
}

// A whole add, whose steps are those that the machine asks for.
pub(crate) fn run_add<B: Asked>(
    words: &Words,
    token: &mut Token,
    desk: &Desk,
    machine: &mut AddMachine,
    add: Add,
) -> Added
    requires table { token.old.table_id ≡ words.now.table_id }
    requires desk { desk.now ≡ desk_of token.old.me.0.settings (seat_of token.old.me) }
    requires size { words.now.table_id.words ≡ words_of desk.now.seats desk.now.rows }
    requires rests { Rests (seat_of token.old.me) token.old.me machine.old }
    requires room { length (state_of token.old.me).log < room_of token.old.me.0.settings (seat_of token.old.me) }
    requires add { IsAdd add }
    requires picked { add ≡ B.add }
    ensures kept { token.new.table_id ≡ token.old.table_id }
    ensures settings { token.new.me.0.settings ≡ token.old.me.0.settings }
    ensures rests { Rests (seat_of token.old.me) token.new.me machine.new }
    ensures added { Adds token.old.me.0.settings (seat_of token.old.me) add (state_of token.old.me)
        (state_of token.new.me) result }
    ensures seen { StartsWith (seen_of token.new.me) (seen_of token.old.me) }
    ensures own { events_of (seat_of token.old.me) (seen_of token.new.me) ≡ events_of (seat_of token.old.me)
        (seen_of token.old.me) + result.steps }
{
    laws::order();
    machine.begin(add);
    'steps: loop {
        let word = perform::<B>(words, token, desk, machine.next());
        if let Some(added) = machine.take(word) {
            return added;
        }
    }
}
