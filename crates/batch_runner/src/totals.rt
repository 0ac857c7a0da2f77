//! What all calls came to, over all batches.

ghost use Rattle.std.specs.Prelude.{◌≡◌, ◌+◌, ◌-◌, ◌^◌, ◌<◌, [], All, IfOk, List, ◌++◌, flat_map, length, map, vec_len};
ghost use Rattle.std.specs.List.{AllZip};
ghost use Rattle.trace_share.specs.declared.outcome.Outcome.{Outcome as AnOutcome};
ghost use Rattle.batch_runner.specs.Totals.{AreFewer, IsTotalOf, room_of, totals_of, with_outcome, with_replies, with_reply};

use plain_map::{Call, Reply};
use std::alloc::{AllocError, Global};
use trace_share::{Collector, Outcome};

/// How many calls had each reply, a number for each kind of reply.
#[derive(Clone, Copy, PartialEq, Eq)]
pub struct Replies {
    pub new: u64,
    pub old: u64,
    pub noroom: u64,
    pub gone: u64,
    pub found: u64,
    pub absent: u64,
}

/// What calls came to.
#[derive(Clone, Copy, PartialEq, Eq)]
pub struct Totals {
    /// All of them, those that were refused too.
    pub calls: u64,
    /// Those that were refused.
    pub refused: u64,
    /// The most steps of an answered update, 0 where there is none.
    pub update: u64,
    /// The most steps of a lookup, 0 where there is none.
    pub lookup: u64,
    /// Those that were answered, by their replies.
    pub replies: Replies,
}

impl Totals {
    /// Of no call.
    pub fn new() -> Totals
        ensures { result ≡ totals_of [] }
    {
        Totals {
            calls: 0,
            refused: 0,
            update: 0,
            lookup: 0,
            replies: Replies {
                new: 0,
                old: 0,
                noroom: 0,
                gone: 0,
                found: 0,
                absent: 0,
            },
        }
    }

    /// Of all calls of some seats, of which each one's are told.
    pub(crate) fn sum(each: &[Totals]) -> Totals
        requires few { (logs : List (List AnOutcome)) × AllZip IsTotalOf each.now logs
            × (length (flat_map (λ log. log) logs) < 2 ^ 63) }
        ensures { (logs : List (List AnOutcome)) → AllZip IsTotalOf each.now logs →
            result ≡ totals_of (flat_map (λ log. log) logs) }
    {
        let mut totals = Totals::new();
        for more in each {
            totals.add(more);
        }
        totals
    }

    /// Those of a batch are put to all that came before.
    pub fn add(&mut self, batch: &Totals)
        requires all { (all : List AnOutcome) × (self.old ≡ totals_of all) × (length all < 2 ^ 63) }
        requires more { (more : List AnOutcome) × (batch.now ≡ totals_of more) × (length more < 2 ^ 63) }
        ensures calls { self.new.calls ≡ self.old.calls + batch.now.calls }
        ensures totals { (all more : List AnOutcome) → self.old ≡ totals_of all → batch.now ≡ totals_of more →
            self.new ≡ totals_of (all ++ more) }
    {
        self.calls += batch.calls;
        self.refused += batch.refused;
        self.update = self.update.max(batch.update);
        self.lookup = self.lookup.max(batch.lookup);
        self.replies.add(&batch.replies);
    }

    // One call more.
    fn put(&mut self, outcome: &Outcome)
        requires { (all : List AnOutcome) × (self.old ≡ totals_of all) × (length all + 1 < 2 ^ 64) }
        ensures { self.new ≡ with_outcome outcome.now self.old }
    {
        self.calls += 1;
        match outcome {
            Outcome::Answered(made) => {
                self.replies.put(made.reply);
                let (update, lookup) = match made.call {
                    Call::Lookup(_) => (0, made.steps),
                    Call::Insert(_, _)
                    | Call::Remove(_)
                    | Call::Tally(_, _)
                    | Call::Count(_, _, _)
                    | Call::Put(_, _) => (made.steps, 0),
                };
                self.update = self.update.max(update);
                self.lookup = self.lookup.max(lookup);
            }
            Outcome::Refused { .. } => self.refused += 1,
        }
    }
}

/// Keeps what they came to, and not one of them.
impl Collector for Totals {
    ghost holds = { IsTotalOf };

    ghost room = { room_of };

    fn empty(_alloc: Global) -> Totals {
        Totals::new()
    }

    fn with_room(_alloc: Global, _count: usize) -> Result<Totals, AllocError> {
        Ok(Totals::new())
    }

    fn collect(&mut self, outcome: Outcome) {
        self.put(&outcome);
    }
}

/// Of the calls of each of these logs.
pub(crate) fn totals_in(alloc: Global, logs: &[Vec<Outcome>]) -> Result<Vec<Totals>, AllocError>
    requires short { All (λ log. vec_len log < 2 ^ 63) logs.now }
    ensures { IfOk result (λ totals. AllZip IsTotalOf totals.items (map (λ log. log.items) logs.now)) }
{
    let mut each = Vec::with_capacity(alloc, logs.len())?;
    for log in logs {
        each.push(totals_in_log(log))?;
    }
    Ok(each)
}

// Of the calls of one log.
fn totals_in_log(log: &[Outcome]) -> Totals
    requires short { length log.now < 2 ^ 63 }
    ensures { IsTotalOf result log.now }
{
    let mut totals = Totals::new();
    for outcome in log {
        totals.put(outcome);
    }
    totals
}

impl Replies {
    // Those of a batch more.
    fn add(&mut self, batch: &Replies)
        requires { AreFewer (2 ^ 63) self.now × AreFewer (2 ^ 63) batch.now }
        ensures { self.exit.now ≡ with_replies batch.now self.entry.now }
    {
        self.new += batch.new;
        self.old += batch.old;
        self.noroom += batch.noroom;
        self.gone += batch.gone;
        self.found += batch.found;
        self.absent += batch.absent;
    }

    // One reply more.
    fn put(&mut self, reply: Reply)
        requires { AreFewer (2 ^ 64 - 1) self.now }
        ensures { self.exit.now ≡ with_reply reply self.entry.now }
    {
        self.new += u64::from(matches!(reply, Reply::New));
        self.old += u64::from(matches!(reply, Reply::Old(_)));
        self.noroom += u64::from(matches!(reply, Reply::NoRoom));
        self.gone += u64::from(matches!(reply, Reply::Gone(_)));
        self.found += u64::from(matches!(reply, Reply::Found(_)));
        self.absent += u64::from(matches!(reply, Reply::Absent));
    }
}
