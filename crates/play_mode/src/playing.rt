//! Mode `play`: a capture is read whole, its calls are made by a schedule, and the report is put at once.

ghost use Rattle.std.specs.Prelude.{◌≡◌, ◌≤◌, ◌<◌, ◌^◌, [], ◌++◌, length, map, flat_map, vec_len, All, IfOk, OnErr, OnOk, Some};
ghost use Rattle.std.specs.Option.{ForSome};
ghost use Rattle.edge_traits.specs.Edge.{Rose};
ghost use Rattle.capture_loop.specs.Leaves.{EndsBy};
ghost use Rattle.key_texts.specs.FlowText.{HasText};
ghost use Rattle.plain_map.specs.Calls.{key_in};
ghost use Rattle.word_rows.specs.Shape.{AreBelow};
ghost use Rattle.report_text.specs.Report.{batch_lines, call_in, outcome_line, pending_line};
ghost use Rattle.capture_faults.specs.Endings.{IsEnding};
ghost use Rattle.table_model.specs.Schedules.{CanPlay, IsPlayable};
ghost use Rattle.play_runner.specs.Played.{IsPlayed, as_segment};
ghost use Rattle.batch_rows.specs.declared.rows.TheConstants.{CALL_LIMIT};
ghost use Rattle.batch_deals.specs.Dealt.{shares_of};
ghost use Rattle.capture_loop.specs.Endings.{HasFailed, OnLimit};
ghost use Rattle.capture_loop.specs.Input.{StopsAt};
ghost use Rattle.command_line.specs.Words.{IsInRange};
ghost use Rattle.mode_parts.specs.Edges.{TellsReads, TellsWrites, edges, sink_edge, source_edge};
ghost use Rattle.mode_parts.specs.Statuses.{MarksFor};
ghost use Rattle.packet_heads.specs.Links.{number_in};
ghost use Rattle.mode_parts.specs.Reading.{AreBetween, EndsCalls};
ghost use Rattle.mode_parts.specs.Planned.{IsServiceOf};
ghost use Rattle.play_mode.specs.Does.{DoesPlay};
ghost use Rattle.play_mode.specs.Playing.{IsPlayOf, LeavesPlayed, play_in, play_limit, play_setup, play_tail, played_lines, ranges_for, refusals_in, schedule_in};

use crate::laws::playing_laws;
use batch_deals::Service;
use batch_rows::updates_of;
use capture_faults::Ending;
use capture_loop::{BATCH, Portions, Unopened, mark, open, read_rest};
use command_line::Plan;
use core_steps::CoreWorld;
use edge_traits::{Failed, Sink, Source, write_all};
use mode_parts::{CallPile, Calling, Status, calling_of, head_of, put_sessions, service_of};
use pcapng_reader::one_input;
use plain_map::{Call, OpenFault, Pending, session_laws};
use play_runner::{Played, Segment, most_steps};
use report_promises::{head_fits, promise_laws, tail_fits};
use report_text::{Line, Tail, head_text, order_text, outcome_text, pending_text, tail_text};
use std::alloc::{AllocError, Global};
use step_counts::{SeatRows, Settings, automatic_rows, bound};
use trace_share::{Outcome, deal};

/// How many packets `play` takes at most.
pub const PLAY_LIMIT: u32 = 200;

/// Plays the source's packets as the plan says, and puts the report into the sink. Where there are more than are
/// played, `beyond` is where the first of these starts, in bytes from the input's first.
pub fn play<S: Source, K: Sink>(
    alloc: Global,
    plan: &Plan,
    source: &mut S,
    sink: &mut K,
    beyond: &mut Option<u64>,
) -> Status
    requires { IsInRange plan.now }
    ensures does { DoesPlay plan.now (edges S.Source K.Sink source.old sink.old beyond.old)
        (edges S.Source K.Sink source.new sink.new beyond.new) result }
    ensures reads { TellsReads (source_edge S.Source source.old) (source_edge S.Source source.new) result }
    ensures writes { TellsWrites (sink_edge K.Sink sink.old) (sink_edge K.Sink sink.new) result }
    ensures no_usage { result ≡ Status.Usage → ⊥ }
{
    one_input();
    play_input(alloc, plan, source, sink, beyond)
}

/// The same: what is left, and which place is noted.
fn play_input<S: Source, K: Sink>(
    alloc: Global,
    plan: &Plan,
    source: &mut S,
    sink: &mut K,
    beyond: &mut Option<u64>,
) -> Status
    requires { IsInRange plan.now }
    ensures leaves { LeavesPlayed plan.now (EndsBy (S.failed source.old) (S.failed source.new)) (S.left source.old)
        (S.left source.new) (K.put sink.old) (K.put sink.new) result }
    ensures reads { TellsReads (source_edge S.Source source.old) (source_edge S.Source source.new) result }
    ensures writes { TellsWrites (sink_edge K.Sink sink.old) (sink_edge K.Sink sink.new) result }
    ensures no_usage { result ≡ Status.Usage → ⊥ }
    ensures beyond { MarksFor result beyond.old beyond.new
        (StopsAt (number_in plan.now.framing.link) play_limit (S.left source.old) (S.left source.new)) }
{
    promise_laws();
    let service = service_of(plan);
    let Ok(input) = read_input(alloc, service, calling_of(plan), source) else {
        return Status::Memory;
    };
    match report_of(alloc, plan, &service, &input) {
        Ok(text) => match write_all(sink, &text) {
            Ok(()) => {
                mark(&Ok(input.ending), input.start, beyond);
                Status::of_ending(&input.ending)
            }
            Err(Failed) => Status::WriteFault,
        },
        Err(_memory) => Status::Memory,
    }
}

/// A whole input.
#[derive(Drop)]
struct Input {
    /// How many packets were read whole.
    packets: u32,
    /// Their calls.
    calls: Vec<(u32, Call)>,
    ending: Ending,
    /// Where the first packet starts that is too many, where there is one.
    start: u64,
}

/// Reads an input whose packets are framed so and make calls so, up to its end or to one packet more than are taken.
fn read_input<S: Source>(
    alloc: Global,
    service: Service,
    calling: Calling,
    source: &mut S,
) -> Result<Input, AllocError>
    ensures ended { IfOk result (λ input. EndsCalls calling PLAY_LIMIT (S.left source.old) (S.left source.new)
        input.packets input.calls.items input.ending) }
    ensures between { IfOk result (λ input. AreBetween 0 input.packets input.calls.items) }
    ensures few { IfOk result (λ input. input.packets ≤ PLAY_LIMIT) }
    ensures start { IfOk result (λ input. OnLimit input.ending
        (StopsAt (number_in calling.framing.link) PLAY_LIMIT (S.left source.old) (S.left source.new) input.start)) }
    ensures ending { IfOk result (λ input. IsEnding input.ending) }
    ensures read_fault { IfOk result (λ input. input.ending ≡ Ending.ReadFault →
        Rose (S.faults source.old) (S.faults source.new)) }
    ensures counted { S.faults source.old ≤ S.faults source.new }
    ensures failed { IfOk result (λ input. HasFailed (Some input.ending) (S.failed source.old) (S.failed source.new)) }
    ensures none_failed { OnErr result (S.failed source.new ≡ S.failed source.old) }
{
    match open(alloc, calling.framing.link.number(), source) {
        Ok(mut reader) => {
            let mut pile = CallPile::with_room(alloc, service, calling, PLAY_LIMIT as usize)?;
            let portions = Portions {
                batch: BATCH,
                every: None,
                eager: false,
                limit: PLAY_LIMIT as u64,
            };
            let part = read_rest(&mut reader, source, &portions, 0, 0, &mut pile)?;
            match part.ending {
                Some(ending) => Ok(Input {
                    packets: part.packets,
                    calls: pile.calls,
                    ending,
                    start: reader.start(),
                }),
                None => unreachable!(),
            }
        }
        Err(Unopened::Ends(ending)) => Ok(Input {
            packets: 0,
            calls: Vec::new(alloc),
            ending,
            start: 0,
        }),
        Err(Unopened::Memory) => Err(AllocError),
    }
}

/// The report of a play of an input's calls.
fn report_of(
    alloc: Global,
    plan: &Plan,
    service: &Service,
    input: &Input,
) -> Result<Vec<u8>, AllocError>
    requires range { IsInRange plan.now }
    requires asks { IsServiceOf plan.now service.now }
    requires given { ForSome service.now.rows (AreBelow (2 ^ 32)) }
    requires between { AreBetween 0 input.now.packets input.now.calls.items }
    requires few { input.now.packets ≤ PLAY_LIMIT }
    requires ending { IsEnding input.now.ending }
    ensures { IfOk result (λ text. IsPlayOf plan.now input.now.packets input.now.calls.items input.now.ending
        text.items) }
{
    playing_laws();
    session_laws();
    let played = play_calls(alloc, plan, service, &input.calls)?;
    let mut text = Vec::new(alloc);
    let head = head_of(true, plan);
    head_fits(&head, &service.settings);
    head_text(&mut text, &head)?;
    put_played(&mut text, plan.seats, &played)?;
    put_sessions(&mut text, &played.pairs)?;
    let tail = play_tail(service, input, &played);
    tail_fits(&head, &tail, &service.settings);
    tail_text(&mut text, &tail)?;
    Ok(text)
}

/// What the calls come to, where seats make them by the plan's schedule and stops.
fn play_calls(
    alloc: Global,
    plan: &Plan,
    service: &Service,
    calls: &[(u32, Call)],
) -> Result<Played, AllocError>
    requires asks { IsServiceOf plan.now service.now }
    requires given { ForSome service.now.rows (AreBelow (2 ^ 32)) }
    requires playable { All IsPlayable calls.now }
    requires few { length calls.now ≤ PLAY_LIMIT }
    ensures can { IfOk result (λ _. CanPlay (play_setup service.now calls.now) (shares_of service.now calls.now)) }
    ensures played { IfOk result (IsPlayed (play_setup service.now calls.now)
        (play_in plan.now service.now calls.now)) }
{
    let shares = deal(alloc, service.share, service.settings.seats, calls)?;
    let rows = ranges_for(alloc, &service.settings, service.rows, &shares)?;
    let core = match CoreWorld::new(alloc, &service.settings, service.hashing, &rows, &[]) {
        Ok(core) => core,
        Err(OpenFault::Memory) => return Err(AllocError),
        Err(OpenFault::NoRoom { .. }) => unreachable!(),
    };
    let schedule = schedule_in(alloc, plan)?;
    play_runner::play(alloc, core, &shares, plan.stops.as_slice(), &schedule)
}

/// The rows of each seat: those that are given, and else those that suffice for its updates.
fn ranges_for(
    alloc: Global,
    settings: &Settings,
    given: Option<SeatRows>,
    shares: &[Vec<(u32, Call)>],
) -> Result<Vec<SeatRows>, AllocError>
    requires given { ForSome given (AreBelow (2 ^ 32)) }
    requires few { All (λ share. vec_len share < CALL_LIMIT) shares.now }
    ensures rows { IfOk result (λ rows. rows.items
        ≡ ranges_for settings.now given (map (λ share. share.items) shares.now)) }
    ensures below { IfOk result (λ rows. All (AreBelow (2 ^ 32)) rows.items) }
{
    if let Some(given) = given {
        return vec![in alloc; given; shares.len()];
    }
    let mut rows = Vec::with_capacity(alloc, shares.len())?;
    for share in shares {
        rows.push(automatic_rows(settings, updates_of(share)))?;
    }
    Ok(rows)
}

/// The segments of the plan's schedule.
fn schedule_in(alloc: Global, plan: &Plan) -> Result<Vec<Segment>, AllocError>
    ensures { IfOk result (λ segments. map as_segment segments.items ≡ schedule_in plan.now) }
{
    let told = plan.schedule.as_slice();
    let mut segments = Vec::with_capacity(alloc, told.len())?;
    for segment in told {
        segments.push(Segment {
            seat: segment.seat,
            slots: segment.slots,
        })?;
    }
    Ok(segments)
}

/// Appends the lines of the calls that ended, of those that were under way, and of the order.
fn put_played(text: &mut Vec<u8>, seats: u32, played: &Played) -> Result<(), AllocError>
    requires seats { seats ≤ 8 }
    requires ended { All (λ ended. HasText (key_in (call_in ended.1))) played.now.outcomes.items }
    requires under_way { All (λ begun. HasText (key_in begun.call)) played.now.pending.items }
    ensures { OnOk result (text.new.items ≡ text.old.items ++ batch_lines seats (played_lines played.now)) }
{
    let mut line = Line::new();
    put_outcomes(text, &mut line, seats, &played.outcomes)?;
    put_pending(text, &mut line, seats, &played.pending)?;
    order_text(text, &mut line, &played.order)
}

/// A line for each call that ended.
fn put_outcomes(
    text: &mut Vec<u8>,
    line: &mut Line,
    seats: u32,
    outcomes: &[(u32, Outcome)],
) -> Result<(), AllocError>
    requires seats { seats ≤ 8 }
    requires texts { All (λ ended. HasText (key_in (call_in ended.1))) outcomes.now }
    ensures { OnOk result (text.new.items
        ≡ text.old.items ++ flat_map (λ ended. outcome_line seats ended.0 ended.1) outcomes.now) }
{
    for ended in outcomes {
        outcome_text(text, line, seats, &[], ended.0, &ended.1)?;
    }
    Ok(())
}

/// A line for each call that was under way.
fn put_pending(
    text: &mut Vec<u8>,
    line: &mut Line,
    seats: u32,
    pending: &[Pending],
) -> Result<(), AllocError>
    requires seats { seats ≤ 8 }
    requires texts { All (λ begun. HasText (key_in begun.call)) pending.now }
    ensures { OnOk result (text.new.items ≡ text.old.items ++ flat_map (pending_line seats) pending.now) }
{
    for begun in pending {
        pending_text(text, line, seats, begun)?;
    }
    Ok(())
}

/// What the last lines tell.
fn play_tail(service: &Service, input: &Input, played: &Played) -> Tail
    requires between { AreBetween 0 input.now.packets input.now.calls.items }
    requires depth { played.now.depth < 2 ^ 32 }
    ensures { result ≡ play_tail service.now input.now.packets (length input.now.calls.items) played.now
        input.now.ending }
{
    let packets = u64::from(input.packets);
    let calls = input.calls.len() as u64;
    Tail {
        leaves: played.leaves as u64,
        depth: played.depth as u32,
        ending: input.ending,
        packets,
        calls,
        passed: packets - calls,
        full: refusals_in(&played.outcomes),
        pending: played.pending.len() as u64,
        unbegun: played.unbegun,
        update: most_steps(&played.outcomes, true),
        bound: bound(&service.settings),
        lookup: most_steps(&played.outcomes, false),
    }
}

/// How many calls were refused.
fn refusals_in(outcomes: &[(u32, Outcome)]) -> u64
    ensures { result ≡ refusals_in outcomes.now }
{
    let mut refusals = 0;
    for ended in outcomes {
        if let Outcome::Refused { .. } = ended.1 {
            refusals += 1;
        }
    }
    refusals
}
