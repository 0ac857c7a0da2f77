//! The top call, which does all that the program does.

ghost use Rattle.std.specs.Prelude.{◌≡◌, map, string_bytes, None};
ghost use Rattle.capture_loop.specs.Input.{in_batches};
ghost use Rattle.command_line.specs.declared.plan.Mode.TheVariants.{Trial};
ghost use Rattle.command_line.specs.Words.{IsInRange, reads};
ghost use Rattle.mode_parts.specs.Callings.{calling_of, plain_calling};
ghost use Rattle.mode_parts.specs.Edges.{TellsReads, TellsWrites, edges, sink_edge, source_edge};
ghost use Rattle.trace_runner.specs.Does.{Does, DoesMode, IsMade, IsUnmarked, IsUnread, ReadsNoPackets};

use crate::making::make;
use capture_loop::{Means, Portions};
use check_runner::check;
use command_line::{Mode, Plan, WordsFault, read_words};
use edge_traits::{Gate, Sink, Source};
use flows_runner::flow;
use mode_parts::Status;
use play_mode::play;
use serve_modes::{serve, try_plan};
use std::alloc::Global;
use std::thread::Threads;
use totals_runner::count;

/// Does what the words ask for. `words` are those after the program's name; they are judged before anything is read.
///
/// `serve` reads a capture from the source, up to its fault or to one packet more than `PACKET_LIMIT`, so many packets
/// at a time as the words say, or 2,048. The calls of these are served by seats in threads of their own, and their
/// lines are put into the sink before more is read of the source. `play` reads a capture of up to `PLAY_LIMIT`
/// packets, whose calls are made step by step, by one schedule, and puts the report at once. `make` puts a made
/// capture, and `trial` serves it and puts how many calls had each reply. `totals` goes through a capture as `serve`
/// does, and counts its packets by adders in threads. `flows` goes through a capture of up to `FLOW_LIMIT` packets on
/// one table that lasts, and puts the sessions that are left and the counts: behind each so many packets, if the words
/// say so, and at the end. Each flow's calls are made by one caller, in packet order; the callers are threads. `check`
/// reads a report, and puts the line of its verdict. Where a capture has more packets than a mode takes, `beyond` is
/// where the first of these starts, in bytes from the input's first.
pub fn run<R: Threads + Sync, S: Source, K: Sink, G: Gate + Sync>(
    rt: &R,
    alloc: Global,
    words: &[String],
    source: &mut S,
    sink: &mut K,
    gate: &G,
    beyond: &mut Option<u64>,
) -> Status
    // What is done, by what the words ask for: a record a mode, which the mode's crate proves.
    ensures does { Does (reads (map string_bytes words.now)) (edges S.Source K.Sink source.old sink.old beyond.old)
        (edges S.Source K.Sink source.new sink.new beyond.new) result }

    // Where the words ask for no plan, nothing is read, put or noted, whatever the answer. A made capture is not read,
    // and only where packets are read can one be too many.
    ensures usage { result ≡ Status.Usage → reads (map string_bytes words.now) ≡ None }
    ensures unread { IsUnread (reads (map string_bytes words.now)) → source.new ≡ source.old }
    ensures unwritten { reads (map string_bytes words.now) ≡ None → sink.new ≡ sink.old }
    ensures unmarked { IsUnmarked (reads (map string_bytes words.now)) → beyond.new ≡ beyond.old }

    // A device failed. Each read and each write that failed ends the run and is answered, want of memory apart, and a
    // write goes before a read.
    ensures reads { TellsReads (source_edge S.Source source.old) (source_edge S.Source source.new) result }
    ensures writes { TellsWrites (sink_edge K.Sink sink.old) (sink_edge K.Sink sink.new) result }
{
    match read_words(alloc, words) {
        Ok(plan) => {
            let portions = Portions::of(plan.batch);
            let means = Means {
                rt,
                alloc,
                gate,
                portions,
            };
            run_plan(&means, &plan, source, sink, beyond)
        }
        Err(WordsFault::Usage) => Status::Usage,
        Err(WordsFault::Memory) => Status::Memory,
    }
}

/// Does what the plan says.
fn run_plan<R: Threads + Sync, S: Source, K: Sink, G: Gate + Sync>(
    means: &Means<R, G>,
    plan: &Plan,
    source: &mut S,
    sink: &mut K,
    beyond: &mut Option<u64>,
) -> Status
    requires range { IsInRange plan.now }
    requires batch { means.now.portions ≡ in_batches plan.now.batch }
    // The words of a trial give no rows, and say nothing of how packets are framed and which calls they make.
    requires trial { plan.now.mode ≡ Trial → (plan.now.rows ≡ None) × (calling_of plan.now ≡ plain_calling) }
    ensures does { DoesMode plan.now.mode plan.now (edges S.Source K.Sink source.old sink.old beyond.old)
        (edges S.Source K.Sink source.new sink.new beyond.new) result }
    ensures unread { IsMade plan.now.mode → source.new ≡ source.old }
    ensures unmarked { ReadsNoPackets plan.now.mode → beyond.new ≡ beyond.old }
    ensures reads { TellsReads (source_edge S.Source source.old) (source_edge S.Source source.new) result }
    ensures writes { TellsWrites (sink_edge K.Sink sink.old) (sink_edge K.Sink sink.new) result }
    ensures no_usage { result ≡ Status.Usage → ⊥ }
{
    match plan.mode {
        Mode::Serve => serve(means, plan, source, sink, beyond),
        Mode::Play => play(means.alloc, plan, source, sink, beyond),
        Mode::Make => make(means.alloc, plan, sink),
        Mode::Trial => try_plan(means, plan, sink),
        Mode::Check => check(means.alloc, source, sink),
        Mode::Totals => count(means, plan, source, sink, beyond),
        Mode::Flows => flow(means, plan, source, sink, beyond),
    }
}
