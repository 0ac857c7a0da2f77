//! From the values that the words give to the plan.
//!
//! An option that its mode does not use has no effect, and its text is not looked at.

ghost use Rattle.std.specs.Prelude.{◌≡◌, ◌-◌, ◌<◌, ◌≤◌, ◌^◌, IfOk, IfSome, None, replicate};
ghost use Rattle.std.specs.List.{AllByRecursion};
ghost use Rattle.std.specs.Option.{option_map};
ghost use Rattle.clap.specs.Words.{first_value, found_of};
ghost use Rattle.step_counts.specs.Ranges.{IsWithin};
ghost use Rattle.command_line.specs.Command.{depth, number_of, numbers, start, with_default, Passes};
ghost use Rattle.command_line.specs.Texts.{AreRowsInRange};
ghost use Rattle.command_line.specs.Words.{asked_rows, asked_schedule, asked_stops, has_batches, has_seats, has_table};
ghost use Rattle.command_line.specs.Words.{batch_in, default_for, depth_in, every_in, items_in, number_for, start_below};
ghost use Rattle.command_line.specs.Words.{hashing_in};
ghost use Rattle.command_line.specs.Words.{hashing_of, makes_capture, mode_of, number_if, number_in};
ghost use Rattle.command_line.specs.Words.{plan_of, plan_with, rows_for, schedule_for, seats_in, share_in};
ghost use Rattle.command_line.specs.Words.{share_of, start_in, stops_in, text_in, IsInRange};
ghost use Rattle.command_line.specs.Words.{calls_in, calls_of, framing_in, link_in, link_of, reads_capture, tags_in};

use crate::plan::{Mode, Plan};
use crate::plays::{Schedule, Stops};
use crate::words::options::{
    BATCH, DEPTH, EVERY, EXTENSIONS, FLOWS_BATCH, FLOWS_DEPTH, FLOWS_ITEMS, FLOWS_SEATS, ITEMS,
    NUMBER, NumberOption, PACKETS, SEATS, SEED, START, TAGS,
};
use crate::words::plays::{schedule_of, stops_of};
use crate::words::texts::rows_of;
use clap::ArgMatches;
use hash_bits::Hashing;
use key_texts::CallRule;
use packet_heads::{Framing, Link};
use std::alloc::{AllocError, Global};
use step_counts::SeatRows;
use trace_share::Share;

/// The number of an option, or this default.
#[tactic(auto, unfolding(crate::specs::Command::Passes))]
fn number_or(matches: &ArgMatches<'_>, option: &NumberOption<'_>, default: u64) -> u64
    requires passes { Passes (found_of matches.now) (number_of option.now) }
    requires fits { (option.now.least ≤ default) × (default ≤ option.now.most) }
    ensures value { result
        ≡ number_in (first_value (found_of matches.now)) (with_default (number_of option.now) default) }
    ensures within { (option.now.least ≤ result) × (result ≤ option.now.most) }
{
    match matches.get_str(option.name) {
        Some(text) => text.parse().unwrap_or(default),
        None => default,
    }
}

/// The number of an option, or its default.
fn number(matches: &ArgMatches<'_>, option: &NumberOption<'_>) -> u64
    requires passes { Passes (found_of matches.now) (number_of option.now) }
    requires fits { (option.now.least ≤ option.now.default)
        × (option.now.default ≤ option.now.most) }
    ensures value { result
        ≡ number_in (first_value (found_of matches.now)) (number_of option.now) }
    ensures within { (option.now.least ≤ result) × (result ≤ option.now.most) }
{
    number_or(matches, option, option.default)
}

/// The text of a name, or its default.
fn text<'a>(matches: &ArgMatches<'a>, name: &str, default: &'a str) -> &'a str
    ensures { result.now
        ≡ text_in (first_value (found_of matches.now)) name.now default.entry.now }
{
    match matches.get_str(name) {
        Some(text) => text,
        None => default,
    }
}

/// The mode of a word.
pub(crate) fn mode_of(text: &str) -> Option<Mode>
    ensures { result ≡ mode_of text.now }
{
    if text == "serve" {
        Some(Mode::Serve)
    } else if text == "play" {
        Some(Mode::Play)
    } else if text == "make" {
        Some(Mode::Make)
    } else if text == "trial" {
        Some(Mode::Trial)
    } else if text == "totals" {
        Some(Mode::Totals)
    } else if text == "check" {
        Some(Mode::Check)
    } else if text == "flows" {
        Some(Mode::Flows)
    } else {
        None
    }
}

/// The mode has seats.
fn has_seats(mode: Mode) -> bool
    ensures { result ≡ has_seats mode }
{
    match mode {
        Mode::Serve | Mode::Play | Mode::Trial | Mode::Totals | Mode::Flows => true,
        Mode::Make | Mode::Check => false,
    }
}

/// The mode uses the options of a table.
fn has_table(mode: Mode) -> bool
    ensures { result ≡ has_table mode }
{
    match mode {
        Mode::Serve | Mode::Play | Mode::Trial | Mode::Flows => true,
        Mode::Make | Mode::Totals | Mode::Check => false,
    }
}

/// The mode uses the options of the made capture.
fn makes_capture(mode: Mode) -> bool
    ensures { result ≡ makes_capture mode }
{
    match mode {
        Mode::Serve | Mode::Play | Mode::Totals | Mode::Check | Mode::Flows => false,
        Mode::Make | Mode::Trial => true,
    }
}

/// The mode uses the options on how packets are framed.
fn reads_capture(mode: Mode) -> bool
    ensures { result ≡ reads_capture mode }
{
    match mode {
        Mode::Serve | Mode::Play | Mode::Totals | Mode::Flows => true,
        Mode::Make | Mode::Trial | Mode::Check => false,
    }
}

/// The mode goes through a capture batch by batch.
fn has_batches(mode: Mode) -> bool
    ensures { result ≡ has_batches mode }
{
    match mode {
        Mode::Serve | Mode::Trial | Mode::Totals | Mode::Flows => true,
        Mode::Play | Mode::Make | Mode::Check => false,
    }
}

/// The number of an option that may be used, or its default.
fn number_if(uses: bool, matches: &ArgMatches<'_>, option: &NumberOption<'_>) -> u64
    requires passes { Passes (found_of matches.now) (number_of option.now) }
    requires fits { (option.now.least ≤ option.now.default)
        × (option.now.default ≤ option.now.most) }
    ensures value { result
        ≡ number_if uses (first_value (found_of matches.now)) (number_of option.now) }
    ensures within { (option.now.least ≤ result) × (result ≤ option.now.most) }
{
    if uses {
        number(matches, option)
    } else {
        option.default
    }
}

/// The number of an option that may be used, or its default, which is another one in the mode `flows`.
fn number_for(
    mode: Mode,
    flows: u64,
    uses: bool,
    matches: &ArgMatches<'_>,
    option: &NumberOption<'_>,
) -> u64
    requires passes { Passes (found_of matches.now) (number_of option.now) }
    requires fits { (option.now.least ≤ option.now.default)
        × (option.now.default ≤ option.now.most) }
    requires fits_flows { (option.now.least ≤ flows) × (flows ≤ option.now.most) }
    ensures value { result
        ≡ number_for mode flows uses (first_value (found_of matches.now)) (number_of option.now) }
    ensures within { (option.now.least ≤ result) × (result ≤ option.now.most) }
{
    let default = match mode {
        Mode::Flows => flows,
        Mode::Serve | Mode::Play | Mode::Make | Mode::Trial | Mode::Totals | Mode::Check =>
            option.default,
    };
    if uses {
        number_or(matches, option, default)
    } else {
        default
    }
}

/// The starting depth that the words give, where it is at most the greatest that they give.
fn start_below(matches: &ArgMatches<'_>) -> Option<u32>
    requires { AllByRecursion (Passes (found_of matches.now)) numbers }
    ensures start { result ≡ start_below (number_in (first_value (found_of matches.now)) depth)
        (number_in (first_value (found_of matches.now)) start) }
    ensures fits { IfSome result (λ start.
        start ≤ number_in (first_value (found_of matches.now)) depth) }
{
    let start = number(matches, &START);
    if start <= number(matches, &DEPTH) {
        Some(start as u32)
    } else {
        None
    }
}

/// The starting depth, which is at most the greatest.
fn start_in(mode: Mode, matches: &ArgMatches<'_>) -> Option<u32>
    requires { AllByRecursion (Passes (found_of matches.now)) numbers }
    ensures start { result ≡ start_in mode (first_value (found_of matches.now)) }
    ensures fits { IfSome result (λ start.
        start ≤ depth_in mode (first_value (found_of matches.now))) }
{
    match mode {
        Mode::Serve | Mode::Play | Mode::Trial => start_below(matches),
        Mode::Make | Mode::Totals | Mode::Check | Mode::Flows => Some(START.default as u32),
    }
}

/// The hash of a word, with this number.
pub(crate) fn hashing_of(text: &str, seed: u64) -> Option<Hashing>
    ensures { result ≡ hashing_of text.now seed }
{
    if text == "mix" {
        Some(Hashing::Mix(seed))
    } else if text == "ports" {
        Some(Hashing::Ports(seed))
    } else {
        None
    }
}

fn hashing_in(mode: Mode, matches: &ArgMatches<'_>) -> Option<Hashing>
    requires { AllByRecursion (Passes (found_of matches.now)) numbers }
    ensures { result ≡ hashing_in mode (first_value (found_of matches.now)) }
{
    match mode {
        Mode::Serve | Mode::Play => hashing_of(
            text(matches, "hash", "mix"),
            number(matches, &SEED),
        ),
        Mode::Make | Mode::Totals | Mode::Check => Some(Hashing::Mix(SEED.default)),
        Mode::Trial | Mode::Flows => Some(Hashing::Mix(number(matches, &SEED))),
    }
}

/// The share of a word.
pub(crate) fn share_of(text: &str) -> Option<Share>
    ensures { result ≡ share_of text.now }
{
    if text == "round" {
        Some(Share::Round)
    } else if text == "block" {
        Some(Share::Block)
    } else if text == "flow" {
        Some(Share::Flow)
    } else {
        None
    }
}

fn share_in(mode: Mode, matches: &ArgMatches<'_>) -> Option<Share>
    ensures { result ≡ share_in mode (first_value (found_of matches.now)) }
{
    match mode {
        Mode::Serve | Mode::Play => share_of(text(matches, "share", "round")),
        Mode::Make | Mode::Totals | Mode::Check => Some(Share::Round),
        Mode::Trial | Mode::Flows => Some(Share::Flow),
    }
}

/// The link type of a number, as it stands.
pub(crate) fn link_of(text: &str) -> Option<Link>
    ensures { result ≡ link_of text.now }
{
    if text == "0" {
        Some(Link::Null)
    } else if text == "1" {
        Some(Link::Ethernet)
    } else if text == "9" {
        Some(Link::Ppp)
    } else if text == "12" {
        Some(Link::Raw12)
    } else if text == "14" {
        Some(Link::Raw14)
    } else if text == "101" {
        Some(Link::Raw)
    } else if text == "108" {
        Some(Link::Loop)
    } else if text == "113" {
        Some(Link::LinuxSll)
    } else if text == "228" {
        Some(Link::Ipv4)
    } else if text == "229" {
        Some(Link::Ipv6)
    } else if text == "276" {
        Some(Link::LinuxSll2)
    } else {
        None
    }
}

fn link_in(mode: Mode, matches: &ArgMatches<'_>) -> Option<Link>
    ensures { result ≡ link_in mode (first_value (found_of matches.now)) }
{
    match mode {
        Mode::Serve | Mode::Play | Mode::Totals | Mode::Flows => {
            link_of(text(matches, "link", "1"))
        }
        Mode::Make | Mode::Trial | Mode::Check => Some(Link::Ethernet),
    }
}

/// How many tags may stand before a protocol, where it is given.
fn tags_in(mode: Mode, matches: &ArgMatches<'_>) -> Option<u8>
    requires { AllByRecursion (Passes (found_of matches.now)) numbers }
    ensures { result ≡ tags_in mode (first_value (found_of matches.now)) }
{
    if !reads_capture(mode) {
        return None;
    }
    match matches.get_str("tags") {
        Some(_) => Some(number(matches, &TAGS) as u8),
        None => None,
    }
}

/// How the packets of a capture are framed.
fn framing_in(mode: Mode, matches: &ArgMatches<'_>) -> Option<Framing>
    requires { AllByRecursion (Passes (found_of matches.now)) numbers }
    ensures { result ≡ framing_in mode (first_value (found_of matches.now)) }
{
    let link = link_in(mode, matches)?;
    Some(Framing {
        link,
        tags: tags_in(mode, matches),
        extensions: number_if(reads_capture(mode), matches, &EXTENSIONS) as u8,
    })
}

/// The rule of a word.
pub(crate) fn calls_of(text: &str) -> Option<CallRule>
    ensures { result ≡ calls_of text.now }
{
    if text == "sessions" {
        Some(CallRule::Sessions)
    } else if text == "flows" {
        Some(CallRule::Flows)
    } else {
        None
    }
}

fn calls_in(mode: Mode, matches: &ArgMatches<'_>) -> Option<CallRule>
    ensures { result ≡ calls_in mode (first_value (found_of matches.now)) }
{
    match mode {
        Mode::Serve | Mode::Play => calls_of(text(matches, "calls", "sessions")),
        Mode::Flows => calls_of(text(matches, "calls", "flows")),
        Mode::Make | Mode::Trial | Mode::Totals | Mode::Check => Some(CallRule::Sessions),
    }
}

/// After how many packets the sessions are printed again and again, where it is given.
fn every_in(mode: Mode, matches: &ArgMatches<'_>) -> Option<u64>
    requires { AllByRecursion (Passes (found_of matches.now)) numbers }
    ensures every { result ≡ every_in mode (first_value (found_of matches.now)) }
    ensures within { IfSome result (IsWithin 1 (2 ^ 52 - 1)) }
{
    match mode {
        Mode::Flows => match matches.get_str("every") {
            Some(_) => Some(number(matches, &EVERY)),
            None => None,
        },
        Mode::Serve | Mode::Play | Mode::Make | Mode::Trial | Mode::Totals | Mode::Check => None,
    }
}

/// The rows of a text, automatic where there is no text.
fn asked_rows(alloc: Global, text: Option<&str>) -> Result<Option<Option<SeatRows>>, AllocError>
    ensures rows { IfOk result (λ rows. rows ≡ asked_rows (option_map (λ t. t.now) text.entry)) }
    ensures fits { IfOk result (λ rows. IfSome rows (λ r. IfSome r AreRowsInRange)) }
{
    match text {
        Some(text) => {
            let rows = rows_of(alloc, text)?;
            Ok(rows.map(Some))
        }
        None => Ok(Some(None)),
    }
}

fn rows_for(
    alloc: Global,
    mode: Mode,
    matches: &ArgMatches<'_>,
) -> Result<Option<Option<SeatRows>>, AllocError>
    ensures rows { IfOk result (λ rows.
        rows ≡ rows_for mode (first_value (found_of matches.now))) }
    ensures fits { IfOk result (λ rows. IfSome rows (λ r. IfSome r AreRowsInRange)) }
{
    match mode {
        Mode::Serve | Mode::Play => asked_rows(alloc, matches.get_str("rows")),
        Mode::Make | Mode::Trial | Mode::Totals | Mode::Check | Mode::Flows => Ok(Some(None)),
    }
}

fn seats_in(mode: Mode, matches: &ArgMatches<'_>) -> u32
    requires { AllByRecursion (Passes (found_of matches.now)) numbers }
    ensures seats { result ≡ seats_in mode (first_value (found_of matches.now)) }
    ensures within { IsWithin 1 8 result }
{
    number_for(mode, FLOWS_SEATS, has_seats(mode), matches, &SEATS) as u32
}

fn batch_in(mode: Mode, matches: &ArgMatches<'_>) -> u32
    requires { AllByRecursion (Passes (found_of matches.now)) numbers }
    ensures batch { result ≡ batch_in mode (first_value (found_of matches.now)) }
    ensures within { IsWithin 2048 65536 result }
{
    number_for(mode, FLOWS_BATCH, has_batches(mode), matches, &BATCH) as u32
}

fn items_in(mode: Mode, matches: &ArgMatches<'_>) -> u32
    requires { AllByRecursion (Passes (found_of matches.now)) numbers }
    ensures items { result ≡ items_in mode (first_value (found_of matches.now)) }
    ensures within { IsWithin 1 16 result }
{
    number_for(mode, FLOWS_ITEMS, has_table(mode), matches, &ITEMS) as u32
}

fn depth_in(mode: Mode, matches: &ArgMatches<'_>) -> u32
    requires { AllByRecursion (Passes (found_of matches.now)) numbers }
    ensures depth { result ≡ depth_in mode (first_value (found_of matches.now)) }
    ensures within { IsWithin 0 12 result }
{
    number_for(mode, FLOWS_DEPTH, has_table(mode), matches, &DEPTH) as u32
}

/// The schedule of a text, empty where there is no text.
fn asked_schedule(
    alloc: Global,
    seats: u32,
    text: Option<&str>,
) -> Result<Option<Schedule>, AllocError>
    requires { 0 < seats }
    ensures { IfOk result (λ s. s ≡ asked_schedule seats (option_map (λ t. t.now) text.entry)) }
{
    match text {
        Some(text) => match schedule_of(alloc, seats, text)? {
            Some(segments) => Ok(Some(Schedule::new(segments))),
            None => Ok(None),
        },
        None => Ok(Some(Schedule::new(Vec::new(alloc)))),
    }
}

fn schedule_for(
    alloc: Global,
    mode: Mode,
    seats: u32,
    matches: &ArgMatches<'_>,
) -> Result<Option<Schedule>, AllocError>
    requires { 0 < seats }
    ensures { IfOk result (λ s. s
        ≡ schedule_for mode seats (first_value (found_of matches.now))) }
{
    match mode {
        Mode::Play => asked_schedule(alloc, seats, matches.get_str("schedule")),
        Mode::Serve | Mode::Make | Mode::Trial | Mode::Totals | Mode::Check | Mode::Flows =>
            asked_schedule(alloc, seats, None),
    }
}

/// No seat is stopped.
fn no_stops(alloc: Global, seats: u32) -> Result<Stops, AllocError>
    ensures { IfOk result (λ s. s ≡ replicate seats None) }
{
    let mut steps = Vec::new(alloc);
    for _ in 0..seats {
        steps.push(None)?;
    }
    Ok(Stops::new(steps))
}

/// The stops of a text; no seat is stopped where there is no text.
fn asked_stops(alloc: Global, seats: u32, text: Option<&str>) -> Result<Option<Stops>, AllocError>
    requires { 0 < seats }
    ensures { IfOk result (λ s. s ≡ asked_stops seats (option_map (λ t. t.now) text.entry)) }
{
    match text {
        Some(text) => match stops_of(alloc, seats, text)? {
            Some(steps) => Ok(Some(Stops::new(steps))),
            None => Ok(None),
        },
        None => {
            let stops = no_stops(alloc, seats)?;
            Ok(Some(stops))
        }
    }
}

fn stops_in(
    alloc: Global,
    mode: Mode,
    seats: u32,
    matches: &ArgMatches<'_>,
) -> Result<Option<Stops>, AllocError>
    requires { 0 < seats }
    ensures { IfOk result (λ s. s ≡ stops_in mode seats (first_value (found_of matches.now))) }
{
    match mode {
        Mode::Play => asked_stops(alloc, seats, matches.get_str("stop")),
        Mode::Serve | Mode::Make | Mode::Trial | Mode::Totals | Mode::Check | Mode::Flows =>
            asked_stops(alloc, seats, None),
    }
}

/// The plan of the mode, with rows that can be asked for.
fn plan_with(
    mode: Mode,
    rows: Option<SeatRows>,
    schedule: Schedule,
    stops: Stops,
    matches: &ArgMatches<'_>,
) -> Option<Plan>
    requires passes { AllByRecursion (Passes (found_of matches.now)) numbers }
    requires rows { IfSome rows AreRowsInRange }
    ensures plan { result
        ≡ plan_with mode rows schedule stops (first_value (found_of matches.now)) }
    ensures fits { IfSome result IsInRange }
{
    let start = start_in(mode, matches)?;
    let hashing = hashing_in(mode, matches)?;
    let share = share_in(mode, matches)?;
    let framing = framing_in(mode, matches)?;
    let calls = calls_in(mode, matches)?;
    let makes = makes_capture(mode);
    Some(Plan {
        mode,
        seats: seats_in(mode, matches),
        items: items_in(mode, matches),
        depth: depth_in(mode, matches),
        start,
        hashing,
        share,
        rows,
        schedule,
        stops,
        number: number_if(makes, matches, &NUMBER),
        packets: number_if(makes, matches, &PACKETS) as u32,
        batch: batch_in(mode, matches),
        framing,
        calls,
        every: every_in(mode, matches),
    })
}

/// The plan of the values, where each text that the mode uses is one of the words for it.
pub fn plan_of(alloc: Global, matches: &ArgMatches<'_>) -> Result<Option<Plan>, AllocError>
    requires { AllByRecursion (Passes (found_of matches.now)) numbers }
    ensures plan { IfOk result (λ p. p ≡ plan_of (first_value (found_of matches.now))) }
    ensures fits { IfOk result (λ p. IfSome p IsInRange) }
{
    let Some(mode) = mode_of(text(matches, "mode", "")) else {
        return Ok(None);
    };
    let Some(rows) = rows_for(alloc, mode, matches)? else {
        return Ok(None);
    };
    let seats = seats_in(mode, matches);
    let Some(schedule) = schedule_for(alloc, mode, seats, matches)? else {
        return Ok(None);
    };
    let Some(stops) = stops_in(alloc, mode, seats, matches)? else {
        return Ok(None);
    };
    Ok(plan_with(mode, rows, schedule, stops, matches))
}
