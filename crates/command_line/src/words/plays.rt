//! The texts of a play: which seat goes when, and which seat is stopped.

ghost use Rattle.std.specs.Prelude.{◌≡◌, ◌<◌, ◌≤◌, IfOk, IfSome, map};
ghost use Rattle.std.specs.Option.{option_map};
ghost use Rattle.command_line.specs.Plays.{all_of, schedule_of, seat_of, segment_of, slots_of, stop_for, stop_of};
ghost use Rattle.command_line.specs.Plays.{stops_for, stops_of};

use crate::plays::Segment;
use crate::words::texts::{number_between, parts_of};
use std::alloc::{AllocError, Global};

/// The most segments of a schedule.
const MOST_SEGMENTS: usize = 1_000;

/// The most slots of a segment.
const MOST_SLOTS: u64 = 1_000_000;

/// The most steps of a seat that is stopped.
const MOST_STEPS: u64 = 1_000_000_000;

/// The number of one of so many seats.
fn seat_of(seats: u32, text: &str) -> Option<u32>
    requires { 0 < seats }
    ensures { result ≡ seat_of seats text.now }
{
    let seat = number_between(0, u64::from(seats - 1), text)?;
    Some(seat as u32)
}

/// A number of slots, or `end`.
fn slots_of(text: &str) -> Option<Option<u32>>
    ensures { result ≡ slots_of text.now }
{
    if text == "end" {
        return Some(None);
    }
    let slots = number_between(1, MOST_SLOTS, text)?;
    Some(Some(slots as u32))
}

/// `I*K` or `I*end`.
fn segment_of(seats: u32, text: &str) -> Option<Segment>
    requires { 0 < seats }
    ensures { result ≡ segment_of seats text.now }
{
    let (seat, slots) = text.split_once('*')?;
    let seat = seat_of(seats, seat)?;
    let slots = slots_of(slots)?;
    Some(Segment { seat, slots })
}

fn segments_of(
    alloc: Global,
    seats: u32,
    parts: &[&str],
) -> Result<Option<Vec<Segment>>, AllocError>
    requires { 0 < seats }
    ensures { IfOk result (λ r. option_map (λ v. v.items) r
        ≡ all_of (map (segment_of seats) (map (λ x. x.now) parts.now))) }
{
    let mut segments = Vec::new(alloc);
    for part in parts {
        match segment_of(seats, part) {
            Some(segment) => segments.push(segment)?,
            None => return Ok(None),
        }
    }
    Ok(Some(segments))
}

/// The segments that a text asks for.
pub fn schedule_of(
    alloc: Global,
    seats: u32,
    text: &str,
) -> Result<Option<Vec<Segment>>, AllocError>
    requires { 0 < seats }
    ensures { IfOk result (λ r. option_map (λ v. v.items) r ≡ schedule_of seats text.now) }
{
    let parts = parts_of(alloc, text)?;
    if parts.len() > MOST_SEGMENTS {
        return Ok(None);
    }
    segments_of(alloc, seats, parts.as_slice())
}

/// `I:K`.
fn stop_of(seats: u32, text: &str) -> Option<(u32, u32)>
    requires { 0 < seats }
    ensures { result ≡ stop_of seats text.now }
{
    let (seat, steps) = text.split_once(':')?;
    let seat = seat_of(seats, seat)?;
    let steps = number_between(0, MOST_STEPS, steps)?;
    Some((seat, steps as u32))
}

fn all_stops(
    alloc: Global,
    seats: u32,
    parts: &[&str],
) -> Result<Option<Vec<(u32, u32)>>, AllocError>
    requires { 0 < seats }
    ensures { IfOk result (λ r. option_map (λ v. v.items) r
        ≡ all_of (map (stop_of seats) (map (λ x. x.now) parts.now))) }
{
    let mut stops = Vec::new(alloc);
    for part in parts {
        match stop_of(seats, part) {
            Some(stop) => stops.push(stop)?,
            None => return Ok(None),
        }
    }
    Ok(Some(stops))
}

/// Where a seat is stopped, if it is; `None` where that is said twice.
fn stop_for(stops: &[(u32, u32)], seat: u32) -> Option<Option<u32>>
    ensures { result ≡ stop_for stops.now seat }
{
    let mut found = None;
    for stop in stops {
        if stop.0 == seat {
            if found.is_some() {
                return None;
            }
            found = Some(stop.1);
        }
    }
    Some(found)
}

fn stops_for(
    alloc: Global,
    seats: u32,
    stops: &[(u32, u32)],
) -> Result<Option<Vec<Option<u32>>>, AllocError>
    ensures { IfOk result (λ r. option_map (λ v. v.items) r ≡ stops_for seats stops.now) }
{
    let mut steps = Vec::new(alloc);
    for seat in 0..seats {
        match stop_for(stops, seat) {
            Some(stop) => steps.push(stop)?,
            None => return Ok(None),
        }
    }
    Ok(Some(steps))
}

/// A place for each seat, with where it is stopped.
pub fn stops_of(
    alloc: Global,
    seats: u32,
    text: &str,
) -> Result<Option<Vec<Option<u32>>>, AllocError>
    requires { 0 < seats }
    ensures { IfOk result (λ r. option_map (λ v. v.items) r ≡ stops_of seats text.now) }
{
    let parts = parts_of(alloc, text)?;
    match all_stops(alloc, seats, parts.as_slice())? {
        Some(stops) => stops_for(alloc, seats, stops.as_slice()),
        None => Ok(None),
    }
}
