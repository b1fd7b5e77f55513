//! Keeps the sources of a registered query.
ghost use Rattle.std.specs.Prelude.{◌≡◌, ◌≤◌, IfOk, length, map, max, slice_get, unwrap_or};
ghost use Rattle.std.specs.List.{AllByRecursion, list_any, reduce};
ghost use Rattle.std.specs.Option.{option_map_or};
ghost use Rattle.reference.specs.Machine.{input_at, opens, until_for};
ghost use Rattle.reference.specs.Commands.{is_past, place_at};
ghost use Rattle.reference.specs.Inputs.{EachShowsSame, ShowsSame};
ghost use Rattle.reference.specs.Places.{place_of, machine_of};
ghost use Rattle.reference.specs.Views.{elements_of, inputs_of};

use crate::stream::Stream;
use std::alloc::{AllocError, Global};
use values::Row;

/// Holds a source of a registered query: the stream's number, and how many rows had come to it
/// before the registration.
#[derive(Clone, Copy)]
pub(crate) struct Place {
    /// Holds the stream's number.
    stream: usize,
    /// Counts the rows that had come to the stream before the registration.
    arrivals: u64,
}

impl Place {
    /// Returns whether this is a place of the stream of a number to which more than `most` rows
    /// came since, if `arrivals` came in all.
    fn is_past(self, stream: u64, arrivals: u64, most: u64) -> bool
        ensures { result ≡ is_past stream arrivals most (place_of self) }
    {
        self.stream as u64 == stream && most < arrivals.saturating_sub(self.arrivals)
    }
}

/// Returns whether one of the places is of the stream of a number, with more than `most` rows since
/// then, if `arrivals` came in all.
pub(crate) fn has_past(places: &[Place], stream: u64, arrivals: u64, most: u64) -> bool
    ensures { result ≡ list_any (is_past stream arrivals most) (map place_of places.now) }
{
    for place in places {
        if place.is_past(stream, arrivals, most) {
            return true;
        }
    }
    false
}

fn first_open_at(streams: &[Stream], place: Place) -> u64
    ensures open { result
        ≡ option_map_or (λ s. s.first_open) (slice_get streams.now place.stream) 0 }
    ensures range { result ≤ 1099511627777 }
{
    match streams.get(place.stream) {
        Some(stream) => stream.first_open(),
        None => 0,
    }
}

/// Returns the first instant of a query at its registration: the greatest of its sources' first
/// open instants, or 0 if there are none. Takes no memory.
pub fn first_instant(opens: &[u64]) -> u64
    ensures { result ≡ unwrap_or (reduce max opens.now) 0 }
{
    opens.iter().copied().max().unwrap_or(0)
}

/// Returns the first open instants of the sources.
pub(crate) fn opens_of(
    alloc: Global,
    streams: &[Stream],
    places: &[Place],
) -> Result<Vec<u64>, AllocError>
    ensures opens { IfOk result (λ v. v.items ≡ opens streams.now (map place_of places.now)) }
    ensures range { IfOk result (λ v. AllByRecursion (λ at. at ≤ 1099511627777) v.items) }
{
    let mut opens = Vec::new(alloc);
    for place in places {
        opens.push(first_open_at(streams, *place))?;
    }
    Ok(opens)
}

/// Returns the least of the sources' first open instants, or 0 if there are none.
pub(crate) fn until_for(streams: &[Stream], places: &[Place]) -> u64
    ensures least { result ≡ until_for streams.now (map place_of places.now) }
    ensures range { result ≤ 1099511627777 }
{
    let mut least: Option<u64> = None;
    for place in places {
        let open = first_open_at(streams, *place);
        least = Some(match least {
            None => open,
            Some(so_far) => so_far.min(open),
        });
    }
    least.unwrap_or(0)
}

fn input_at(
    alloc: Global,
    streams: &[Stream],
    first: u64,
    place: Place,
) -> Result<Vec<(u64, Row)>, AllocError>
    ensures { IfOk result (λ v.
        ShowsSame (input_at streams.now first (place_of place)) (elements_of v.items)) }
{
    match streams.get(place.stream) {
        Some(stream) => stream.input(alloc, place.arrivals, first),
        None => Ok(Vec::new(alloc)),
    }
}

/// Returns, for each source, what counts of its stream's rows.
pub(crate) fn inputs_at(
    alloc: Global,
    streams: &[Stream],
    first: u64,
    places: &[Place],
) -> Result<Vec<Vec<(u64, Row)>>, AllocError>
    ensures inputs { IfOk result (λ v.
        EachShowsSame (map (input_at streams.now first) (map place_of places.now))
        (inputs_of v.items)) }
    ensures len { IfOk result (λ v. length v.items ≡ length places.now) }
{
    let mut inputs = Vec::new(alloc);
    for place in places {
        inputs.push(input_at(alloc, streams, first, *place)?)?;
    }
    Ok(inputs)
}

/// Returns the place of a source at its registration.
fn place_at(streams: &[Stream], number: usize) -> Place
    ensures { place_of result ≡ place_at (machine_of streams.now) number }
{
    let arrivals = match streams.get(number) {
        Some(stream) => stream.arrivals(),
        None => 0,
    };
    Place {
        stream: number,
        arrivals,
    }
}

/// Returns the places of the sources at their registration.
pub(crate) fn places_of(
    alloc: Global,
    streams: &[Stream],
    numbers: &[usize],
) -> Result<Vec<Place>, AllocError>
    ensures places { IfOk result (λ v. map place_of v.items
        ≡ map (place_at (machine_of streams.now)) numbers.now) }
    ensures len { IfOk result (λ v. length v.items ≡ length numbers.now) }
{
    let mut places = Vec::new(alloc);
    for number in numbers {
        places.push(place_at(streams, *number))?;
    }
    Ok(places)
}
