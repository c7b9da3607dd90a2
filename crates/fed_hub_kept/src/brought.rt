// What came to rooms, beside what was brought for them.
ghost use Rattle.std.specs.Prelude.{◌≡◌, ◌↔◌, ◌∷◌, [], All, ℕ, List, IsTrue, IfOk, MatchOption, map, string_bytes};
ghost use Rattle.fed_dest.specs.List.{place_of};
ghost use Rattle.fed_hub_kept.specs.Brought.{AreBrought};
ghost use Rattle.fed_hub_kept.specs.Received.{received};
ghost use Rattle.fed_hub_kept.specs.Unfound.{AreTaken, IsBehind, IsNotNext, place_in};

use crate::received::are_received;
use fed_event::Checked;
use fed_hub_serving::KeptPoint;
use fed_hub_state::KeptRoom;
use fed_json::NoMemory;
use fed_room_contract::Input;
use std::alloc::Global;
use std::collections::BTreeMap;

/// Whether the events that came to the room at each place are, in order, the first of those that the points of an inbox's history brought for
/// it: what no request brought, what came twice and what came in another order is told. `known` has the rooms' ids by their places; of several
/// places with one id the first counts.
///
/// It goes once through the events that were brought, each of whose rooms it looks up in a map, and once through what the rooms were given.
///
/// # Errors
///
/// `NoMemory`, where the map or the list of what is left of each room has no memory.
pub fn are_brought(
    alloc: Global,
    rooms: &[KeptRoom],
    known: &[String],
    points: &[KeptPoint],
) -> Result<bool, NoMemory>
    ensures { IfOk result (λ are. IsTrue are ↔ AreBrought (map string_bytes known.now) points.now rooms.now) }
{
    let places = places_by_id(alloc, known)?;
    let mut left = inputs_of_each(alloc, rooms)?;
    for point in points {
        if !take_all(point.fresh(), &places, &mut left) {
            return Ok(false);
        }
    }
    Ok(is_nothing_left(&left))
}

// The places of these ids; of several that are the same the first.
fn places_by_id(alloc: Global, known: &[String]) -> Result<BTreeMap<&str, usize>, NoMemory>
    ensures { IfOk result (λ places. (id : List ℕ) → place_in places id ≡ place_of (map string_bytes known.now) id) }
{
    let mut places = BTreeMap::new(alloc);
    for (place, name) in known.iter().enumerate() {
        let id = name.as_str();
        if !places.contains_key(&id) {
            drop(places.insert(id, place)?);
        }
    }
    Ok(places)
}

// What each room was given.
fn inputs_of_each(alloc: Global, rooms: &[KeptRoom]) -> Result<Vec<&[Input]>, NoMemory>
    ensures { IfOk result (λ each. map (λ inputs. inputs.now) each.items ≡ map (λ room. room.inputs) rooms.now) }
{
    let mut each = Vec::with_capacity(alloc, rooms.len())?;
    for room in rooms {
        each.push(room.inputs())?;
    }
    Ok(each)
}

// Takes events that were brought off what is left of their rooms, and tells whether each was the next that came there, where any was left.
fn take_all<'a>(
    events: &'a [Checked],
    places: &BTreeMap<&'a str, usize>,
    left: &mut [&'a [Input]],
) -> bool
    ensures { AreTaken (place_in places.now) events.now (map (λ inputs. inputs.now) left.old) result (map (λ inputs. inputs.now) left.new) }
{
    for event in events {
        if !take(event, places, left) {
            return false;
        }
    }
    true
}

// Takes an event that was brought off what is left of its room, where that is among these, and tells the same.
fn take<'a>(event: &'a Checked, places: &BTreeMap<&'a str, usize>, left: &mut [&'a [Input]]) -> bool
    ensures { AreTaken (place_in places.now) (event.now ∷ []) (map (λ inputs. inputs.now) left.old) result (map (λ inputs. inputs.now) left.new) }
{
    let Some(place) = places.get(&event.event().room_id()) else {
        return true;
    };
    let place = *place;
    if place >= left.len() {
        return true;
    }
    let Some(rest) = behind(left[place], event) else {
        return false;
    };
    left[place] = rest;
    true
}

// The inputs behind the first by which an event came, where it was this one; and none where none came.
fn behind<'a>(inputs: &'a [Input], event: &Checked) -> Option<&'a [Input]>
    ensures { MatchOption result (IsNotNext inputs.now event.now) (λ rest. IsBehind inputs.now event.now rest.now) }
{
    for (place, input) in inputs.iter().enumerate() {
        let Input::Receive(came) = input else {
            continue;
        };
        if *came == *event {
            return Some(&inputs[place + 1..]);
        }
        return None;
    }
    Some(&[])
}

// Whether no event came by what is left of any room.
fn is_nothing_left(left: &[&[Input]]) -> bool
    ensures { IsTrue result ↔ All (λ inputs. received inputs.now ≡ []) left.now }
{
    for inputs in left {
        if !are_received(inputs, &[]) {
            return false;
        }
    }
    true
}
