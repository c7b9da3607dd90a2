// What the auth events of an event say of power levels.
ghost use Rattle.std.specs.Prelude.{◌≡◌, ◌<◌, [], IfSome, codes, find, length, option_and_then, option_map};
ghost use Rattle.fed_json.specs.JsonRef.{seen};
ghost use Rattle.fed_event.specs.Fields.{content_of, sender_of};
ghost use Rattle.fed_auth.specs.Levels.{user_level};
ghost use Rattle.fed_auth.specs.StateView.{creator_in};
ghost use Rattle.fed_resolve.specs.Chain.{auths_at};
ghost use Rattle.fed_resolve.specs.Mainline.{levels_auth};
ghost use Rattle.fed_resolve.specs.LevelsParts.{stands_there, auth_by, create_by, levels_by};

use fed_auth::{Level, Levels, stands_at};
use fed_event::Pdu;
use fed_json::JsonRef;
use fed_room_contract::Graph;

// The level of the sender of the event at a place, by the power levels event and the create event among its auth events.
pub(crate) fn sender_level(graph: &Graph, place: usize, event: &Pdu) -> Level
    ensures { result ≡ user_level (levels_by graph.now.stored place event.now) (sender_of event.now) }
{
    let levels = Levels::new(power_levels(graph, place), creator(graph, place, event));
    levels.user(event.sender())
}

// The content of the power levels event among the auth events.
fn power_levels(graph: &Graph, place: usize) -> Option<JsonRef<'_>>
    ensures { option_map seen result ≡ option_map content_of (auth_by graph.now.stored place (codes "m.room.power_levels") []) }
{
    Some(auth_event(graph, place, "m.room.power_levels", "")?.content())
}

// The creator that the create event names.
fn creator<'a>(graph: &'a Graph, place: usize, event: &'a Pdu) -> Option<&'a str>
    ensures { option_map (λ s. s.now) result ≡ option_and_then creator_in (create_by graph.now.stored place event.now) }
{
    fed_auth::creator(create_event(graph, place, event)?)
}

// The create event that the event at a place reads: itself, where it is one.
fn create_event<'a>(graph: &'a Graph, place: usize, event: &'a Pdu) -> Option<&'a Pdu>
    ensures { option_map (λ e. e.now) result ≡ create_by graph.now.stored place event.now }
{
    if event.kind() == "m.room.create" {
        Some(event)
    } else {
        auth_event(graph, place, "m.room.create", "")
    }
}

// The power levels event among the auth events of the event at a place.
pub(crate) fn levels_auth(graph: &Graph, place: usize) -> Option<usize>
    ensures place { result ≡ levels_auth graph.now.stored place }
    ensures within { IfSome result (λ place. place < length graph.now.stored) }
{
    auth_place(graph, place, "m.room.power_levels", "")
}

// The first auth event of the event at a place that stands at a type and a state key.
fn auth_event<'a>(graph: &'a Graph, place: usize, kind: &str, state_key: &str) -> Option<&'a Pdu>
    ensures { option_map (λ e. e.now) result ≡ auth_by graph.now.stored place kind.now state_key.now }
{
    let auth = auth_place(graph, place, kind, state_key)?;
    Some(graph.at(auth)?.event.event())
}

// The place of the first auth event of the event at a place that stands at a type and a state key.
fn auth_place(graph: &Graph, place: usize, kind: &str, state_key: &str) -> Option<usize>
    ensures place { result ≡ find (stands_there graph.now.stored kind.now state_key.now) (auths_at graph.now.stored place) }
    ensures within { IfSome result (λ place. place < length graph.now.stored) }
{
    for auth in graph.auth_places(place) {
        if stands_there(graph, *auth, kind, state_key) {
            return Some(*auth);
        }
    }
    None
}

// Whether the event at a place stands at a type and a state key.
fn stands_there(graph: &Graph, place: usize, kind: &str, state_key: &str) -> bool
    ensures { result ≡ stands_there graph.now.stored kind.now state_key.now place }
{
    match graph.at(place) {
        Some(stored) => stands_at(stored, kind, state_key),
        None => false,
    }
}
