// What a client's thread does.
use crate::cast::Cast;
use crate::order::{Desk, EduWords, EventWords, ManyWords, Order};
use crate::texts::{edu_fault_text, send_fault_text};
use fed_dest::{ServerIndex, ServerSet};
use fed_event::StandIn;
use fed_hub::{ClientToken, Hub, Naming, ServingNaming};
use fed_json::Json;
use fed_room_contract::Draft;
use std::alloc::{AllocError, Global};
use std::sync::Wait;

/// Does what a client is asked until it is to leave.
pub(crate) fn client<N: Naming + ServingNaming, R: Wait>(
    cast: &Cast<R>,
    hub: &Hub<N, StandIn>,
    desk: &Desk,
    token: &mut ClientToken<N>,
) {
    for order in desk.orders.iter(&cast.rt) {
        let Some(told) = told_of(cast, hub, token, order) else {
            return;
        };
        desk.tell(&cast.rt, cast.alloc, told);
    }
}

// What is told of an order; `None` where the client is to leave.
fn told_of<N: Naming + ServingNaming, R: Wait>(
    cast: &Cast<R>,
    hub: &Hub<N, StandIn>,
    token: &mut ClientToken<N>,
    order: Order,
) -> Option<Result<String, AllocError>> {
    let (rt, alloc) = (&cast.rt, cast.alloc);
    match order {
        Order::Leave => None,
        Order::Send(words) => Some(send(rt, alloc, hub, token, words)),
        Order::SendMany(words) => {
            let sent = send_many(cast, hub, token, &words);
            Some(format!(in alloc; "sent {sent}"))
        }
        Order::OfferEdu(words) => Some(offer(rt, alloc, hub, token, words)),
        _ => Some(String::from_str(alloc, "not for a client")),
    }
}

// What is told of an event.
fn send<N: Naming + ServingNaming, R: Wait>(
    rt: &R,
    alloc: Global,
    hub: &Hub<N, StandIn>,
    token: &mut ClientToken<N>,
    words: EventWords,
) -> Result<String, AllocError> {
    let Some(draft) = draft_of(alloc, words) else {
        return String::from_str(alloc, "bad content");
    };
    match hub.send(rt, alloc, token, draft) {
        Ok(sent) => {
            let number = sent.number;
            format!(in alloc; "sent {number}")
        }
        Err(fault) => send_fault_text(alloc, fault),
    }
}

fn draft_of(alloc: Global, words: EventWords) -> Option<Draft> {
    let EventWords {
        room,
        sender,
        kind,
        state_key,
        content,
    } = words;
    Some(Draft {
        room,
        sender,
        kind,
        state_key,
        content: json(alloc, content.as_bytes())?,
        at_ms: 0,
    })
}

fn json(alloc: Global, text: &[u8]) -> Option<Json> {
    fed_json::read_within(alloc, text, 127).ok()
}

// How many of so many messages are told, with an EDU behind each where there are destinations for it.
fn send_many<N: Naming + ServingNaming, R: Wait>(
    cast: &Cast<R>,
    hub: &Hub<N, StandIn>,
    token: &mut ClientToken<N>,
    words: &ManyWords,
) -> u64 {
    let (rt, alloc) = (&cast.rt, cast.alloc);
    for number in 0..words.count {
        let place = number.checked_rem(words.rooms.len() as u64).unwrap_or(0);
        let Some(draft) = message_in(alloc, &words.rooms, place as usize, &words.sender) else {
            return number;
        };
        if hub.send(rt, alloc, token, draft).is_err() || !offers_edu(cast, hub, token, words) {
            return number;
        }
        cast.counts.raise(rt, alloc, &words.name);
    }
    words.count
}

// Whether an EDU is offered, where there are destinations for it.
fn offers_edu<N: Naming + ServingNaming, R: Wait>(
    cast: &Cast<R>,
    hub: &Hub<N, StandIn>,
    token: &mut ClientToken<N>,
    words: &ManyWords,
) -> bool {
    if words.edu_dests.is_empty() {
        return true;
    }
    let alloc = cast.alloc;
    let Some(dests) = dests_of(alloc, hub, &words.edu_dests) else {
        return false;
    };
    let Some(edu) = json(alloc, b"{\"content\":{},\"edu_type\":\"m.x\"}") else {
        return false;
    };
    hub.has_others(&dests) && hub.offer_edu(&cast.rt, alloc, token, edu, dests).is_ok()
}

// A message of a user in the room at this place.
fn message_in(alloc: Global, rooms: &[String], place: usize, sender: &str) -> Option<Draft> {
    message(alloc, rooms.get(place)?, sender)
}

fn message(alloc: Global, room: &str, sender: &str) -> Option<Draft> {
    Some(Draft {
        room: String::from_str(alloc, room).ok()?,
        sender: String::from_str(alloc, sender).ok()?,
        kind: String::from_str(alloc, "m.room.message").ok()?,
        state_key: None,
        content: json(alloc, b"{\"body\":\"hello\",\"msgtype\":\"m.text\"}")?,
        at_ms: 0,
    })
}

// What is told of an EDU.
fn offer<N: Naming + ServingNaming, R: Wait>(
    rt: &R,
    alloc: Global,
    hub: &Hub<N, StandIn>,
    token: &mut ClientToken<N>,
    words: EduWords,
) -> Result<String, AllocError> {
    let Some(edu) = edu_of(alloc, &words) else {
        return String::from_str(alloc, "bad content");
    };
    let Some(dests) = dests_of(alloc, hub, &words.dests) else {
        return String::from_str(alloc, "unknown server");
    };
    if !hub.has_others(&dests) {
        return String::from_str(alloc, "unknown server");
    }
    match hub.offer_edu(rt, alloc, token, edu, dests) {
        Ok(number) => format!(in alloc; "edu {number}"),
        Err(fault) => edu_fault_text(alloc, fault),
    }
}

// An EDU of this type with this content; with no type, the content alone.
fn edu_of(alloc: Global, words: &EduWords) -> Option<Json> {
    let (kind, content) = (words.kind.as_str(), words.content.as_str());
    if kind == "-" {
        return json(alloc, content.as_bytes());
    }
    let text = format!(in alloc; "{{\"content\":{content},\"edu_type\":\"{kind}\"}}").ok()?;
    json(alloc, text.as_bytes())
}

// The places of these other servers.
fn dests_of<N: Naming + ServingNaming>(
    alloc: Global,
    hub: &Hub<N, StandIn>,
    names: &[String],
) -> Option<ServerSet> {
    let mut dests: Vec<ServerIndex> = Vec::new(alloc);
    for name in names {
        dests.push(hub.other(name)?).ok()?;
    }
    ServerSet::rising(dests)
}
