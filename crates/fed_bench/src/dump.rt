// A room and states of it, from a text.
use crate::checked::checked;
use crate::stop::Stop;
use fed_room_contract::{Graph, State, Verdict};
use std::alloc::Global;

/// The stored events of a room, and states of it.
#[derive(Drop)]
pub(crate) struct Dump {
    graph: Graph,
    states: Vec<State>,
}

impl Dump {
    /// The room and the states of a text: a line for each event, in the order in which they are stored, and a line `state ID..` for each
    /// state, which has the events of these ids.
    pub(crate) fn read(alloc: Global, text: &str) -> Result<Dump, Stop> {
        let mut graph = Graph::new(alloc);
        let mut states = Vec::new(alloc);
        for line in text.lines() {
            match line.strip_prefix("state ") {
                Some(ids) => states.push(state(alloc, &graph, ids)?)?,
                None => store(alloc, &mut graph, line)?,
            }
        }
        Ok(Dump { graph, states })
    }

    pub(crate) fn graph(&self) -> &Graph {
        &self.graph
    }

    pub(crate) fn states(&self) -> &[State] {
        self.states.as_slice()
    }
}

// Stores the event of a line as accepted.
fn store(alloc: Global, graph: &mut Graph, line: &str) -> Result<(), Stop> {
    let event = checked(alloc, "", line)?;
    if graph.contains(event.event().id().as_str()) || !graph.is_ready(event.event()) {
        return Err(Stop::Refused);
    }
    graph.push(alloc, event, Verdict::Accepted)?;
    Ok(())
}

// The state that has the events of these ids, which are separated by spaces.
fn state(alloc: Global, graph: &Graph, ids: &str) -> Result<State, Stop> {
    let mut state = State::new(alloc);
    for id in ids.split(' ') {
        enter(alloc, graph, id, &mut state)?;
    }
    Ok(state)
}

// Lays the event of an id over a state.
fn enter(alloc: Global, graph: &Graph, id: &str, state: &mut State) -> Result<(), Stop> {
    let Some(stored) = graph.get(id) else {
        return Err(Stop::Refused);
    };
    let event = stored.event.event();
    let Some(state_key) = event.state_key() else {
        return Err(Stop::Refused);
    };
    state.insert(alloc, event.kind(), state_key, event.id().copy(alloc)?)?;
    Ok(())
}
