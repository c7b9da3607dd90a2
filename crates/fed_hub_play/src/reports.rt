// What a hub did, in lines.
use crate::setups::Scene;
use fed_dest::ServerIndex;
use fed_hub::{KeptRoom, Naming, Report, ServingNaming};
use fed_journal::Entry;
use fed_outbox::Outbox;
use fed_room_contract::Input;
use std::alloc::{AllocError, Global};

/// What a hub did, a fact a line, each with its name before a colon: of the journal, the history of the inbox and what clients were told; of each
/// other server what its outbox accepted of what is addressed to it, how much was delivered to it and how much taken from it; and of each room how
/// many events it received, of how many inputs.
pub(crate) fn report_text<N: Naming + ServingNaming>(
    alloc: Global,
    scene: &Scene,
    told: &str,
    report: &Report<N>,
) -> Result<String, AllocError> {
    let entries = report.journal.entries();
    let events = entries
        .iter()
        .filter(|it| matches!(it, Entry::Event(..)))
        .count();
    let edus = entries
        .iter()
        .filter(|it| matches!(it, Entry::Edu(..)))
        .count();
    let closings = entries
        .iter()
        .filter(|it| matches!(it, Entry::Close(..)))
        .count();
    let points = report.inbox.points().len();
    let mut text = format!(in alloc;
        "finished\njournal: {events} events, {edus} edus, {closings} closings\nrequests: {points}\ntold: {told}"
    )?;
    for outbox in &report.outboxes {
        add_server(alloc, &mut text, scene, outbox, report)?;
    }
    for room in &report.rooms {
        add_room(alloc, &mut text, room)?;
    }
    Ok(text)
}

// What was on the way to a server, and came from it, where it is another one.
fn add_server<N: Naming + ServingNaming>(
    alloc: Global,
    text: &mut String,
    scene: &Scene,
    outbox: &Outbox,
    report: &Report<N>,
) -> Result<(), AllocError> {
    let place = outbox.dest().place();
    let Some(name) = scene.servers.get(place) else {
        return Ok(());
    };
    if report.inbox.inbox().own() == name.as_str() {
        return Ok(());
    }
    let addressed = count_addressed(report.journal.entries(), outbox.dest());
    let (events, edus) = (outbox.accepted().len(), outbox.accepted_edus().len());
    let end = if outbox.has_end() { ", the end" } else { "" };
    let whole = if outbox.has_end() && events == addressed {
        "yes"
    } else {
        "no"
    };
    let delivered = report.delivered.get(place).copied().unwrap_or(0);
    let taken = count_taken(report, name);
    let line = format!(in alloc;
        "\n{name}: {events} of {addressed} events, {edus} edus{end}\nwhole {name}: {whole}\ndelivered {name}: {delivered}\ntaken {name}: {taken}"
    )?;
    text.push_str(&line)
}

// How many events are for a destination before its outbox is closed.
fn count_addressed(entries: &[Entry], dest: ServerIndex) -> usize {
    let open = entries.iter().take_while(
        |it| !matches!(it, Entry::Close(closed, _) if *closed == dest),
    );
    open.filter(|it| matches!(it, Entry::Event(_, dests) if dests.contains(dest)))
        .count()
}

fn count_taken<N: Naming + ServingNaming>(report: &Report<N>, origin: &str) -> usize {
    let mut count = 0usize;
    for _ in report.inbox.inbox().taken(origin) {
        count = count.saturating_add(1);
    }
    count
}

fn add_room(alloc: Global, text: &mut String, room: &KeptRoom) -> Result<(), AllocError> {
    let id = room.id();
    let all = room.inputs().len();
    let received = room
        .inputs()
        .iter()
        .filter(|input| matches!(input, Input::Receive(_)))
        .count();
    let line = format!(in alloc; "\n{id}: received {received}, of {all} inputs")?;
    text.push_str(&line)
}
