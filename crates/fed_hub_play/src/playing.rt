// A script with its hubs.
use crate::counts::Counts;
use crate::hall::{Hall, Lines, Numbers, Posts, new_hall};
use crate::hubs::{Stage, run_hub};
use crate::scenes::{Cue, read_scene};
use crate::script::{Script, Told};
use crate::setups::Scene;
use std::alloc::{AllocError, Global};
use std::sync::{Arc, Wait};
use std::thread::{Threads, for_each_mut, join};
use std::time::Clock;

// As many as a list has servers.
const MOST_HUBS: usize = 64;

/// Plays a script on real hubs, each with all of its threads: what was told, and the number of the line that is wrong, counted from 1, if one is.
/// `R` is a reference to the runtime.
///
/// # Errors
///
/// Where memory runs out for what the threads share.
pub(crate) fn play<R: Threads + Wait + Clock + Copy + Sync>(
    rt: R,
    alloc: Global,
    text: &str,
) -> Result<(Told, Option<usize>), AllocError> {
    let Cue {
        scene,
        clients,
        lines: skipped,
    } = read_scene(alloc, text)?;
    let scene = Arc::new(alloc, scene)?;
    let counts = Arc::new(alloc, Counts::new(alloc))?;
    let (halls, lines) = halls_of(alloc, &scene, &clients)?;
    let mut stages = Vec::new(alloc);
    for hall in halls {
        stages.push(Stage {
            scene: Arc::try_clone(&scene)?,
            counts: Arc::try_clone(&counts)?,
            hall: Some(hall.hall),
            place: hall.place,
        })?;
    }
    let mut script = Script::new(alloc, scene, counts, lines);
    let ((), wrong) = join(
        &rt,
        || run_hubs(rt, alloc, stages.as_mut_slice()),
        || script.play(&rt, alloc, text, skipped),
    );
    Ok((
        script.into_told(),
        wrong.map(|number| number.saturating_add(1)),
    ))
}

// All hubs at once.
fn run_hubs<R: Threads + Wait + Clock + Copy + Sync>(rt: R, alloc: Global, stages: &mut [Stage]) {
    for_each_mut(
        &rt,
        stages,
        MOST_HUBS,
        &|_place, stage| run_hub(rt, alloc, stage),
    );
}

// The desks of a server's hub, and its place in the list.
#[derive(Drop)]
struct PlacedHall {
    hall: Hall,
    place: usize,
}

// The desks of each hub, and the lines to them by the places of the listed servers.
fn halls_of(
    alloc: Global,
    scene: &Scene,
    clients: &[Option<usize>],
) -> Result<(Vec<PlacedHall>, Vec<Option<Lines>>), AllocError> {
    let mut all = Vec::new(alloc);
    let mut lines = Vec::new(alloc);
    for (place, clients) in clients.iter().enumerate() {
        let Some(clients) = *clients else {
            lines.push(None)?;
            continue;
        };
        let numbers = Numbers {
            clients,
            servers: scene.servers.len(),
            rooms: scene.room_count(place),
        };
        let (desks, those) = new_hall(alloc, numbers)?;
        all.push((desks, place))?;
        lines.push(Some(those))?;
    }
    let mut halls = Vec::new(alloc);
    for (desks, place) in all {
        let posts = posts_of(alloc, place, &mut lines)?;
        let hall = desks.with_posts(alloc, posts)?;
        halls.push(PlacedHall { hall, place })?;
    }
    Ok((halls, lines))
}

// What brings the requests of the server at a place to each other one.
fn posts_of(alloc: Global, place: usize, lines: &mut [Option<Lines>]) -> Result<Posts, AllocError> {
    let mut posts = Vec::new(alloc);
    for other in lines {
        let post = match other {
            Some(lines) => lines.post_of(place)?,
            None => None,
        };
        posts.push(post)?;
    }
    Ok(Posts { posts })
}
