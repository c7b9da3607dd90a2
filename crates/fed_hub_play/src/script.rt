// A script that is played, line by line.
use crate::asking::{Asked, Place, order_in};
use crate::counts::Counts;
use crate::hall::Lines;
use crate::order::{Order, Stop};
use crate::packs::Packs;
use crate::paper::Papers;
use crate::setups::Scene;
use crate::words::Words;
use std::alloc::Global;
use std::sync::{Arc, Wait};
use std::thread;
use std::time::{Clock, Duration, Instant};

/// What a script has come to: what its threads are asked through, what runs in the background, and what was told.
#[derive(Drop)]
pub(crate) struct Script {
    scene: Arc<Scene>,
    counts: Arc<Counts>,
    // by the places of the listed servers; `None` where one has no hub, or none any more
    lines: Vec<Option<Lines>>,
    jobs: Vec<Job>,
    papers: Papers,
    packs: Packs,
    reports: Vec<Ended>,
    since: Option<Instant>,
    told: Told,
}

/// What was told, and the times that were asked for.
#[derive(Drop)]
pub(crate) struct Told {
    pub(crate) out: String,
    pub(crate) times: String,
}

// What a thread was asked, that has not told yet what came of it.
#[derive(Drop)]
struct Job {
    word: String,
    place: Place,
}

// The report of a hub that has ended.
#[derive(Drop)]
struct Ended {
    server: usize,
    text: String,
}

impl Script {
    pub(crate) fn new(
        alloc: Global,
        scene: Arc<Scene>,
        counts: Arc<Counts>,
        lines: Vec<Option<Lines>>,
    ) -> Script {
        Script {
            scene,
            counts,
            lines,
            jobs: Vec::new(alloc),
            papers: Papers::new(alloc),
            packs: Packs::new(alloc),
            reports: Vec::new(alloc),
            since: None,
            told: Told {
                out: String::new(alloc),
                times: String::new(alloc),
            },
        }
    }

    /// Plays lines, of which the first has this number, until one is wrong; its number then. Whatever comes of it, all hubs are let go.
    pub(crate) fn play<R: Wait + Clock>(
        &mut self,
        rt: &R,
        alloc: Global,
        text: &str,
        skipped: usize,
    ) -> Option<usize> {
        let wrong = self.play_lines(rt, alloc, text, skipped);
        for lines in self.lines.iter().flatten() {
            lines.leave(rt);
            lines.lead.ask(rt, Order::Stop(Stop::GiveUp));
        }
        wrong
    }

    fn play_lines<R: Wait + Clock>(
        &mut self,
        rt: &R,
        alloc: Global,
        text: &str,
        skipped: usize,
    ) -> Option<usize> {
        if !self.are_ready(rt) {
            return Some(skipped);
        }
        for (number, line) in text.lines().enumerate().skip(skipped) {
            if line.is_empty() || line.starts_with("#") {
                continue;
            }
            if self.take_line(rt, alloc, line).is_none() {
                return Some(number);
            }
        }
        None
    }

    // Whether all hubs could be made.
    fn are_ready<R: Wait>(&self, rt: &R) -> bool {
        self.lines.iter().flatten().all(|lines| {
            lines.lead.ask(rt, Order::Begin);
            lines.lead.answer(rt).as_deref() == Some("ready")
        })
    }

    // Does what a line says; `None` where it is wrong.
    fn take_line<R: Wait + Clock>(&mut self, rt: &R, alloc: Global, line: &str) -> Option<()> {
        let mut words = Words::new(line);
        let word = words.word()?;
        match word {
            "&" => {
                let word = words.word()?;
                let place = self.ask(rt, alloc, word, words)?;
                let word = String::from_str(alloc, word).ok()?;
                self.jobs.push(Job { word, place }).ok()
            }
            "wait" => self.wait(rt, words.word()),
            "raise" => {
                self.counts.raise(rt, alloc, words.word()?);
                Some(())
            }
            "await" => {
                let (name, least) = (words.word()?, words.number()?);
                self.counts.waits_for(rt, name, least).then_some(())
            }
            "count" => {
                let count = self.counts.count(rt, words.word()?);
                let text = format!(in alloc; "{count}").ok()?;
                self.tell(&text)
            }
            "rest" => {
                thread::sleep(rt, Duration::from_millis(words.number()?));
                Some(())
            }
            "time" => self.time(rt, alloc),
            "made" | "pack" | "packs" => self.write(alloc, word, words),
            "finish" | "drop" | "swap" => self.stop(rt, alloc, word, words),
            "report" => self.report(words),
            _ => {
                let place = self.ask(rt, alloc, word, words)?;
                self.tell_answer(rt, place)
            }
        }
    }

    // Asks a thread; its place.
    fn ask<R: Wait>(
        &mut self,
        rt: &R,
        alloc: Global,
        word: &str,
        words: Words<'_>,
    ) -> Option<Place> {
        let Asked { place, order } = order_in(
            alloc,
            &self.scene,
            &self.papers,
            &self.packs,
            word,
            words,
        )?;
        let lines = self.lines.get(place.server)?.as_ref()?;
        place.line(lines)?.ask(rt, order).then_some(place)
    }

    // Tells what came of what a thread was asked.
    fn tell_answer<R: Wait>(&mut self, rt: &R, place: Place) -> Option<()> {
        let lines = self.lines.get(place.server)?.as_ref()?;
        let text = place.line(lines)?.answer(rt)?;
        self.tell(&text)
    }

    fn tell(&mut self, text: &str) -> Option<()> {
        self.told.out.push_str(text).ok()?;
        self.told.out.push_str("\n").ok()
    }

    // Waits for what runs in the background, all of it or what has this word, and tells what came of it in the order in which it began.
    fn wait<R: Wait>(&mut self, rt: &R, word: Option<&str>) -> Option<()> {
        let mut at = 0usize;
        for _ in 0..self.jobs.len() {
            let job = self.jobs.get(at)?;
            if word.is_none_or(|it| it == job.word.as_str()) {
                let job = self.jobs.remove(at);
                self.tell_answer(rt, job.place)?;
            } else {
                at = at.saturating_add(1);
            }
        }
        Some(())
    }

    // Notes how many microseconds have passed since this was asked last.
    fn time<R: Clock>(&mut self, rt: &R, alloc: Global) -> Option<()> {
        if let Some(since) = self.since {
            let micros = since.elapsed(rt).ok()?.as_micros();
            let line = format!(in alloc; "{micros}\n").ok()?;
            self.told.times.push_str(&line).ok()?;
        }
        self.since = Some(Instant::now(rt).ok()?);
        Some(())
    }

    // What a server without a hub makes.
    fn write(&mut self, alloc: Global, word: &str, words: Words<'_>) -> Option<()> {
        match word {
            "made" => {
                let mut words = words;
                let (server, room, user) = (words.word()?, words.word()?, words.word()?);
                let count = words.number()?;
                let made = self
                    .papers
                    .make(alloc, &self.scene, server, room, user, count)?;
                let text = format!(in alloc; "made {made}").ok()?;
                self.tell(&text)
            }
            "pack" => self.packs.pack(alloc, &self.papers, words),
            _ => self
                .packs
                .pack_all(alloc, &self.scene, &mut self.papers, words),
        }
    }

    // Lets the threads of a server return, and does something with its hub.
    fn stop<R: Wait>(&mut self, rt: &R, alloc: Global, word: &str, words: Words<'_>) -> Option<()> {
        let mut words = words;
        let server = self.scene.place(words.word()?)?;
        let stop = stop_of(alloc, &self.scene, word, words)?;
        let lines = self.lines.get(server)?.as_ref()?;
        lines.leave(rt);
        lines.lead.ask(rt, Order::Stop(stop));
        let text = lines.lead.answer(rt)?;
        let (first, rest) = text.split_once('\n').unwrap_or((&text, ""));
        self.tell(first)?;
        if first == "finished" {
            let text = String::from_str(alloc, rest).ok()?;
            self.reports.push(Ended { server, text }).ok()?;
            if let Some(lines) = self.lines.get_mut(server) {
                *lines = None;
            }
        }
        Some(())
    }

    // The line of a server's report with this name.
    fn report(&mut self, words: Words<'_>) -> Option<()> {
        let mut words = words;
        let server = self.scene.place(words.word()?)?;
        let name = words.rest();
        let ended = self.reports.iter().find(|it| it.server == server)?;
        let line = ended.text.lines().find(|line| line
            .strip_prefix(name)
            .is_some_and(|it| it.starts_with(": ")))?;
        self.told.out.push_str(line).ok()?;
        self.told.out.push_str("\n").ok()
    }

    /// What was told.
    pub(crate) fn into_told(self) -> Told {
        self.told
    }
}

// What is done with a hub once its threads have returned.
fn stop_of(alloc: Global, scene: &Scene, word: &str, words: Words<'_>) -> Option<Stop> {
    let mut words = words;
    match word {
        "finish" => Some(Stop::Finish),
        "swap" => {
            let id = String::from_str(alloc, words.word()?).ok()?;
            let other = String::from_str(alloc, words.word()?).ok()?;
            Some(Stop::SwapRooms(id, other))
        }
        _ => match words.word()? {
            "client" => Some(Stop::DropClient),
            "sender" => Some(Stop::DropSender(scene.place(words.word()?)?)),
            _ => None,
        },
    }
}
