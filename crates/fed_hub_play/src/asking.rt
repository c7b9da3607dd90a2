// What a line of a script asks which thread.
use crate::exchange::exchanges_of;
use crate::hall::Lines;
use crate::order::{Delivery, EduWords, EventWords, Line, ManyWords, Order};
use crate::packs::Packs;
use crate::paper::Papers;
use crate::setups::Scene;
use crate::words::Words;
use std::alloc::Global;

/// What is asked which thread.
#[derive(Drop)]
pub(crate) struct Asked {
    pub(crate) place: Place,
    pub(crate) order: Order,
}

/// The place of a thread: that of its server, and which it is there.
#[derive(Clone, Copy)]
pub(crate) struct Place {
    pub(crate) server: usize,
    seat: Seat,
}

#[derive(Clone, Copy)]
enum Seat {
    Lead,
    Client(usize),
    Sender(usize),
    Room(usize),
    Server(usize),
}

impl Place {
    /// The line to the thread.
    pub(crate) fn line(self, lines: &Lines) -> Option<&Line> {
        match self.seat {
            Seat::Lead => Some(&lines.lead),
            Seat::Client(place) => lines.clients.get(place),
            Seat::Sender(place) => lines.senders.get(place),
            Seat::Room(place) => lines.rooms.get(place),
            Seat::Server(place) => lines.servers.get(place),
        }
    }
}

/// What a line asks which thread; `None` where it is wrong.
pub(crate) fn order_in(
    alloc: Global,
    scene: &Scene,
    papers: &Papers,
    packs: &Packs,
    word: &str,
    words: Words<'_>,
) -> Option<Asked> {
    match word {
        "send" | "sends" | "edu" => asked_of_client(alloc, scene, word, words),
        "close" | "shut" | "delivered" | "stored" | "shown" | "look" => {
            asked_of_lead(alloc, scene, papers, word, words)
        }
        "collect" | "drain" | "turns" | "deliver" | "carry" | "asked" | "brought" => {
            asked_of_sender(alloc, scene, word, words)
        }
        "store" | "storing" => asked_of_room(scene, word, words),
        "bring" | "raw" => asked_of_server(alloc, scene, packs, word, words),
        _ => None,
    }
}

// `SERVER` or `SERVER.NUMBER`, counted from 1.
fn numbered(scene: &Scene, word: &str) -> Option<(usize, usize)> {
    let (server, number) = word.split_once('/').unwrap_or((word, "1"));
    let number = number.parse::<usize>().ok()?;
    Some((scene.place(server)?, number.checked_sub(1)?))
}

fn text(alloc: Global, word: &str) -> Option<String> {
    String::from_str(alloc, word).ok()
}

// Words with commas between them.
fn texts(alloc: Global, words: &str) -> Option<Vec<String>> {
    let mut texts = Vec::new(alloc);
    if words == "-" {
        return Some(texts);
    }
    for word in words.split(',') {
        texts.push(text(alloc, word)?).ok()?;
    }
    Some(texts)
}

fn asked_of_client(alloc: Global, scene: &Scene, word: &str, words: Words<'_>) -> Option<Asked> {
    let mut words = words;
    let name = words.word()?;
    let (server, client) = numbered(scene, name)?;
    let order = match word {
        "send" => Order::Send(EventWords {
            room: text(alloc, words.word()?)?,
            sender: text(alloc, words.word()?)?,
            kind: text(alloc, words.word()?)?,
            state_key: state_key(alloc, words.word()?)?,
            content: text(alloc, words.rest())?,
        }),
        "sends" => Order::SendMany(ManyWords {
            count: words.number()?,
            rooms: texts(alloc, words.word()?)?,
            sender: text(alloc, words.word()?)?,
            edu_dests: texts(alloc, words.word().unwrap_or("-"))?,
            name: text(alloc, name)?,
        }),
        _ => Order::OfferEdu(EduWords {
            kind: text(alloc, words.word()?)?,
            dests: texts(alloc, words.word()?)?,
            content: edu_content(alloc, words.rest())?,
        }),
    };
    let seat = Seat::Client(client);
    Some(Asked {
        place: Place { server, seat },
        order,
    })
}

// `-` for none, or `=` and the state key.
fn state_key(alloc: Global, word: &str) -> Option<Option<String>> {
    match word.strip_prefix("=") {
        Some(key) => Some(Some(text(alloc, key)?)),
        None => (word == "-").then_some(None),
    }
}

// A content as written, or `of BYTES LEVELS`: one with a text of so many bytes, or with so many arrays in one another.
fn edu_content(alloc: Global, rest: &str) -> Option<String> {
    let Some(sizes) = rest.strip_prefix("of ") else {
        return text(alloc, rest);
    };
    let (bytes, levels) = sizes.split_once(' ')?;
    let (bytes, levels) = (bytes.parse::<usize>().ok()?, levels.parse::<usize>().ok()?);
    let mut content = text(alloc, "{\"a\":\"")?;
    for _ in 0..bytes {
        content.push_str("a").ok()?;
    }
    content.push_str("\",\"b\":").ok()?;
    for _ in 0..levels {
        content.push_str("[").ok()?;
    }
    content.push_str("0").ok()?;
    for _ in 0..levels {
        content.push_str("]").ok()?;
    }
    content.push_str("}").ok()?;
    Some(content)
}

fn asked_of_lead(
    alloc: Global,
    scene: &Scene,
    papers: &Papers,
    word: &str,
    words: Words<'_>,
) -> Option<Asked> {
    let mut words = words;
    let server = scene.place(words.word()?)?;
    let order = match word {
        "close" => Order::Close {
            dest: text(alloc, words.word()?)?,
        },
        "shut" => Order::ShutDown,
        "delivered" => Order::Delivered {
            dest: text(alloc, words.word()?)?,
        },
        "stored" => {
            let room = words.word()?;
            Order::CountStored {
                room: text(alloc, room)?,
                ids: papers.ids(alloc, words.word()?, room)?,
            }
        }
        "shown" => Order::Show {
            room: text(alloc, words.word()?)?,
            origin: text(alloc, words.word()?)?,
        },
        _ => Order::Look {
            until: text(alloc, words.word()?)?,
        },
    };
    let seat = Seat::Lead;
    Some(Asked {
        place: Place { server, seat },
        order,
    })
}

fn asked_of_sender(alloc: Global, scene: &Scene, word: &str, words: Words<'_>) -> Option<Asked> {
    let mut words = words;
    let server = scene.place(words.word()?)?;
    let seat = Seat::Sender(scene.place(words.word()?)?);
    let order = match word {
        "collect" => Order::Collect {
            most: words.turns()?,
            waits: words.word() == Some("wait"),
        },
        "drain" => Order::Drain,
        "turns" => Order::Turns {
            turns: words.turns()?,
        },
        "deliver" => Order::Deliver {
            seed: words.number()?,
        },
        "carry" => Order::Carry(exchanges_of(alloc, words.rest())?),
        "asked" => Order::TellAsked,
        _ => Order::TellBrought,
    };
    Some(Asked {
        place: Place { server, seat },
        order,
    })
}

fn asked_of_room(scene: &Scene, word: &str, words: Words<'_>) -> Option<Asked> {
    let mut words = words;
    let server = scene.place(words.word()?)?;
    let seat = Seat::Room(scene.room_place(server, words.word()?)?);
    let order = match word {
        "store" => Order::Store {
            turns: words.turns()?,
        },
        _ => Order::StoreAll {
            seed: words.number()?,
        },
    };
    Some(Asked {
        place: Place { server, seat },
        order,
    })
}

fn asked_of_server(
    alloc: Global,
    scene: &Scene,
    packs: &Packs,
    word: &str,
    words: Words<'_>,
) -> Option<Asked> {
    let mut words = words;
    let (server, place) = numbered(scene, words.word()?)?;
    let requests = match word {
        "bring" => packs.requests(alloc, words.word()?)?,
        _ => raw_request(alloc, words.rest())?,
    };
    let mut delivery = Delivery {
        requests,
        held: None,
        fails_at: None,
        seed: None,
    };
    if word == "bring" {
        match words.word() {
            Some("held") => delivery.held = Some(text(alloc, words.word()?)?),
            Some("fault") => delivery.fails_at = Some(words.number()?),
            Some("seed") => delivery.seed = Some(words.number()?),
            Some(_) => return None,
            None => {}
        }
    }
    let seat = Seat::Server(place);
    Some(Asked {
        place: Place { server, seat },
        order: Order::Bring(delivery),
    })
}

// The bytes of a text in which `|` stands for the end of a line.
fn raw_request(alloc: Global, rest: &str) -> Option<Vec<Vec<u8>>> {
    let mut request = Vec::new(alloc);
    for byte in rest.as_bytes() {
        if *byte == b'|' {
            request.extend_from_slice(b"\r\n").ok()?;
        } else {
            request.push(*byte).ok()?;
        }
    }
    let mut requests = Vec::new(alloc);
    requests.push(request).ok()?;
    Some(requests)
}
