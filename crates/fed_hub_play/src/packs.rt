// Requests that are made before they are brought.
use crate::paper::Papers;
use crate::setups::Scene;
use crate::words::Words;
use std::alloc::Global;

/// How many events a transaction has that is made among many.
const EACH: u64 = 50;

/// Requests that are made before they are brought, each under a name.
#[derive(Drop)]
pub(crate) struct Packs {
    packs: Vec<Pack>,
}

#[derive(Drop)]
struct Pack {
    name: String,
    request: Vec<u8>,
}

impl Packs {
    pub(crate) fn new(alloc: Global) -> Packs {
        Packs {
            packs: Vec::new(alloc),
        }
    }

    /// `NAME ORIGIN DEST NUMBER ROOM FIRST LAST`: the transaction of this number with events that the origin made.
    pub(crate) fn pack(&mut self, alloc: Global, papers: &Papers, words: Words<'_>) -> Option<()> {
        let mut words = words;
        let (name, server, dest) = (words.word()?, words.word()?, words.word()?);
        let (number, room) = (words.number()?, words.word()?);
        let (first, last) = (words.number()? as usize, words.number()? as usize);
        let request = papers.request(alloc, server, dest, number, room, first, last)?;
        self.add(alloc, name, request)
    }

    /// `NAME ORIGIN DEST COUNT ROOM,ROOM.. USER`: so many transactions of 50 new events each, of one room after another.
    pub(crate) fn pack_all(
        &mut self,
        alloc: Global,
        scene: &Scene,
        papers: &mut Papers,
        words: Words<'_>,
    ) -> Option<()> {
        let mut words = words;
        let (name, server, dest) = (words.word()?, words.word()?, words.word()?);
        let (count, rooms, user) = (words.number()?, words.word()?, words.word()?);
        let mut next = rooms.split(',');
        for number in 0..count {
            let room = match next.next() {
                Some(room) => room,
                None => {
                    next = rooms.split(',');
                    next.next()?
                }
            };
            let last = papers.make(alloc, scene, server, room, user, EACH)?;
            let first = last.checked_sub(EACH as usize)?.saturating_add(1);
            let number = number.saturating_add(1);
            let request = papers.request(alloc, server, dest, number, room, first, last)?;
            self.add(alloc, name, request)?;
        }
        Some(())
    }

    fn add(&mut self, alloc: Global, name: &str, request: Vec<u8>) -> Option<()> {
        let name = String::from_str(alloc, name).ok()?;
        self.packs.push(Pack { name, request }).ok()
    }

    /// Copies of the requests under a name.
    pub(crate) fn requests(&self, alloc: Global, name: &str) -> Option<Vec<Vec<u8>>> {
        let mut requests = Vec::new(alloc);
        for pack in &self.packs {
            if pack.name.as_str() == name {
                let request = Vec::from_slice(alloc, pack.request.as_slice()).ok()?;
                requests.push(request).ok()?;
            }
        }
        Some(requests)
    }
}
