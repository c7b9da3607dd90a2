// What a reader keeps of a message that is not whole yet.
ghost use Rattle.std.specs.Prelude.{◌≡◌, ◌≢◌, ◌-◌, ◌+◌, ◌<◌, ◌≤◌, [], List, ℕ, ◌++◌, take, length, true, false, vec_len, vec_capacity, Some, None, IfOk, IfErr, IfSome, IfNone};
ghost use Rattle.fed_http.specs.Limits.{max_head, max_body, max_held};
ghost use Rattle.fed_http.specs.Faults.{IsFault};
ghost use Rattle.fed_http.specs.TextPlaces.{HeadGoesOnTo};
ghost use Rattle.fed_http.specs.Keeping.{IsKept, with_body};
ghost use Rattle.fed_http.specs.KeepingParts.{kept_of, IsSound, IsSoundFor, HasRoomAt, Stepped, StepFails, BodyEnds, BodyWaits, Begun, StillWaits, Ends, TakeFails, Opens, LacksHead, IsPlaceBehind, IsLargeFraming};
ghost use Rattle.fed_http.specs.declared.place.Place.TheVariants.{InHead, InBody, InLine, InData, BehindData, BehindReturn, InTrailer, Ended};

use crate::chunks::{find_line, find_trailer};
use crate::fault::HttpFault;
use crate::framing::Framing;
use crate::limits::{MAX_BODY, MAX_HEAD};
use crate::message::{Kind, Message};
use crate::opening::read_head;
use crate::place::Place;
use crate::text_place::TextPlace;
use fed_json::NoMemory;
use std::alloc::Global;
use std::mem::replace;

// So much memory is taken at first for a body whose length the head says, if it is not shorter: what is as long is moved no more as it grows.
const FIRST_ROOM: usize = 1_048_576;

// So many bytes are copied at a time: for more, the C library takes an instruction that is slower on what lies far from the processor.
const BLOCK: usize = 4_096;

/// What is kept of the bytes of a message.
#[derive(Drop)]
pub struct State {
    pub place: Place,
    /// Where the text ends, in a head, a chunk line or a trailer that is not whole.
    pub at: TextPlace,
    /// How many bytes the head has, once it is whole.
    pub head: usize,
    /// The head, the line of a chunk or the trailer, as far as it came. A head that is whole goes: its parts are in `start`.
    pub text: Vec<u8>,
    /// The message of the head, without its body.
    pub start: Option<Message>,
    /// The body so far.
    pub body: Vec<u8>,
}

impl State {
    /// Before the first byte of a message.
    pub fn new(alloc: Global) -> State
        ensures kept { (kind : Kind) → IsKept kind (kept_of result) [] }
        ensures place { result.place ≡ InHead }
    {
        State {
            place: Place::InHead,
            at: TextPlace::EmptyLines,
            head: 0,
            text: Vec::new(alloc),
            start: None,
            body: Vec::new(alloc),
        }
    }

    /// Takes bytes of the piece up to the end of the message, and says how many these are; or all, where it does not end in them.
    ///
    /// # Errors
    ///
    /// Each but `HasFailed`. After `Memory` the same is kept as before.
    pub fn take(
        &mut self,
        alloc: Global,
        kind: Kind,
        piece: &[u8],
    ) -> Result<Option<usize>, HttpFault>
        requires { IsSoundFor kind (kept_of self.old) }
        ensures ends { IfOk result (λ taken. IfSome taken (Ends kind self.old self.new piece.now)) }
        ensures waits { IfOk result (λ taken. IfNone taken (StillWaits kind self.old self.new piece.now)) }
        ensures fails { IfErr result (TakeFails kind self.old self.new piece.now) }
    {
        if self.place != Place::InHead {
            self.make_room(self.place, piece.len())?;
            return self.take_body(piece);
        }
        let Some(used) = self.take_head(alloc, kind, piece)? else {
            return Ok(None);
        };
        match self.take_body(&piece[used..])? {
            Some(more) => Ok(Some(used + more)),
            None => Ok(None),
        }
    }

    // Takes bytes of the head, and says how many of the piece end it.
    fn take_head(
        &mut self,
        alloc: Global,
        kind: Kind,
        piece: &[u8],
    ) -> Result<Option<usize>, HttpFault>
        requires at { self.old.place ≡ InHead }
        requires sound { IsSoundFor kind (kept_of self.old) }
        ensures begun { IfOk result (λ taken. IfSome taken (Begun kind self.old self.new piece.now)) }
        ensures waits { IfOk result (λ taken. IfNone taken (StillWaits kind self.old self.new piece.now)) }
        ensures fails { IfErr result (TakeFails kind self.old self.new piece.now) }
    {
        let before = self.text.len();
        let taken = piece.len().min(MAX_HEAD - before);
        self.text.extend_from_slice(&piece[..taken])?;
        if let Some(at) = self.goes_on(kind, before) {
            self.at = at;
            return Ok(None);
        }
        match self.open(alloc, kind, piece.len()) {
            Ok(Some(len)) => Ok(Some(len - before)),
            Ok(None) => {
                self.at = self.at.after(kind, &self.text, before);
                Ok(None)
            }
            Err(fault) => {
                self.text.truncate(before);
                Err(fault)
            }
        }
    }

    // The place at the end of the text, where that tells that the text may be the beginning of a head; `None` where it has to be parsed. That
    // is also so where it has at least doubled since there were so many bytes: then a parse costs no more than the bytes that came.
    fn goes_on(&self, kind: Kind, before: usize) -> Option<TextPlace>
        requires { before ≤ length self.now.text.items }
        ensures { IfSome result (HeadGoesOnTo kind self.now.at before self.now.text.items) }
    {
        let len = self.text.len();
        if len - before >= before || len >= MAX_HEAD {
            return None;
        }
        match self.at.after(kind, &self.text, before) {
            TextPlace::Unknown => None,
            place => Some(place),
        }
    }

    // Goes behind the head, if it is whole in the text, and says how many bytes it has. So many bytes may come with it.
    fn open(&mut self, alloc: Global, kind: Kind, more: usize) -> Result<Option<usize>, HttpFault>
        requires { self.old.body.items ≡ [] }
        ensures opens { IfOk result (λ found. IfSome found (Opens kind self.old self.new more)) }
        ensures unfinished { IfOk result (λ found. IfNone found ((self.new ≡ self.old) × LacksHead kind self.old.text.items)) }
        ensures same { IfErr result (λ _. kept_of self.new ≡ kept_of self.old) }
        ensures fault { IfErr result (λ fault. IsFault kind self.old.text.items fault) }
    {
        let Some(opening) = read_head(alloc, kind, &self.text)? else {
            return Ok(None);
        };
        let place = place_behind(opening.framing)?;
        self.make_room(place, more)?;
        self.text.clear();
        self.head = opening.len;
        self.start = Some(opening.message);
        self.place = place;
        self.at = TextPlace::Size { digits: 0 };
        Ok(Some(opening.len))
    }

    // Takes memory for what so many bytes may bring at a place.
    #[inline(always)]
    fn make_room(&mut self, place: Place, more: usize) -> Result<(), NoMemory>
        ensures same { kept_of self.new ≡ kept_of self.old }
        ensures room { IfOk result (λ _. HasRoomAt place self.new more) }
    {
        match place {
            Place::InBody { left } => {
                self.body.reserve(left.min(more.max(FIRST_ROOM)))?;
                Ok(())
            }
            Place::InTrailer => {
                self.text.reserve(more.min(MAX_HEAD))?;
                Ok(())
            }
            Place::InHead | Place::Ended => Ok(()),
            Place::InLine | Place::InData { .. } | Place::BehindData | Place::BehindReturn => {
                self.text.reserve(more.min(MAX_HEAD))?;
                self.body
                    .reserve(more.min(MAX_BODY.saturating_sub(self.body.len())))?;
                Ok(())
            }
        }
    }

    // Takes bytes of the body, and says how many of these end it.
    fn take_body(&mut self, rest: &[u8]) -> Result<Option<usize>, HttpFault>
        requires sound { IsSound (kept_of self.old) }
        requires room { HasRoomAt self.old.place self.old (length rest.now) }
        requires begun { self.old.place ≢ InHead }
        ensures ends { IfOk result (λ taken. IfSome taken (BodyEnds self.old self.new rest.now)) }
        ensures waits { IfOk result (λ taken. IfNone taken (BodyWaits self.old self.new rest.now)) }
        ensures fails { IfErr result (StepFails self.old rest.now) }
    {
        if self.place == Place::Ended {
            return Ok(Some(0));
        }
        if self.take_middle(rest) {
            return Ok(None);
        }
        let mut used = 0;
        'steps: loop {
            used += self.step(&rest[used..])?;
            if self.place == Place::Ended {
                return Ok(Some(used));
            }
            if used == rest.len() {
                return Ok(None);
            }
        }
    }

    // Takes all of these bytes, where they are of the middle of a body or of a chunk's data, and says whether they are.
    #[inline(always)]
    fn take_middle(&mut self, rest: &[u8]) -> bool
        requires sound { IsSound (kept_of self.old) }
        requires room { HasRoomAt self.old.place self.old (length rest.now) }
        requires begun { self.old.place ≢ InHead }
        ensures all { result ≡ true → BodyWaits self.old self.new rest.now }
        ensures none { result ≡ false → self.new ≡ self.old }
    {
        match self.place {
            Place::InBody { left } if rest.len() < left => {
                self.take_fixed(left, rest);
                true
            }
            Place::InData { left } if rest.len() < left => {
                self.take_data(left, rest);
                true
            }
            _ => false,
        }
    }

    // Takes the first of these bytes, and says how many.
    fn step(&mut self, rest: &[u8]) -> Result<usize, HttpFault>
        requires sound { IsSound (kept_of self.old) }
        requires room { HasRoomAt self.old.place self.old (length rest.now) }
        requires begun { self.old.place ≢ InHead }
        requires unended { self.old.place ≢ Ended }
        ensures stepped { IfOk result (Stepped self.old self.new rest.now) }
        ensures fails { IfErr result (StepFails self.old rest.now) }
    {
        match self.place {
            Place::InBody { left } => Ok(self.take_fixed(left, rest)),
            Place::InLine => self.take_line(rest),
            Place::InData { left } => Ok(self.take_data(left, rest)),
            Place::BehindData => self.take_return(rest),
            Place::BehindReturn => self.take_feed(rest),
            Place::InTrailer => self.take_trailer(rest),
            Place::InHead | Place::Ended => unreachable!(),
        }
    }

    // Takes bytes of a body of which so many are missing.
    #[inline(always)]
    fn take_fixed(&mut self, left: usize, rest: &[u8]) -> usize
        requires some { 0 < left }
        requires at { self.old.place ≡ InBody left }
        requires room { HasRoomAt self.old.place self.old (length rest.now) }
        ensures stepped { Stepped self.old self.new rest.now result }
        ensures all { length rest.now < left → (result ≡ length rest.now) × (self.new.place ≡ InBody (left - length rest.now)) }
    {
        let taken = left.min(rest.len());
        extend(&mut self.body, &rest[..taken]);
        if taken == left {
            self.place = Place::Ended;
            return taken;
        }
        self.place = Place::InBody { left: left - taken };
        taken
    }

    // Takes bytes of the line of a chunk.
    fn take_line(&mut self, rest: &[u8]) -> Result<usize, HttpFault>
        requires at { self.old.place ≡ InLine }
        requires sound { IsSound (kept_of self.old) }
        requires room { HasRoomAt self.old.place self.old (length rest.now) }
        ensures stepped { IfOk result (Stepped self.old self.new rest.now) }
        ensures fails { IfErr result (StepFails self.old rest.now) }
    {
        let before = self.text.len();
        let taken = line_len(rest, MAX_HEAD - before);
        let more = &rest[..taken];
        extend(&mut self.text, more);
        if let Some(at) = self.at.goes_on(before, more) {
            self.at = at;
            return Ok(taken);
        }
        let Some(line) = find_line(&self.text)? else {
            self.at = self.at.over(more);
            return Ok(taken);
        };
        if line.size > (MAX_BODY - self.body.len()) as u64 {
            return Err(HttpFault::TooLarge);
        }
        let used = line.len - before;
        if line.size == 0 {
            self.text.clear();
            self.place = Place::InTrailer;
            self.at = TextPlace::LineStart { fields: 0 };
            return Ok(used);
        }
        self.text.truncate(line.len);
        self.place = Place::InData {
            left: line.size as usize,
        };
        Ok(used)
    }

    // Takes bytes of the data of a chunk, of which so many are missing.
    #[inline(always)]
    fn take_data(&mut self, left: usize, rest: &[u8]) -> usize
        requires some { 0 < left }
        requires at { self.old.place ≡ InData left }
        requires sound { IsSound (kept_of self.old) }
        requires room { HasRoomAt self.old.place self.old (length rest.now) }
        ensures stepped { Stepped self.old self.new rest.now result }
        ensures all { length rest.now < left → (result ≡ length rest.now) × (self.new.place ≡ InData (left - length rest.now)) }
    {
        let taken = left.min(rest.len());
        extend(&mut self.body, &rest[..taken]);
        if taken == left {
            self.place = Place::BehindData;
            return taken;
        }
        self.place = Place::InData { left: left - taken };
        taken
    }

    // Takes the CR behind the data of a chunk.
    fn take_return(&mut self, rest: &[u8]) -> Result<usize, HttpFault>
        requires at { self.old.place ≡ BehindData }
        requires room { HasRoomAt self.old.place self.old (length rest.now) }
        ensures stepped { IfOk result (Stepped self.old self.new rest.now) }
        ensures fails { IfErr result (StepFails self.old rest.now) }
    {
        if rest.is_empty() {
            return Ok(0);
        }
        if rest[0] != b'\r' {
            return Err(HttpFault::BadChunk);
        }
        self.place = Place::BehindReturn;
        Ok(1)
    }

    // Takes the LF behind the data of a chunk and a CR.
    fn take_feed(&mut self, rest: &[u8]) -> Result<usize, HttpFault>
        requires at { self.old.place ≡ BehindReturn }
        requires room { HasRoomAt self.old.place self.old (length rest.now) }
        ensures stepped { IfOk result (Stepped self.old self.new rest.now) }
        ensures fails { IfErr result (StepFails self.old rest.now) }
    {
        if rest.is_empty() {
            return Ok(0);
        }
        if rest[0] != b'\n' {
            return Err(HttpFault::BadChunk);
        }
        self.text.clear();
        self.place = Place::InLine;
        self.at = TextPlace::Size { digits: 0 };
        Ok(1)
    }

    // Takes bytes of the trailer.
    fn take_trailer(&mut self, rest: &[u8]) -> Result<usize, HttpFault>
        requires at { self.old.place ≡ InTrailer }
        requires sound { IsSound (kept_of self.old) }
        requires room { HasRoomAt self.old.place self.old (length rest.now) }
        ensures stepped { IfOk result (Stepped self.old self.new rest.now) }
        ensures fails { IfErr result (StepFails self.old rest.now) }
    {
        let before = self.text.len();
        let taken = line_len(rest, MAX_HEAD - before);
        let more = &rest[..taken];
        extend(&mut self.text, more);
        if let Some(at) = self.at.goes_on(before, more) {
            self.at = at;
            return Ok(taken);
        }
        match find_trailer(&self.text)? {
            Some(len) => {
                self.place = Place::Ended;
                Ok(len - before)
            }
            None => {
                self.at = self.at.over(more);
                Ok(taken)
            }
        }
    }

    /// The message, which has ended. What is kept is as before the first byte of the next one.
    pub fn give(&mut self, alloc: Global) -> Message
        requires { self.old.start ≢ None }
        ensures message { (message : Message) → self.old.start ≡ Some message → result ≡ with_body message self.old.body.items }
        ensures kept { (kind : Kind) → IsKept kind (kept_of self.new) [] }
        ensures place { self.new.place ≡ InHead }
    {
        let body = replace(&mut self.body, Vec::new(alloc));
        self.place = Place::InHead;
        self.at = TextPlace::EmptyLines;
        self.head = 0;
        self.text.clear();
        match self.start.take() {
            Some(message) => message.with_body(body),
            None => unreachable!(),
        }
    }

    /// Frees the memory.
    pub fn let_go(&mut self, alloc: Global)
        ensures head { self.new.head ≡ 0 }
        ensures text { self.new.text.items ≡ [] }
        ensures body { self.new.body.items ≡ [] }
        ensures text_room { vec_capacity self.new.text ≡ 0 }
        ensures body_room { vec_capacity self.new.body ≡ 0 }
        ensures start { self.new.start ≡ None }
    {
        self.place = Place::InHead;
        self.at = TextPlace::EmptyLines;
        self.head = 0;
        self.text = Vec::new(alloc);
        self.start = None;
        self.body = Vec::new(alloc);
    }

    /// How many bytes are kept. The parts of a head count as the head, which has no fewer bytes.
    pub fn held(&self) -> usize
        requires { self.now.head + (length self.now.text.items + length self.now.body.items) ≤ max_held }
        ensures { result ≡ self.now.head + (length self.now.text.items + length self.now.body.items) }
    {
        self.head + (self.text.len() + self.body.len())
    }
}

// Where a body begins that is framed so.
fn place_behind(framing: Framing) -> Result<Place, HttpFault>
    ensures place { IfOk result (IsPlaceBehind framing) }
    ensures large { IfErr result (λ fault. (fault ≡ HttpFault.TooLarge) × IsLargeFraming framing) }
{
    match framing {
        Framing::NoBody => Ok(Place::Ended),
        Framing::Fixed(size) if size > MAX_BODY as u64 => Err(HttpFault::TooLarge),
        Framing::Fixed(size) if size == 0 => Ok(Place::Ended),
        Framing::Fixed(size) => Ok(Place::InBody {
            left: size as usize,
        }),
        Framing::Chunked => Ok(Place::InLine),
    }
}

// Appends bytes for which there is room, block by block. It is inlined, as all is that each piece of a body goes through: pieces may be small.
#[inline(always)]
fn extend(to: &mut Vec<u8>, bytes: &[u8])
    requires room { vec_len to.old + length bytes.now ≤ vec_capacity to.old }
    ensures items { to.new.items ≡ to.old.items ++ bytes.now }
    ensures len { vec_len to.new ≡ vec_len to.old + length bytes.now }
    ensures capacity { vec_capacity to.old ≤ vec_capacity to.new }
{
    let mut left = bytes;
    while left.len() > BLOCK {
        let (block, rest) = left.split_at(BLOCK);
        append(to, block);
        left = rest;
    }
    append(to, left);
}

#[inline(always)]
fn append(to: &mut Vec<u8>, block: &[u8])
    requires room { vec_len to.old + length block.now ≤ vec_capacity to.old }
    ensures items { to.new.items ≡ to.old.items ++ block.now }
    ensures len { vec_len to.new ≡ vec_len to.old + length block.now }
    ensures capacity { vec_capacity to.old ≤ vec_capacity to.new }
{
    match to.extend_from_slice(block) {
        Ok(()) => {}
        Err(_) => unreachable!(),
    }
}

// How many bytes there are up to the end of the first line, within this many, behind which none is looked at.
fn line_len(bytes: &[u8], limit: usize) -> usize
    ensures within { result ≤ length bytes.now }
    ensures limit { result ≤ limit }
    ensures some { 0 < length bytes.now → 0 < limit → 0 < result }
{
    let first = &bytes[..bytes.len().min(limit)];
    match first.iter().position(|byte| *byte == b'\n') {
        Some(end) => end + 1,
        None => first.len(),
    }
}
