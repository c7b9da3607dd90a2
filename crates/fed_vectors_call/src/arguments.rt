// The arguments of a call.
ghost use Rattle.std.specs.Prelude.{◌≤◌, IfOk};

use crate::answer::Stop;
use fed_json::{Items, Json, JsonRef, Members, canonical};
use std::alloc::Global;

/// The last moment that an event or a transaction can have.
pub const LAST_MOMENT: u64 = (1 << 53) - 1;

/// The members of an object that a line gives: the call itself, or an object in one of its lists.
#[derive(Clone, Copy)]
pub struct Arguments<'a> {
    pub alloc: Global,
    object: JsonRef<'a>,
}

impl<'a> Arguments<'a> {
    /// The members of the object that stands where `name` says.
    pub fn of(alloc: Global, object: JsonRef<'a>, name: &str) -> Result<Arguments<'a>, Stop> {
        if !object.is_object() {
            return Err(wrong_kind(alloc, name));
        }
        Ok(Arguments { alloc, object })
    }

    /// The name of the one member.
    pub fn only_name(self) -> Result<&'a str, Stop> {
        match self.object.members().and_then(only_key) {
            Some(name) => Ok(name),
            None => Err(self.wrong_kind("operations")),
        }
    }

    /// An argument that may be missing.
    pub fn find(self, name: &str) -> Option<JsonRef<'a>> {
        self.object.member(name)
    }

    /// An argument.
    pub fn get(self, name: &str) -> Result<JsonRef<'a>, Stop> {
        match self.find(name) {
            Some(value) => Ok(value),
            None => Err(Stop::wrong(format!(in self.alloc; "missing: {name}"))),
        }
    }

    /// An argument that is any value, to keep.
    pub fn value(self, name: &str) -> Result<Json, Stop> {
        Ok(self.get(name)?.to_json()?)
    }

    pub fn text(self, name: &str) -> Result<&'a str, Stop> {
        match self.get(name)?.text() {
            Some(text) => Ok(text),
            None => Err(self.wrong_kind(name)),
        }
    }

    /// A text, to keep.
    pub fn string(self, name: &str) -> Result<String, Stop> {
        Ok(String::from_str(self.alloc, self.text(name)?)?)
    }

    pub fn items(self, name: &str) -> Result<Items<'a>, Stop> {
        match self.get(name)?.items() {
            Some(items) => Ok(items),
            None => Err(self.wrong_kind(name)),
        }
    }

    /// A list of texts, to keep.
    pub fn strings(self, name: &str) -> Result<Vec<String>, Stop> {
        let mut strings = Vec::new(self.alloc);
        for item in self.items(name)? {
            let Some(text) = item.text() else {
                return Err(self.wrong_kind(name));
            };
            strings.push(String::from_str(self.alloc, text)?)?;
        }
        Ok(strings)
    }

    /// A whole number that is not negative.
    pub fn whole(self, name: &str) -> Result<u64, Stop> {
        match self.get(name)?.whole() {
            Some(whole) if whole >= 0 => Ok(whole as u64),
            _ => Err(self.wrong_kind(name)),
        }
    }

    /// A list of whole numbers that are not negative.
    pub fn wholes(self, name: &str) -> Result<Vec<u64>, Stop> {
        let mut wholes = Vec::new(self.alloc);
        for item in self.items(name)? {
            match item.whole() {
                Some(whole) if whole >= 0 => wholes.push(whole as u64)?,
                _ => return Err(self.wrong_kind(name)),
            }
        }
        Ok(wholes)
    }

    /// A moment, in milliseconds since the Unix epoch.
    pub fn moment(self, name: &str) -> Result<u64, Stop>
        ensures { IfOk result (λ moment. moment ≤ 9007199254740991) }
    {
        let moment = self.whole(name)?;
        if moment > LAST_MOMENT {
            return Err(self.wrong_kind(name));
        }
        Ok(moment)
    }

    /// Whether an argument is true, which is false where it is missing.
    pub fn is_set(self, name: &str) -> Result<bool, Stop> {
        match self.find(name) {
            Some(value) => value.boolean().ok_or(self.wrong_kind(name)),
            None => Ok(false),
        }
    }

    /// The bytes of `text`, or those that `hex` gives.
    pub fn bytes(self) -> Result<Vec<u8>, Stop> {
        if self.find("hex").is_some() {
            return self.hex("hex");
        }
        Ok(Vec::from_slice(self.alloc, self.text("text")?.as_bytes())?)
    }

    /// The canonical text of `value`, or the bytes of `text` or `hex`.
    pub fn body(self) -> Result<Vec<u8>, Stop> {
        match self.find("value") {
            Some(value) => Ok(canonical(self.alloc, &value.to_json()?)?),
            None => self.bytes(),
        }
    }

    /// Bytes in hex.
    pub fn hex(self, name: &str) -> Result<Vec<u8>, Stop> {
        match hex::decode(self.alloc, self.text(name)?) {
            Ok(bytes) => Ok(bytes),
            Err(hex::FromHexError::OutOfMemory) => Err(Stop::Memory),
            Err(_) => Err(self.wrong_kind(name)),
        }
    }

    /// That an argument is of another kind than it should be.
    pub fn wrong_kind(self, name: &str) -> Stop {
        wrong_kind(self.alloc, name)
    }
}

// The key of the one member.
fn only_key(mut members: Members<'_>) -> Option<&str> {
    let (name, _) = members.next()?;
    if members.next().is_some() {
        return None;
    }
    Some(name)
}

fn wrong_kind(alloc: Global, name: &str) -> Stop {
    Stop::wrong(format!(in alloc; "wrong kind: {name}"))
}
