// The values that calls give.

use crate::answer::{Answer, Stop};
use fed_json::{Json, JsonFault, JsonRef, MAX_LEVELS, read_within};
use std::alloc::Global;

// The value of a JSON text that nests at most 127 levels and has whole numbers only.
fn value_of(alloc: Global, text: &[u8]) -> Answer {
    match read_within(alloc, text, MAX_LEVELS) {
        Ok(value) => Ok(value),
        Err(JsonFault::Memory) => Err(Stop::Memory),
        Err(_) => Err(too_deep(alloc)),
    }
}

pub fn null(alloc: Global) -> Answer {
    value_of(alloc, b"null")
}

pub fn truth(alloc: Global, is_true: bool) -> Answer {
    let text = format!(in alloc; "{is_true}")?;
    value_of(alloc, text.as_bytes())
}

pub fn number(alloc: Global, number: i64) -> Answer {
    let digits = format!(in alloc; "{number}")?;
    value_of(alloc, digits.as_bytes())
}

/// A number that counts something.
pub fn count(alloc: Global, count: u64) -> Answer {
    let digits = format!(in alloc; "{count}")?;
    value_of(alloc, digits.as_bytes())
}

/// An equal value.
pub fn copy(value: JsonRef<'_>) -> Answer {
    Ok(value.to_json()?)
}

pub fn text(alloc: Global, text: &str) -> Answer {
    Ok(Json::from(String::from_str(alloc, text)?))
}

/// The text that bytes are.
pub fn text_of_bytes(alloc: Global, bytes: &[u8]) -> Answer {
    Ok(Json::from(String::from_utf8_lossy(alloc, bytes)?))
}

/// Bytes in hex.
pub fn hex_of(alloc: Global, bytes: &[u8]) -> Answer {
    Ok(Json::from(hex::encode(alloc, bytes)?))
}

/// The list of these values.
pub fn list_of(alloc: Global, values: &[Json]) -> Answer {
    let mut list = List::new(alloc);
    for value in values {
        list = list.with(Ok(value.copy()?));
    }
    list.into_answer()
}

/// What is told of an operation that memory ran out for and that was made once more: what was seen in between, and its answer then.
pub fn again(alloc: Global, seen: Answer, answer: Answer) -> Answer {
    Object::new(alloc)
        .with("again", answer)
        .with("refused", seen)
        .into_answer()
}

/// A list that is put together, item by item: its text up to the last item, or why there is none.
#[derive(Drop)]
pub struct List {
    alloc: Global,
    text: Result<Vec<u8>, Stop>,
}

impl List {
    pub fn new(alloc: Global) -> List {
        List {
            alloc,
            text: Ok(Vec::new(alloc)),
        }
    }

    /// The list with this item too.
    pub fn with(self, item: Answer) -> List {
        let List { alloc, text } = self;
        List {
            alloc,
            text: with_item(alloc, text, item),
        }
    }

    pub fn into_answer(self) -> Answer {
        let List { alloc, text } = self;
        let mut text = text?;
        if text.is_empty() {
            return Ok(Json::empty_array(alloc));
        }
        text.push(b']')?;
        value_of(alloc, &text)
    }
}

fn with_item(alloc: Global, text: Result<Vec<u8>, Stop>, item: Answer) -> Result<Vec<u8>, Stop> {
    let mut text = text?;
    text.push(if text.is_empty() { b'[' } else { b',' })?;
    item?.root().append_to(alloc, &mut text)?;
    Ok(text)
}

/// An object that is put together, member by member, or why there is none.
#[derive(Drop)]
pub struct Object {
    alloc: Global,
    value: Answer,
}

impl Object {
    pub fn new(alloc: Global) -> Object {
        Object {
            alloc,
            value: Ok(Json::empty_object(alloc)),
        }
    }

    /// The object that a value is; one that is no object stays as it is.
    pub fn of(alloc: Global, value: Json) -> Object {
        Object {
            alloc,
            value: Ok(value),
        }
    }

    /// The object with this member too.
    pub fn with(self, name: &str, member: Answer) -> Object {
        let Object { alloc, value } = self;
        Object {
            alloc,
            value: with_member(alloc, value, name, member),
        }
    }

    pub fn into_answer(self) -> Answer {
        let Object { value, .. } = self;
        value
    }
}

fn with_member(alloc: Global, object: Answer, name: &str, member: Answer) -> Answer {
    let mut object = object?;
    let member = member?;
    if member.depth() >= MAX_LEVELS {
        return Err(too_deep(alloc));
    }
    object.put(String::from_str(alloc, name)?, member)?;
    Ok(object)
}

fn too_deep(alloc: Global) -> Stop {
    Stop::wrong(String::from_str(alloc, "too deep to print"))
}
