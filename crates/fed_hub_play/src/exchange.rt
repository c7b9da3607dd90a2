// What becomes of the exchanges of a carrier.
use std::alloc::Global;

/// What becomes of one exchange: steps, in order. The last exchange that is named may stand for all behind it.
#[derive(Drop)]
pub(crate) struct Exchange {
    pub(crate) steps: Vec<Step>,
    pub(crate) stays: bool,
}

/// A step of an exchange.
#[derive(Drop)]
pub(crate) enum Step {
    /// The request is brought to the hub of its destination, whose reply is the answer.
    Pass,
    /// The answer is lost, and the exchange fails.
    Fail,
    /// Memory runs out.
    WantMemory,
    /// Half of the answer is lost.
    Cut,
    /// The answer is one of this status, whatever came before.
    Status(u16),
    /// By a seed: one of six exchanges fails, one is cut, one is answered 500, all before the request is brought; the others pass.
    Dice(u64),
    /// It is waited until a count is so much; else the exchange fails.
    Hold { name: String, least: u64 },
    /// A count is raised.
    Raise(String),
}

/// The exchanges that a word list names: each word is one, whose steps are separated by `+`; a last word `..` makes the last one stay.
pub(crate) fn exchanges_of(alloc: Global, words: &str) -> Option<Vec<Exchange>> {
    let mut exchanges: Vec<Exchange> = Vec::new(alloc);
    for word in words.split(' ') {
        if word == ".." {
            exchanges.last_mut()?.stays = true;
            continue;
        }
        let exchange = Exchange {
            steps: steps_of(alloc, word)?,
            stays: false,
        };
        exchanges.push(exchange).ok()?;
    }
    Some(exchanges)
}

fn steps_of(alloc: Global, word: &str) -> Option<Vec<Step>> {
    let mut steps = Vec::new(alloc);
    for part in word.split('+') {
        steps.push(step_of(alloc, part)?).ok()?;
    }
    Some(steps)
}

fn step_of(alloc: Global, part: &str) -> Option<Step> {
    let (name, rest) = part.split_once(':').unwrap_or((part, ""));
    match name {
        "pass" => Some(Step::Pass),
        "fail" => Some(Step::Fail),
        "memory" => Some(Step::WantMemory),
        "cut" => Some(Step::Cut),
        "status" => Some(Step::Status(rest.parse().ok()?)),
        "dice" => Some(Step::Dice(rest.parse().ok()?)),
        "raise" => Some(Step::Raise(String::from_str(alloc, rest).ok()?)),
        "hold" => hold_of(alloc, rest),
        _ => None,
    }
}

// `NAME` or `NAME:LEAST`.
fn hold_of(alloc: Global, rest: &str) -> Option<Step> {
    let (name, least) = rest.split_once(':').unwrap_or((rest, "1"));
    Some(Step::Hold {
        name: String::from_str(alloc, name).ok()?,
        least: least.parse().ok()?,
    })
}
