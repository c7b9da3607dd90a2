// The lines of the input.

/// Which store keeps the replies.
#[derive(Clone, Copy)]
pub(crate) enum Kind {
    List,
    Packed,
}

/// What a line asks for.
#[derive(Clone, Copy)]
pub(crate) struct Line {
    pub(crate) kind: Kind,
    pub(crate) failed: bool,
    pub(crate) replies: u64,
}

/// What a line asks for, where it has the right words.
pub(crate) fn line_of(line: &str) -> Option<Line> {
    let (store, words) = line.split_once(' ')?;
    let (verdicts, count) = words.split_once(' ')?;
    let kind = match store {
        "list" => Kind::List,
        "packed" => Kind::Packed,
        _ => return None,
    };
    let failed = match verdicts {
        "accepted" => false,
        "failed" => true,
        _ => return None,
    };
    Some(Line {
        kind,
        failed,
        replies: count.parse().ok()?,
    })
}
