// The words of a line.

/// The words of a line that are left. They are separated by one space.
#[derive(Clone, Copy)]
pub(crate) struct Words<'a> {
    left: &'a str,
}

impl<'a> Words<'a> {
    pub(crate) fn new(line: &'a str) -> Words<'a> {
        Words { left: line }
    }

    /// The next word; `None` where none is left.
    pub(crate) fn word(&mut self) -> Option<&'a str> {
        if self.left.is_empty() {
            return None;
        }
        let (word, left) = self.left.split_once(' ').unwrap_or((self.left, ""));
        self.left = left;
        Some(word)
    }

    /// The next word, as a number.
    pub(crate) fn number(&mut self) -> Option<u64> {
        self.word()?.parse().ok()
    }

    /// The next word, as a number, or `max` for the greatest.
    pub(crate) fn turns(&mut self) -> Option<u64> {
        match self.word()? {
            "max" => Some(u64::MAX),
            word => word.parse().ok(),
        }
    }

    /// All that is left.
    pub(crate) fn rest(self) -> &'a str {
        self.left
    }

    /// Whether nothing is left.
    pub(crate) fn are_over(self) -> bool {
        self.left.is_empty()
    }
}
