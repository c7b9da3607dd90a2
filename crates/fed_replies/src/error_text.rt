// The text of an error, and how it stands in a reply.
ghost use Rattle.std.specs.Prelude.{◌≡◌, Some, IfOk};
ghost use Rattle.fed_replies.specs.ReplyText.{verdict_text};

use crate::writing::write_error;
use fed_json::NoMemory;
use std::alloc::Global;
use std::marker::Model;

/// The text of an error, with the verdict about an event that has failed so, as it stands in a reply.
///
/// Contracts see it as the text.
#[derive(Drop)]
pub(crate) struct ErrorText {
    text: String,
    verdict: Vec<u8>,
}

impl Model for ErrorText {
    ghost use Rattle.std.specs.Prelude.{◌≡◌, List, ℕ, Some, string_bytes};
    ghost use Rattle.std.specs.Coded.{coded_ℕ, coded_list};

    ghost Value = { List ℕ };

    ghost coded = { coded_list coded_ℕ };

    ghost use Rattle.fed_replies.specs.ReplyText.{verdict_text};

    ghost view = { λ e. string_bytes e.text };

    ghost invariant = { λ e. e.verdict.items ≡ verdict_text (Some (string_bytes e.text)) };
}

impl ErrorText {
    /// The text with its verdict.
    pub(crate) fn new(alloc: Global, text: &str) -> Result<ErrorText, NoMemory>
        ensures { IfOk result (λ error. error ≡ text.now) }
    {
        let mut verdict = Vec::new(alloc);
        write_error(alloc, &mut verdict, text)?;
        Ok(ErrorText {
            text: String::from_str(alloc, text)?,
            verdict,
        })
    }

    /// The text.
    pub(crate) fn as_str(&self) -> &str
        ensures { result.now ≡ self.now }
    {
        self.text.as_str()
    }

    /// The verdict, as it stands in a reply.
    pub(crate) fn verdict(&self) -> &[u8]
        ensures { result.now ≡ verdict_text (Some self.now) }
    {
        self.verdict.as_slice()
    }
}
