// Numbers by which texts are told apart.
ghost use Rattle.std.specs.Prelude.{◌≡◌};
ghost use Rattle.fed_room_contract.specs.Tags.{tag_of_text};

/// A number by which most texts are told apart. It is made from another number on, by which those of one text are told apart.
pub(crate) fn tag_of_text(start: usize, text: &str) -> usize
    ensures { result ≡ tag_of_text start text.now }
{
    let mut tag = start;
    for byte in text.as_bytes() {
        tag = tag % 65_536 * 31 + usize::from(*byte);
    }
    tag
}
