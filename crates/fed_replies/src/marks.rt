// The marks of verdicts: what one byte tells of whether an event was accepted, and else of the number of its error's text.
ghost use Rattle.std.specs.Prelude.{◌≡◌, ◌<◌, ◌++◌, Some, vec_len, vec_capacity};
ghost use Rattle.fed_replies.specs.Marks.{HasLarge, large_for, mark_for, number_at, numbers_behind};

/// The mark of an event that was accepted.
pub(crate) const ACCEPTED: u8 = 0;

/// The mark of an event whose text has a number that is too large for a mark, and which therefore stands among the numbers.
const LARGE: u8 = 255;

/// The mark of an event that has failed, by the number of its text.
pub(crate) fn mark_for(number: u16) -> u8
    ensures { result ≡ mark_for (Some number) }
{
    if number < 254 {
        return number as u8 + 1;
    }
    LARGE
}

/// Appends the number of a text where its mark has no room for it. There is to be room for one more.
pub(crate) fn push_large(numbers: &mut Vec<u16>, number: u16)
    requires { vec_len numbers.old < vec_capacity numbers.old }
    ensures { numbers.new.items ≡ numbers.old.items ++ large_for (Some number) }
{
    if number >= 254 {
        numbers.push_reserved(number);
    }
}

/// The number of the text of an event with this mark, none where it was accepted, and the numbers of the events behind it.
pub(crate) fn number_of(mark: u8, numbers: &[u16]) -> (Option<u16>, &[u16])
    requires { HasLarge mark numbers.now }
    ensures number { result.0 ≡ number_at mark numbers.now }
    ensures behind { result.1.now ≡ numbers_behind mark numbers.now }
{
    if mark == ACCEPTED {
        return (None, numbers);
    }
    if mark == LARGE {
        return (Some(numbers[0]), &numbers[1..]);
    }
    (Some(u16::from(mark) - 1), numbers)
}
