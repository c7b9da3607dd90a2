// A reader that may be asked so many times.
ghost use Rattle.std.specs.Prelude.{◌≡◌, ◌≤◌, vec_len};

mod reading;

/// A reader that may be asked so many times, and what it gave: `buffer[start..end]` is read and not yet taken.
#[derive(Drop)]
pub(crate) struct Input<R> {
    reader: R,
    reads: u64,
    buffer: Vec<u8>,
    start: usize,
    end: usize,
    ghost ordered: { start ≤ end },
    ghost within: { end ≤ vec_len buffer },
    ghost sized: { vec_len buffer ≡ 65536 },
}
