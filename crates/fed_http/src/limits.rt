// How large a message may be.
ghost use Rattle.std.specs.Prelude.{◌≡◌, take};
ghost use Rattle.fed_http.specs.Limits.{max_head};

/// The most bytes of a head, of a trailer, and of a chunk line with its line end.
pub const MAX_HEAD: usize = 16_384;

/// The most fields of a head and of a trailer.
pub const MAX_FIELDS: usize = 64;

/// The most bytes of a body.
pub const MAX_BODY: usize = 16_777_216;

/// The most digits of a body's length.
pub const MAX_LENGTH_DIGITS: usize = 19;

/// The first bytes, in which a head, a trailer or a chunk line is looked for.
pub fn window(bytes: &[u8]) -> &[u8]
    ensures { result.now ≡ take max_head bytes.now }
{
    &bytes[..bytes.len().min(MAX_HEAD)]
}
