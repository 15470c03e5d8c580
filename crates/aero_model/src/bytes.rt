//! Which bytes and lines there may be.
ghost use Rattle.std.specs.Prelude.{◌≡◌};
ghost use Rattle.aero_model.specs.Names.{is_bad_byte as is_bad};

/// How many bytes a line has at most, the byte 10 that ends it not counted.
pub const MOST_LINE_BYTES: usize = 4096;

/// Whether the byte stands in no line and no name: 0 to 8, 10 to 31, or 127.
#[inline(always)]
pub fn is_bad_byte(byte: u8) -> bool
    ensures { result ≡ is_bad byte }
{
    matches!(byte, 0..=8 | 10..=31 | 127)
}
