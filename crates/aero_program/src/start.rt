//! How a source begins.
ghost use Rattle.std.specs.Prelude.{◌≡◌, ◌∷◌, ◌++◌, [], take, bytes_eq};
ghost use Rattle.aero_program.specs.Starts.{start_bytes, byte_order_mark, gzip_mark};

/// The first three bytes of a source, as far as they came.
#[derive(Clone, Copy)]
pub enum Start {
    Nothing,
    One(u8),
    Two(u8, u8),
    Three(u8, u8, u8),
}

impl Start {
    /// With this byte more.
    fn after(self, byte: u8) -> Start
        ensures { start_bytes result ≡ take 3 (start_bytes self ++ byte ∷ []) }
    {
        match self {
            Start::Nothing => Start::One(byte),
            Start::One(first) => Start::Two(first, byte),
            Start::Two(first, second) => Start::Three(first, second, byte),
            Start::Three(first, second, third) => Start::Three(first, second, third),
        }
    }

    /// With these bytes more.
    pub fn after_all(self, given: &[u8]) -> Start
        ensures { start_bytes result ≡ take 3 (start_bytes self ++ given.now) }
    {
        let mut start = self;
        for byte in &given[..given.len().min(3)] {
            start = start.after(*byte);
        }
        start
    }

    /// Whether they are a byte order mark, EF BB BF.
    pub fn is_mark(self) -> bool
        ensures { result ≡ bytes_eq (start_bytes self) byte_order_mark }
    {
        matches!(self, Start::Three(0xEF, 0xBB, 0xBF))
    }

    /// Whether they are those with which all that gzip makes begins, 1F 8B.
    pub fn is_gzip(self) -> bool
        ensures { result ≡ bytes_eq (take 2 (start_bytes self)) gzip_mark }
    {
        matches!(self, Start::Two(0x1F, 0x8B) | Start::Three(0x1F, 0x8B, _))
    }
}
