//! The limits under which a trace is judged.
ghost use Rattle.std.specs.Prelude.{◌≡◌, ◌<◌, ◌≤◌, ◌^◌, ◌↔◌, IsSome, IfSome};
ghost use Rattle.aero_model.specs.LimitNumbers.{AreLimits};

/// How many bytes and lines a source may have, and how many threads, variables and locks a trace.
/// Each number is at least 1. `names` bounds the variables and the locks, each for itself.
///
/// `lines` is at most 4,000,000,000: the line behind the last one that may be has a number below
/// 2^32 - 1.
#[derive(Clone, Copy, Debug, PartialEq, Eq)]
pub struct Limits {
    pub bytes: u64,
    pub lines: u32,
    pub threads: u32,
    pub names: u32,
    ghost some_bytes: { 0 < bytes },
    ghost most_bytes: { bytes ≤ 2 ^ 46 },
    ghost some_lines: { 0 < lines },
    ghost most_lines: { lines ≤ 4000000000 },
    ghost some_threads: { 0 < threads },
    ghost most_threads: { threads ≤ 2 ^ 16 },
    ghost some_names: { 0 < names },
    ghost most_names: { names ≤ 2 ^ 26 },
}

const MOST_BYTES: u32 = 1 << 30;

const MOST_LINES: u32 = 1 << 28;

const MOST_THREADS: u32 = 1 << 16;

const MOST_NAMES: u32 = 1 << 26;

const MOST_LONG_BYTES: u64 = 1 << 46;

const MOST_LONG_LINES: u32 = 4_000_000_000;

impl Limits {
    /// These limits, or `None` where a number is 0 or above the greatest of its kind: 2^30 bytes,
    /// 2^28 lines, 65,536 threads, 2^26 names.
    pub fn new(bytes: u32, lines: u32, threads: u32, names: u32) -> Option<Limits>
        ensures within { IsSome result ↔ AreLimits bytes lines threads names }
        ensures bytes { IfSome result (λ limits. limits.bytes ≡ bytes) }
        ensures lines { IfSome result (λ limits. limits.lines ≡ lines) }
        ensures threads { IfSome result (λ limits. limits.threads ≡ threads) }
        ensures names { IfSome result (λ limits. limits.names ≡ names) }
    {
        if bytes == 0 || lines == 0 || threads == 0 || names == 0 {
            return None;
        }
        if bytes > MOST_BYTES || lines > MOST_LINES {
            return None;
        }
        if threads > MOST_THREADS || names > MOST_NAMES {
            return None;
        }
        Some(Limits {
            bytes: bytes as u64,
            lines,
            threads,
            names,
        })
    }

    /// The greatest limits that `new` makes: 2^30 bytes, 2^28 lines, 65,536 threads, 2^26 names.
    pub fn greatest() -> Limits
        ensures bytes { result.bytes ≡ 2 ^ 30 }
        ensures lines { result.lines ≡ 2 ^ 28 }
        ensures threads { result.threads ≡ 2 ^ 16 }
        ensures names { result.names ≡ 2 ^ 26 }
    {
        Limits {
            bytes: MOST_BYTES as u64,
            lines: MOST_LINES,
            threads: MOST_THREADS,
            names: MOST_NAMES,
        }
    }

    /// The limits of a long source: 2^46 bytes, 4,000,000,000 lines, 65,536 threads, 2^26 names.
    ///
    /// So many lines of at most 4,096 bytes, each with its byte 10, have fewer than 2^44 bytes. So a
    /// source with more than 2^46 bytes has a line that is too long, or more lines than may be.
    pub fn long() -> Limits
        ensures bytes { result.bytes ≡ 2 ^ 46 }
        ensures lines { result.lines ≡ 4000000000 }
        ensures threads { result.threads ≡ 2 ^ 16 }
        ensures names { result.names ≡ 2 ^ 26 }
    {
        Limits {
            bytes: MOST_LONG_BYTES,
            lines: MOST_LONG_LINES,
            threads: MOST_THREADS,
            names: MOST_NAMES,
        }
    }
}
