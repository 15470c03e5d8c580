//! One look at each file of a run before any is opened: which of them may wait, and how many bytes they have.
ghost use Rattle.std.specs.Prelude.{◌≡◌, IfSome, Some, length, map, ℕ, ◌+◌};
ghost use Rattle.aero_program.specs.Sizes.{AreSizes, HasSize, name_and_reader};

use crate::command::Sources;
use crate::files::Opener;
use aero_intake::SourceOf;
use aero_progress::reached::Work;
use std::str;

// A file with so many bytes is large: it has some thousand events.
const LARGE: u64 = 65_536;

/// How many bytes the sources of a run have, as far as a look at each file tells.
#[derive(Clone, Copy)]
pub struct Extent {
    /// How many sources there are, and how many bytes they have together, if each is a plain file and these are fewer than 2^64.
    pub work: Work,
    // How many bytes the plain files among them have together, or 2^64 - 1 if these are more.
    plain: u64,
    // How many bytes the largest of these has.
    largest: u64,
}

impl Extent {
    // The extent of so many sources before the first look, with the size that they have together by then.
    fn of_unseen(sources: u64, size: Option<u64>) -> Extent
        ensures work { result.work ≡ record { sources = sources; size = size } }
    {
        Extent {
            work: Work { sources, size },
            plain: 0,
            largest: 0,
        }
    }

    // Adds the size of one source more, if that is a plain file.
    fn with(self, size: Option<u64>) -> Extent
        ensures sources { result.work.sources ≡ self.work.sources }
        ensures size { IfSome result.work.size (λ whole. (before : ℕ) × (one : ℕ) ×
            (self.work.size ≡ Some before) × (size ≡ Some one) × (whole ≡ before + one)) }
    {
        let Extent {
            work,
            plain,
            largest,
        } = self;
        let bytes = size.unwrap_or(0);
        Extent {
            work: Work {
                sources: work.sources,
                size: sum_of(work.size, size),
            },
            plain: plain.saturating_add(bytes),
            largest: largest.max(bytes),
        }
    }
}

// The sum of two numbers, if both are known and it is less than 2^64.
fn sum_of(one: Option<u64>, other: Option<u64>) -> Option<u64>
    ensures { IfSome result (λ sum. (a : ℕ) × (b : ℕ) × (one ≡ Some a) × (other ≡ Some b) ×
        (sum ≡ a + b)) }
{
    one?.checked_add(other?)
}

/// Looks once at the file of each source, unless standard input is the source, and returns how many bytes these have. No read
/// of a plain file waits: it is noted of its source. The names and the readers stay as they are.
pub fn look_at_all<R, F: Opener>(files: &F, asked: &Sources, sources: &mut [SourceOf<R>]) -> Extent
    ensures kept { map name_and_reader sources.new ≡ map name_and_reader sources.old }
    ensures sources { result.work.sources ≡ length sources.old }
    ensures whole { IfSome result.work.size (λ whole.
        AreSizes (HasSize F.holds) (map (λ s. s.name.items) sources.old) whole) }
{
    match asked {
        Sources::Standard(_) => Extent::of_unseen(sources.len() as u64, None),
        Sources::Files(_) | Sources::Listed(_) => look_at_each(files, sources),
    }
}

// Looks at the file of each source.
fn look_at_each<R, F: Opener>(files: &F, sources: &mut [SourceOf<R>]) -> Extent
    ensures kept { map name_and_reader sources.new ≡ map name_and_reader sources.old }
    ensures sources { result.work.sources ≡ length sources.old }
    ensures whole { IfSome result.work.size (λ whole.
        AreSizes (HasSize F.holds) (map (λ s. s.name.items) sources.old) whole) }
{
    let mut extent = Extent::of_unseen(sources.len() as u64, Some(0));
    for source in sources.iter_mut() {
        extent = extent.with(look_at(files, source));
    }
    extent
}

// Looks at the file that the source is named as, notes whether it may wait, and returns how many bytes it has, if it is a
// plain one. A name that isn't UTF-8 is no path.
fn look_at<R, F: Opener>(files: &F, source: &mut SourceOf<R>) -> Option<u64>
    ensures kept { name_and_reader source.new ≡ name_and_reader source.old }
    ensures size { IfSome result (HasSize F.holds source.old.name.items) }
{
    let Ok(path) = str::from_utf8(&source.name) else {
        return None;
    };
    let found = files.look(path);
    source.may_wait = found.is_none();
    Some(found?.size)
}

/// Whether the sources are best judged by a thread each: the plain files among them have 65,536 bytes each on average, since
/// a thread takes time to start, and none has over four sevenths of all bytes. One that has would have a single thread at
/// work on it for longer than it takes to judge all in turn, with workers that read ahead.
pub(crate) fn are_worth_threads(extent: Extent) -> bool {
    extent.largest.saturating_mul(7) <= extent.plain.saturating_mul(4)
        && extent.plain / LARGE >= extent.work.sources
}
