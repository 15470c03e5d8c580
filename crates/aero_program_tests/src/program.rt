mod again;
mod memory;
mod statuses;
pub(crate) mod streams;

ghost use Rattle.std.specs.Prelude.{◌≡◌, ◌≤◌, ◌^◌, IfOk, vec_len};
ghost use Rattle.aero_program.specs.Command.{count_named};

use crate::program::streams::{EVER, Flushes, Interrupted, Narrow, Shelf, Text, never_flushed};
use aero_model::Counting;
use aero_program::command::{Config, Form, Progress, Refused, Sources, Stop, Terminals};
use aero_program::execute::{Host, Streams, execute};
use aero_program::files::{FilesOf, Opener};
use aero_program::output::Output;
use aero_program::retrying::Retrying;
use std::alloc::{AllocError, Global};
use std::sync::Wait;
use std::test::Fail;
use std::thread::Threads;

// How often calls fail, and how often each call of a stream or a file is interrupted before it is heeded:
// reads of standard input once its text has come, writes to standard output once it has taken so many bytes, and flushes of
// that.
#[derive(Clone, Copy)]
pub(crate) struct Damage {
    reads: u32,
    room: usize,
    writes: u32,
    flushes: u32,
    times: u32,
}

pub(crate) const SOUND: Damage = Damage {
    reads: 0,
    room: 200,
    writes: 0,
    flushes: 0,
    times: 0,
};

// What one call is to answer: what goes out on standard output and standard error, and the status.
pub(crate) type Wanted = (&'static [u8], &'static [u8], u8);

fn output_of(alloc: Global, damage: &Damage) -> Interrupted<Narrow> {
    let narrow = Narrow {
        taken: Vec::new(alloc),
        room: damage.room,
        failures: damage.writes,
        flush_failures: damage.flushes,
    };
    Interrupted::new(narrow, damage.times)
}

// A writer that takes all.
pub(crate) fn sound_narrow(alloc: Global) -> Narrow {
    Narrow {
        taken: Vec::new(alloc),
        room: SOUND.room,
        failures: 0,
        flush_failures: 0,
    }
}

// Whether a call answers so, where standard input has this text.
pub(crate) fn is_answered<
    R: AllocGlobal + Threads + Wait + Copy + Drop + Send + Sync + 'static,
    F: Opener + Drop + Sync,
>(
    rt: R,
    files: &F,
    asked: Result<Config, Stop>,
    text: &'static [u8],
    damage: &Damage,
    wanted: Wanted,
) -> bool
where
    F::File: Send,
{
    let stdin = Text {
        left: text,
        failures: damage.reads,
    };
    let stdin = Interrupted::new(stdin, damage.times);
    let mut output = Output::new(output_of(rt.alloc(), damage));
    let errors = Interrupted::new(sound_narrow(rt.alloc()), damage.times);
    let mut errors = Counting::new(Retrying::new(errors));
    let streams = Streams {
        output: &mut output,
        errors: &mut errors,
    };
    let host = Host {
        rt,
        alloc: rt.alloc(),
    };
    let (status, _) = execute(host, asked, files, stdin, streams);
    let out = output.into_inner().inner.taken;
    let err = errors.into_inner().into_inner().inner.taken;
    out.as_slice() == wanted.0 && err.as_slice() == wanted.1 && status == wanted.2
}

// Asks for a file, or for standard input where there is none.
pub(crate) fn config_of(alloc: Global, file: Option<&str>, order: bool) -> Result<Config, Fail> {
    let Some(file) = file else {
        return Ok(config_for(alloc, Sources::Standard(None), order));
    };
    let files = one_file(alloc, file)?;
    Ok(config_for(alloc, Sources::Files(files), order))
}

fn one_file(alloc: Global, file: &str) -> Result<Vec<String>, AllocError>
    ensures { IfOk result (λ files. vec_len files ≡ 1) }
{
    let mut files = Vec::new(alloc);
    files.push(String::from_str(alloc, file)?)?;
    Ok(files)
}

fn config_for(alloc: Global, sources: Sources, order: bool) -> Config
    requires { count_named sources ≤ 2 ^ 16 }
{
    Config {
        workers: 2,
        piece: 1,
        except: Vec::new(alloc),
        only: Vec::new(alloc),
        except_from: Vec::new(alloc),
        only_from: Vec::new(alloc),
        files: sources,
        order,
        explain: false,
        long: false,
        stop: false,
        end: false,
        fail_open: false,
        fail_unchecked: false,
        form: Form::Text,
        terminals: Terminals {
            output: false,
            errors: false,
        },
        progress: Progress::Auto,
    }
}

const REPORT: &[u8] = b"-: serializable (1 events, 0 blocks)\n\
    traces 1: serializable 1, open 0, violations 0, faults 0\n";

// What is told of a source without a block.
const UNCHECKED: &[u8] =
    b"aerodrome: -: nothing was checked: no block begins, or each one is left out by its label\n";

const SERIALIZABLE: Wanted = (REPORT, UNCHECKED, 0);

const MARKED: Wanted = (
    REPORT,
    b"aerodrome: -: starts with a byte order mark, which counts as part of the first thread's name\n\
        aerodrome: -: nothing was checked: no block begins, or each one is left out by its label\n",
    0,
);

const BROKEN: Wanted = (
    b"-: broken after 8 bytes\n\
        traces 1: serializable 0, open 0, violations 0, faults 1\n",
    b"aerodrome: -: Input/output error\n",
    2,
);

const UNFLUSHED: Wanted = (
    REPORT,
    b"aerodrome: -: nothing was checked: no block begins, or each one is left out by its label\n\
        aerodrome: write failed\n",
    4,
);

const CUT: Wanted = (b"-: seriali", b"aerodrome: write failed\n", 4);

const WRITE: &[u8] = b"T1|w(x)\n";

const MARKED_WRITE: &[u8] = b"\xEF\xBB\xBFT1|w(x)\n";

fn refused(alloc: Global, text: &str, is_help: bool) -> Result<Stop, Fail> {
    let text = String::from_str(alloc, text)?;
    Ok(Stop::Refused(if is_help {
        Refused::Help(text)
    } else {
        Refused::Usage(text)
    }))
}

// What standard output and standard error have after a call, where standard input has this text.
fn flushes_of<R: AllocGlobal + Threads + Wait + Copy + Drop + Send + Sync + 'static>(
    rt: R,
    asked: Result<Config, Stop>,
    text: &'static [u8],
) -> (Flushes, Flushes) {
    let files = Shelf::new(b"", 0, 0, 0);
    let stdin = Text {
        left: text,
        failures: 0,
    };
    let mut output = Output::new(never_flushed(rt.alloc()));
    let mut errors = Counting::new(Retrying::new(never_flushed(rt.alloc())));
    let streams = Streams {
        output: &mut output,
        errors: &mut errors,
    };
    let host = Host {
        rt,
        alloc: rt.alloc(),
    };
    let _ = execute(host, asked, &files, stdin, streams);
    (output.into_inner(), errors.into_inner().into_inner())
}

// Whether standard output was flushed once, behind all that it has, and standard error never.
fn is_flushed_once((output, errors): &(Flushes, Flushes)) -> bool {
    let all = output.taken.len();
    all > 0 && output.at.as_slice() == [all].as_slice() && errors.at.is_empty()
}

// Whether neither was, and standard error has something.
fn is_told_unflushed((output, errors): &(Flushes, Flushes)) -> bool {
    output.at.is_empty() && errors.at.is_empty() && !errors.taken.is_empty()
}

// Standard output is flushed once, behind the report or the help, and standard error never, also where it has notes.
#[test]
fn standard_output_is_flushed_once(rt: HostRuntime) -> Result<(), Fail> {
    let alloc = rt.alloc();
    let judged = flushes_of(rt, Ok(config_of(alloc, None, true)?), MARKED_WRITE);
    assert!(rt; is_flushed_once(&judged) && !judged.1.taken.is_empty());
    let helped = flushes_of(rt, Err(refused(alloc, "help\n", true)?), b"");
    assert!(rt; is_flushed_once(&helped));
    let told = flushes_of(rt, Err(refused(alloc, "why\n", false)?), b"");
    let failed = flushes_of(rt, Err(Stop::Refused(Refused::BadLabel)), b"");
    assert!(rt; is_told_unflushed(&told) && is_told_unflushed(&failed));
    Ok(())
}

// Reads, writes and flushes that are interrupted are made again: no note tells of it, and no source is
// broken by it. A failure of another kind stays one.
#[test]
fn interrupted_calls_are_made_again(rt: HostRuntime) -> Result<(), Fail> {
    let interrupted = Damage { times: 3, ..SOUND };
    let rows: [(&'static [u8], Damage, Wanted); 6] = [
        (WRITE, interrupted, SERIALIZABLE),
        (MARKED_WRITE, interrupted, MARKED),
        (
            WRITE,
            Damage {
                reads: EVER,
                ..interrupted
            },
            BROKEN,
        ),
        (
            WRITE,
            Damage {
                reads: 1,
                ..interrupted
            },
            BROKEN,
        ),
        (
            WRITE,
            Damage {
                room: 10,
                writes: 1,
                ..interrupted
            },
            CUT,
        ),
        (
            WRITE,
            Damage {
                flushes: 1,
                ..interrupted
            },
            UNFLUSHED,
        ),
    ];
    for (text, damage, wanted) in rows {
        let config = config_of(rt.alloc(), None, false)?;
        assert!(rt; is_answered(rt, &FilesOf::new(rt), Ok(config), text, &damage, wanted));
    }
    Ok(())
}

// A file of which opens and reads fail, once or for ever, or are interrupted, which the report doesn't tell.
#[test]
fn a_file_is_opened_and_read_as_standard_input_is(rt: HostRuntime) -> Result<(), Fail> {
    let whole: Wanted = (
        b"f: serializable (1 events, 0 blocks)\n\
            traces 1: serializable 1, open 0, violations 0, faults 0\n",
        b"aerodrome: f: nothing was checked: no block begins, or each one is left out by its label\n",
        0,
    );
    let unopened: Wanted = (
        b"f: broken after 0 bytes\n\
            traces 1: serializable 0, open 0, violations 0, faults 1\n",
        b"aerodrome: f: Permission denied\n",
        2,
    );
    let broken: Wanted = (
        b"f: broken after 8 bytes\n\
            traces 1: serializable 0, open 0, violations 0, faults 1\n",
        b"aerodrome: f: Input/output error\n",
        2,
    );
    // How often an open and a read are interrupted, and how many opens and reads fail.
    let rows: [(u32, u32, u32, Wanted); 8] = [
        (0, 0, 0, whole),
        (0, 1, 0, unopened),
        (0, EVER, 0, unopened),
        (0, 0, 1, broken),
        (0, 0, EVER, broken),
        (3, 0, 0, whole),
        (3, 1, 0, unopened),
        (3, 0, 1, broken),
    ];
    for (times, open_failures, read_failures, wanted) in rows {
        let config = config_of(rt.alloc(), Some("f"), false)?;
        let shelf = Shelf::new(WRITE, times, open_failures, read_failures);
        assert!(rt; is_answered(rt, &shelf, Ok(config), b"", &SOUND, wanted));
    }
    Ok(())
}
