//! `aerodrome` reads logged executions of threaded programs, one event a line, judges of each
//! whether its atomic blocks behave as if each had run alone, and writes a report: a line for each
//! source, in their order, and a summary.
//!
//! ```text
//! $ printf 'T1|begin\nT1|w(x)\nT1|end\n' | aerodrome
//! -: serializable (3 events, 1 blocks)
//! traces 1: serializable 1, open 0, violations 0, faults 0
//! ```
//!
//! The sources are the files that the command line names, or else standard input. `aero_words` reads
//! the command line, and `aero_program::execute` does what it asks for, beside the line on progress of
//! `aero_progress`. Names are shown without control characters where standard output is a terminal, and
//! standard error where that is one.
//!
//! # What is proved
//!
//! Every function is safe on every input. No contract says what `main` does: tests of the built program show it. What
//! its parts do is proved in `aero_words`, `aero_program` and the crates below them. That the program ends isn't
//! proved: some of its calls may wait.
#![tactic(auto)]

use aero_model::Counting;
use aero_program::arguments::words_of;
use aero_program::command::{Config, Sources, Stop, TICK, Terminals};
use aero_program::crew::processors;
use aero_program::execute::{Host, Streams, execute};
use aero_program::files::{FilesOf, MeteredFiles};
use aero_program::output::Output;
use aero_program::retrying::Retrying;
use aero_progress::beside::Beside;
use aero_progress::line::{ProgressLine, Surface};
use aero_progress::metered::Metered;
use aero_progress::reached::Work;
use aero_progress::ticker::{Pace, Ticker};
use aero_words::words::settle_words;
use std::alloc::{AllocError, Global};
use std::io::{IsTerminal, Read, Write};
use std::process::ExitCode;
use std::rt::{Files, Runtime};
use std::sync::Wait;
use std::thread::Threads;
use std::time::Clock;

// How many bytes `keep_freed_memory` takes.
const ROOM: usize = 1 << 20;

fn main(rt: HostRuntime) -> ExitCode {
    keep_freed_memory(rt.alloc());
    // Only main can ask for the three streams: what is generic over the runtime is handed them.
    let standard = Standard {
        input: rt.stdin(),
        output: rt.stdout(),
        errors: rt.stderr(),
    };
    let terminals = Terminals {
        output: rt.stdout().is_terminal(),
        errors: rt.stderr().is_terminal(),
    };
    let asked = asked_by(&rt, terminals);
    let surface = if terminals.errors {
        Surface::Terminal
    } else {
        Surface::Other
    };
    let line = ProgressLine::new(rt.stderr(), surface);
    let ticker = ticker_for(rt, rt.alloc(), &asked, line);
    let status = execute_beside(rt, rt.alloc(), asked, standard, ticker.as_ref());
    if let Some(ticker) = ticker {
        ticker.stop(&rt);
    }
    ExitCode::from(status)
}

// Takes a large piece of memory and frees it. From then on the C library keeps what is freed in pieces of up to that
// size, where it would else give each back to the system, and new pages take as long as the work on them. If it is
// refused nothing changes.
fn keep_freed_memory(alloc: Global) {
    let _room: Result<Vec<u8>, AllocError> = Vec::with_capacity(alloc, ROOM);
}

// What the words of the command line ask for, on these terminals and processors.
fn asked_by<R: Runtime + AllocGlobal + Threads>(
    rt: &R,
    terminals: Terminals,
) -> Result<Config, Stop> {
    let words = words_of(rt.alloc(), rt)?;
    let config = settle_words(rt.alloc(), &words)?;
    Ok(config.on(terminals).within(processors(rt)))
}

// What shows on the line how far the run has come, if that is asked for and can be had. If the sources are files, it
// shows that once each was looked at.
fn ticker_for<W, R>(
    rt: R,
    alloc: Global,
    asked: &Result<Config, Stop>,
    line: ProgressLine<W>,
) -> Option<Ticker<W>>
where
    W: Write + Drop + Send + 'static,
    R: Threads + Wait + Clock + Copy + Send + 'static,
{
    let Ok(config) = asked else {
        return None;
    };
    let is_terminal = line.surface() == Surface::Terminal;
    let pace = Pace {
        first_after: config.progress.first_after(is_terminal)?,
        tick: TICK,
    };
    Ticker::start(rt, alloc, line, work_of(&config.files), pace)
}

// How much there is to do, where it is known before a file is looked at: standard input is one source.
fn work_of(asked: &Sources) -> Option<Work> {
    match asked {
        Sources::Standard(_) => Some(Work {
            sources: 1,
            size: None,
        }),
        Sources::Files(_) | Sources::Listed(_) => None,
    }
}

// The three standard streams.
#[derive(Drop)]
struct Standard<I, O, E> {
    input: I,
    output: O,
    errors: E,
}

// Does what is asked for. Where there is a line on progress, it hears what is read and what is out, and makes room
// for what is written: standard output may lead to its terminal by way of another program.
fn execute_beside<I, O, E, L, R>(
    rt: R,
    alloc: Global,
    asked: Result<Config, Stop>,
    standard: Standard<I, O, E>,
    ticker: Option<&Ticker<L>>,
) -> u8
where
    I: Read + Drop + Send,
    O: Write + Drop,
    E: Write + Drop,
    L: Write + Drop + Send + 'static,
    R: Files + Drop + Threads + Wait + Copy + Send + Sync + 'static,
    R::File: Send,
    R::Dir: Send,
{
    let line = ticker.map(|ticker| ticker.line());
    let meter = ticker.map(|ticker| ticker.meter());
    let told = Metered::new(standard.output, meter);
    let mut output = Output::new(Beside::new(rt, told, line));
    let mut errors = Counting::new(Retrying::new(Beside::new(rt, standard.errors, line)));
    let files = MeteredFiles::new(FilesOf::new(rt), meter);
    let input = Metered::new(standard.input, meter);
    let streams = Streams {
        output: &mut output,
        errors: &mut errors,
    };
    let (status, _) = execute(Host { rt, alloc }, asked, &files, input, streams);
    status
}
