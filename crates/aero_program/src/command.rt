//! What a command line asks for, or why nothing is judged.
ghost use Rattle.std.specs.Prelude.{◌≡◌, ◌<◌, ◌≤◌, ◌^◌, ◌&&◌, ◌||◌, false, IfOk, length, map, nat_lt, string_bytes, unwrap_or, vec_len};
ghost use Rattle.aero_program.specs.Command.{AreLimitsFor, are_words, count_named, files_named, form_on, list_path, listed_by, shown_after};

use crate::arguments::Unread;
use aero_batch::plan::Plan;
use aero_model::{Except, Limits, Name, SharedExcept};
pub use aero_report::Form;
use std::alloc::{AllocError, Global};

/// How many milliseconds lie between one line on progress and the next.
pub const TICK: u64 = 200;

/// How many files one run judges at most.
pub const MOST_FILES: usize = 65_536;

// From how many milliseconds on a run is one to wait for.
const LONG_RUN: u64 = 2_000;

/// What a command line asks for: 1 to 16 workers, reads of 1 to 1,048,576 bytes, the sources, of which
/// it names 65,536 files at most, and at most 64 labels of blocks that are no transactions or, in their
/// place, of the only blocks that are, both in the order of the words, at most 64 files with more of these labels,
/// whether the serial order is asked for, whether violations are to be explained, whether long sources are to be judged,
/// whether a source is read no further once its verdict is certain, whether blocks that are open end before their thread is
/// joined and at the end of a source, the form of the report, and when the line on progress is shown.
/// The serial orders of long sources aren't to be had: each source is kept for its order.
#[derive(Drop)]
pub struct Config {
    pub workers: u32,
    pub piece: u32,
    pub files: Sources,
    pub except: Vec<Name>,
    pub only: Vec<Name>,
    /// The files with more labels of `except`.
    pub except_from: Vec<String>,
    /// The files with more labels of `only`.
    pub only_from: Vec<String>,
    pub order: bool,
    pub explain: bool,
    pub long: bool,
    /// Whether a source is read no further once its verdict is certain.
    pub stop: bool,
    /// Whether blocks that are open end before their thread is joined, and at the end of a source.
    pub end: bool,
    /// Whether open blocks make the exit status 1, as a violation does.
    pub fail_open: bool,
    /// Whether the exit status is 1 if no trace has a block that was checked.
    pub fail_unchecked: bool,
    pub form: Form,
    /// Which of the standard streams are terminals. The command line doesn't say it: it knows of none.
    pub terminals: Terminals,
    /// No report, note or status depends on it.
    pub progress: Progress,
    ghost some_workers: { 0 < workers },
    ghost most_workers: { workers ≤ 16 },
    ghost some_piece: { 0 < piece },
    ghost most_piece: { piece ≤ 2 ^ 20 },
    ghost most_files: { count_named files ≤ 2 ^ 16 },
    ghost most_labels: { vec_len except ≤ 64 },
    ghost most_only: { vec_len only ≤ 64 },
    ghost most_except_files: { vec_len except_from ≤ 64 },
    ghost most_only_files: { vec_len only_from ≤ 64 },
    ghost one_list: { (nat_lt 0 (vec_len except) && nat_lt 0 (vec_len only)) ≡ false },
    ghost one_list_of_files: { ((nat_lt 0 (vec_len except) || nat_lt 0 (vec_len except_from)) && (nat_lt 0 (vec_len only) || nat_lt 0 (vec_len only_from))) ≡ false },
    ghost no_long_order: { (long && order) ≡ false },
}

/// Which of the standard streams are terminals. On one, names are shown without control characters.
#[derive(Clone, Copy, Debug, PartialEq, Eq)]
pub struct Terminals {
    pub output: bool,
    pub errors: bool,
}

/// What is to be judged.
#[derive(Drop)]
pub enum Sources {
    /// Standard input, which has this name, or `-`.
    Standard(Option<String>),
    /// These files, in this order.
    Files(Vec<String>),
    /// The files whose names stand in this one, or in standard input where it is `-`.
    Listed(String),
}

impl Sources {
    /// The files that words name.
    pub fn named(&self) -> &[String]
        ensures names { map string_bytes result.now ≡ files_named self.now }
        ensures count { length result.now ≡ count_named self.now }
    {
        match self {
            Sources::Files(words) => words,
            Sources::Standard(_) | Sources::Listed(_) => &[],
        }
    }

    /// Whether they are files that words name.
    pub fn are_words(&self) -> bool
        ensures { result ≡ are_words self.now }
    {
        matches!(self, Sources::Files(_))
    }

    /// The path of the list with the names of the files, where there is one, and else nothing.
    pub fn list_path(&self) -> &str
        ensures { result.now ≡ list_path self.now }
    {
        match self {
            Sources::Listed(path) => path.as_str(),
            Sources::Standard(_) | Sources::Files(_) => "",
        }
    }
}

/// When the line on progress is shown on standard error.
#[derive(Clone, Copy, Debug, PartialEq, Eq, Drop)]
pub enum Progress {
    /// On a terminal, once a run lasts over two seconds.
    Auto,
    /// On any standard error, from the first tick on.
    Always,
    /// Not at all.
    Never,
}

impl Progress {
    /// After how many milliseconds of a run the line is shown first, if ever, where standard error is
    /// a terminal, or isn't.
    pub fn first_after(self, is_terminal: bool) -> Option<u64>
        ensures { result ≡ shown_after self is_terminal }
    {
        match self {
            Progress::Auto => { if is_terminal { Some(LONG_RUN) } else { None } }
            Progress::Always => Some(TICK),
            Progress::Never => None,
        }
    }
}

impl Config {
    /// The same on these terminals.
    pub fn on(self, terminals: Terminals) -> Config
        ensures { result ≡ record self { terminals = terminals } }
    {
        let mut config = self;
        config.terminals = terminals;
        config
    }

    /// The plan of a run that does what is asked for, under the greatest limits, or those of long
    /// sources where these are asked for, and what it is to judge. If there is a set of labels, as `label_set` reads it, it
    /// stands in the place of the labels of the options. A text is one for a terminal where standard output is one.
    pub fn into_plan(
        self,
        alloc: Global,
        set: Option<Except>,
    ) -> Result<(Plan, Sources), AllocError>
        ensures workers { IfOk result (λ made. made.0.workers ≡ self.workers) }
        ensures piece { IfOk result (λ made. made.0.piece ≡ self.piece) }
        ensures limits { IfOk result (λ made. AreLimitsFor self.long made.0.terms.rules.limits) }
        ensures except { IfOk result (λ made. made.0.terms.rules.labels ≡
            unwrap_or set (listed_by self.except.items self.only.items)) }
        ensures order { IfOk result (λ made. made.0.terms.order ≡ self.order) }
        ensures end { IfOk result (λ made. made.0.terms.rules.end ≡ self.end) }
        ensures explain { IfOk result (λ made. made.0.terms.explain ≡ self.explain) }
        ensures stop { IfOk result (λ made. made.0.terms.stop ≡ self.stop) }
        ensures form { IfOk result (λ made. made.0.form ≡ form_on self.terminals self.form) }
        ensures files { IfOk result (λ made. made.1 ≡ self.files) }
    {
        let except = except_of(set, self.except, self.only);
        let shared = SharedExcept::new(alloc, except)?;
        let limits = limits_for(self.long);
        let plan = Plan::new(self.workers, self.piece, limits, shared, self.order).unwrap();
        let plan = if self.explain {
            plan.explaining()
        } else {
            plan
        };
        let plan = if self.stop { plan.stopping() } else { plan };
        let plan = if self.end { plan.ending() } else { plan };
        let form = form_on(self.terminals, self.form);
        Ok((plan.with_form(form), self.files))
    }
}

// The form of a report on standard output.
fn form_on(terminals: Terminals, form: Form) -> Form
    ensures { result ≡ form_on terminals form }
{
    match form {
        Form::Text => {
            if terminals.output {
                Form::Terminal
            } else {
                Form::Text
            }
        }
        Form::Terminal => Form::Terminal,
        Form::Json => Form::Json,
    }
}

// What the labels leave out: those of the set, if there is one, or else those of the options.
fn except_of(set: Option<Except>, except: Vec<Name>, only: Vec<Name>) -> Except
    requires except { vec_len except ≤ 64 }
    requires only { vec_len only ≤ 64 }
    ensures { result ≡ unwrap_or set (listed_by except.items only.items) }
{
    match set {
        Some(set) => set,
        None => except_by(except, only),
    }
}

// What the labels of options leave out: the blocks with those of `except`, or all blocks but those with one of `only`.
fn except_by(except: Vec<Name>, only: Vec<Name>) -> Except
    requires except { vec_len except ≤ 64 }
    requires only { vec_len only ≤ 64 }
    ensures { result ≡ listed_by except.items only.items }
{
    if only.is_empty() {
        Except::new(except).unwrap()
    } else {
        Except::all_but(only).unwrap()
    }
}

// The limits of long sources, or the greatest of others.
fn limits_for(long: bool) -> Limits
    ensures { AreLimitsFor long result }
{
    if long {
        Limits::long()
    } else {
        Limits::greatest()
    }
}

/// Why a command line gives no `Config`. In checking order.
#[derive(Debug, Drop)]
pub enum Refused {
    /// It asks for the help or the version, which is this text, with its last line end.
    Help(String),
    /// It is no command line of this program. The text says why, with its last line end.
    Usage(String),
    /// It names more than 65,536 files.
    TooManyFiles,
    /// What it gives as a label is none: it has no byte, more than 255, a `|` or a control byte.
    BadLabel,
    /// It gives more than 64 labels.
    TooManyLabels,
    /// Memory was refused.
    Memory,
}

impl From<AllocError> for Refused {
    ghost use Rattle.std.specs.Prelude.{◌≡◌};
    ghost use Rattle.aero_program.specs.declared.command.Refused.{Refused};
    ghost use Rattle.aero_program.specs.declared.command.Refused.TheVariants.{Memory};

    ghost from_gives = { λ _ refused. refused ≡ Memory };

    fn from(_error: AllocError) -> Refused {
        Refused::Memory
    }
}

/// Why nothing is judged.
#[derive(Debug, Drop)]
pub enum Stop {
    /// The words can't be had.
    Unread(Unread),
    /// They give no `Config`.
    Refused(Refused),
}

impl From<Unread> for Stop {
    ghost use Rattle.std.specs.Prelude.{◌≡◌};
    ghost use Rattle.aero_program.specs.declared.command.Stop.{Stop};
    ghost use Rattle.aero_program.specs.declared.command.Stop.TheVariants as stop;

    ghost from_gives = { λ unread it. it ≡ stop.Unread unread };

    fn from(unread: Unread) -> Stop {
        Stop::Unread(unread)
    }
}

impl From<Refused> for Stop {
    ghost use Rattle.std.specs.Prelude.{◌≡◌};
    ghost use Rattle.aero_program.specs.declared.command.Stop.{Stop};
    ghost use Rattle.aero_program.specs.declared.command.Stop.TheVariants as stop;

    ghost from_gives = { λ refused it. it ≡ stop.Refused refused };

    fn from(refused: Refused) -> Stop {
        Stop::Refused(refused)
    }
}
