//! The options: one row for each, from which the reader of the command line and the help follow.

/// The greatest number of workers.
pub const MOST_WORKERS: u32 = 16;

/// The greatest number of bytes of one read.
pub const MOST_PIECE: u32 = 1_048_576;

/// What an option takes.
#[derive(Clone, Copy)]
pub enum Takes {
    /// Nothing: the option is a flag.
    Flag,
    /// A number from 1 to this one. Without the option it is the number of the text.
    Number(u32, &'static str),
    /// A value at each use. The help calls it by this name.
    Each(&'static str),
    /// One value. The help calls it by this name.
    Once(&'static str),
    /// One value. The help calls it by the first name. Without the option it is the second text.
    OnceOr(&'static str, &'static str),
    /// The words that belong to no option. The help calls them by this name.
    Rest(&'static str),
}

/// An option with its texts in the short and in the long help, in at most 80 columns. The manual page
/// docs/aerodrome.1 describes the same.
#[derive(Clone, Copy)]
pub struct OptionRow {
    pub name: &'static str,
    pub takes: Takes,
    pub help: &'static str,
    pub long_help: &'static str,
}

/// The options, in the order of the help. `rules` of specs/Line.antt has the same.
pub const OPTIONS: [OptionRow; 19] = [
    OptionRow {
        name: "workers",
        takes: Takes::Number(MOST_WORKERS, "4"),
        help: "Number of worker threads, 1 to 16",
        long_help: "The number of worker threads, 1 to 16, but never more than there are
processors for the program. The report is the same for every number",
    },
    OptionRow {
        name: "piece",
        takes: Takes::Number(MOST_PIECE, "65536"),
        help: "Bytes of one read, 1 to 1048576",
        long_help: "The number of bytes that one read asks for at most, 1 to 1048576. The
report is the same for every number",
    },
    OptionRow {
        name: "except",
        takes: Takes::Each("LABEL"),
        help: "Blocks with this label need not be atomic",
        long_help: "Blocks that begin with begin(LABEL) need not be atomic. Blocks inside
them and around them are still checked. You may give up to 64 labels,
each of 1 to 255 bytes without `|` and control characters. If a label
begins with -, write --except=LABEL",
    },
    OptionRow {
        name: "only",
        takes: Takes::Each("LABEL"),
        help: "Only blocks with this label must be atomic",
        long_help: "Only blocks that begin with begin(LABEL) must be atomic. Blocks with
another label or without a label need not be. You may give up to 64
labels. Not with --except",
    },
    OptionRow {
        name: "except-from",
        takes: Takes::Each("FILE"),
        help: "Read more labels for --except from FILE",
        long_help: "Read more labels for --except from FILE: one on each line. Empty lines
and lines that begin with # are skipped. Spaces and tabs around a
label, and one byte 13 at the end of a line, don't count. You may give
up to 64 files, and so up to 65536 labels in all; a label that is
repeated counts once. If a file can't be read, or a line is no label,
nothing is judged. Not with --only or --only-from. FILE can't be `-`",
    },
    OptionRow {
        name: "only-from",
        takes: Takes::Each("FILE"),
        help: "Read more labels for --only from FILE",
        long_help: "Read more labels for --only from FILE, as --except-from does for
--except. If the files have no label, and you give no --only, no block
need be atomic. Not with --except or --except-from",
    },
    OptionRow {
        name: "order",
        takes: Takes::Flag,
        help: "Print a serial order under each serializable trace",
        long_help: "Under the line of a serializable trace, print its transactions (blocks
and events outside of blocks) in an order in which they could have run
one after another. Each is printed as two spaces, the line number of
its first event, a space, and its thread. If several could be next,
the one that began first is next. Not with --long",
    },
    OptionRow {
        name: "explain",
        takes: Takes::Flag,
        help: "Print the events of a cycle under each violation",
        long_help: "Under the line of a violation, print the events of a cycle. Each is
printed as two spaces, its line number, a space, the line number on
which its transaction begins, a space, and THREAD|OPERATION(TARGET).
If the second number changes from one event to the next, the two
events conflict. If it stays the same, the cycle passes through one
transaction. At the first event the cycle leaves the block that is
blamed, and at the last it enters this block again. No telling cycle
that starts at the block has fewer transactions. If the block has a
label, it is printed above the events: two spaces, `label`, a space,
and the label. With --format json a violation also has the
transactions of the cycle, and a trace with open blocks has the first
64 of these blocks",
    },
    OptionRow {
        name: "long",
        takes: Takes::Flag,
        help: "Accept inputs of any size, up to 4000000000 lines",
        long_help: "Accept inputs of up to 4000000000 lines and any number of bytes. (The
limit is then 70368744177664 bytes, which so many lines can't reach.)
Without this option an input of more than 1073741824 bytes is too
large. Not with --order, which keeps every transaction in memory",
    },
    OptionRow {
        name: "stop",
        takes: Takes::Flag,
        help: "Stop reading an input once its verdict is certain",
        long_help: "Read no more of an input once its verdict is certain: after the first
violation or ill-formed event, whose line is reported. What follows
isn't looked at, not even if it is malformed",
    },
    OptionRow {
        name: "end",
        takes: Takes::Flag,
        help: "End blocks that are open at a join or at the end",
        long_help: "End each block that is open where another thread joins its thread,
before the join, or else at the end of the input, as if the input had
a `THREAD|end` for it there. These ends count as events. A violation
that one of them closes is reported on the line of the join, or on the
line after the last one. So no cycle stays hidden",
    },
    OptionRow {
        name: "format",
        takes: Takes::OnceOr("FORM", "text"),
        help: "Form of the report: text or json",
        long_help: "The form of the report: `text`, or `json` for scripts: one object on
each line, for each trace in order, and a last one on all of them. A
name is a string, or {\"bytes\":BASE64} if it isn't UTF-8",
    },
    OptionRow {
        name: "progress",
        takes: Takes::Flag,
        help: "Show progress even without a terminal",
        long_help: "Show a line about progress even if standard error isn't a terminal,
from a fifth of a second on. Without this option the line appears only
on a terminal, and only if a run lasts over two seconds. It shows how
many inputs and how many bytes were read. It is updated five times a
second, and cleared at the end and before anything else is written to
standard error. With --files0-from it appears once the list has been
read. The report is the same",
    },
    OptionRow {
        name: "quiet",
        takes: Takes::Flag,
        help: "Show no progress, even with --progress",
        long_help: "Show no progress, even with --progress. Standard error still has the
notes",
    },
    OptionRow {
        name: "files0-from",
        takes: Takes::Once("LIST"),
        help: "Judge the files that LIST names, a byte 0 after each",
        long_help: "Judge the files whose names the file LIST contains, each ended by a
byte 0 as `find -print0` writes them: at most 65536, in this order. If
LIST is `-`, the list is read from standard input. The list may be
empty. If it can't be read, nothing is judged. Not with FILE words",
    },
    OptionRow {
        name: "label",
        takes: Takes::Once("NAME"),
        help: "Name of standard input in the report",
        long_help: "The name of standard input in the report, instead of `-`. Any text is
allowed; if it begins with -, write --label=NAME. Not with FILE words
or --files0-from",
    },
    OptionRow {
        name: "fail-open",
        takes: Takes::Flag,
        help: "Return status 1 also if blocks are open",
        long_help: "Return status 1 instead of 0 if a trace has open blocks. The report is
the same",
    },
    OptionRow {
        name: "fail-unchecked",
        takes: Takes::Flag,
        help: "Return status 1 also if no block was checked",
        long_help: "Return status 1 instead of 0 if no trace has a block that was checked:
no block begins, or --except or --only leaves out each one. The report
is the same",
    },
    OptionRow {
        name: "files",
        takes: Takes::Rest("FILE"),
        help: "The traces to judge; without one, standard input",
        long_help: "The traces to judge, in this order, at most 65536. Without a FILE the
program judges standard input, which the report calls `-`. As a FILE,
`-` is a path like any other. After `--`, every word is a FILE",
    },
];
