//! The texts of `--help` before and after the options, in at most 80 columns, and those of refusals. The
//! manual page docs/aerodrome.1 describes the same.

pub const ABOUT: &str =
    "Judges traces of threaded programs: does each atomic block run as if alone?";

pub const LONG_ABOUT: &str =
    "Judges traces of threaded programs: does each atomic block behave as if it had
run alone?

A trace is a text with one event on each line, in the order in which the events
happened. Its format is the text format (STD) of the RAPID tool:
THREAD|OPERATION(TARGET)|LOCATION. These are the operations:
  r(x), w(x)        the thread reads variable x; it writes x
  acq(l), rel(l)    it acquires lock l; it releases l
  fork(u), join(u)  it starts thread u; it has waited for the end of u
  begin, end        an atomic block begins; it ends. Blocks may contain blocks.
                    begin(label) gives the block a label of 1 to 255 bytes, for
                    --except and --only. Anything in parentheses after `end` is
                    ignored
You may omit the location; the checker doesn't look at it. Spaces and tabs
around the thread and the operation don't count. Blank lines are skipped, but
they count as lines. One byte 13 at the end of a line is dropped. Elsewhere the
bytes 0 to 8, 10 to 31 and 127 are refused. Bytes from 128 on are ordinary.

A transaction is an outermost block, or one event outside of blocks. Two events
conflict if their order matters: two events of one thread; two accesses of one
variable, at least one of them a write; a release of a lock and a later acquire
of it; a fork and the events of the thread that it starts; the events of a
thread and a later join of it. A trace is serializable if its transactions
could have run one after another, with all conflicting events in the order of
the trace. If they couldn't, conflicts lead from some block through other
transactions back to the same block: a cycle.

A violation is reported at the first event that completes a telling cycle. This
is a cycle that goes back in time in at most one open block: it leaves that
block at an earlier line than it entered it. A block is open until its end
appears in the trace. A cycle that goes back in time in two or more open blocks
is reported only once enough of these blocks have ended, so a trace that stops
early, with open blocks, may hide a violation.

If a block isn't meant to be atomic, leave it out. For example, a main loop may
take a lock again and again between begin(main) and end: `--except main` leaves
it out, and checks the blocks inside it by themselves. If only a few blocks are
meant to be atomic, name these with --only.";

pub const ONLY_WITH_EXCEPT: &str =
    "the argument '--only <LABEL>' cannot be used with '--except <LABEL>'";

pub const ONLY_WITH_EXCEPT_FROM: &str =
    "the argument '--only <LABEL>' cannot be used with '--except-from <FILE>'";

pub const ONLY_FROM_WITH_EXCEPT: &str =
    "the argument '--only-from <FILE>' cannot be used with '--except <LABEL>'";

pub const ONLY_FROM_WITH_EXCEPT_FROM: &str =
    "the argument '--only-from <FILE>' cannot be used with '--except-from <FILE>'";

pub const TOO_MANY_LABEL_FILES: &str =
    "the arguments '--except-from <FILE>' and '--only-from <FILE>' take at most 64 files";

pub const NO_STANDARD_LABELS: &str =
    "invalid value '-' for a file of labels: labels are not read from standard input";

pub const LONG_WITH_ORDER: &str =
    "the argument '--long' cannot be used with '--order', which keeps each transaction";

pub const NO_FORM: &str = "invalid value for '--format <FORM>': it takes text or json";

pub const LIST_WITH_FILES: &str =
    "the argument '--files0-from <LIST>' cannot be used with '[FILE]...'";

pub const LABEL_WITH_FILES: &str = "the argument '--label <NAME>' cannot be used with '[FILE]...'";

pub const LABEL_WITH_LIST: &str =
    "the argument '--label <NAME>' cannot be used with '--files0-from <LIST>'";

pub const REPORT: &str =
    "The report, on standard output, has one line for each trace, in order, and a
last line on all of them. NAME is the FILE as you named it, or its name in the
list, byte by byte. On a terminal, control characters and bytes that aren't
UTF-8 are shown as \\xNN.
  NAME: serializable (E events, B blocks)
      All B blocks have ended, and behave as if each had run alone. If B is 0,
      there was no block to check. With --order the transactions follow, in a
      serial order, each on a line.
  NAME: no violation, K blocks open (E events, B blocks)
      No violation was found, but K of the B blocks have no end in the trace. A
      cycle that goes back in time in two or more of them may be hidden.
  NAME: violation at line L: block of THREAD from line M
      The event on line L completes a telling cycle: the block of THREAD that
      begins on line M didn't behave as if it had run alone. The rest of the
      trace isn't judged. With --explain the events of a cycle follow, each on
      a line.
  NAME:L: malformed: FAULT
      Line L is neither blank nor an event: TooLong (over 4096 bytes), BadByte
      (a control character), NoOperation, EmptyThread, UnknownOperation,
      BadParenthesis, MissingTarget, NameTooLong (over 255 bytes), TooManyLines
      (over 268435456; with --long over 4000000000).
  NAME:L: ill-formed: FAULT
      The event on line L is impossible after the events before it:
      TooManyThreads (over 65536), TooManyNames (over 67108864 variables, or
      locks), ThreadJoined (the thread had been joined), LockHeldByOther,
      LockNotHeld, ForkSelf, ForkStarted (the forked thread had acted, been
      forked or been joined), JoinSelf, EndWithoutBegin.
  NAME: broken after N bytes
      The file couldn't be opened (N is 0), or a read failed.
  NAME: too large
      It has more than 1073741824 bytes. With --long any size is accepted.
  traces T: serializable A, open B, violations C, faults D
      How many traces there are of each kind. The faults are the malformed,
      ill-formed, broken and too large ones.
Only the first problem of each trace is reported, by line number. If an event
is ill-formed and would also complete a cycle, it is reported as ill-formed.

After the report, standard error has notes, in the order of the traces:
  aerodrome: NAME: starts with a byte order mark, which counts as part of the
  first thread's name
      The format has no such mark (the bytes 239, 187, 191).
  aerodrome: NAME: REASON
      The reason why the file couldn't be opened or read, for example `No such
      file or directory`, or that its name isn't UTF-8.
  aerodrome: NAME: over 1073741824 bytes: --long accepts inputs of any size
      The input is too large without --long.
  aerodrome: NAME:L: WORDS
      An explanation of the fault on line L, which is malformed or ill-formed.
  aerodrome: no block begins with begin(LABEL)
      This label of --except, --only or a file of labels may be mistyped. If a
      trace couldn't be read to its end or has a malformed line, there are no
      notes on labels. With --stop there are none either.
  aerodrome: no block begins with N more of the labels
      After ten such labels the others are only counted.

The exit status is the highest that applies, so a 2 hides a 1:
  0  no trace has a violation or a fault; also after --help and --version
  1  a trace has a violation, or open blocks with --fail-open; or no trace has
     a block that was checked, with --fail-unchecked
  2  a trace is malformed, ill-formed, broken or too large
  3  the command line was refused, a word isn't UTF-8, or a list of names or a
     file of labels can't be used: standard error has the reason
  4  memory ran out, or the report couldn't be written: the last line on
     standard error names the cause, unless the reader of a pipe has ended

Examples:
  aerodrome --explain trace.std
      Judges a trace, and prints the events of a cycle under a violation.
  aerodrome --except main --except loop trace.std
      Checks all blocks except those that begin with begin(main) or begin(loop).
  find . -name '*.std' -print0 | sort -z | aerodrome --files0-from -
      Judges all traces in this folder and in the folders below it.
  zcat trace.std.gz | aerodrome --long --label trace.std
      Judges a compressed trace of any size, and calls it trace.std.
  aerodrome --format json --explain trace.std | aerodrome-page > page.html
      Makes a web page with a picture of each cycle.";
