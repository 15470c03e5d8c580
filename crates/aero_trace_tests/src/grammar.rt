use crate::verdict::{parsed, push_word};
use aero_grammar::{LineEvent, Parsed, parse_line};
use aero_model::{Event, LineFault, Numbered, What};
use aero_names::NameList;
use std::alloc::Global;

// What is put into words here is put behind the words so far, and each helper says whether that went: no
// memory was refused, and a number has its name.

fn push_bytes(words: &mut String, bytes: &[u8]) -> bool {
    match str::from_utf8(bytes) {
        Ok(text) => words.push_str(text).is_ok(),
        Err(_) => false,
    }
}

fn push_fault(alloc: Global, words: &mut String, fault: LineFault) -> bool {
    push_word(words, format!(in alloc; "{fault:?}").ok())
}

fn push_name(words: &mut String, names: &NameList, number: u32) -> bool {
    match names.name(number) {
        Some(name) => push_bytes(words, name),
        None => false,
    }
}

// What the line says: an event's thread, operation and target, or the fault.
fn push_line(alloc: Global, words: &mut String, line: &[u8]) -> bool {
    match parse_line(alloc, line) {
        Ok(Some(event)) => push_event(alloc, words, &event),
        Ok(None) => words.push_str("blank").is_ok(),
        Err(fault) => push_fault(alloc, words, fault),
    }
}

fn push_event(alloc: Global, words: &mut String, event: &Event) -> bool {
    push_bytes(words, event.thread.bytes())
        && push_op(alloc, words, event)
        && push_target(words, event)
}

fn push_op(alloc: Global, words: &mut String, event: &Event) -> bool {
    push_word(words, format!(in alloc; " {:?}", event.op).ok())
}

fn push_target(words: &mut String, event: &Event) -> bool {
    match &event.target {
        Some(target) => words.push_str(" ").is_ok() && push_bytes(words, target.bytes()),
        None => true,
    }
}

// What the first line of a block says.
fn push_first_line(alloc: Global, words: &mut String, parsed: &Parsed) -> bool {
    if let Some((_, fault)) = parsed.fault {
        return push_fault(alloc, words, fault);
    }
    match parsed.events.first() {
        Some(event) => push_first_event(words, parsed, event.parts().1),
        None => words.push_str("blank").is_ok(),
    }
}

// The thread, the operation and the target of a block's event.
fn push_first_event(words: &mut String, parsed: &Parsed, event: Numbered) -> bool {
    push_name(words, &parsed.threads, event.thread) && push_what(words, parsed, event.what)
}

fn push_what(words: &mut String, parsed: &Parsed, what: What) -> bool {
    match what {
        What::Read(n) => push_deed(words, " Read ", &parsed.variables, n),
        What::Write(n) => push_deed(words, " Write ", &parsed.variables, n),
        What::Acquire(n) => push_deed(words, " Acquire ", &parsed.locks, n),
        What::Release(n) => push_deed(words, " Release ", &parsed.locks, n),
        What::Fork(n) => push_deed(words, " Fork ", &parsed.threads, n),
        What::Join(n) => push_deed(words, " Join ", &parsed.threads, n),
        What::Begin(Some(n)) => push_deed(words, " Begin ", &parsed.labels, n),
        What::Begin(None) => words.push_str(" Begin").is_ok(),
        What::End => words.push_str(" End").is_ok(),
        What::Exempt => words.push_str(" Exempt").is_ok(),
    }
}

fn push_deed(words: &mut String, deed: &str, names: &NameList, number: u32) -> bool {
    words.push_str(deed).is_ok() && push_name(words, names, number)
}

fn says_alone(alloc: Global, line: &[u8], wanted: &[u8]) -> bool {
    let mut words = String::new(alloc);
    push_line(alloc, &mut words, line) && words.as_bytes() == wanted
}

// The line as the first of a block that goes on with 320 lines that are empty, so that many of its bytes are looked at at once.
fn block_of(alloc: Global, line: &[u8]) -> Option<Parsed> {
    let mut text = Vec::new(alloc);
    text.extend_from_slice(line).ok()?;
    text.extend_from_slice(&[b'\n'; 320]).ok()?;
    parsed(alloc, &text)
}

fn says_in_block(alloc: Global, block: &Parsed, wanted: &[u8]) -> bool {
    let mut words = String::new(alloc);
    push_first_line(alloc, &mut words, block) && words.as_bytes() == wanted
}

// Whether the line says this alone, and so it does in such a block.
fn says(alloc: Global, line: &[u8], wanted: &[u8]) -> bool {
    match block_of(alloc, line) {
        Some(block) => { says_alone(alloc, line, wanted) && says_in_block(alloc, &block, wanted) }
        None => false,
    }
}

// The first line that says something else.
fn first_misread(alloc: Global, rows: &[(&str, &str)]) -> Option<usize> {
    rows.iter()
        .position(|row| !says(alloc, row.0.as_bytes(), row.1.as_bytes()))
}

static LINES: [(&str, &str); 43] = [
    ("T0|r(V123)|345", "T0 Read V123"),
    (" T0 \t| w(a b) ", "T0 Write a b"),
    ("T0|r(a(b))|1|2", "T0 Read a(b)"),
    ("T0|r())", "T0 Read )"),
    ("T0|begin", "T0 Begin"),
    ("T0|begin()", "T0 Begin"),
    ("T0|begin(foo)|7", "T0 Begin foo"),
    ("T0| begin(f(o) ) |7", "T0 Begin f(o) "),
    ("T0|end", "T0 End"),
    ("T0|end(foo)", "T0 End"),
    ("T0|r(x)\r", "T0 Read x"),
    ("T0|acq(l)", "T0 Acquire l"),
    ("T0|rel(l)", "T0 Release l"),
    ("T0|w()|(x)", "MissingTarget"),
    ("T0 |w(x)|7", "T0 Write x"),
    ("T0|w(x) |7", "T0 Write x"),
    ("T0|begin|(x)", "T0 Begin"),
    ("T|w(x))|||", "T Write x)"),
    ("T0|fork(u)", "T0 Fork u"),
    ("T0|join(u)", "T0 Join u"),
    ("", "blank"),
    (" \t ", "blank"),
    ("\r", "blank"),
    ("T0|r(x)\r\r", "BadByte"),
    ("T0|r(x)|\0", "BadByte"),
    ("T0", "NoOperation"),
    ("|r(x)", "EmptyThread"),
    (" \t|x", "EmptyThread"),
    ("|", "EmptyThread"),
    ("T0|", "UnknownOperation"),
    ("T0|R(x)", "UnknownOperation"),
    ("T0|r (x)", "UnknownOperation"),
    ("T0|r)", "UnknownOperation"),
    ("T0|(x)", "UnknownOperation"),
    ("T0|x(y", "UnknownOperation"),
    ("T0|acq()", "MissingTarget"),
    ("T0|fork", "MissingTarget"),
    ("T0|r(x", "BadParenthesis"),
    ("T0|r(x)y", "BadParenthesis"),
    ("T0|r(", "BadParenthesis"),
    ("T0|begin(", "BadParenthesis"),
    ("T0|r", "MissingTarget"),
    ("T0|r()", "MissingTarget"),
];

#[test]
fn lines_say_their_events_or_have_their_first_fault(rt: HostRuntime) {
    assert_eq!(rt; first_misread(rt.alloc(), &LINES), None);
}

fn push_times(bytes: &mut Vec<u8>, byte: u8, times: usize) -> bool {
    for _ in 0..times {
        if bytes.push(byte).is_err() {
            return false;
        }
    }
    true
}

// The text with the byte so many times in the place of each stand-in.
fn filled(alloc: Global, text: &str, stand_in: u8, byte: u8, count: usize) -> Option<Vec<u8>> {
    let mut bytes = Vec::new(alloc);
    let mut fits = true;
    for one in text.as_bytes() {
        fits &= if *one == stand_in {
            push_times(&mut bytes, byte, count)
        } else {
            push_times(&mut bytes, *one, 1)
        };
    }
    fits.then_some(bytes)
}

// A line, a byte, how often it stands in the place of each `#`, there and in what the line says, and that.
type LongRow = (&'static str, u8, usize, &'static str);

fn says_filled(alloc: Global, row: &LongRow) -> Option<bool> {
    let line = filled(alloc, row.0, b'#', row.1, row.2)?;
    let wanted = filled(alloc, row.3, b'#', row.1, row.2)?;
    Some(says(alloc, &line, &wanted))
}

// The first line that says something else.
fn first_misread_of_long(alloc: Global, rows: &[LongRow]) -> Option<usize> {
    rows.iter()
        .position(|row| says_filled(alloc, row) != Some(true))
}

static LONG: [LongRow; 21] = [
    ("T0|begin(#)", b'a', 255, "T0 Begin #"),
    ("T0|begin(#)", b'a', 256, "T0 Begin"),
    ("T0|begin(#)", b'a', 300, "T0 Begin"),
    ("#|begin(x)", b'a', 256, "NameTooLong"),
    ("T0|r(#)", b'a', 255, "T0 Read #"),
    ("T0|r(#)", b'a', 256, "NameTooLong"),
    ("#|begin", b'a', 256, "NameTooLong"),
    ("#", 0, 4097, "TooLong"),
    ("#", b' ', 4097, "TooLong"),
    ("#", b' ', 4096, "blank"),
    // Places behind the second bar, with which the line has 31, 32, 33, 4,096 and 4,097 bytes.
    ("T0|r(x)|#", b'a', 23, "T0 Read x"),
    ("T0|r(x)|#", b'a', 24, "T0 Read x"),
    ("T0|r(x)|#", b'a', 25, "T0 Read x"),
    ("T0|r(x)|#", b'|', 4088, "T0 Read x"),
    ("T0|r(x)|#", b'a', 4089, "TooLong"),
    ("T0 |w(x) |#", b' ', 40, "T0 Write x"),
    // Fields of 31 and 32 bytes in front of such a place.
    ("#|r(x)|at/a/place/in/a/file.c:123", b't', 31, "# Read x"),
    ("#|r(x)|at/a/place/in/a/file.c:123", b't', 32, "# Read x"),
    (
        "T0|acq(#)|at/a/place/in/a/file.c:123",
        b'l',
        26,
        "T0 Acquire #",
    ),
    (
        "T0|acq(#)|at/a/place/in/a/file.c:123",
        b'l',
        27,
        "T0 Acquire #",
    ),
    ("T0|acq()|#", b'a', 40, "MissingTarget"),
];

#[test]
fn long_names_and_lines_meet_their_limits(rt: HostRuntime) {
    assert_eq!(rt; first_misread_of_long(rt.alloc(), &LONG), None);
}

// Whether names of so many bytes are read, at a line's end and before a place, or are too long.
fn is_length_read(alloc: Global, count: usize) -> bool {
    let wanted = if count == 256 {
        "NameTooLong"
    } else {
        "# Read #"
    };
    says_filled(alloc, &("#|r(#)", b'a', count, wanted)) == Some(true)
        && says_filled(alloc, &("#|r(#)|a.c:7", b'a', count, wanted)) == Some(true)
}

// The first length of names from 1 to 256 that isn't read, or isn't found too long.
fn first_length_misread(alloc: Global) -> Option<usize> {
    for count in 1..=256usize {
        if !is_length_read(alloc, count) {
            return Some(count);
        }
    }
    None
}

#[test]
fn names_of_1_to_255_bytes_are_read(rt: HostRuntime) {
    assert_eq!(rt; first_length_misread(rt.alloc()), None);
}

// The names of one kind, each behind a space.
fn push_names(words: &mut String, kind: &str, names: &NameList) -> bool {
    let mut fits = words.push_str(kind).is_ok();
    for number in 0..names.len() {
        fits &= words.push_str(" ").is_ok() && push_name(words, names, number);
    }
    fits
}

fn push_count(alloc: Global, words: &mut String, lines: u32) -> bool {
    push_word(words, format!(in alloc; "lines {lines}").ok())
}

// An event by its line and its numbers.
fn push_numbers(alloc: Global, words: &mut String, event: &LineEvent) -> bool {
    let (line, event) = event.parts();
    push_word(
        words,
        format!(in alloc; ", {line}: {} {:?}", event.thread, event.what).ok(),
    )
}

fn push_events(alloc: Global, words: &mut String, events: &[LineEvent]) -> bool {
    let mut fits = true;
    for event in events {
        fits &= push_numbers(alloc, words, event);
    }
    fits
}

fn push_last(alloc: Global, words: &mut String, fault: Option<(u32, LineFault)>) -> bool {
    let Some((line, fault)) = fault else {
        return true;
    };
    push_word(words, format!(in alloc; ", {line}: {fault:?}").ok())
}

// The block's lines, its tables, each event by its line and its numbers, and the fault.
fn push_block(alloc: Global, words: &mut String, parsed: &Parsed) -> bool {
    push_count(alloc, words, parsed.lines)
        && push_names(words, ", threads", &parsed.threads)
        && push_names(words, ", variables", &parsed.variables)
        && push_names(words, ", locks", &parsed.locks)
        && push_names(words, ", labels", &parsed.labels)
        && push_events(alloc, words, &parsed.events)
        && push_last(alloc, words, parsed.fault)
}

fn block_says(alloc: Global, parsed: &Parsed, wanted: &str) -> bool {
    let mut words = String::new(alloc);
    push_block(alloc, &mut words, parsed) && words.as_str() == wanted
}

// Whether a block says this, where a `/` stands for the end of a line.
fn is_block_read(alloc: Global, row: &(&str, &str)) -> Option<bool> {
    let text = filled(alloc, row.0, b'/', b'\n', 1)?;
    let parsed = parsed(alloc, &text)?;
    Some(block_says(alloc, &parsed, row.1))
}

// The first block that says something else.
fn first_block_misread(alloc: Global, rows: &[(&str, &str)]) -> Option<usize> {
    rows.iter()
        .position(|row| is_block_read(alloc, row) != Some(true))
}

static BLOCKS: [(&str, &str); 6] = [
    ("", "lines 0, threads, variables, locks, labels"),
    ("/", "lines 1, threads, variables, locks, labels"),
    (
        "/T1|r(x)/T1/T2|w(y)",
        "lines 3, threads T1, variables x, locks, labels, 2: 0 Read(0), 3: NoOperation",
    ),
    (
        "T2|fork(T1)/T2|r(x)/T1|w(x)",
        "lines 3, threads T2 T1, variables x, locks, labels, 1: 0 Fork(1), 2: 0 Read(0), 3: 1 Write(0)",
    ),
    (
        "a|begin(x)/b|begin/a|begin(y)/b|begin(x)/b|end(z)/b|r(y)",
        "lines 6, threads a b, variables y, locks, labels x y, 1: 0 Begin(Some(0)), 2: 1 Begin(None), 3: 0 Begin(Some(1)), 4: 1 Begin(Some(0)), 5: 1 End, 6: 1 Read(0)",
    ),
    (
        "a|acq(b)/b|join(a)//a|rel(b)/a|begin(b)/c|end/c|w(a)/c|r(b)/b|acq(c)",
        "lines 9, threads a b c, variables a b, locks b c, labels b, 1: 0 Acquire(0), 2: 1 Join(0), 4: 0 Release(0), 5: 0 Begin(Some(0)), 6: 2 End, 7: 2 Write(0), 8: 2 Read(1), 9: 1 Acquire(1)",
    ),
];

#[test]
fn blocks_are_read_up_to_their_first_fault(rt: HostRuntime) {
    assert_eq!(rt; first_block_misread(rt.alloc(), &BLOCKS), None);
}
