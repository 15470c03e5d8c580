// The words that are refused, and the reason that is given.
use crate::words::{Words, settled};
use aero_program::command::Refused;
use std::alloc::Global;

// Words that are no command line of the program, and what the text on them says behind `error: `.
type Wrong = (Words, &'static str);

// Whether they are refused with such a text, which ends with a line.
fn is_refused(alloc: Global, row: &Wrong) -> bool {
    let Err(Refused::Usage(text)) = settled(alloc, row.0) else {
        return false;
    };
    says_why(text.as_str(), row.1)
}

fn says_why(text: &str, why: &str) -> bool {
    match text.strip_prefix("error: ") {
        Some(rest) => rest.starts_with(why) && rest.ends_with("\n"),
        None => false,
    }
}

// The first row that isn't refused so.
fn first_not_refused(alloc: Global, rows: &[Wrong]) -> Option<usize> {
    for i in 0..rows.len() {
        if !is_refused(alloc, &rows[i]) {
            return Some(i);
        }
    }
    None
}

static REFUSED: [Wrong; 51] = [
    (
        &["--except-from", "a", "--only", "b"],
        "the argument '--only <LABEL>' cannot be used with '--except-from <FILE>'\n",
    ),
    (
        &["--only-from", "a", "--except", "b"],
        "the argument '--only-from <FILE>' cannot be used with '--except <LABEL>'\n",
    ),
    (
        &["--only-from", "a", "--except-from", "b"],
        "the argument '--only-from <FILE>' cannot be used with '--except-from <FILE>'\n",
    ),
    (
        &["--except-from", "a", "--except-from", "-"],
        "invalid value '-' for a file of labels: labels are not read from standard input\n",
    ),
    (
        &["--only-from"],
        "a value is required for '--only-from <FILE>' but none was supplied\n",
    ),
    (
        &["--stop", "--stop"],
        "the argument '--stop' cannot be used multiple times\n",
    ),
    (
        &["--stop=no"],
        "unexpected value 'no' for '--stop' found; no more were expected\n",
    ),
    (
        &["--end", "--end"],
        "the argument '--end' cannot be used multiple times\n",
    ),
    (
        &["--end=no"],
        "unexpected value 'no' for '--end' found; no more were expected\n",
    ),
    (
        &["--workers", "0"],
        "invalid value '0' for '--workers <N>': 0 is not in 1..=16\n",
    ),
    (
        &["--workers", "17"],
        "invalid value '17' for '--workers <N>': 17 is not in 1..=16\n",
    ),
    (
        &["--workers", "4294967312"],
        "invalid value '4294967312' for '--workers <N>': 4294967312 is not in 1..=16\n",
    ),
    (&["--workers", "-1"], "unexpected argument '-1' found\n"),
    (
        &["--workers", "two"],
        "invalid value 'two' for '--workers <N>': invalid digit found in string\n",
    ),
    (
        &["--workers", ""],
        "invalid value '' for '--workers <N>': cannot parse integer from empty string\n",
    ),
    (
        &["--workers"],
        "a value is required for '--workers <N>' but none was supplied\n",
    ),
    (
        &["--workers", "2", "--workers", "2"],
        "the argument '--workers <N>' cannot be used multiple times\n",
    ),
    (
        &["--piece", "0"],
        "invalid value '0' for '--piece <N>': 0 is not in 1..=1048576\n",
    ),
    (
        &["--piece", "1048577"],
        "invalid value '1048577' for '--piece <N>': 1048577 is not in 1..=1048576\n",
    ),
    (
        &["--piece", "1", "--piece", "1"],
        "the argument '--piece <N>' cannot be used multiple times\n",
    ),
    (
        &["--except"],
        "a value is required for '--except <LABEL>' but none was supplied\n",
    ),
    (
        &["--except", "a", "--except"],
        "a value is required for '--except <LABEL>' but none was supplied\n",
    ),
    (
        &["--only"],
        "a value is required for '--only <LABEL>' but none was supplied\n",
    ),
    (
        &["--only", "a", "--except", "b"],
        "the argument '--only <LABEL>' cannot be used with '--except <LABEL>'\n",
    ),
    (
        &["--except", "", "a", "--only", "b"],
        "the argument '--only <LABEL>' cannot be used with '--except <LABEL>'\n",
    ),
    (
        &["--order", "--order"],
        "the argument '--order' cannot be used multiple times\n",
    ),
    (
        &["--order=yes"],
        "unexpected value 'yes' for '--order' found; no more were expected\n",
    ),
    (
        &["--long", "--long"],
        "the argument '--long' cannot be used multiple times\n",
    ),
    (
        &["--long=yes"],
        "unexpected value 'yes' for '--long' found; no more were expected\n",
    ),
    (
        &["--long", "--order"],
        "the argument '--long' cannot be used with '--order', which keeps each transaction\n",
    ),
    (
        &["--order", "a", "--long", "--except", ""],
        "the argument '--long' cannot be used with '--order', which keeps each transaction\n",
    ),
    (
        &["--format"],
        "a value is required for '--format <FORM>' but none was supplied\n",
    ),
    (
        &["--format", "JSON"],
        "invalid value for '--format <FORM>': it takes text or json\n",
    ),
    (
        &["--format", "json", "--format", "json"],
        "the argument '--format <FORM>' cannot be used multiple times\n",
    ),
    (
        &["--progress", "--progress"],
        "the argument '--progress' cannot be used multiple times\n",
    ),
    (
        &["--quiet", "--quiet"],
        "the argument '--quiet' cannot be used multiple times\n",
    ),
    (
        &["--quiet=true"],
        "unexpected value 'true' for '--quiet' found; no more were expected\n",
    ),
    (
        &["--files0-from"],
        "a value is required for '--files0-from <LIST>' but none was supplied\n",
    ),
    (
        &["--files0-from", "a", "--files0-from", "a"],
        "the argument '--files0-from <LIST>' cannot be used multiple times\n",
    ),
    (
        &["--files0-from", "a", "b"],
        "the argument '--files0-from <LIST>' cannot be used with '[FILE]...'\n",
    ),
    (
        &["b", "--label", "c", "--files0-from", "a", "--except", ""],
        "the argument '--files0-from <LIST>' cannot be used with '[FILE]...'\n",
    ),
    (
        &["--label"],
        "a value is required for '--label <NAME>' but none was supplied\n",
    ),
    (
        &["--label", "a", "--label", "a"],
        "the argument '--label <NAME>' cannot be used multiple times\n",
    ),
    (
        &["--label", "a", "b"],
        "the argument '--label <NAME>' cannot be used with '[FILE]...'\n",
    ),
    (
        &["-", "--label", "a"],
        "the argument '--label <NAME>' cannot be used with '[FILE]...'\n",
    ),
    (
        &["--label", "a", "--files0-from", "-"],
        "the argument '--label <NAME>' cannot be used with '--files0-from <LIST>'\n",
    ),
    (
        &["--fail-open", "--fail-open"],
        "the argument '--fail-open' cannot be used multiple times\n",
    ),
    (
        &["--fail-open=true"],
        "unexpected value 'true' for '--fail-open' found; no more were expected\n",
    ),
    (&["--nothing"], "unexpected argument '--nothing' found\n"),
    (&["-x"], "unexpected argument '-x' found\n"),
    (
        &["--nothing", "--help"],
        "unexpected argument '--nothing' found\n",
    ),
];

#[test]
fn the_words_that_are_refused(rt: HostRuntime) {
    assert_eq!(rt; first_not_refused(rt.alloc(), &REFUSED), None);
}
