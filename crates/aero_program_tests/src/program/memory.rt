//! Files in memory, which tell their bytes and never fail.
ghost use Rattle.std.specs.Prelude.{⊤, Some};
ghost use Rattle.aero_program.specs.Laws.{KnownFilesAreJudged};

use crate::program::{SOUND, Wanted, config_of, is_answered};
use aero_program::files::{Opened, Opener};
use aero_program::laws::known_files_are_judged;
use aero_program::stamp::Stamp;
use std::io;
use std::io::Read;
use std::test::Fail;

// Files of one text, at each path. They are no plain files.
#[derive(Drop)]
struct Memory {
    text: &'static [u8],
}

impl Opener for Memory {
    ghost can_open = { λ _. ⊤ };

    ghost can_fail = { λ _. ⊥ };

    ghost known = { λ memory _. Some memory.text.now };

    ghost holds = { λ _ _ _. ⊤ };

    type File = &'static [u8];

    fn open(&self, _path: &str) -> io::Result<Opened<&'static [u8]>> {
        Ok(Opened {
            file: self.text,
            stamp: None,
        })
    }

    fn read_file(file: &mut &'static [u8], buf: &mut [u8]) -> io::Result<usize> {
        file.read(buf)
    }

    fn open_again(&self, path: &str) -> io::Result<Opened<&'static [u8]>> {
        self.open(path)
    }

    fn look(&self, _path: &str) -> Option<Stamp> {
        None
    }
}

// The headline, for files in memory: whatever the program is asked about files that words name, and whatever the system does to
// its threads, its memory and its output, what it tells of a file is what the definitions say of its whole text. `can_fail` is
// false of each path, and `known` has the text.
#[allow(dead_code)]
fn files_in_memory_are_judged()
    ensures { KnownFilesAreJudged (λ _. ⊥) (λ _ _ _. ⊤) }
{
    known_files_are_judged::<Memory>();
}

// A file in memory is read to its end, and judged by all its lines. Standard input isn't touched.
#[test]
fn files_in_memory_are_read_to_their_ends(rt: HostRuntime) -> Result<(), Fail> {
    for (text, wanted) in [(VIOLATION, VIOLATED), (OPEN, PENDING)] {
        let asked = config_of(rt.alloc(), Some("a"), false)?;
        assert!(rt; is_answered(rt, &Memory { text }, Ok(asked), b"T1|odd\n", &SOUND, wanted));
    }
    Ok(())
}

// Where blocks that are open are to end, it is judged with their ends.
#[test]
fn open_blocks_of_files_in_memory_end(rt: HostRuntime) -> Result<(), Fail> {
    let mut asked = config_of(rt.alloc(), Some("a"), false)?;
    asked.end = true;
    assert!(rt;
        is_answered(
            rt,
            &Memory { text: OPEN },
            Ok(asked),
            b"T1|odd\n",
            &SOUND,
            ENDED
        )
    );
    Ok(())
}

const VIOLATION: &[u8] = b"T1|begin\nT1|w(x)\nT2|w(x)\nT1|w(x)\nT1|end\n";

const VIOLATED: Wanted = (
    b"a: violation at line 4: block of T1 from line 1\n\
        traces 1: serializable 0, open 0, violations 1, faults 0\n",
    b"",
    1,
);

const OPEN: &[u8] = b"T1|begin\nT1|w(x)";

const PENDING: Wanted = (
    b"a: no violation, 1 blocks open (2 events, 1 blocks)\n\
        traces 1: serializable 0, open 1, violations 0, faults 0\n",
    b"",
    0,
);

const ENDED: Wanted = (
    b"a: serializable (3 events, 1 blocks)\n\
        traces 1: serializable 1, open 0, violations 0, faults 0\n",
    b"",
    0,
);
