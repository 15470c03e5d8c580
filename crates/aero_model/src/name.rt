//! Names of threads, variables and locks.
ghost use Rattle.std.specs.Prelude.{◌≡◌};
ghost use Rattle.std.specs.List.{list_any};
ghost use Rattle.std.specs.Prelude.{bytes_eq};
ghost use Rattle.std.proofs.Common.{ap};
ghost use Rattle.std.specs.Cmp.{partial_equiv_from_equiv};
ghost use Rattle.std.specs.Cmp.Lexicographic.{bytes_decides, nat_list_eq_equiv};
ghost use Rattle.std.specs.Hash as fed;
ghost use Rattle.aero_model.specs.Names.{is_barred as is_barred_byte};

use crate::bytes::is_bad_byte;
use indexmap::Equivalent;
use smallvec::SmallVec;
use std::alloc::Global;
use std::hash::{Hash, Hasher};
use std::marker::Model;
use thiserror::Error;

/// Why bytes are no name, in the order of the checks.
#[derive(Clone, Copy, Debug, PartialEq, Eq, Error)]
pub enum NameFault {
    #[error("a name is empty")]
    Empty,
    #[error("a name has more than 255 bytes")]
    TooLong,
    #[error("a name has a `|` or a control byte")]
    BadByte,
    #[error("out of memory")]
    Memory,
}

/// The name of a thread, a variable or a lock: 1 to 255 bytes, none of them `|`, 0 to 8, 10 to 31
/// or 127. Bytes from 128 on are allowed and have no meaning. Up to 16 bytes need no allocation.
#[derive(Drop)]
pub struct Name {
    bytes: SmallVec<u8, 16>,
}

impl Model for Name {
    ghost use Rattle.std.specs.Prelude.{◌≡◌, ℕ, List, None};
    ghost use Rattle.aero_model.specs.Names.{name_fault};

    ghost Value = { List ℕ };

    ghost view = { λ name. name.bytes.items };

    ghost invariant = { λ name. name_fault name.bytes.items ≡ None };
}

/// How many bytes a name has at most.
pub const MOST_NAME_BYTES: usize = 255;

impl Name {
    ghost use Rattle.std.specs.Prelude.{◌≡◌};
    ghost use Rattle.aero_model.specs.Names.{TellsName};

    /// The name of these bytes, or the first fault that they have. `NameFault::Memory` comes last,
    /// and only for a name of more than 16 bytes.
    pub fn read(alloc: Global, bytes: &[u8]) -> Result<Name, NameFault>
        ensures { TellsName result bytes.now }
    {
        if bytes.is_empty() {
            return Err(NameFault::Empty);
        }
        if bytes.len() > MOST_NAME_BYTES {
            return Err(NameFault::TooLong);
        }
        if has_barred_byte(bytes) {
            return Err(NameFault::BadByte);
        }
        match SmallVec::from_slice(alloc, bytes) {
            Ok(bytes) => Ok(Name { bytes }),
            Err(_) => Err(NameFault::Memory),
        }
    }

    /// The bytes of the name.
    pub fn bytes(&self) -> &[u8]
        ensures { result.now ≡ self.now }
    {
        self.bytes.as_slice()
    }
}

impl PartialEq for Name {
    ghost eq = { bytes_eq };

    ghost laws = { partial_equiv_from_equiv nat_list_eq_equiv };

    fn eq(&self, other: &Name) -> bool {
        self.bytes() == other.bytes()
    }
}

impl Eq for Name {
    ghost laws = { nat_list_eq_equiv };
}

impl Hash for Name {
    ghost hash_input = { λ name. fed.slice fed.u8 name };

    ghost respects_eq = { λ a b h. ap (fed.slice fed.u8) ((bytes_decides a b).0 h) };

    fn hash<H: Hasher>(&self, state: &mut H) {
        self.bytes().hash(state);
    }
}

// A name in a set is found by its bytes.
impl Equivalent<Name> for &[u8] {
    ghost equivalent = { λ bytes name. bytes_eq bytes.now name };

    ghost respects_hash = { λ bytes name h. ap (fed.slice fed.u8) ((bytes_decides bytes.now name).0 h) };

    ghost respects_eq = { λ bytes a b. nat_list_eq_equiv.congr bytes.now a b };

    fn equivalent(&self, name: &Name) -> bool {
        *self == name.bytes()
    }
}

// Whether one of the bytes stands in no name.
fn has_barred_byte(bytes: &[u8]) -> bool
    ensures { result ≡ list_any is_barred_byte bytes.now }
{
    bytes.iter().any(|byte| is_barred(*byte))
}

// Whether no name has the byte.
#[inline(always)]
fn is_barred(byte: u8) -> bool
    ensures { result ≡ is_barred_byte byte }
{
    is_bad_byte(byte) || byte == b'|'
}
