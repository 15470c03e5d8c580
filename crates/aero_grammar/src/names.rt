// The names in a line.
ghost use Rattle.std.specs.Prelude.{◌≡◌, ◌<◌, length, None, IfOk, OnErr};
ghost use Rattle.aero_model.specs.Names.{name_fault, most_inline_bytes};
ghost use Rattle.aero_grammar.specs.Meaning.{is_long_name as is_long};

use aero_model::name::MOST_NAME_BYTES;
use aero_model::{Name, NameFault};
use std::alloc::{AllocError, Global};

#[inline(always)]
pub fn is_long_name(name: &[u8]) -> bool
    ensures { result ≡ is_long name.now }
{
    name.len() > MOST_NAME_BYTES
}

// The name of bytes that are one. It is refused only where it has over 16 bytes.
#[inline(always)]
pub fn read_name(alloc: Global, bytes: &[u8]) -> Result<Name, AllocError>
    requires { name_fault bytes.now ≡ None }
    ensures name { IfOk result (λ name. name ≡ bytes.now) }
    ensures refused { OnErr result (most_inline_bytes < length bytes.now) }
{
    match Name::read(alloc, bytes) {
        Ok(name) => Ok(name),
        Err(NameFault::Memory) => Err(AllocError),
        Err(NameFault::Empty) => unreachable!(),
        Err(NameFault::TooLong) => unreachable!(),
        Err(NameFault::BadByte) => unreachable!(),
    }
}
