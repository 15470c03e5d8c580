//! The name of bytes that are one.
ghost use Rattle.std.specs.Prelude.{◌≡◌, ◌<◌, length, IfOk, OnErr};
ghost use Rattle.aero_grammar.specs.Words.{IsName};
ghost use Rattle.aero_model.specs.Names.{most_inline_bytes};

use aero_model::{Name, NameFault};
use std::alloc::{AllocError, Global};

/// The name with these bytes, which takes no memory up to 16 of them.
///
/// # Errors
///
/// `AllocError` if memory was refused to a longer one.
pub fn named(alloc: Global, bytes: &[u8]) -> Result<Name, AllocError>
    requires { IsName bytes.now }
    ensures name { IfOk result (λ name. name ≡ bytes.now) }
    ensures long { OnErr result (most_inline_bytes < length bytes.now) }
{
    match Name::read(alloc, bytes) {
        Ok(name) => Ok(name),
        Err(NameFault::Memory) => Err(AllocError),
        Err(NameFault::Empty | NameFault::TooLong | NameFault::BadByte) => unreachable!(),
    }
}
