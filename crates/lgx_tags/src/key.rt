// Names in their scopes, as they are looked up.
ghost use Rattle.std.specs.Prelude.{◌≡◌, ◌≤◌, fold, length};
ghost use Rattle.spec_base.specs.declared.limits.TheConstants.{MAX_TAG_NAME_BYTES};
ghost use Rattle.lgx_tags.specs.KeyHashes.{program_writes};
ghost use Rattle.lgx_tags.specs.Keys.{key_of, program_of, lowered};

use spec_base::limits::MAX_TAG_NAME_BYTES;
use spec_language::Scope;
use std::hash::{Hash, Hasher};

/// A name in its scope, in lower case, so that names that differ in case alone have one key. It takes no memory.
#[derive(Clone, Copy, PartialEq, Eq)]
pub(crate) struct Key {
    program: Option<u32>,
    len: usize,
    bytes: [u8; MAX_TAG_NAME_BYTES],
}

fn program_of(scope: Scope) -> Option<u32>
    ensures { result ≡ program_of scope }
{
    match scope {
        Scope::Controller => None,
        Scope::Program(program) => Some(program),
    }
}

fn lowered(name: &[u8]) -> [u8; MAX_TAG_NAME_BYTES]
    requires { length name.now ≤ MAX_TAG_NAME_BYTES }
    ensures { result ≡ lowered name.now }
{
    let mut bytes = [0u8; MAX_TAG_NAME_BYTES];
    bytes[..name.len()].copy_from_slice(name);
    bytes.make_ascii_lowercase();
    bytes
}

impl Key {
    /// The key of a name that isn't too long.
    pub(crate) fn of(scope: Scope, name: &[u8]) -> Key
        requires { length name.now ≤ MAX_TAG_NAME_BYTES }
        ensures { result ≡ key_of scope name.now }
    {
        Key {
            program: program_of(scope),
            len: name.len(),
            bytes: lowered(name),
        }
    }
}

/// Hashes the number of a program, if there is one.
fn hash_program<H: Hasher>(program: Option<u32>, state: &mut H)
    ensures { state.new ≡ fold H.write state.old (program_writes program) }
{
    if let Some(program) = program {
        state.write_u32(program);
    }
}

impl Hash for Key {
    ghost use Rattle.lgx_tags.specs.KeyHashes.{key_writes, equal_writes};

    ghost hash_input = { key_writes };

    ghost respects_eq = { equal_writes };

    /// The name's bytes in one piece, and the program: programs often have names in common.
    fn hash<H: Hasher>(&self, state: &mut H) {
        let len = self.len.min(MAX_TAG_NAME_BYTES);
        state.write(&self.bytes[..len]);
        hash_program(self.program, state);
    }
}
