// Names in order, and the number of the first of each spelling.
ghost use Rattle.std.specs.Prelude.{◌^◌, ◌≡◌, ◌<◌, ◌≤◌, [], ◌∷◌, ◌++◌, length, map, if◌then◌else◌, option_map, position, slice_index, take, vec_len, vec_capacity, IfSome, OnErr, OnOk};
ghost use Rattle.std.specs.Char.{to_ascii_lowercase};
ghost use Rattle.lgx_num.specs.Name.{same};
ghost use Rattle.spec_base.specs.declared.limits.TheConstants.{MAX_NAME_BYTES};

use indexmap::IndexSet;
use lgx_num::{Memory, Name};
use spec_base::limits::MAX_NAME_BYTES;
use std::alloc::Global;
use std::marker::Model;

/// Names in the order in which they were added, seen as a list of their bytes.
///
/// The spellings are the names in lower case, each once; beside them are the numbers of the first names that are spelled so.
pub struct NameIndex {
    alloc: Global,
    names: Vec<Name>,
    spellings: IndexSet<Vec<u8>>,
    firsts: Vec<u32>,
}

impl Drop for NameIndex {
    fn drop(self) {
        let NameIndex {
            alloc: _,
            names: _,
            spellings: _,
            firsts: _,
        } = self;
    }
}

impl Model for NameIndex {
    ghost use Rattle.std.specs.Prelude.{ℕ, List};
    ghost use Rattle.lgx_types.specs.Spellings.{IsIndex};

    ghost Value = { List (List ℕ) };

    ghost view = { λ n. n.names.items };

    ghost invariant = { λ n. IsIndex n.names.items n.spellings.keys n.firsts.items };
}

impl NameIndex {
    /// No names.
    pub fn new(alloc: Global) -> NameIndex
        ensures { result ≡ [] }
    {
        NameIndex {
            alloc,
            names: Vec::new(alloc),
            spellings: IndexSet::new(alloc),
            firsts: Vec::new(alloc),
        }
    }

    /// How many names there are.
    pub fn len(&self) -> usize
        ensures { result ≡ length self.now }
    {
        self.names.len()
    }

    /// Adds a name after the others, also if it is the same as one of them.
    pub fn push(&mut self, name: &Name) -> Result<(), Memory>
        requires { length self.old < 2 ^ 32 }
        ensures ok { OnOk result (self.new ≡ self.old ++ name.now ∷ []) }
        ensures err { OnErr result (self.new ≡ self.old) }
    {
        let spelling = name.bytes().to_ascii_lowercase(self.alloc)?;
        let number = self.names.len() as u32;
        self.names.reserve(1)?;
        self.firsts.reserve(1)?;
        let is_new = self.spellings.insert(spelling)?;
        let _ = self.names.push(name.copied());
        push_if(&mut self.firsts, is_new, number);
        Ok(())
    }

    /// The number of the first name that is the same as the text; case doesn't matter. It takes no memory.
    pub fn find(&self, text: &[u8]) -> Option<u32>
        ensures number { result ≡ position (λ name. same name text.now) self.now }
        ensures within { IfSome result (λ i. i < length self.now) }
    {
        let spellings = &self.spellings;
        if text.len() > MAX_NAME_BYTES {
            return None;
        }
        let room = lowered(text);
        let place = spellings.get_index_of(&room[..text.len()]);
        number(&self.firsts, place)
    }
}

/// Pushes the number if it is of a new spelling. There is room for it.
fn push_if(firsts: &mut Vec<u32>, is_new: bool, number: u32)
    requires { vec_len firsts.old < vec_capacity firsts.old }
    ensures { firsts.new.items ≡ (if is_new then firsts.old.items ++ number ∷ [] else firsts.old.items) }
{
    if is_new {
        let _ = firsts.push(number);
    }
}

/// The text in lower case, in the first bytes of the room.
fn lowered(text: &[u8]) -> [u8; MAX_NAME_BYTES]
    requires { length text.now ≤ MAX_NAME_BYTES }
    ensures { take (length text.now) result ≡ map to_ascii_lowercase text.now }
{
    let mut room = [0u8; MAX_NAME_BYTES];
    let key = &mut room[..text.len()];
    key.copy_from_slice(text);
    key.make_ascii_lowercase();
    room
}

/// The number at a place.
fn number(firsts: &[u32], place: Option<usize>) -> Option<u32>
    requires { IfSome place (λ k. k < length firsts.now) }
    ensures { result ≡ option_map (λ k. slice_index firsts.now k) place }
{
    match place {
        Some(place) => Some(firsts[place]),
        None => None,
    }
}
