// Where the tags lie in the image.
ghost use Rattle.std.specs.Prelude.{◌≡◌, ◌+◌, ◌*◌, ◌<◌, ◌≤◌, ◌++◌, [], ◌∷◌, length, flat_map, replicate, slice_set, slice_index_or, IfOk, OnOk};
ghost use Rattle.std.specs.List.{AllByRecursion as Each};
ghost use Rattle.spec_base.specs.declared.limits.TheConstants.{MAX_IMAGE_BYTES};
ghost use Rattle.spec_language.specs.Layout.{round_up};
ghost use Rattle.lgx_types.specs.Tables.{HasSize};
ghost use Rattle.lgx_tags.specs.Scopes.{IsScopeOf};
ghost use Rattle.lgx_tags.specs.Layouts.{IsOfEntries, slot_of, with_entry, rows_of, place_tags, place_tags_end, known_from};
ghost use Rattle.lgx_tags.specs.Chains.{found_at};

use crate::entry::Entry;
use lgx_num::{Memory, Steps};
use lgx_types::TypeTable;
use spec_language::{DataType, Found, Scope, TagCode};
use std::alloc::Global;
use std::marker::Model;

/// A tag's number among the entries, and its type.
#[derive(Clone, Copy)]
pub(crate) struct NumberedTag {
    pub(crate) entry: usize,
    pub(crate) of: DataType,
}

/// A tag where it lies: from byte `start` on, up to byte `end`.
#[derive(Clone, Copy)]
pub(crate) struct PlacedTag {
    pub(crate) entry: usize,
    pub(crate) of: DataType,
    pub(crate) start: u32,
    pub(crate) end: u32,
}

/// A place that no subscript moves: its first bit, its type, and the byte after its tag.
#[derive(Clone, Copy)]
pub(crate) struct FixedPlace {
    pub(crate) at: u32,
    pub(crate) of: DataType,
    pub(crate) stop: u32,
}

impl FixedPlace {
    /// The place as it is found.
    #[inline(always)]
    pub(crate) fn found(self) -> Found
        ensures { result ≡ found_at self }
    {
        Found {
            at: self.at,
            steps: Steps::new(),
            of: self.of,
            stop: self.stop,
        }
    }
}

/// What an entry stands for, as far as it is known: an alias is G7 until its chain is walked.
pub(crate) type Resolved = Result<FixedPlace, TagCode>;

/// The tags of one scope.
#[derive(Drop)]
pub(crate) struct ScopeTags {
    tags: Vec<NumberedTag>,
}

impl Model for ScopeTags {
    ghost use Rattle.std.specs.Prelude.{List};
    ghost use Rattle.lgx_tags.specs.declared.layout.NumberedTag.{NumberedTag};

    ghost Value = { List NumberedTag };

    ghost view = { λ r. r.tags.items };
}

impl ScopeTags {
    fn new(alloc: Global) -> ScopeTags
        ensures { result ≡ [] }
    {
        ScopeTags {
            tags: Vec::new(alloc),
        }
    }

    fn push(&mut self, tag: NumberedTag) -> Result<(), Memory>
        ensures { OnOk result (self.new ≡ self.old ++ tag ∷ []) }
    {
        self.tags.push(tag)?;
        Ok(())
    }

    fn as_slice(&self) -> &[NumberedTag]
        ensures { result.now ≡ self.now }
    {
        &self.tags
    }
}

/// The least multiple of 4 that isn't below a number.
pub(crate) fn round_up(n: u32) -> u32
    requires { n < 4294967292 }
    ensures { result ≡ round_up 4 n }
{
    (n + 3) / 4 * 4
}

/// The place of a scope in the order of the layout.
fn slot_of(scope: Scope) -> usize
    ensures { result ≡ slot_of scope }
{
    match scope {
        Scope::Controller => 0,
        Scope::Program(program) => program as usize + 1,
    }
}

fn empty_rows(alloc: Global, count: usize) -> Result<Vec<ScopeTags>, Memory>
    ensures { IfOk result (λ rows. rows.items ≡ replicate count []) }
{
    let mut rows = Vec::with_capacity(alloc, count)?;
    for _ in 0..count {
        rows.push(ScopeTags::new(alloc))?;
    }
    Ok(rows)
}

fn put(rows: &mut Vec<ScopeTags>, slot: usize, tag: NumberedTag) -> Result<(), Memory>
    requires { slot < length rows.old.items }
    ensures { OnOk result (rows.new.items ≡ slice_set rows.old.items slot (slice_index_or rows.old.items slot [] ++ tag ∷ [])) }
{
    rows[slot].push(tag)
}

/// Puts the entry of a number after the tags of its scope, if it is a tag.
fn put_entry(rows: &mut Vec<ScopeTags>, number: usize, entry: &Entry) -> Result<(), Memory>
    requires { slot_of entry.now.scope < length rows.old.items }
    ensures { OnOk result (rows.new.items ≡ with_entry rows.old.items number entry.now.scope entry.now.meaning) }
{
    match entry.tag_type() {
        Some(of) => put(
            rows,
            slot_of(entry.scope()),
            NumberedTag { entry: number, of },
        ),
        None => Ok(()),
    }
}

/// The tags of each scope.
pub(crate) fn by_scope(
    alloc: Global,
    entries: &[Entry],
    programs: u32,
) -> Result<Vec<ScopeTags>, Memory>
    requires placed { Each (λ e. IsScopeOf programs e.scope) entries.now }
    ensures rows { IfOk result (λ rows. rows.items ≡ rows_of entries.now programs) }
{
    let mut rows = empty_rows(alloc, programs as usize + 1)?;
    for (i, entry) in entries.iter().enumerate() {
        put_entry(&mut rows, i, entry)?;
    }
    Ok(rows)
}

/// The tags of all scopes, one scope after the other.
pub(crate) fn in_order(alloc: Global, rows: &[ScopeTags]) -> Result<Vec<NumberedTag>, Memory>
    ensures { IfOk result (λ order. order.items ≡ flat_map (λ row. row) rows.now) }
{
    let mut order = Vec::new(alloc);
    for row in rows {
        order.extend_from_slice(row.as_slice())?;
    }
    Ok(order)
}

/// Lays tags one after the other, each at the next multiple of 4.
pub(crate) fn place_tags(
    alloc: Global,
    types: &TypeTable,
    order: &[NumberedTag],
) -> Result<Vec<PlacedTag>, Memory>
    requires sized { Each (λ t. HasSize types.now t.of) order.now }
    requires room { place_tags_end types.now 0 order.now ≤ MAX_IMAGE_BYTES }
    ensures laid { IfOk result (λ laid. laid.items ≡ place_tags types.now 0 order.now) }
{
    let mut laid = Vec::with_capacity(alloc, order.len())?;
    let mut at = 0;
    for tag in order {
        let end = at + types.size_of(tag.of);
        laid.push(PlacedTag {
            entry: tag.entry,
            of: tag.of,
            start: at,
            end,
        })?;
        at = round_up(end);
    }
    Ok(laid)
}

/// What is known of `count` entries when these tags are laid.
pub(crate) fn known_from(
    alloc: Global,
    count: usize,
    laid: &[PlacedTag],
) -> Result<Vec<Resolved>, Memory>
    requires within { Each (IsOfEntries count) laid.now }
    ensures { IfOk result (λ known. known.items ≡ known_from count laid.now) }
{
    let mut known = vec![in alloc; Err(TagCode::G7); count]?;
    for tag in laid {
        known[tag.entry] = Ok(FixedPlace {
            at: 8 * tag.start,
            of: tag.of,
            stop: tag.end,
        });
    }
    Ok(known)
}
