// The merged rungs of a routine, in time that grows with the base and the changes.
ghost use Rattle.std.specs.Prelude.{◌≡◌, ◌+◌, [], ◌∷◌, ◌++◌, length, map, filter_map, fold, replicate, option_map, unwrap_or, IfOk, OnOk};
ghost use Rattle.spec_language.specs.Checked.{CheckScope};
ghost use Rattle.spec_machine.specs.Edits.{merged, change_in};
ghost use Rattle.lgx_edit.specs.declared.pick.Pick.TheVariants.{Old, New};
ghost use Rattle.lgx_edit.specs.Shared.{sources};
ghost use Rattle.lgx_edit.specs.Picks.{pick_sources, AreKnown, ArePicksKnown};
ghost use Rattle.lgx_edit.specs.Texts.{change_of, accepted_of};
ghost use Rattle.lgx_edit.specs.Merging.{nothing_around, inserted, taken, with_change, instead_of, put_around, woven, rest_of};

use crate::changes::{KeptEdit, RungChange};
use crate::pick::Pick;
use crate::shared::SharedRung;
use lgx_num::Memory;
use lgx_rung::SourceRung;
use std::alloc::Global;
use std::marker::Model;

/// What comes in place of a rung: itself, nothing if it was deleted, or another if it was replaced.
#[derive(Drop)]
pub enum Instead {
    Itself,
    Nothing,
    Other(SourceRung),
}

/// What changes put around a rung: the rungs before it, in the order in which they were accepted, and what comes in its place.
#[derive(Drop)]
pub struct Around {
    before: Vec<SourceRung>,
    instead: Instead,
}

impl Model for Around {
    ghost use Rattle.std.specs.Coded.{codes};
    ghost use Rattle.lgx_edit.specs.Merging.{AroundView, instead_of};
    ghost use Rattle.lgx_edit.specs.Codes.{around_code};

    ghost Value = { AroundView };

    ghost coded = { around_code (Prim.hlevel codes) };

    ghost view = { λ a. record { before = a.before.items; instead = instead_of a.instead } };
}

/// Adds new rungs.
fn add_new(picks: &mut Vec<Pick>, rungs: Vec<SourceRung>) -> Result<(), Memory>
    ensures { OnOk result (picks.new.items ≡ picks.old.items ++ map New rungs.items) }
{
    for rung in rungs {
        picks.push(Pick::New(rung))?;
    }
    Ok(())
}

/// Adds what comes in place of a rung.
fn add_instead(picks: &mut Vec<Pick>, instead: Instead, rung: &SharedRung) -> Result<(), Memory>
    ensures { OnOk result (picks.new.items ≡ picks.old.items ++ unwrap_or (option_map (map New) (instead_of instead)) (Old rung.now ∷ [])) }
{
    match instead {
        Instead::Itself => picks.push(Pick::Old(rung.again()?))?,
        Instead::Nothing => {}
        Instead::Other(other) => picks.push(Pick::New(other))?,
    }
    Ok(())
}

impl Around {
    fn new(alloc: Global) -> Around
        ensures { result ≡ nothing_around }
    {
        Around {
            before: Vec::new(alloc),
            instead: Instead::Itself,
        }
    }

    /// Puts a rung before this one, after those that are there.
    fn insert(&mut self, rung: SourceRung) -> Result<(), Memory>
        ensures { OnOk result (self.new ≡ inserted rung self.old) }
    {
        self.before.push(rung)?;
        Ok(())
    }

    /// Puts something in place of this rung. What was put there first stays.
    fn take(&mut self, instead: Instead)
        ensures { self.new ≡ taken (instead_of instead) self.old }
    {
        if let Instead::Itself = self.instead {
            self.instead = instead;
        }
    }

    /// Adds the first of these rungs, with all that is put around it, to the picked ones; after the last rung there is none.
    fn add_to(self, picks: &mut Vec<Pick>, rest: &[SharedRung]) -> Result<(), Memory>
        ensures { OnOk result (picks.new.items ≡ picks.old.items ++ put_around rest.now self) }
    {
        let Around { before, instead } = self;
        add_new(picks, before)?;
        match rest {
            [] => Ok(()),
            [rung, ..] => add_instead(picks, instead, rung),
        }
    }
}

/// Nothing but the rungs themselves: one place for each rung, and one after the last.
fn places(alloc: Global, rungs: &[SharedRung]) -> Result<Vec<Around>, Memory>
    ensures { IfOk result (λ places. places.items ≡ replicate (length rungs.now + 1) nothing_around) }
{
    let mut places = Vec::with_capacity(alloc, rungs.len())?;
    for _rung in rungs {
        places.push(Around::new(alloc))?;
    }
    places.push(Around::new(alloc))?;
    Ok(places)
}

/// Puts a change where it belongs.
fn put(alloc: Global, places: &mut [Around], change: &RungChange) -> Result<(), Memory>
    ensures { OnOk result (places.new ≡ with_change places.old (change_of change.now)) }
{
    let at = match change {
        RungChange::Replace(rung, _) => *rung as usize,
        RungChange::Insert(rung, _) => *rung as usize,
        RungChange::Delete(rung) => *rung as usize,
    };
    if at >= places.len() {
        return Ok(());
    }
    match change {
        RungChange::Replace(_, new) => places[at].take(Instead::Other(new.copied(alloc)?)),
        RungChange::Insert(_, new) => places[at].insert(new.copied(alloc)?)?,
        RungChange::Delete(_) => places[at].take(Instead::Nothing),
    }
    Ok(())
}

/// Puts the changes of a routine where they belong, in order.
fn put_all(
    alloc: Global,
    places: &mut [Around],
    edits: &[KeptEdit],
    routine: u32,
) -> Result<(), Memory>
    ensures { OnOk result (places.new ≡ fold with_change places.old (filter_map (change_in routine) (map accepted_of edits.now))) }
{
    for kept in edits {
        if kept.routine == routine {
            put(alloc, places, &kept.change)?;
        }
    }
    Ok(())
}

/// The rungs after the first of these.
fn others(rungs: &[SharedRung]) -> &[SharedRung]
    ensures { result.now ≡ rest_of rungs.now }
{
    match rungs {
        [] => rungs,
        [_, others @ ..] => others,
    }
}

/// The rungs of the base with all that is put around them.
fn weave(alloc: Global, base: &[SharedRung], places: Vec<Around>) -> Result<Vec<Pick>, Memory>
    ensures { IfOk result (λ picks. picks.items ≡ woven base.now places.items) }
{
    let mut picks = Vec::with_capacity(alloc, base.len())?;
    let mut rest = base;
    for around in places {
        around.add_to(&mut picks, rest)?;
        rest = others(rest);
    }
    Ok(picks)
}

/// The merged rungs of a routine: its base with the accepted edits, and then with these new ones. Each rung of the base that is
/// left is picked as it is.
pub fn merged_rungs(
    alloc: Global,
    base: &[SharedRung],
    accepted: &[KeptEdit],
    new: &[KeptEdit],
    routine: u32,
) -> Result<Vec<Pick>, Memory>
    ensures sources { IfOk result (λ picks. pick_sources picks.items ≡ merged (sources base.now) (filter_map (change_in routine) (map accepted_of accepted.now) ++ filter_map (change_in routine) (map accepted_of new.now))) }
    ensures known { IfOk result (λ picks. (scope : CheckScope) → AreKnown scope base.now → ArePicksKnown scope picks.items) }
{
    let mut places = places(alloc, base)?;
    put_all(alloc, &mut places, accepted, routine)?;
    put_all(alloc, &mut places, new, routine)?;
    weave(alloc, base, places)
}
