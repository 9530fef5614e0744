// A history, and the sights of it.
ghost use Rattle.std.specs.Prelude.{◌≡◌, [], IfOk};
ghost use mathlib.Core.List.{IsPrefix};
ghost use Rattle.lgx_history.specs.Histories.{history_view};

use crate::rule::{Ahead, Beginnings, GoesOn, Known, Shows};
use atomic_table::{Seat, Table};
use lgx_journal::Journal;
use lgx_num::Memory;
use std::alloc::Global;
use std::marker::{Brand, Model};
use std::mem;

/// What one thread has seen of a history. It has no bytes.
#[derive(Drop)]
pub struct SeenToken {
    seat: Seat<(), Known>,
}

impl Model for SeenToken {
    ghost use Rattle.std.specs.Prelude.{◌≡◌, []};
    ghost use Rattle.std.specs.Coded.{codes};
    ghost use Rattle.lgx_history.specs.Histories.{HistoryView, history_view, history_code};

    ghost Value = { HistoryView };

    ghost coded = { history_code (Prim.hlevel codes) };

    ghost view = { λ s. history_view s.seat.table_id s.seat.me.0.seen };

    ghost invariant = { λ s. s.seat.me.1 ≡ [] };
}

/// All events so far.
pub struct History {
    table: Table<(), Known, (), Beginnings, Global>,
    keeper: Seat<(), Known>,
}

impl Drop for History {
    fn drop(self) {
        let History {
            table: _,
            keeper: _,
        } = self;
    }
}

impl Model for History {
    ghost use Rattle.std.specs.Prelude.{◌≡◌, []};
    ghost use Rattle.std.specs.Coded.{codes};
    ghost use Rattle.lgx_history.specs.Histories.{HistoryView, history_view, history_code};
    ghost use Rattle.lgx_history.specs.Seats.{knower};

    ghost Value = { HistoryView };

    ghost coded = { history_code (Prim.hlevel codes) };

    ghost view = { λ h. history_view h.table.shared.table_id h.keeper.me.0.all };

    ghost invariant = { λ h. (h.table.shared.table_id.words ≡ 1) × (h.keeper.table_id ≡ h.table.shared.table_id) × (h.keeper.me.0 ≡ knower h.keeper.me.0.all) };
}

impl History {
    /// A history without an event. Out of memory is the one fault.
    pub fn open(alloc: Global) -> Result<History, Memory>
        ensures { IfOk result (λ h. h.events ≡ []) }
    {
        let (table, keeper) = Table::of_words(alloc, &[0], &())?;
        Ok(History { table, keeper })
    }

    /// A sight of all events so far.
    pub fn sight(&mut self) -> SeenToken
        ensures same { self.new ≡ self.old }
        ensures seen { result ≡ self.old }
    {
        let table = &self.table;
        let seat = table.shared.split_seat::<Shows>(&mut self.keeper);
        SeenToken { seat }
    }

    /// The history goes on to what is named. It began with what the sight saw.
    fn go_on<X: Ahead>(&mut self, sight: SeenToken)
        requires name { sight.name ≡ self.old.name }
        requires ahead { IsPrefix self.old.events X.events }
        ensures events { self.new ≡ history_view self.old.name X.events }
        ensures seen { IsPrefix sight.events self.old.events }
    {
        let SeenToken { seat } = sight;
        let table = &self.table;
        table.shared.join_seat::<Shows>(&mut self.keeper, seat);
        table.shared.load::<GoesOn<X>>(&mut self.keeper, 0);
    }

    /// The history goes on to the journal's events, of which it is a beginning.
    pub fn go_to(&mut self, journal: &Journal)
        requires ahead { IsPrefix self.old.events journal.now.events }
        ensures events { self.new ≡ history_view self.old.name journal.now.events }
    {
        let sight = self.sight();
        self.take_in(sight, journal);
    }

    /// The history, which began with what the sight saw, goes on to the journal's events. Then the sight has seen all of them.
    pub fn show(&mut self, sight: &mut SeenToken, journal: &Journal)
        requires name { sight.old.name ≡ self.old.name }
        requires ahead { IsPrefix self.old.events journal.now.events }
        ensures events { self.new ≡ history_view self.old.name journal.now.events }
        ensures seen { IsPrefix sight.old.events self.old.events }
        ensures shown { sight.new ≡ self.new }
    {
        let stale = mem::replace(sight, self.sight());
        self.take_in(stale, journal);
        *sight = self.sight();
    }

    /// The history, which began with what the sight saw, goes on to the journal's events.
    pub fn take_in(&mut self, sight: SeenToken, journal: &Journal)
        requires name { sight.name ≡ self.old.name }
        requires ahead { IsPrefix self.old.events journal.now.events }
        ensures events { self.new ≡ history_view self.old.name journal.now.events }
        ensures seen { IsPrefix sight.events self.old.events }
    {
        go_on_to::<Brand>(self, sight, journal);
    }
}

/// The same, by a name for the journal's events.
fn go_on_to<X: Ahead>(history: &mut History, sight: SeenToken, journal: &Journal)
    requires named { journal.now.events ≡ X.events }
    requires name { sight.name ≡ history.old.name }
    requires ahead { IsPrefix history.old.events X.events }
    ensures events { history.new ≡ history_view history.old.name X.events }
    ensures seen { IsPrefix sight.events history.old.events }
{
    history.go_on::<X>(sight);
}
