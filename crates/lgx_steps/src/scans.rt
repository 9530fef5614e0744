// Scans that end, and those that are dropped.
ghost use Rattle.std.specs.Prelude.{◌≡◌, ℕ, ◌<◌, List, length, map, Some, None, slice_set};
ghost use Rattle.spec_machine.specs.State.{State, progress_of, dropped};
ghost use Rattle.spec_machine.specs.ProcessorStep.{scan_ended};
ghost use Rattle.spec_tables.specs.Tasks.{Table, finish};
ghost use Rattle.lgx_sched.specs.TableView.{next_task};
ghost use Rattle.lgx_sched.specs.Represents.{RepresentsTable};
ghost use Rattle.lgx_steps.specs.Plans.{list_at};
ghost use Rattle.lgx_steps.specs.Represents.{RepresentsParts, IsLive};

use crate::parts::ControllerParts;
use lgx_sched::TaskTable;

/// Takes down the chosen task after its last program. The continuous task runs again at once, and mostly where it is in its queue.
#[inline(always)]
fn finish(table: &mut TaskTable, t: u32, now: u32)
    requires chosen { next_task table.old ≡ Some t }
    requires known { t < length table.old.defs }
    ensures represents { (s : Table) → RepresentsTable table.old s → RepresentsTable table.new (finish t now s) }
    ensures defs { table.new.defs ≡ table.old.defs }
{
    if table.runs_again(t) {
        table.finish_again(t, now);
    } else {
        table.finish(t, now);
    }
}

impl ControllerParts {
    /// A task has no scan from now on, and `ended` of its programs ended. What its scan held is held no more.
    #[inline(always)]
    pub(crate) fn leave_scan(&mut self, t: u32, ended: usize)
        requires live { IsLive self.old }
        requires known { t < length self.old.progress.items }
        requires left { ended < length (list_at self.old.schedule t) }
        ensures represents { (n : ℕ) (s : State) → RepresentsParts n self.old s → RepresentsParts n self.new (record s { progress = slice_set s.progress t (record (progress_of s t) { ended = ended; scan = None }) }) }
        ensures table { self.new.table ≡ self.old.table }
        ensures tick { self.new.tick ≡ self.old.tick }
        ensures schedule { self.new.schedule ≡ self.old.schedule }
        ensures tasks { length self.new.progress.items ≡ length self.old.progress.items }
        ensures image { self.new.image ≡ self.old.image }
    {
        let progress = &mut self.progress[t as usize];
        let scan = progress.scan;
        progress.scan = None;
        progress.ended = ended;
        if let Some(scan) = scan {
            self.book.drop_hold(scan.program);
        }
    }

    /// Every task drops its scan, and no program of it ended.
    pub(crate) fn leave_scans(&mut self)
        requires { IsLive self.old }
        ensures represents { (n : ℕ) (s : State) → RepresentsParts n self.old s → RepresentsParts n self.new (record s { progress = map dropped s.progress }) }
        ensures table { self.new.table ≡ self.old.table }
        ensures tick { self.new.tick ≡ self.old.tick }
        ensures image { self.new.image ≡ self.old.image }
    {
        for t in 0..self.table.len() {
            self.leave_scan(t, 0);
        }
    }

    /// A program scan of the chosen task has ended.
    #[inline(always)]
    pub(crate) fn end_scan(&mut self, t: u32)
        requires live { IsLive self.old }
        requires chosen { next_task self.old.table ≡ Some t }
        requires known { t < length self.old.progress.items }
        ensures represents { (n : ℕ) (s : State) → RepresentsParts n self.old s → RepresentsParts n self.new (scan_ended t (progress_of s t) s) }
        ensures image { self.new.image ≡ self.old.image }
    {
        let programs = self.schedule.as_slice()[t as usize].len();
        let ended = self.progress[t as usize].ended + 1;
        if ended < programs {
            self.leave_scan(t, ended);
            self.table.region_clear(t);
        } else {
            self.leave_scan(t, 0);
            finish(&mut self.table, t, self.tick);
        }
    }
}
