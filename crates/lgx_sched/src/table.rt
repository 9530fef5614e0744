// The table of tasks.
ghost use Rattle.std.specs.Prelude.{◌≡◌, ℕ, ◌+◌, ◌-◌, ◌<◌, ◌≤◌, ◌^◌, Bool, true, List, [], ◌∷◌, length, drop, map, Option, Some, None, IfOk, IfSome, IsNone, slice_set, slice_get, slice_index_or};
ghost use Rattle.std.specs.List.{All, position_from};
ghost use Rattle.spec_base.specs.declared.limits.TheConstants.{MAX_TASKS, LEAST_PRIORITY};
ghost use Rattle.spec_tables.specs.Tasks.{Table, no_task, chosen, release_answer, release, if_released, released_at_run, start, stop, finish, rotate, is_continuous, expired, due, region_up, region_down, region_clear, set_copy, held};
ghost use Rattle.lgx_sched.specs.TableView.{TableView, up_of, def_of, queue_at, place_of, next_task, answer_of, ready_at, front_of, pushed, popped, enqueued, enqueued_if, dequeued, rotated, with_active, restarted, all_down, task_if_open, region_count_of, has_cps, is_alone, runs_again};
ghost use Rattle.lgx_sched.specs.QuietTicks.{IsQuiet, IsQuietAt, keeps_turn};
ghost use Rattle.lgx_sched.specs.Represents.{RepresentsTable, IsInLine, AtMostUp, IsTable, HasPeriod, none_up};

use crate::active::{ActiveTask, has_cps, task_if_open};
use crate::expiry::first_expired;
use crate::queue::Queues;
use crate::quiet::{Quiet, all_idle_until, kept_until};
use crate::releases::{answer_of, continuous_task, if_released, is_continuous};
use crate::same::same_active;
use lgx_num::{Items, Memory};
use spec_tables::{Release, TaskDef, TaskKind};
use std::alloc::Global;
use std::marker::Model;

/// The tasks in project order: which are up, their turns at each priority, and which has something open.
pub struct TaskTable {
    pub(crate) defs: Items<TaskDef>,
    pub(crate) ups: Vec<Option<ActiveTask>>,
    pub(crate) queues: Queues,
    pub(crate) open_task: Option<u32>,
    pub(crate) run_since: u32,
    /// Ticks that are known to find nothing to do.
    pub(crate) quiet: Quiet,
}

impl Drop for TaskTable {
    fn drop(self) {
        let TaskTable {
            defs: _,
            ups: _,
            queues: _,
            open_task: _,
            run_since: _,
            quiet: _,
        } = self;
    }
}

impl Model for TaskTable {
    ghost use Rattle.lgx_sched.specs.TableView.{TableView};

    ghost Value = { TableView };

    ghost use Rattle.lgx_sched.specs.QuietTicks.{IsQuietTable};

    ghost view = { λ t. record { defs = t.defs; ups = t.ups.items; queues = t.queues; open_task = t.open_task; run_since = t.run_since } };

    ghost invariant = { λ t. IsQuietTable (record { defs = t.defs; ups = t.ups.items; queues = t.queues; open_task = t.open_task; run_since = t.run_since }) t.quiet.after t.quiet.until };
}

impl TaskTable {
    /// A table of these tasks in project order, at most `MAX_TASKS`, with all of them down.
    pub fn new(alloc: Global, defs: &[TaskDef]) -> Result<TaskTable, Memory>
        requires few { length defs.now ≤ MAX_TASKS }
        requires priorities { All (λ d. (0 < d.priority) × (d.priority ≤ LEAST_PRIORITY)) defs.now }
        requires periods { All (λ d. HasPeriod d.kind) defs.now }
        ensures represents { IfOk result (λ table. (next : ℕ) → RepresentsTable table (none_up defs.now next)) }
        ensures defs { IfOk result (λ table. table.defs ≡ defs.now) }
    {
        let kept = Vec::from_slice(alloc, defs)?;
        let ups = vec![in alloc; None; defs.len()]?;
        let queues = Queues::new(alloc)?;
        Ok(TaskTable {
            defs: Items::of(kept),
            ups,
            queues,
            open_task: None,
            run_since: 0,
            quiet: Quiet { after: 0, until: 0 },
        })
    }

    /// The task that is to run: the one that has something open, else the first of the first queue that has one.
    ///
    /// It is None exactly if no task is up.
    #[inline(always)]
    pub fn chosen(&self) -> Option<u32>
        ensures front { result ≡ next_task self.now }
        ensures known { IfSome result (λ t. t < length self.now.defs) }
        ensures represents { (s : Table) → RepresentsTable self.now s → result ≡ chosen s }
    {
        match self.open_task {
            Some(t) => Some(t),
            None => self.queues.front(),
        }
    }

    /// The task of a priority that has exactly `i` up tasks of the same priority before it in line.
    ///
    /// It is None exactly if there is none: at most `i` tasks of that priority are up.
    pub fn ready(&self, priority: u8, i: u32) -> Option<u32>
        requires { (0 < priority) × (priority ≤ LEAST_PRIORITY) }
        ensures place { result ≡ ready_at self.now priority i }
        ensures in_line { (s : Table) → RepresentsTable self.now s → IfSome result (IsInLine s priority i) }
        ensures none { (s : Table) → RepresentsTable self.now s → IsNone result → AtMostUp s priority i }
    {
        self.queues.get(priority as usize - 1, i as usize)
    }

    /// Releases a task at the tick `now`: it is up, last in its queue. A task that is up overlaps, and one that is inhibited
    /// isn't released; then nothing changes.
    pub fn release(&mut self, t: u32, now: u32) -> Release
        requires task { t < length self.old.defs }
        ensures answer { (s : Table) → RepresentsTable self.old s → result ≡ release_answer s t }
        ensures exact { self.new ≡ enqueued_if result t now self.old }
        ensures represents { (s : Table) → RepresentsTable self.old s → RepresentsTable self.new (release t now s) }
        ensures defs { self.new.defs ≡ self.old.defs }
    {
        let answer = self.answer(t);
        match answer {
            Release::Released => self.put_up(t, now),
            Release::Overlap => {}
            Release::Inhibited => {}
        }
        answer
    }

    /// Puts the chosen task last in its queue, unless it has something open. So equal priorities take turns at ticks.
    pub fn rotate(&mut self)
        ensures represents { (s : Table) → RepresentsTable self.old s → RepresentsTable self.new (rotate s) }
        ensures defs { self.new.defs ≡ self.old.defs }
    {
        if self.open_task.is_none() {
            if let Some(t) = self.queues.front() {
                if !self.is_alone(t) {
                    self.put_last(t);
                }
            }
        }
    }

    /// Takes down the chosen task `t` after its last program; the continuous task is released again at once.
    pub fn finish(&mut self, t: u32, now: u32)
        requires chosen { next_task self.old ≡ Some t }
        ensures represents { (s : Table) → RepresentsTable self.old s → RepresentsTable self.new (finish t now s) }
        ensures defs { self.new.defs ≡ self.old.defs }
    {
        self.take_out(t);
        if is_continuous(self.kind(t)) {
            self.release(t, now);
        }
    }

    /// Whether task `t` is the continuous one, alone in its queue, with nothing open: then after its last program it runs again
    /// as the chosen task, if it is the chosen one now.
    pub fn runs_again(&self, t: u32) -> bool
        requires task { t < length self.now.defs }
        ensures value { result ≡ runs_again self.now t }
        ensures table { IsTable self.now }
    {
        let def = self.def(t);
        is_continuous(def.kind) && !def.inhibited && self.open_task.is_none() && self.is_alone(t)
    }

    /// `finish` of the chosen task `t` of which `runs_again` holds. It starts at `now`, and all else stays.
    pub fn finish_again(&mut self, t: u32, now: u32)
        requires chosen { next_task self.old ≡ Some t }
        requires again { runs_again self.old t ≡ true }
        ensures exact { self.new ≡ restarted t now self.old }
        ensures represents { (s : Table) → RepresentsTable self.old s → RepresentsTable self.new (finish t now s) }
        ensures chosen { (s : Table) → RepresentsTable self.old s → chosen (finish t now s) ≡ Some t }
    {
        let up = ActiveTask {
            start: now,
            region_count: 0,
            cps_open: false,
        };
        if same_active(self.active_task(t), up) {
            return;
        }
        self.change(t, up);
    }

    /// The change to Run at the tick `now`: every task goes down, and the continuous one is released.
    pub fn start(&mut self, now: u32)
        ensures represents { (s : Table) → RepresentsTable self.old s → RepresentsTable self.new (start now s) }
        ensures defs { self.new.defs ≡ self.old.defs }
    {
        self.put_all_down(now);
        if let Some(t) = continuous_task(self.defs.as_slice()) {
            self.release(t, now);
        }
    }

    /// The task that a change to Run releases: the continuous one, unless it is inhibited. None if there is none.
    pub fn released_at_run(&self) -> Option<u32>
        ensures known { IfSome result (λ t. t < length self.now.defs) }
        ensures represents { (s : Table) → RepresentsTable self.now s → result ≡ released_at_run s }
    {
        let t = continuous_task(self.defs.as_slice())?;
        if_released(answer_of(self.def(t), None), t)
    }

    /// The change to Program, or to Faulted: every task goes down.
    pub fn stop(&mut self)
        ensures represents { (s : Table) → RepresentsTable self.old s → RepresentsTable self.new (stop s) }
        ensures defs { self.new.defs ≡ self.old.defs }
    {
        self.put_all_down(self.run_since);
    }

    /// Whether a periodic task is due at the tick `now`.
    pub fn due(&self, t: u32, now: u32) -> bool
        requires task { t < length self.now.defs }
        ensures { (s : Table) → RepresentsTable self.now s → result ≡ due t now s }
    {
        match self.defs.as_slice()[t as usize].kind {
            TaskKind::Periodic(period) => self.run_since < now
                && (now - self.run_since) % period == 0,
            TaskKind::Continuous | TaskKind::Event => false,
        }
    }

    /// The first task in project order that has been up for the ticks of its watchdog at the tick `now`.
    pub fn expired(&self, now: u32) -> Option<u32>
        ensures known { IfSome result (λ t. t < length self.now.defs) }
        ensures represents { (s : Table) → RepresentsTable self.now s → result ≡ expired now s }
    {
        first_expired(now, self.defs.as_slice(), &self.ups)
    }

    /// Whether the tick `now` is known to find nothing to do. If it isn't, the tick may still find nothing.
    #[inline(always)]
    pub fn is_quiet(&self, now: u32) -> bool
        ensures { (s : Table) → RepresentsTable self.now s → result ≡ true → IsQuietAt now self.now s }
    {
        self.quiet.contains(now)
    }

    /// Finds out which ticks after `now` have nothing to do, so that `is_quiet` knows them until the table changes.
    pub fn find_quiet(&mut self, now: u32)
        ensures { self.new ≡ self.old }
    {
        let until = self.quiet_until(now);
        self.quiet = Quiet { after: now, until };
    }

    /// The number of tasks.
    pub fn len(&self) -> u32
        ensures value { result ≡ length self.now.defs }
        ensures few { result ≤ MAX_TASKS }
    {
        self.defs.len() as u32
    }

    /// The kind of a task.
    pub fn kind(&self, t: u32) -> TaskKind
        requires task { t < length self.now.defs }
        ensures { result ≡ (def_of self.now t).kind }
    {
        self.def(t).kind
    }

    /// The number of open regions of a task; 0 if it is down.
    pub fn region_count(&self, t: u32) -> u32
        requires task { t < length self.now.defs }
        ensures { result ≡ region_count_of (up_of self.now t) }
    {
        match self.ups[t as usize] {
            Some(up) => up.region_count,
            None => 0,
        }
    }

    /// Opens a region of the chosen task `t` (UID). It must have fewer than 4,294,967,295.
    pub fn region_up(&mut self, t: u32)
        requires chosen { next_task self.old ≡ Some t }
        requires room { region_count_of (up_of self.old t) + 1 < 2 ^ 32 }
        ensures represents { (s : Table) → RepresentsTable self.old s → RepresentsTable self.new (region_up t s) }
        ensures defs { self.new.defs ≡ self.old.defs }
    {
        let up = self.active_task(t);
        self.change(
            t,
            ActiveTask {
                region_count: up.region_count + 1,
                ..up
            },
        );
    }

    /// Closes a region of the chosen task `t` (UIE). If none is open it does nothing.
    pub fn region_down(&mut self, t: u32)
        requires chosen { next_task self.old ≡ Some t }
        ensures represents { (s : Table) → RepresentsTable self.old s → RepresentsTable self.new (region_down t s) }
        ensures defs { self.new.defs ≡ self.old.defs }
    {
        let up = self.active_task(t);
        self.change(
            t,
            ActiveTask {
                region_count: up.region_count.saturating_sub(1),
                ..up
            },
        );
    }

    /// Closes all regions of the chosen task `t`, as the end of a program scan does.
    pub fn region_clear(&mut self, t: u32)
        requires chosen { next_task self.old ≡ Some t }
        ensures represents { (s : Table) → RepresentsTable self.old s → RepresentsTable self.new (region_clear t s) }
        ensures defs { self.new.defs ≡ self.old.defs }
    {
        let up = self.active_task(t);
        self.change(
            t,
            ActiveTask {
                region_count: 0,
                ..up
            },
        );
    }

    /// A CPS of the chosen task `t` starts, or has copied its last element.
    pub fn set_copy(&mut self, t: u32, sync: bool)
        requires chosen { next_task self.old ≡ Some t }
        ensures represents { (s : Table) → RepresentsTable self.old s → RepresentsTable self.new (set_copy t sync s) }
        ensures defs { self.new.defs ≡ self.old.defs }
    {
        let up = self.active_task(t);
        self.change(
            t,
            ActiveTask {
                cps_open: sync,
                ..up
            },
        );
    }

    /// Whether a CPS is in progress.
    pub fn held(&self) -> bool
        ensures { (s : Table) → RepresentsTable self.now s → result ≡ held s }
    {
        match self.open_task {
            Some(t) => has_cps(self.ups[t as usize]),
            None => false,
        }
    }

    /// A task as the project gives it.
    fn def(&self, t: u32) -> TaskDef
        requires task { t < length self.now.defs }
        ensures { result ≡ def_of self.now t }
    {
        self.defs.as_slice()[t as usize]
    }

    /// Whether a task's queue has one task.
    fn is_alone(&self, t: u32) -> bool
        requires task { t < length self.now.defs }
        ensures value { result ≡ is_alone self.now t }
        ensures table { IsTable self.now }
    {
        self.queues.is_single(place(self.defs.as_slice(), t))
    }

    /// Whether no turn is passed on at a tick.
    fn keeps_turn(&self) -> bool
        ensures { result ≡ keeps_turn self.now }
    {
        match self.queues.front() {
            Some(t) => self.is_alone(t),
            None => true,
        }
    }

    /// Until when ticks after `now` find nothing to do.
    fn quiet_until(&self, now: u32) -> u32
        ensures { IsQuiet self.now now result }
    {
        if self.keeps_turn() {
            all_idle_until(now, self.run_since, self.defs.as_slice(), &self.ups)
        } else {
            0
        }
    }

    /// What a release of a task is answered.
    fn answer(&self, t: u32) -> Release
        requires task { t < length self.now.defs }
        ensures value { result ≡ answer_of (def_of self.now t) (up_of self.now t) }
        ensures table { IsTable self.now }
    {
        answer_of(self.def(t), self.ups[t as usize])
    }

    /// A task that was down is up, last in its queue.
    fn put_up(&mut self, t: u32, now: u32)
        requires task { t < length self.old.defs }
        requires down { up_of self.old t ≡ None }
        ensures { self.new ≡ enqueued t now self.old }
    {
        let place = place(self.defs.as_slice(), t);
        self.ups[t as usize] = Some(ActiveTask {
            start: now,
            region_count: 0,
            cps_open: false,
        });
        self.queues.push_last(place, t);
        self.quiet.until = 0;
    }

    /// The front goes to the end of its queue.
    fn put_last(&mut self, t: u32)
        requires none_open { self.old.open_task ≡ None }
        requires front { front_of self.old.queues ≡ Some t }
        ensures { self.new ≡ rotated t self.old }
    {
        let place = place(self.defs.as_slice(), t);
        self.queues.pop_first(place);
        self.queues.push_last(place, t);
        self.quiet.until = 0;
    }

    /// Every task goes down.
    fn put_all_down(&mut self, run_since: u32)
        ensures exact { self.new ≡ record (all_down self.old) { run_since = run_since } }
        ensures table { IsTable self.old }
    {
        self.ups.fill(None);
        self.queues.clear();
        self.open_task = None;
        self.run_since = run_since;
        self.quiet.until = 0;
    }

    /// What is kept of the task that is to run.
    fn active_task(&self, t: u32) -> ActiveTask
        requires chosen { next_task self.now ≡ Some t }
        ensures up { up_of self.now t ≡ Some result }
        ensures table { IsTable self.now }
    {
        match self.ups[t as usize] {
            Some(up) => up,
            None => unreachable!(),
        }
    }

    /// The task that is to run has other regions, or another CPS.
    fn change(&mut self, t: u32, up: ActiveTask)
        requires chosen { next_task self.old ≡ Some t }
        ensures exact { self.new ≡ with_active t up self.old }
        ensures table { IsTable self.old }
    {
        let until = kept_until(self.quiet.until, self.ups[t as usize], up);
        self.quiet.until = until;
        self.ups[t as usize] = Some(up);
        let open_task = task_if_open(t, up);
        self.open_task = open_task;
    }

    /// The task that is to run goes down.
    fn take_out(&mut self, t: u32)
        requires chosen { next_task self.old ≡ Some t }
        ensures exact { self.new ≡ dequeued t self.old }
        ensures table { IsTable self.old }
    {
        let place = place(self.defs.as_slice(), t);
        self.ups[t as usize] = None;
        self.queues.pop_first(place);
        self.open_task = None;
        self.quiet.until = 0;
    }
}

/// The place of a task's queue among the queues.
fn place(defs: &[TaskDef], t: u32) -> usize
    requires task { t < length defs.now }
    requires priority { 0 < (slice_index_or defs.now t no_task).priority }
    ensures { result ≡ (slice_index_or defs.now t no_task).priority - 1 }
{
    defs[t as usize].priority as usize - 1
}
