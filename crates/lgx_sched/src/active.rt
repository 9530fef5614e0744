// What is kept of a task that is up.
ghost use Rattle.std.specs.Prelude.{◌≡◌};
ghost use Rattle.lgx_sched.specs.TableView.{task_if_open, has_cps};

/// What is kept of a task that is up: the tick of its start, the number of its open regions, and whether it has a CPS
/// in progress.
#[derive(Clone, Copy)]
pub struct ActiveTask {
    pub start: u32,
    pub region_count: u32,
    pub cps_open: bool,
}

/// The task, if it has something open.
pub(crate) fn task_if_open(t: u32, up: ActiveTask) -> Option<u32>
    ensures { result ≡ task_if_open t up }
{
    if up.region_count > 0 || up.cps_open {
        Some(t)
    } else {
        None
    }
}

/// Whether the task is up with a CPS in progress.
pub(crate) fn has_cps(up: Option<ActiveTask>) -> bool
    ensures { result ≡ has_cps up }
{
    match up {
        Some(up) => up.cps_open,
        None => false,
    }
}
