// What the recorder under a lock was made for.
use std::marker::Brand;

/// Names one project and one script, those that the recorder under the lock was made for, and the history that passes see of its
/// journal. It has no calls.
pub trait Input {
    ghost use Rattle.atomic_table.specs.Seated.{TableId};
    ghost use Rattle.spec_machine.specs.Project.{Project};
    ghost use Rattle.spec_text.specs.Scripts.{Script};

    ghost project: { Project };

    ghost script: { Script };

    ghost history: { TableId };
}

// A caller that passes `Brand` says at the call what it names; by itself it names none.
impl Input for Brand {
    ghost use Rattle.lgx_history.specs.Histories.{no_history};
    ghost use Rattle.lgx_lanes.specs.Lanes.{no_project, no_script};

    ghost project = { no_project };

    ghost script = { no_script };

    ghost history = { no_history };
}
