// Laws of ticks, over the definitions alone.
ghost use Rattle.spec_machine.specs.TickLaws.{MasksAreOfTasks, TicksKeepTasks, TicksTellFaults};

/// What the report of a tick gives: the faults that it recorded, and masks of tasks.
pub fn ticks_tell_their_faults()
    ensures faults { TicksTellFaults }
    ensures masks { MasksAreOfTasks }
    ensures tasks { TicksKeepTasks }
{}
