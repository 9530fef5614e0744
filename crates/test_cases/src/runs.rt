// Worked runs: what the ladder machine reports of a journal on a small project, from declared tags and the texts of rungs
// and journal to the text of the report.
ghost use Rattle.test_cases.specs.ArithmeticRuns.{FlagsAtRun, Limits, OverflowAndZeroDivisor, Results, SubscriptOutOfRange};
ghost use Rattle.test_cases.specs.ConveyorRun.{ConveyorRun};
ghost use Rattle.test_cases.specs.CopyRuns.{FillToTheEnd, HeldCommands, ShortSource, TornCopy, WholeCopy};
ghost use Rattle.test_cases.specs.EditRuns.{AcceptWhileTesting, EditRefusals, EditsInMidScan, LostLabel, MergedOrder, Owners, SelectedAtBegin};
ghost use Rattle.test_cases.specs.LadderRuns.{CallAndReturn, CallDepth, DisabledZone, EmptyLeg, EmptyLegFirst, EmptyProgram, FalseConditions, JumpInZone, OneBitForBoth, OneRung, OneShotAfterPrescan, OneShots, Prescanned};
ghost use Rattle.test_cases.specs.ParameterRuns.{LeftOver, MostParameters, NothingBack, PlaceAtCall, ReadFirst, Recursion, SubscriptFirst, ThereAndBack, TooFewInputs, TooFewReturned};
ghost use Rattle.test_cases.specs.TaskRuns.{InhibitedContinuous, InhibitedEvent, InhibitedPeriodic, NestedRegions, OpenAtTick, OpenLoop, Preemption, RegionAtScanEnd, ReleasedAgain, ThreeInTurn, TurnsAtTicks, TwoPrograms, Watchdog};
ghost use Rattle.test_cases.specs.TimerRuns.{CountDown, CounterRollover, NegativePreset, OffDelay, RetentiveTimer, TimeBackwards, TimerOverTicks};
ghost use Rattle.test_cases.specs.WordRuns.{ForcedInput, ForcedWords, LateTrigger, Modes};

/// Rungs, legs and one-shots.
pub fn ladder_runs()
    ensures empty_program { EmptyProgram }
    ensures one_rung { OneRung }
    ensures empty_leg { EmptyLeg }
    ensures legs { EmptyLegFirst }
    ensures false_conditions { FalseConditions }
    ensures prescan { Prescanned }
    ensures first_scan { OneShotAfterPrescan }
    ensures one_shots { OneShots }
    ensures one_bit { OneBitForBoth }
{}

/// Zones, jumps and calls.
pub fn routine_runs()
    ensures zone { DisabledZone }
    ensures jump { JumpInZone }
    ensures call { CallAndReturn }
    ensures depth { CallDepth }
{}

/// Calls that hand numbers over.
pub fn parameter_runs()
    ensures there_and_back { ThereAndBack }
    ensures most { MostParameters }
    ensures left_over { LeftOver }
    ensures nothing_back { NothingBack }
    ensures too_few_inputs { TooFewInputs }
    ensures too_few_returned { TooFewReturned }
    ensures subscript_first { SubscriptFirst }
    ensures place_at_call { PlaceAtCall }
    ensures read_first { ReadFirst }
    ensures recursion { Recursion }
{}

/// Timers and counters.
pub fn timer_runs()
    ensures over_ticks { TimerOverTicks }
    ensures retentive { RetentiveTimer }
    ensures off_delay { OffDelay }
    ensures negative { NegativePreset }
    ensures backwards { TimeBackwards }
    ensures rollover { CounterRollover }
    ensures down { CountDown }
{}

/// Comparisons, arithmetic and subscripts.
pub fn arithmetic_runs()
    ensures overflow { OverflowAndZeroDivisor }
    ensures subscript { SubscriptOutOfRange }
    ensures limits { Limits }
    ensures results { Results }
    ensures flags { FlagsAtRun }
{}

/// Copies that I/O words may tear, and that they may not, and how many elements they have.
pub fn copy_runs()
    ensures torn { TornCopy }
    ensures whole { WholeCopy }
    ensures fill { FillToTheEnd }
    ensures short_source { ShortSource }
    ensures held { HeldCommands }
{}

/// Preemption, regions, turns, overlaps and watchdogs.
pub fn task_runs()
    ensures preemption { Preemption }
    ensures regions { NestedRegions }
    ensures scan_end { RegionAtScanEnd }
    ensures programs { TwoPrograms }
    ensures at_tick { OpenAtTick }
    ensures turns { TurnsAtTicks }
    ensures watchdog { Watchdog }
    ensures open_loop { OpenLoop }
    ensures three { ThreeInTurn }
    ensures released_again { ReleasedAgain }
{}

/// Inhibited tasks: due, triggered, and continuous.
pub fn inhibited_runs()
    ensures periodic { InhibitedPeriodic }
    ensures event { InhibitedEvent }
    ensures continuous { InhibitedContinuous }
{}

/// Online edits: when they count, whose they are, what is merged, and each refusal.
pub fn edit_runs()
    ensures selected { SelectedAtBegin }
    ensures mid_scan { EditsInMidScan }
    ensures owners { Owners }
    ensures order { MergedOrder }
    ensures label { LostLabel }
    ensures refusals { EditRefusals }
    ensures while_testing { AcceptWhileTesting }
{}

/// I/O words, forces and modes.
pub fn word_runs()
    ensures words { ForcedWords }
    ensures input { ForcedInput }
    ensures trigger { LateTrigger }
    ensures modes { Modes }
{}

/// Three tasks, a timer, a counter, a trigger and an edit in one run.
pub fn conveyor_run()
    ensures { ConveyorRun }
{}
