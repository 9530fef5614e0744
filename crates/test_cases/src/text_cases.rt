// Worked cases of layout, resolution and checked text: laws over the definitions alone.
ghost use Rattle.test_cases.specs.ConveyorCases.{ConveyorStructures, ConveyorSizes, ConveyorTypeNames, ConveyorMember, ConveyorBytes, ConveyorSealed, ConveyorBits, ConveyorPlaces, ConveyorChecked};
ghost use Rattle.test_cases.specs.LayoutCases.{CellSizes, CellMembers, MarkMembers, TimerMembers, CounterMembers, NameFaults, FaultOrder, Rings, Lengths};
ghost use Rattle.test_cases.specs.ResolutionCases.{ShopBytes, ShopScopes, ShopElements, ShopSubscripts, NoForms, UnknownTags, UnknownMembers, OutOfRange, NoSubscripts, FifthSubscript, FixedCauses, DeclareFaults, SealFaults, SealOrder};
ghost use Rattle.test_cases.specs.CheckCases.{Numbers, FlagOperands, WholeOperands, Named, WrongCounts, WrongTypes, NoPlaces, NoTags, OutsideNumbers, NoNames, LeastCodes, FirstFaults, LabelFaults, LongRoutines};
ghost use Rattle.test_cases.specs.ParameterCases.{EntryFaults, NoCounts, Parameters, WrongParameterCounts, WrongParameters};

/// The conveyor's structures and the image that its tags fill.
pub fn conveyor_layout()
    ensures structures { ConveyorStructures }
    ensures sizes { ConveyorSizes }
    ensures names { ConveyorTypeNames }
    ensures member { ConveyorMember }
    ensures bytes { ConveyorBytes }
    ensures sealed { ConveyorSealed }
{}

/// What the conveyor's names stand for.
pub fn conveyor_places()
    ensures bits { ConveyorBits }
    ensures places { ConveyorPlaces }
{}

/// The conveyor's nine rungs with their operands resolved.
pub fn conveyor_checked()
    ensures { ConveyorChecked }
{}

/// Sizes and members of structures inside structures, of timers and of counters.
pub fn layout_cases()
    ensures sizes { CellSizes }
    ensures members { CellMembers }
    ensures inner_members { MarkMembers }
    ensures timer { TimerMembers }
    ensures counter { CounterMembers }
{}

/// Each fault of declared structures, and their order.
pub fn type_fault_cases()
    ensures names { NameFaults }
    ensures order { FaultOrder }
    ensures rings { Rings }
    ensures lengths { Lengths }
{}

/// What operands name: scopes, elements, bits and variable subscripts.
pub fn resolution_cases()
    ensures bytes { ShopBytes }
    ensures scopes { ShopScopes }
    ensures elements { ShopElements }
    ensures subscripts { ShopSubscripts }
{}

/// Each cause why an operand names nothing, and their order.
pub fn cause_cases()
    ensures form { NoForms }
    ensures tag { UnknownTags }
    ensures member { UnknownMembers }
    ensures range { OutOfRange }
    ensures subscript { NoSubscripts }
    ensures fifth { FifthSubscript }
    ensures fixed { FixedCauses }
{}

/// Each fault of declaring a tag or an alias, and of the chain of an alias.
pub fn declare_cases()
    ensures declare { DeclareFaults }
    ensures chain { SealFaults }
    ensures chain_order { SealOrder }
{}

/// Operands of checked instructions: numbers, flags, timers, counters, blocks and names.
pub fn operand_cases()
    ensures numbers { Numbers }
    ensures flags { FlagOperands }
    ensures whole { WholeOperands }
    ensures named { Named }
{}

/// Each code of one instruction, and the least of several.
pub fn check_code_cases()
    ensures count { WrongCounts }
    ensures type_ { WrongTypes }
    ensures no_place { NoPlaces }
    ensures no_tag { NoTags }
    ensures range { OutsideNumbers }
    ensures no_name { NoNames }
    ensures least { LeastCodes }
{}

/// The first fault of a routine, its labels, and its length.
pub fn routine_cases()
    ensures order { FirstFaults }
    ensures labels { LabelFaults }
    ensures length { LongRoutines }
{}

/// Calls with parameters, their faults, and where an SBR may be.
pub fn parameter_cases()
    ensures parameters { Parameters }
    ensures counts { WrongParameterCounts }
    ensures no_count { NoCounts }
    ensures wrong { WrongParameters }
    ensures entry { EntryFaults }
{}
