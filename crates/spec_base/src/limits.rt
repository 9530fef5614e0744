// Limits, each stated once. What Rockwell's publications leave open is our own profile.

/// The bytes of a name (1756-PM004).
pub const MAX_NAME_BYTES: usize = 40;

/// The bytes of a tag name of several parts (profile).
pub const MAX_TAG_NAME_BYTES: usize = 80;

/// The parts of a tag name, joined by colons (profile).
pub const MAX_TAG_NAME_PARTS: usize = 4;

/// The variable subscripts of an operand (profile).
pub const MAX_SUBSCRIPTS: usize = 4;

/// The forks of a rung that are nested in one another (profile).
pub const MAX_FORKS: usize = 16;

/// The operands of an instruction: a routine, a count, and the most inputs and returns.
pub const MAX_OPERANDS: usize = 18;

/// The inputs of a call, and its returns (profile).
pub const MAX_PARAMETERS: usize = 8;

/// The operands of an instruction that is no call and no end of one.
pub const MAX_BOUND_OPERANDS: usize = 3;

/// The instructions of a routine (profile).
pub const MAX_ROUTINE_INSTRUCTIONS: usize = 65536;

/// The instructions of a program after edits (profile).
pub const MAX_PROGRAM_INSTRUCTIONS: usize = 131072;

/// The routines in progress, the main routine among them (profile).
pub const MAX_FRAMES: usize = 25;

/// The bytes of the image (profile).
pub const MAX_IMAGE_BYTES: u32 = 262144;

/// The bytes of a structure (profile).
pub const MAX_STRUCTURE_BYTES: u32 = 4096;

/// The elements of an array (profile).
pub const MAX_ELEMENTS: u32 = 65536;

/// The bytes of a TIMER (profile).
pub const TIMER_BYTES: u32 = 16;

/// The bytes of a COUNTER (profile).
pub const COUNTER_BYTES: u32 = 12;

/// The tasks of a project (1756-PM005).
pub const MAX_TASKS: usize = 32;

/// The least priority, which is the continuous task's; those of other tasks are 1, the highest, to 15 (1756-PM005).
pub const LEAST_PRIORITY: u8 = 16;

/// The connections of a project (profile).
pub const MAX_CONNECTIONS: usize = 64;

/// The words of a connection (profile).
pub const MAX_CONNECTION_WORDS: u32 = 128;

/// The I/O words that have a force (profile).
pub const MAX_FORCES: usize = 256;

/// The faults that a log keeps.
pub const FAULT_LOG_LENGTH: usize = 64;

/// The rung edits of an accept (profile).
pub const MAX_EDITS: usize = 16;

/// The bytes of a line of a journal or a script (profile).
pub const MAX_LINE_BYTES: usize = 65536;

/// The lane of a journal's own actions; those of a script have lower numbers (profile).
pub const OWN_LANE: u32 = 31;

/// The processor steps of a script, and its pace (profile).
pub const MAX_SCRIPT_STEPS: u32 = 1000000;

/// The processor steps of a journal, and its ticks (profile).
pub const MAX_JOURNAL_STEPS: u32 = 4000000;

/// The actions of a journal or a script (profile).
pub const MAX_ACTIONS: usize = 100000;

/// The events that a controller counts (profile).
pub const MAX_EVENTS: u32 = 1000000000;

/// The lines that a report keeps; the others are counted (profile).
pub const MAX_REPORT_LINES: usize = 100000;

/// The bytes of a file (profile).
pub const MAX_FILE_BYTES: usize = 16777216;

/// The states of a layer of an exploration (profile).
pub const MAX_LAYER_STATES: usize = 4096;

/// The lines of a question (profile).
pub const MAX_QUESTION_LINES: usize = 64;

/// The tests of a line of a question (profile).
pub const MAX_QUESTION_TESTS: usize = 16;
