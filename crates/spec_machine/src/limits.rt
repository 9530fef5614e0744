// Limits of a project (profile). Those that more crates need are in `spec_base`.

/// The programs of a project, and those of one task.
pub const MAX_PROGRAMS: usize = 100;

/// The routines of a program.
pub const MAX_ROUTINES: usize = 64;

/// The rungs of a routine.
pub const MAX_RUNGS: usize = 10000;

/// The instructions of a project.
pub const MAX_PROJECT_INSTRUCTIONS: usize = 131072;

/// The structures of a project.
pub const MAX_TYPES: usize = 64;

/// The members of a structure.
pub const MAX_MEMBERS: usize = 128;

/// The tags and aliases of the controller, and those of one program.
pub const MAX_SCOPE_TAGS: usize = 4096;

/// The watched places.
pub const MAX_WATCHES: usize = 256;

/// The ticks of a period, and those of a watchdog.
pub const MAX_PERIOD: u32 = 2000000;
