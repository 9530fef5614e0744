// Limits of a project file (profile). Those of the project itself are in `spec_machine` and `spec_base`.

/// The newest form of the file. The first has no inhibited tasks.
pub const NEWEST_SCHEMA: u32 = 2;

/// The bytes of a rung's text.
pub const MAX_RUNG_BYTES: usize = 4096;

/// The initial values.
pub const MAX_INITIAL_VALUES: usize = 10000;

/// The ticks of a watchdog that isn't given (1756-PM005: 500 ms).
pub const DEFAULT_WATCHDOG: u32 = 500;

/// The lowest priority of a task that isn't continuous (1756-PM005).
pub const MAX_PRIORITY: u32 = 15;
