// What a turn of a lane answers.

/// What a turn of a lane did: the lane's next action; a processor step, with its tick if the pace divides its number; nothing,
/// for the lane has no action left and the steps are spent; or nothing for want of memory, which comes at an accept alone.
#[derive(Drop, Clone, Copy)]
pub enum Turn {
    Did,
    Helped,
    Done,
    Memory,
}
