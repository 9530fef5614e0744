// Connections of controller tags to modules.
use lgx_num::Name;

/// A connection: its words of four bytes each are the bytes of one controller tag from `byte` on. The last word of an input
/// triggers the event task `trigger`.
#[derive(Drop)]
pub struct ConnDef {
    pub name: Name,
    pub output: bool,
    pub byte: u32,
    pub words: u32,
    pub trigger: Option<u32>,
}

/// An I/O word: its first byte in the image, its number among all words, and the task that it triggers.
#[derive(Clone, Copy, PartialEq, Eq, Debug)]
pub struct Slot {
    pub byte: u32,
    pub io: u32,
    pub trigger: Option<u32>,
}

/// Why an I/O word is refused: unknown connection (N1), word out of range (N2), wrong direction (N3).
#[derive(Clone, Copy, PartialEq, Eq, Debug)]
pub enum ConnFault {
    N1,
    N2,
    N3,
}
