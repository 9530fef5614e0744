// What the lines of a report say.
use lgx_num::Items;

/// What a line says.
#[derive(Drop)]
pub enum Note {
    /// A task began a scan of a program in this version of its rungs.
    Begin {
        task: Items<u8>,
        program: Items<u8>,
        version: u32,
    },
    /// An action was answered: the lane and the words of the answer.
    Reply(Items<Items<u8>>),
    /// A fault was recorded: its severity, its type and code, the task, and the program or `-`.
    Fault(Items<Items<u8>>),
    /// A watched place has a new value.
    Set {
        watch: Items<u8>,
        value: i32,
    },
}

/// A line, with the tick and the number of processor steps, both after its event.
#[derive(Drop)]
pub struct Entry {
    pub tick: u32,
    pub step: u32,
    pub note: Note,
}

/// The end line: the last tick, the number of all processor steps, the mode, and how many lines were left out.
#[derive(Drop)]
pub struct End {
    pub tick: u32,
    pub step: u32,
    pub mode: Items<u8>,
    pub lost: u32,
}

/// What a report says: the tasks in the order in which they first began, the watched places in the order in which they
/// first changed, and its lines.
#[derive(Drop)]
pub struct Chart {
    pub tasks: Items<Items<u8>>,
    pub watches: Items<Items<u8>>,
    pub entries: Items<Entry>,
    pub end: End,
}
