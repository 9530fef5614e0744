// What is said of all journals of a script.
use lgx_journal::Journal;

/// What is said of all journals of a script within the question's window.
#[derive(Drop)]
pub enum Told {
    /// No line of the question ever holds.
    Never,
    /// The journal up to the event after which the line of the question with this number, from 0, holds as the first. No line holds
    /// after fewer processor steps.
    Witness(Journal, u32),
    /// No line holds after fewer processor steps, but there are more states after this number than a layer may have.
    Unknown(u32),
}
