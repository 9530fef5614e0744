// Forces of I/O words.
/// Why a force is refused: no such word (F1), as many other words have one as may (F2), none is installed (F3).
#[derive(Clone, Copy, PartialEq, Eq, Debug)]
pub enum ForceFault {
    F1,
    F2,
    F3,
}
