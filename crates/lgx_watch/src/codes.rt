// The words of codes.
ghost use Rattle.std.specs.Prelude.{◌≡◌};
ghost use Rattle.spec_text.specs.ReportText.{text_code, check_code, conn_cause, force_cause, mode_cause, severity, mode_text};

use lgx_rung::{CheckCode, TextCode};
use spec_machine::{Mode, ModeFault};
use spec_tables::{ConnFault, ForceFault, Severity};

/// The code of a fault of a rung's text.
pub(crate) fn text_code(code: TextCode) -> &'static [u8]
    ensures { result.now ≡ text_code code }
{
    match code {
        TextCode::T1 => b"T1",
        TextCode::T2 => b"T2",
        TextCode::T3 => b"T3",
        TextCode::T4 => b"T4",
        TextCode::T5 => b"T5",
    }
}

/// The code of a fault of a check.
pub(crate) fn check_code(code: CheckCode) -> &'static [u8]
    ensures { result.now ≡ check_code code }
{
    match code {
        CheckCode::C1 => b"C1",
        CheckCode::C2 => b"C2",
        CheckCode::C3 => b"C3",
        CheckCode::C4 => b"C4",
        CheckCode::C5 => b"C5",
        CheckCode::C6 => b"C6",
        CheckCode::C7 => b"C7",
        CheckCode::C8 => b"C8",
        CheckCode::C9 => b"C9",
        CheckCode::C10 => b"C10",
        CheckCode::C11 => b"C11",
        CheckCode::C12 => b"C12",
        CheckCode::C13 => b"C13",
        CheckCode::C14 => b"C14",
        CheckCode::C15 => b"C15",
        CheckCode::C16 => b"C16",
        CheckCode::C17 => b"C17",
    }
}

/// The code of a refusal by a connection.
pub(crate) fn conn_cause(fault: ConnFault) -> &'static [u8]
    ensures { result.now ≡ conn_cause fault }
{
    match fault {
        ConnFault::N1 => b"N1",
        ConnFault::N2 => b"N2",
        ConnFault::N3 => b"N3",
    }
}

/// The code of a refusal of a force.
pub(crate) fn force_cause(fault: ForceFault) -> &'static [u8]
    ensures { result.now ≡ force_cause fault }
{
    match fault {
        ForceFault::F1 => b"F1",
        ForceFault::F2 => b"F2",
        ForceFault::F3 => b"F3",
    }
}

/// The code of a refusal of a change of mode.
pub(crate) fn mode_cause(fault: ModeFault) -> &'static [u8]
    ensures { result.now ≡ mode_cause fault }
{
    match fault {
        ModeFault::M1 => b"M1",
        ModeFault::M2 => b"M2",
        ModeFault::M3 => b"M3",
    }
}

/// The word of a severity.
pub(crate) fn severity(of: Severity) -> &'static [u8]
    ensures { result.now ≡ severity of }
{
    match of {
        Severity::Minor => b"minor",
        Severity::Major => b"major",
    }
}

/// The word of a mode.
pub(crate) fn mode_text(mode: Mode) -> &'static [u8]
    ensures { result.now ≡ mode_text mode }
{
    match mode {
        Mode::Program => b"program",
        Mode::Run => b"run",
        Mode::Faulted => b"faulted",
    }
}
