// The words of codes.
ghost use Rattle.std.specs.Prelude.{◌≡◌};
ghost use Rattle.lgx_judge.specs.CauseLines.{project_code, type_code, tag_code, journal_code};

use spec_language::{TagCode, TypeCode};
use spec_project::ProjectCode;
use spec_text::JournalCode;

/// The code for which a file is no project.
pub(crate) fn project_code(code: ProjectCode) -> &'static [u8]
    ensures { result.now ≡ project_code code }
{
    match code {
        ProjectCode::P1 => b"P1",
        ProjectCode::P2 => b"P2",
        ProjectCode::P3 => b"P3",
        ProjectCode::P4 => b"P4",
        ProjectCode::P5 => b"P5",
        ProjectCode::P6 => b"P6",
        ProjectCode::P7 => b"P7",
        ProjectCode::P8 => b"P8",
        ProjectCode::P9 => b"P9",
        ProjectCode::P10 => b"P10",
        ProjectCode::P11 => b"P11",
    }
}

/// The code of a fault of a declared type.
pub(crate) fn type_code(code: TypeCode) -> &'static [u8]
    ensures { result.now ≡ type_code code }
{
    match code {
        TypeCode::Y1 => b"Y1",
        TypeCode::Y2 => b"Y2",
        TypeCode::Y3 => b"Y3",
        TypeCode::Y4 => b"Y4",
        TypeCode::Y5 => b"Y5",
        TypeCode::Y6 => b"Y6",
    }
}

/// The code of a fault of a tag, or of a text that is to name one.
pub(crate) fn tag_code(code: TagCode) -> &'static [u8]
    ensures { result.now ≡ tag_code code }
{
    match code {
        TagCode::G1 => b"G1",
        TagCode::G2 => b"G2",
        TagCode::G3 => b"G3",
        TagCode::G4 => b"G4",
        TagCode::G5 => b"G5",
        TagCode::G6 => b"G6",
        TagCode::G7 => b"G7",
        TagCode::G8 => b"G8",
        TagCode::G9 => b"G9",
        TagCode::G10 => b"G10",
    }
}

/// The code for which a line is none of a journal, or of a script.
pub(crate) fn journal_code(code: JournalCode) -> &'static [u8]
    ensures { result.now ≡ journal_code code }
{
    match code {
        JournalCode::J1 => b"J1",
        JournalCode::J2 => b"J2",
        JournalCode::J3 => b"J3",
        JournalCode::J4 => b"J4",
        JournalCode::J5 => b"J5",
    }
}
