// The declared types.
ghost use Rattle.std.specs.Prelude.{◌≡◌, ◌<◌, length};
ghost use Rattle.std.specs.List.{AllByRecursion as Each};
ghost use Rattle.lgx_types.specs.Tables.{HasMembers};
ghost use Rattle.spec_project.specs.Tags.{types_fault};
ghost use Rattle.lgx_json.specs.Answers.{Reads};

use lgx_json::ProjectError;
use lgx_types::{TypeError, TypeTable};
use spec_project::{Described, Inner, ProjectCode};
use std::alloc::Global;

/// The table of the declared types, or P9 at the first structure with a fault.
#[tactic(auto, unfolding(spec_project::specs::Tags::types_fault))]
pub(crate) fn type_table(alloc: Global, file: &Described) -> Result<TypeTable, ProjectError>
    requires few { length file.now.types < 4294967296 }
    requires members { Each HasMembers file.now.types }
    ensures { Reads (types_fault file.now) file.now.types result }
{
    match TypeTable::build(alloc, file.types.as_slice()) {
        Ok(table) => Ok(table),
        Err(TypeError::Memory) => Err(ProjectError::Memory),
        Err(TypeError::Fault(fault)) => {
            let error = ProjectError::here_for(alloc, ProjectCode::P9, Inner::OfType(fault.code));
            Err(
                error
                    .at_place(alloc, fault.decl as usize)
                    .in_field(alloc, "types"),
            )
        }
    }
}
