// What rungs are checked against.
use lgx_num::Name;
use lgx_tags::TagTable;
use spec_language::TaskName;

/// What the rungs of a routine are checked against: the declared tags, the number of the program, the names of the
/// program's routines, and the names of the tasks.
#[derive(Drop)]
pub struct CheckScope<'a> {
    pub tags: &'a TagTable,
    pub program: u32,
    pub routines: &'a [Name],
    pub tasks: &'a [TaskName],
}
