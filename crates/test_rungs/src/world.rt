// What rungs are checked against.
ghost use Rattle.std.specs.Prelude.{◌≡◌, IfOk};
ghost use Rattle.spec_scan.specs.Executable.{AreExecutable};
ghost use Rattle.test_rungs.specs.declared.tags.TheConstants.{LEN};

use crate::declared::{Sealed, sealed_table};
use crate::errors::Refusal;
use crate::read::name_of;
use crate::tags::LEN;
use lgx_check::{CheckScope, check_routine};
use lgx_num::Name;
use lgx_prog::Rungs;
use lgx_rung::SourceRung;
use spec_language::TaskName;
use std::alloc::Global;

/// The structures: arrays in one another, a timer beside a counter, and SINTs before DINTs.
const TYPES: &str =
    "M1: m DINT 2; M2: m M1 2; M3: m M2 2; M4: m M3 2; Cell: t TIMER, c COUNTER, k SINT, ok BOOL; Mix: k SINT 4, d DINT 3";

/// The tags. `hid` is a BOOL in program 0, and a DINT in the controller. Those of program 1 are the tags over which
/// programs run: an element of u is u[d0] too; if an instruction copies, u0 is the array from that element on.
const TAGS: [&str; 15] = [
    "b BOOL; s SINT; i INT; n DINT; bs BOOL 32; arr DINT 4; sa SINT 3",
    "t TIMER; ts TIMER 2; c COUNTER; cs COUNTER 2",
    "cell Cell; cells Cell 3; deep M4 2; one DINT 1; Local:1:I DINT 4; hid DINT; hid@0 BOOL; own@0 DINT",
    "al = arr[1]; bit = n.3; all = arr; tim = cells[1].t; T1 = n; Sub1 = n; loc@0 = hid",
    "bits@1 DINT; ds@1 DINT 10; u@1 DINT 4; vs@1 DINT 4; t0@1 TIMER; t1@1 TIMER; c0@1 COUNTER; c1@1 COUNTER",
    "k0@1 SINT; k1@1 SINT; m0@1 INT; m1@1 INT; sx@1 SINT 16; mix@1 Mix",
    "ia@1 INT 2; ib@1 INT 4; sc@1 SINT 3; bx@1 BOOL 32",
    "a@1 = bits.0; b@1 = bits.1; c@1 = bits.2; d@1 = bits.3; e@1 = bits.4; f@1 = bits.5",
    "g@1 = bits.6; h@1 = bits.7; i@1 = bits.8; j@1 = bits.9; k@1 = bits.10; l@1 = bits.11",
    "m@1 = bits.12; n@1 = bits.13; o@1 = bits.14; p@1 = bits.15; q@1 = bits.16; r@1 = bits.17",
    "s@1 = bits.18; t@1 = bits.19; v@1 = bits.21; w@1 = bits.22; x@1 = bits.23; y@1 = bits.24; z@1 = bits.25",
    "d0@1 = ds[0]; d1@1 = ds[1]; d2@1 = ds[2]; d3@1 = ds[3]; d4@1 = ds[4]",
    "d5@1 = ds[5]; d6@1 = ds[6]; d7@1 = ds[7]; d8@1 = ds[8]; d9@1 = ds[9]",
    "u0@1 = u[0]; u1@1 = u[1]; u2@1 = u[2]; u3@1 = u[3]",
    "v0@1 = vs[0]; v1@1 = vs[1]; v2@1 = vs[2]; v3@1 = vs[3]",
];

/// The number of routines.
const ROUTINES: u32 = 64;

/// The tasks T0 to T31, of which those with an odd number are event tasks.
const TASKS: u32 = 32;

/// Tags, and the names of routines and tasks.
pub struct World {
    tags: Sealed,
    routines: Vec<Name>,
    tasks: Vec<TaskName>,
    program: u32,
}

impl Drop for World {
    fn drop(self) {
        let World {
            tags: _,
            routines: _,
            tasks: _,
            program: _,
        } = self;
    }
}

impl World {
    /// That of a program, whose routines have these letters and a number as their names.
    pub fn new(alloc: Global, program: u32, letters: &str) -> Result<World, Refusal> {
        let routines = routine_names(alloc, letters)?;
        let tasks = task_names(alloc)?;
        let tags = sealed_table(alloc, TYPES, &TAGS)?;
        Ok(World {
            tags,
            routines,
            tasks,
            program,
        })
    }

    /// The rungs of a routine, checked, if the image of the tags is as long as rows say.
    pub fn check(&self, alloc: Global, rungs: &[SourceRung]) -> Result<Rungs, Refusal>
        ensures { IfOk result (λ rungs. AreExecutable LEN rungs) }
    {
        let many = self.routines.len() > 1000 || self.tasks.len() > 1000;
        if many || self.tags.table.bytes() != LEN {
            return Err(Refusal::NotExecutable);
        }
        let scope = CheckScope {
            tags: &self.tags.table,
            program: self.program,
            routines: &self.routines,
            tasks: &self.tasks,
        };
        Ok(check_routine(alloc, rungs, &scope)?)
    }
}

fn routine_names(alloc: Global, letters: &str) -> Result<Vec<Name>, Refusal> {
    let mut names = Vec::new(alloc);
    for number in 0..ROUTINES {
        names.push(name_of(format!(in alloc; "{letters}{number}")?.as_str())?)?;
    }
    Ok(names)
}

fn task_names(alloc: Global) -> Result<Vec<TaskName>, Refusal> {
    let mut tasks = Vec::new(alloc);
    for number in 0..TASKS {
        tasks.push(TaskName {
            name: name_of(format!(in alloc; "T{number}")?.as_str())?,
            event: number % 2 == 1,
        })?;
    }
    Ok(tasks)
}
