// A program that runs on the engine.
ghost use Rattle.std.specs.Prelude.{◌≡◌, length};
ghost use Rattle.test_rungs.specs.declared.tags.TheConstants.{LEN};

use crate::errors::Refusal;
use crate::program::{Routines, read_program};
use crate::tags::{LEN, image_of};
use lgx_engine::{Effect, Position, advance};
use lgx_image::Image;
use lgx_num::Flags;
use lgx_prescan::prescan;
use lgx_prog::FlatProgram;
use std::alloc::Global;
use std::marker::Model;

/// A program that runs over the tags of rows, and where its scan is.
///
/// That it runs is its invariant: it was made of rungs that can be executed, and every step keeps it.
pub struct Bench {
    program: FlatProgram,
    position: Position,
    image: Image,
    flags: Flags,
}

impl Drop for Bench {
    fn drop(self) {
        let Bench {
            program: _,
            position: _,
            image: _,
            flags: _,
        } = self;
    }
}

impl Model for Bench {
    ghost use Rattle.std.specs.Prelude.{◌≡◌, length};
    ghost use Rattle.test_rungs.specs.declared.tags.TheConstants.{LEN};
    ghost use Rattle.test_rungs.specs.Running.{Running, IsRunning};

    ghost Value = { Running };

    ghost view = { λ b. record { program = b.program; place = b.position; image = b.image; flags = b.flags } };

    ghost invariant = { λ b. IsRunning b.program b.position (length b.image.bytes) × (length b.image.bytes ≡ LEN) };
}

/// At which tick a scan runs, and whether it is the first one.
#[derive(Clone, Copy)]
pub struct Scan {
    pub now: u32,
    pub first: bool,
}

impl Bench {
    /// The program of a text at the start of a scan, with these tags and status flags. Its first routine is the main
    /// one.
    pub fn load(alloc: Global, text: &str, before: &str, flags: Flags) -> Result<Bench, Refusal> {
        let routines = read_program(alloc, text)?;
        let image = image_of(alloc, before)?;
        if image.len() != LEN {
            return Err(Refusal::NotExecutable);
        }
        Bench::of(alloc, &routines, image, flags)
    }

    fn of(alloc: Global, routines: &Routines, image: Image, flags: Flags) -> Result<Bench, Refusal>
        requires { length image.bytes ≡ LEN }
    {
        let rungs = routines.as_slice();
        if rungs.is_empty() {
            return Err(Refusal::NotExecutable);
        }
        let program = FlatProgram::build(alloc, rungs, 0)?;
        let position = Position::start(&program);
        Ok(Bench {
            program,
            position,
            image,
            flags,
        })
    }

    /// Begins a new scan. Tags and flags stay.
    pub fn restart(&mut self) {
        self.position.restart(&self.program);
    }

    /// Makes a step of the scan.
    pub fn step(&mut self, scan: Scan) -> Effect {
        advance(
            &self.program,
            &mut self.position,
            &mut self.image,
            scan.now,
            scan.first,
            &mut self.flags,
        )
    }

    /// The tags as they are now.
    pub fn image(&self) -> &Image {
        &self.image
    }
}

/// Prescans the program of a text over tags.
pub fn prescan_text(alloc: Global, text: &str, image: &mut Image) -> Result<(), Refusal> {
    let routines = read_program(alloc, text)?;
    prescan_routines(alloc, &routines, image)
}

fn prescan_routines(alloc: Global, routines: &Routines, image: &mut Image) -> Result<(), Refusal> {
    let rungs = routines.as_slice();
    if rungs.is_empty() || image.len() != LEN {
        return Err(Refusal::NotExecutable);
    }
    let program = FlatProgram::build(alloc, rungs, 0)?;
    prescan(&program, image);
    Ok(())
}
