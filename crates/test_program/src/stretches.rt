// Processor steps of a project, by stretches.
use lgx_core::{Begins, Controller};
use lgx_project::read_project;
use spec_base::limits::MAX_EVENTS;
use std::alloc::Global;
use test_rows::{Texts, Told};

/// Says in how many stretches a controller makes the processor steps of `STEPS PROJECT`.
pub(crate) fn say_stretches(texts: &Texts, given: &str, told: &mut Told) {
    let (steps, name) = given.split_once(' ').unwrap_or((given, ""));
    let steps = steps.parse::<u32>().unwrap_or(0);
    told.or_none(stretches_of(texts.alloc, texts.get(name).unwrap_or(b""), steps));
}

/// In how many stretches `steps` processor steps of a project in Run are made; None if it is refused or memory runs out.
fn stretches_of(alloc: Global, project: &[u8], steps: u32) -> Option<u32> {
    let project = read_project(alloc, project).ok()?;
    let mut controller = Controller::new(alloc, project).ok()?;
    if controller.spent() < MAX_EVENTS {
        let _ = controller.mode_run();
    }
    Some(count_stretches(&mut controller, steps))
}

/// Makes `steps` processor steps, as long as the controller can count them; hits are taken before each stretch.
fn count_stretches(controller: &mut Controller, steps: u32) -> u32 {
    let mut left = steps;
    let mut begins = Begins::new();
    for stretches in 0..steps {
        controller.clear_hits();
        let most = left.min(MAX_EVENTS.saturating_sub(controller.spent()));
        if most == 0 {
            return stretches;
        }
        left = left.saturating_sub(controller.stretch(most, &mut begins).steps);
    }
    steps
}
