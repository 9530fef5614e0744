// The way of a walker: the actions that were made, and the processor steps between them.
ghost use Rattle.std.specs.Prelude.{◌≡◌, ◌+◌, ◌<◌, ◌^◌, ◌-◌, ◌++◌, ◌∷◌, [], true, replicate, IfOk, IfSome};
ghost use Rattle.spec_lanes.specs.Laws.{with_one_more};
ghost use Rattle.lgx_walker.specs.Trails.{trail_of, with_action};

use crate::due::count_of;
use lgx_num::{Items, Memory};
use std::alloc::Global;

/// An action of a lane that was made: its number in the lane's list, from 0, and how many processor steps were made since the
/// action before, or since the opening.
#[derive(Clone, Copy, PartialEq, Eq, Debug)]
pub struct Placed {
    pub lane: u32,
    pub index: u32,
    pub since: u32,
}

/// How many actions each lane made, and all of them in order; how many processor steps were made, and how many of them since
/// the last action. With the script this gives the journal.
#[derive(Drop)]
pub struct Trail {
    pub counts: Items<u32>,
    pub placed: Items<Placed>,
    pub steps: u32,
    pub since: u32,
}

/// The counts with one more action of the lane; None if there is no such lane, or no room for one more.
fn one_more(alloc: Global, counts: &[u32], lane: u32) -> Result<Option<Items<u32>>, Memory>
    ensures { IfOk result (λ o. IfSome o (λ more. more ≡ with_one_more counts.now lane)) }
{
    let made = count_of(counts, lane);
    let index = lane as usize;
    if index >= counts.len() || made == u32::MAX {
        return Ok(None);
    }
    let mut list = Vec::from_slice(alloc, counts)?;
    list[index] = made + 1;
    Ok(Some(Items::of(list)))
}

/// The actions with one more.
fn with_placed(alloc: Global, placed: &[Placed], one: Placed) -> Result<Items<Placed>, Memory>
    ensures { IfOk result (λ more. more ≡ placed.now ++ one ∷ []) }
{
    let mut list = Vec::from_slice(alloc, placed)?;
    list.push(one)?;
    Ok(Items::of(list))
}

impl Trail {
    /// The trail after the opening, with no action of any of `lanes` lanes, and no step.
    pub(crate) fn new(alloc: Global, lanes: usize) -> Result<Trail, Memory>
        ensures { IfOk result (λ trail. trail ≡ trail_of (replicate lanes 0) [] 0 0) }
    {
        let counts = vec![in alloc; 0u32; lanes]?;
        Ok(Trail {
            counts: Items::of(counts),
            placed: Items::of(Vec::new(alloc)),
            steps: 0,
            since: 0,
        })
    }

    /// The trail with the next action of a lane; None if there is no such lane, or no room for one more.
    pub(crate) fn with_action(&self, alloc: Global, lane: u32) -> Result<Option<Trail>, Memory>
        ensures { IfOk result (λ o. IfSome o (λ trail. trail ≡ with_action self.now lane)) }
    {
        let index = count_of(self.counts.as_slice(), lane);
        let Some(counts) = one_more(alloc, self.counts.as_slice(), lane)? else {
            return Ok(None);
        };
        let one = Placed {
            lane,
            index,
            since: self.since,
        };
        let placed = with_placed(alloc, self.placed.as_slice(), one)?;
        Ok(Some(Trail {
            counts,
            placed,
            steps: self.steps,
            since: 0,
        }))
    }

    /// Whether one more step can be counted.
    pub(crate) fn has_room(&self) -> bool
        ensures steps { result ≡ true → self.now.steps < 2 ^ 32 - 1 }
        ensures since { result ≡ true → self.now.since < 2 ^ 32 - 1 }
    {
        self.steps < u32::MAX && self.since < u32::MAX
    }

    /// Counts a processor step.
    pub(crate) fn add_step(&mut self)
        requires steps { self.old.steps < 2 ^ 32 - 1 }
        requires since { self.old.since < 2 ^ 32 - 1 }
        ensures { self.new ≡ trail_of self.old.counts self.old.placed (self.old.steps + 1) (self.old.since + 1) }
    {
        self.steps += 1;
        self.since += 1;
    }
}
