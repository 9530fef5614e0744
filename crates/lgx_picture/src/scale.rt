// Where times are.
ghost use Rattle.std.specs.Prelude.{◌≡◌, ◌≤◌};
ghost use Rattle.lgx_picture.specs.Marks.{scale_of, x_of, right_of, edge_of};

use crate::sizes::{AFTER, LEFT, PAGE};
use lgx_chart::{End, View, time_of};

/// What is shown, the last time of it, and how many pixels there are from the first time to the last.
#[derive(Clone, Copy)]
pub(crate) struct Scale {
    pub view: View,
    pub end: u32,
    pub width: u16,
}

impl Scale {
    /// The scale of a report that ends so.
    pub(crate) fn of(view: View, end: &End) -> Scale
        ensures { result ≡ scale_of view end.now }
    {
        Scale {
            view,
            end: view.to.min(time_of(view.clock, end.tick, end.step)),
            width: view
                .width
                .unwrap_or(PAGE)
                .saturating_sub((LEFT + AFTER) as u16),
        }
    }

    /// Where a time is.
    #[tactic(auto, using(crate::proofs::Places::within, crate::proofs::Places::small_area))]
    pub(crate) fn x_of(self, time: u32) -> u32
        ensures value { result ≡ x_of self time }
        ensures near { result ≤ right_of self }
    {
        let shown = u64::from(time.min(self.end).saturating_sub(self.view.from));
        let all = u64::from(self.end.saturating_sub(self.view.from).max(1));
        (LEFT + shown * u64::from(self.width) / all) as u32
    }

    /// Where the last time is.
    pub(crate) fn right(self) -> u64
        ensures { result ≡ right_of self }
    {
        LEFT + u64::from(self.width)
    }

    /// The width of the drawing.
    pub(crate) fn edge(self) -> u64
        ensures { result ≡ edge_of self }
    {
        LEFT + u64::from(self.width) + AFTER
    }
}
