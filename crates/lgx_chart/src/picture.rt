// Pictures of a report.
ghost use Rattle.std.specs.Prelude.{◌≡◌, ℕ, List, IfOk};
ghost use Rattle.lgx_chart.specs.declared.entry.Chart.{Chart as ChartView};

use crate::entry::Chart;
use lgx_num::Memory;
use std::alloc::Global;

/// A kind of picture of reports, as a text.
pub trait Picture: Drop + Sized {
    /// The text of a report's picture.
    ghost text: { Self → ChartView → List ℕ };

    /// What the picture of a chart is as a file.
    fn to_text(&self, alloc: Global, chart: &Chart) -> Result<Vec<u8>, Memory>
        ensures { IfOk result (λ t. t.items ≡ text self.now chart.now) };
}
