// How far an exploration is.

/// Who hears how far an exploration is. Nothing that is said of the journals rests on it.
pub trait Progress {
    /// The layer of `steps` processor steps and `ticks` ticks was made, and has `nodes` nodes.
    fn layer(&mut self, steps: u32, ticks: u32, nodes: usize);
}
