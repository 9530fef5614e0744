// The gate of the program.
use lgx_shared::Gate;

/// A gate that holds nobody.
#[derive(Drop, Clone, Copy)]
pub struct Open;

impl Gate for Open {
    fn before(&self, _lane: u32, _index: u32) {}
}
