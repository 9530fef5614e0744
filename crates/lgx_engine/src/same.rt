// Places in flat code copied and compared.
ghost use Rattle.std.specs.Prelude.{◌≡◌, ◌≤◌, true, length, take};
ghost use Rattle.spec_base.specs.declared.limits.TheConstants.{MAX_FRAMES, MAX_PARAMETERS};
ghost use Rattle.lgx_engine.specs.Views.{zone_of};

use crate::frame::{Frame, Frames, Inputs, Position, Returns, RungState, Zone};
use arrayvec::ArrayVec;
use lgx_num::Place;
use spec_base::limits::{MAX_FRAMES, MAX_PARAMETERS};
use spec_scan::Copying;

fn same_zone(a: Zone, b: Zone) -> bool
    ensures { result ≡ true → zone_of a ≡ zone_of b }
{
    match (a, b) {
        (Zone::NoZone, Zone::NoZone) => true,
        (Zone::Enabled, Zone::Enabled) => true,
        (Zone::Disabled, Zone::Disabled) => true,
        _ => false,
    }
}

fn same_inputs(a: &[i32], b: &[i32]) -> bool
    ensures { result ≡ true → a.now ≡ b.now }
{
    if a.len() != b.len() {
        return false;
    }
    for i in 0..a.len() {
        if a[i] != b[i] {
            return false;
        }
    }
    true
}

fn same_place(a: Place, b: Place) -> bool
    ensures { result ≡ true → a ≡ b }
{
    a == b
}

fn same_returns(a: &[Place], b: &[Place]) -> bool
    ensures { result ≡ true → a.now ≡ b.now }
{
    if a.len() != b.len() {
        return false;
    }
    for i in 0..a.len() {
        if !same_place(a[i], b[i]) {
            return false;
        }
    }
    true
}

fn same_copying(a: &Copying, b: &Copying) -> bool
    ensures { result ≡ true → a.now ≡ b.now }
{
    a.sync == b.sync
        && a.fill == b.fill
        && a.source == b.source
        && a.target == b.target
        && a.size == b.size
        && a.left == b.left
}

impl RungState {
    /// Whether the states are the same.
    fn is_same(&self, other: &RungState) -> bool
        ensures { result ≡ true → self.now ≡ other.now }
    {
        self.pc == other.pc && self.on == other.on && self.branches.is_same(&other.branches)
    }
}

impl Frame {
    /// The frame becomes the same as the other.
    fn copy_from(&mut self, other: &Frame)
        ensures { self.new ≡ other.now }
    {
        self.routine = other.routine;
        self.rung.copy_from(&other.rung);
        self.zone = other.zone;
        self.inputs = inputs_again(other.inputs.as_slice());
        self.returns = returns_again(other.returns.as_slice());
    }

    /// Whether the frames are the same.
    fn is_same(&self, other: &Frame) -> bool
        ensures { result ≡ true → self.now ≡ other.now }
    {
        self.routine == other.routine
            && self.rung.is_same(&other.rung)
            && same_zone(self.zone, other.zone)
            && same_inputs(self.inputs.as_slice(), other.inputs.as_slice())
            && same_returns(self.returns.as_slice(), other.returns.as_slice())
    }
}

/// The numbers once more.
fn inputs_again(list: &[i32]) -> Inputs
    requires { length list.now ≤ MAX_PARAMETERS }
    ensures { result.items ≡ list.now }
{
    let mut copy = ArrayVec::new();
    for number in list {
        copy.push(*number);
    }
    copy
}

/// The places once more.
fn returns_again(list: &[Place]) -> Returns
    requires { length list.now ≤ MAX_PARAMETERS }
    ensures { result.items ≡ list.now }
{
    let mut copy = ArrayVec::new();
    for place in list {
        copy.push(*place);
    }
    copy
}

/// The first `depth` frames become the same as the others.
fn copy_slots(into: &mut [Frame; MAX_FRAMES], from: &[Frame; MAX_FRAMES], depth: usize)
    requires few { depth ≤ MAX_FRAMES }
    ensures same { take depth into.new ≡ take depth from.now }
    ensures length { length into.new ≡ length into.old }
{
    for i in 0..depth {
        into[i].copy_from(&from[i]);
    }
}

/// Whether the first `depth` frames are the same.
fn same_slots(a: &[Frame; MAX_FRAMES], b: &[Frame; MAX_FRAMES], depth: usize) -> bool
    requires { depth ≤ MAX_FRAMES }
    ensures { result ≡ true → take depth a.now ≡ take depth b.now }
{
    for i in 0..depth {
        if !a[i].is_same(&b[i]) {
            return false;
        }
    }
    true
}

impl Frames {
    /// The routines in progress become the same as the others.
    fn copy_from(&mut self, other: &Frames)
        ensures { self.new ≡ other.now }
    {
        copy_slots(&mut self.slots, &other.slots, other.depth);
        self.depth = other.depth;
    }

    /// Whether the routines in progress are the same.
    fn is_same(&self, other: &Frames) -> bool
        ensures { result ≡ true → self.now ≡ other.now }
    {
        self.depth == other.depth && same_slots(&self.slots, &other.slots, self.depth)
    }
}

/// Whether the copies in progress are the same.
fn same_copies(a: Option<Copying>, b: Option<Copying>) -> bool
    ensures { result ≡ true → a ≡ b }
{
    match (a, b) {
        (None, None) => true,
        (Some(x), Some(y)) => same_copying(&x, &y),
        _ => false,
    }
}

impl Position {
    /// The position becomes the same as the other.
    pub fn copy_from(&mut self, other: &Position)
        ensures { self.new ≡ other.now }
    {
        self.frames.copy_from(&other.frames);
        self.copying = other.copying;
    }

    /// Whether the positions are the same.
    pub fn is_same(&self, other: &Position) -> bool
        ensures { result ≡ true → self.now ≡ other.now }
    {
        self.frames.is_same(&other.frames) && same_copies(self.copying, other.copying)
    }
}
