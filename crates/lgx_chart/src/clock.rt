// What a picture counts as time.
ghost use Rattle.std.specs.Prelude.{◌≡◌};
ghost use Rattle.lgx_chart.specs.Clocks.{time_of};

/// What a picture counts as time.
#[derive(Clone, Copy, Debug, PartialEq, Eq)]
pub enum Clock {
    /// The number of processor steps.
    Step,
    /// The tick, a millisecond.
    Tick,
}

/// The time of a line.
pub fn time_of(clock: Clock, tick: u32, step: u32) -> u32
    ensures { result ≡ time_of clock tick step }
{
    match clock {
        Clock::Step => step,
        Clock::Tick => tick,
    }
}
