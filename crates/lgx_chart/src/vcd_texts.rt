// The fixed texts of a wave file. Proofs of what is beside them don't look inside.
ghost use Rattle.std.specs.Prelude.{◌≡◌};
ghost use Rattle.lgx_chart.specs.Vcd.{version_text, lost_text, timescale_text, end_text, task_text, wire_text, watch_text, tasks_scope, watches_scope, other_signals, values_text, idle_text};

#[tactic(auto, unfolding(crate::specs::Vcd::version_text))]
pub(crate) fn version_text() -> &'static [u8]
    ensures { result.now ≡ version_text }
{
    b"$version logix_wave $end\n$comment ends in "
}

#[tactic(auto, unfolding(crate::specs::Vcd::lost_text))]
pub(crate) fn lost_text() -> &'static [u8]
    ensures { result.now ≡ lost_text }
{
    b", lines lost: "
}

#[tactic(auto, unfolding(crate::specs::Vcd::timescale_text))]
pub(crate) fn timescale_text() -> &'static [u8]
    ensures { result.now ≡ timescale_text }
{
    b" $end\n$timescale "
}

#[tactic(auto, unfolding(crate::specs::Vcd::end_text))]
pub(crate) fn end_text() -> &'static [u8]
    ensures { result.now ≡ end_text }
{
    b" $end\n"
}

#[tactic(auto, unfolding(crate::specs::Vcd::task_text))]
pub(crate) fn task_text() -> &'static [u8]
    ensures { result.now ≡ task_text }
{
    b"$var string 1 t:"
}

#[tactic(auto, unfolding(crate::specs::Vcd::watch_text))]
pub(crate) fn watch_text() -> &'static [u8]
    ensures { result.now ≡ watch_text }
{
    b"$var integer 32 w:"
}

#[tactic(auto, unfolding(crate::specs::Vcd::tasks_scope))]
pub(crate) fn tasks_scope() -> &'static [u8]
    ensures { result.now ≡ tasks_scope }
{
    b"$scope module tasks $end\n"
}

#[tactic(auto, unfolding(crate::specs::Vcd::watches_scope))]
pub(crate) fn watches_scope() -> &'static [u8]
    ensures { result.now ≡ watches_scope }
{
    b"$upscope $end\n$scope module watches $end\n"
}

#[tactic(auto, unfolding(crate::specs::Vcd::other_signals))]
pub(crate) fn other_signals() -> &'static [u8]
    ensures { result.now ≡ other_signals }
{
    b"$upscope $end\n$var string 1 reply reply $end\n$var string 1 fault fault $end\n$enddefinitions $end\n"
}

#[tactic(auto, unfolding(crate::specs::Vcd::wire_text))]
pub(crate) fn wire_text() -> &'static [u8]
    ensures { result.now ≡ wire_text }
{
    b"$var wire 1 w:"
}

#[tactic(auto, unfolding(crate::specs::Vcd::values_text))]
pub(crate) fn values_text() -> &'static [u8]
    ensures { result.now ≡ values_text }
{
    b"$dumpvars\n"
}

#[tactic(auto, unfolding(crate::specs::Vcd::idle_text))]
pub(crate) fn idle_text() -> &'static [u8]
    ensures { result.now ≡ idle_text }
{
    b"s- reply\ns- fault\n$end\n"
}
