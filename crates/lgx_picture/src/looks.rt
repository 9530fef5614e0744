// How a drawing looks. Proofs of what is beside these texts don't look inside.
ghost use Rattle.std.specs.Prelude.{◌≡◌};
ghost use Rattle.lgx_picture.specs.Svg.{open_text, height_text, view_text, style, legend, hint};

/// The colours and letters, in light and in dark, and the ground.
pub(crate) const STYLE: &[u8] =
    b"<style>text{font:11px monospace;fill:#1f2328}.ground{fill:#fff}path{fill:none;stroke-width:2}.head{font-size:13px}.name{font-size:12px;font-weight:bold}.time{text-anchor:middle}.grid,.base{stroke:#d8dee4;stroke-width:1}.task .mark{stroke:#0969da}.fault .mark{stroke:#cf222e;stroke-width:3}.reply .mark{stroke:#8250df}.watch .mark{stroke:#8c959f;stroke-width:1;stroke-opacity:.5}.watch .value{stroke:#1a7f37}@media(prefers-color-scheme:dark){text{fill:#e6edf3}.ground{fill:#0d1117}.grid,.base{stroke:#30363d}.task .mark{stroke:#58a6ff}.fault .mark{stroke:#ff7b72}.reply .mark{stroke:#bc8cff}.watch .mark{stroke:#6e7681}.watch .value{stroke:#3fb950}}</style>\n<rect class=\"ground\" width=\"100%\" height=\"100%\"/>\n";

/// What the colours mean.
pub(crate) const LEGEND: &[u8] =
    b"<g class=\"task\"><path class=\"mark\" d=\"M14 36V50\"/><text x=\"22\" y=\"47\">a task begins PROGRAM:VERSION</text></g><g class=\"fault\"><path class=\"mark\" d=\"M254 36V50\"/><text x=\"262\" y=\"47\">a fault</text></g><g class=\"reply\"><path class=\"mark\" d=\"M344 36V50\"/><text x=\"352\" y=\"47\">LANE and reply</text></g><g class=\"watch\"><path class=\"value\" d=\"M484 48H494V39H504\"/><text x=\"512\" y=\"47\">a watched value</text></g>";

/// How marks in one place are written.
pub(crate) const HINT: &[u8] =
    b"<text x=\"654\" y=\"47\">of marks in one place the last is written; pointing at it shows all</text>\n";

#[tactic(auto, unfolding(crate::specs::Svg::open_text))]
pub(crate) fn open_text() -> &'static [u8]
    ensures { result.now ≡ open_text }
{
    b"<svg xmlns=\"http://www.w3.org/2000/svg\" width=\""
}

#[tactic(auto, unfolding(crate::specs::Svg::height_text))]
pub(crate) fn height_text() -> &'static [u8]
    ensures { result.now ≡ height_text }
{
    b"\" height=\""
}

#[tactic(auto, unfolding(crate::specs::Svg::view_text))]
pub(crate) fn view_text() -> &'static [u8]
    ensures { result.now ≡ view_text }
{
    b"\" viewBox=\"0 0 "
}

#[tactic(auto, unfolding(crate::specs::Svg::style))]
pub(crate) fn style() -> &'static [u8]
    ensures { result.now ≡ style }
{
    STYLE
}

#[tactic(auto, unfolding(crate::specs::Svg::legend))]
pub(crate) fn legend() -> &'static [u8]
    ensures { result.now ≡ legend }
{
    LEGEND
}

#[tactic(auto, unfolding(crate::specs::Svg::hint))]
pub(crate) fn hint() -> &'static [u8]
    ensures { result.now ≡ hint }
{
    HINT
}
