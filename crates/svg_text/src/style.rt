//! How pictures look: one sheet of styles for all of them, in light and in dark.

ghost use Rattle.std.specs.Prelude.{◌≡◌};
ghost use Rattle.svg_text.specs.Svg.{sheet_text};

/// The sheet of styles.
#[tactic(auto, unfolding(crate::specs::Svg::sheet_text))]
pub fn sheet() -> &'static str
    ensures { result.now ≡ sheet_text }
{
    SHEET
}

const SHEET: &str = "<style>
.page{fill:#fff}text{font:13px sans-serif;fill:#1f2328}.src,.no{font:13px monospace}.no,.faint{fill:#6e7781}
.op{font:12px monospace;fill:#57606a}.head{font-weight:600}.small{font-size:10px}.cell text,.axis{font:9px sans-serif;text-anchor:middle}
.band{fill:#f6f8fa}.bar{fill:#74c476}.cell rect{stroke:#8c959f;stroke-width:.5}.on rect,.on .mark{stroke:#d1242f;stroke-width:3}
.load rect{fill:#9ecae1}.store rect{fill:#fdae6b}.print rect{fill:#f4a3a3}.apply rect{fill:#a1d99b}.steer rect{fill:#c9c3e6}.route rect{fill:#eaeef2}
.rule{stroke:#eaeef2;fill:none}
.box{fill:#57606a;fill-opacity:.07;stroke:#57606a;stroke-opacity:.35}.way{fill:none;stroke-width:2}.thin{stroke-width:1}.way.faint{stroke-opacity:.3}.open{fill:#fff}
.c0{stroke:#0969da}.c1{stroke:#cf222e}.c2{stroke:#1a7f37}.c3{stroke:#9a6700}.c4{stroke:#8250df}.c5{stroke:#bf3989}.c6{stroke:#0a7ea4}.c7{stroke:#bc4c00}
.f0{fill:#0969da}.f1{fill:#cf222e}.f2{fill:#1a7f37}.f3{fill:#9a6700}.f4{fill:#8250df}.f5{fill:#bf3989}.f6{fill:#0a7ea4}.f7{fill:#bc4c00}
@media (prefers-color-scheme:dark){.page,.open{fill:#0d1117}text{fill:#e6edf3}.no,.faint,.op{fill:#9198a1}.band{fill:#161b22}.rule{stroke:#21262d}.cell text{fill:#1f2328}
.box{fill:#9198a1;fill-opacity:.12}}
</style>";
