// The modules: a panel's figures and rules as one value, and the lengths that follow from it. No other code knows a figure.
// It uses the paper alone.
#![tactic(auto)]

ghost use Rattle.std.specs.Prelude.{◌≡◌, ◌≤◌};
ghost use Rattle.paper.specs.Panel.{panel, memory_length, glass_length, font_length};

use paper::Module;

// The 112 by 16 module.
#[tactic(auto, unfolding(paper::specs::Panel::panel))]
pub fn small() -> Module
    ensures { result ≡ panel }
{
    Module {
        columns: 512,
        rows: 2,
        visible: 112,
        glyph: 5,
        framed: true,
        dimmest: 1,
        brightest: 8,
        finer: false,
        brightness: 8,
        tables: false,
        keeps: false,
        shortcuts: true,
        downloads: true,
        widths: true,
    }
}

// The bytes of its memory.
pub fn memory_length(g: Module) -> usize
    requires { memory_length g ≤ 65536 }
    ensures { result ≡ memory_length g }
{
    g.rows * g.columns
}

// Of its glass.
pub fn glass_length(g: Module) -> usize
    requires { glass_length g ≤ 65536 }
    ensures { result ≡ glass_length g }
{
    g.rows * g.visible
}

// Of a font for it: a glyph for each code 20h to FFh.
pub fn font_length(g: Module) -> usize
    requires { font_length g ≤ 65536 }
    ensures { result ≡ font_length g }
{
    g.glyph * 0xE0
}
