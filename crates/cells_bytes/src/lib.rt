// Cells without a glyph: the all-off cell of a wrap, and one byte of an image.
// It may use the paper, its laws, the glyphs' columns for reverse, and cells_columns, which mixes bytes in. It knows nothing of cursors
// and windows.
#![tactic(auto)]

ghost use Rattle.std.specs.Prelude.{◌≡◌, ◌≤◌};
ghost use Rattle.paper.specs.Strokes.{rect_at};
ghost use Rattle.laws_memory.specs.Rectangles.{Fits, Within};
ghost use Rattle.cells_bytes.specs.Stored.{blanked, imaged};

use glyphs_columns::Tall;
use paper::{Module, Rect, Style};

// The all-off cell of a wrap at a rectangle's top left: the part of it that lies in the rectangle.
pub fn blank(g: Module, mem: &mut [u8], style: Style, r: Rect)
    requires { Within g r × Fits g mem.old × (r.height ≤ 2) }
    ensures { mem.new ≡ blanked g style r mem.old }
{
    let v = glyphs_columns::reversed(style, 0);
    let t = Tall { upper: v, lower: v };
    for j in 0..r.width {
        cells_columns::mix_column(g, mem, style, r.left + j, r.top, r.height, t);
    }
}

// One byte of an image.
pub fn store(g: Module, mem: &mut [u8], style: Style, x: usize, y: usize, v: u8)
    requires { Within g (rect_at x y 1 1) × Fits g mem.old }
    ensures { mem.new ≡ imaged g style x y v mem.old }
{
    cells_columns::mix(g, mem, style, x, y, glyphs_columns::reversed(style, v));
}
