// Cells of text: what of a cell at the cursor lies in the range, and the cell of a code that may be a download.
// It may use glyphs, cells and cells_any; it moves no cursor and marks nothing.
#![tactic(auto)]

ghost use Rattle.std.specs.Prelude.{◌≡◌, ◌+◌, ◌<◌, ◌≤◌, length};
ghost use Rattle.paper.specs.Panel.{font_length};
ghost use Rattle.paper.specs.Downloads.{glyph_of};
ghost use Rattle.paper.specs.Cells.{part_of};
ghost use Rattle.laws_memory.specs.Rectangles.{Fits, Within};
ghost use Rattle.glyphs.specs.Faces.{faces_of};
ghost use Rattle.cells.specs.Drawn.{drawn};

use glyphs::Faces;
use paper::{Module, Rect, Style, View};

// The part of the cell at the cursor that lies in the range: its dots outside are dropped.
pub fn inside(v: View, c: usize, l: usize) -> Rect
    requires { (v.x < v.width) × (v.y < v.height) × (v.left + v.width < 65536) × (v.top + v.height < 65536) }
    ensures { result ≡ part_of v c l }
{
    let x = v.x;
    let y = v.y;
    let left = v.left;
    let top = v.top;
    let width = v.width;
    let height = v.height;
    Rect {
        left: left + x,
        top: top + y,
        width: c.min(width - x),
        height: l.min(height - y),
    }
}

// The cell of a code that is looked for among the downloads, the part of it that lies in a rectangle. It stands apart, so that text
// without downloads stays as small as it is.
pub fn draw_found(
    g: Module,
    mem: &mut [u8],
    faces: Faces<'_>,
    code: u8,
    w: u8,
    style: Style,
    r: Rect,
)
    requires within { Within g r × Fits g mem.old × (length faces.font.now ≡ font_length g) × (0x20 ≤ code) }
    requires le_across { (1 ≤ style.across) × (style.down ≤ 2) × (r.height ≤ style.down) }
    ensures { mem.new ≡ drawn g (glyph_of g (faces_of faces.entry) code) w style r mem.old }
{
    let cols = glyphs::own_glyph(faces.own, code);
    if cols.len() == 0 {
        let fonts = glyphs::font_glyph(g, faces.font, code);
        cells::draw_alike(g, mem, fonts, w, style, r);
        return;
    }
    cells_any::draw(g, mem, cols, w, style, r);
}

// The cell of a code, the part of it that lies in a rectangle. Without downloads it is one test more.
pub fn draw_code(
    g: Module,
    mem: &mut [u8],
    faces: Faces<'_>,
    code: u8,
    w: u8,
    style: Style,
    r: Rect,
)
    requires within { Within g r × Fits g mem.old × (length faces.font.now ≡ font_length g) × (0x20 ≤ code) }
    requires le_across { (1 ≤ style.across) × (style.down ≤ 2) × (r.height ≤ style.down) }
    ensures { mem.new ≡ drawn g (glyph_of g (faces_of faces.entry) code) w style r mem.old }
{
    if faces.own.len() == 0 {
        let cols = glyphs::font_glyph(g, faces.font, code);
        cells::draw_alike(g, mem, cols, w, style, r);
        return;
    }
    draw_found(g, mem, faces, code, w, style, r);
}
