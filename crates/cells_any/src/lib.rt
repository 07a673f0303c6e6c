// Cells of any glyph: of one with as many columns as the font's, or with others, as a download may have.
// It may use cells for the former and cells_columns for the latter. It knows nothing of cursors and windows, nor where a glyph's columns
// come from.
#![tactic(auto)]

ghost use Rattle.std.specs.Prelude.{◌≡◌, ◌≤◌};
ghost use Rattle.laws_memory.specs.Rectangles.{Fits, Within};
ghost use Rattle.cells.specs.Drawn.{drawn};

use paper::{Module, Rect, Style};

// The cell of any glyph at a rectangle's top left: the part of it that lies in the rectangle. One with other columns than the font's is
// not framed, and stands in its cell as it is.
pub fn draw(g: Module, mem: &mut [u8], cols: &[u8], w: u8, style: Style, r: Rect)
    requires within { Within g r × Fits g mem.old }
    requires le_across { (1 ≤ style.across) × (style.down ≤ 2) × (r.height ≤ style.down) }
    ensures { mem.new ≡ drawn g cols.now w style r mem.old }
{
    if cols.len() == g.glyph {
        cells::draw_alike(g, mem, cols, w, style, r);
        return;
    }
    let plain = (style.across == 1) & (style.down == 1) & (r.height == 1);
    if plain & (r.width <= cols.len()) {
        cells_columns::stamp_glyph(g, mem, false, cols, style, r.left, r.top, r.width);
        return;
    }
    cells_columns::walk_over(g, mem, false, cols, w, style, r);
}
