// Cells: what writes glyphs with as many columns as the font's into memory, a whole cell or a part of one.
// It may use the paper, its laws, the glyphs and their columns, and cells_columns, which mixes them in. It knows nothing of cursors and
// windows, nor where a glyph's columns come from.
#![tactic(auto)]

ghost use Rattle.std.specs.Prelude.{◌≡◌, ◌≤◌, length};
ghost use Rattle.paper.specs.Strokes.{rect_at};
ghost use Rattle.laws_memory.specs.Rectangles.{Fits, Within};
ghost use Rattle.cells.specs.Drawn.{drawn};

use glyphs::Cell;
use paper::{Module, Rect, Style};

// A whole cell at (left, top), of a glyph with as many columns as the font's. It is small, so that a loop over characters has it in it.
pub fn draw_whole(g: Module, mem: &mut [u8], cols: &[u8], cell: Cell, left: usize, top: usize)
    requires within { Within g (rect_at left top cell.columns cell.rows) × Fits g mem.old × (length cols.now ≡ g.glyph) }
    requires le_across { (1 ≤ cell.style.across) × (cell.style.down ≤ 2) × (cell.rows ≡ cell.style.down) }
    ensures { mem.new ≡ drawn g cols.now cell.blanks cell.style
        (rect_at left top cell.columns cell.rows) mem.old }
{
    let w = cell.blanks;
    let style = cell.style;
    let framed = g.framed;
    let whole = glyphs_columns::blanks_left(framed, w)
        + g.glyph
        + glyphs_columns::blank_right(framed);
    let plain = (style.across == 1) & (style.down == 1);
    if plain & (cell.columns == whole) & (w <= 1) {
        cells_columns::stamp(g, mem, cols, w, style, left, top);
        return;
    }
    let r = Rect {
        left,
        top,
        width: cell.columns,
        height: cell.rows,
    };
    cells_columns::walk_over(g, mem, framed, cols, w, style, r);
}

// The cell of such a glyph at a rectangle's top left: the part of it that lies in the rectangle.
pub fn draw_alike(g: Module, mem: &mut [u8], cols: &[u8], w: u8, style: Style, r: Rect)
    requires within { Within g r × Fits g mem.old × (length cols.now ≡ g.glyph) }
    requires le_across { (1 ≤ style.across) × (style.down ≤ 2) × (r.height ≤ style.down) }
    ensures { mem.new ≡ drawn g cols.now w style r mem.old }
{
    let framed = g.framed;
    let whole = glyphs_columns::blanks_left(framed, w)
        + g.glyph
        + glyphs_columns::blank_right(framed);
    let plain = (style.across == 1) & (style.down == 1) & (r.height == 1);
    if plain & (r.width == whole) & (w <= 1) {
        cells_columns::stamp(g, mem, cols, w, style, r.left, r.top);
        return;
    }
    cells_columns::walk_over(g, mem, framed, cols, w, style, r);
}
