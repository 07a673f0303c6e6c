// Cells in memory, column by column: a byte, a column, a cell that is not enlarged, and any.
// It may use the paper, its laws, the dots, the columns of glyphs and enlarged cells. It knows neither cursors and windows nor where a glyph's
// columns come from, and it is told whether a glyph is framed.
#![tactic(auto)]

ghost use Rattle.std.specs.Prelude.{◌≡◌, ◌≤◌, length};
ghost use Rattle.paper.specs.Strokes.{rect_at};
ghost use Rattle.laws_memory.specs.Rectangles.{Fits, Within};
ghost use Rattle.glyphs_columns.specs.Columns.{plain_width};
ghost use Rattle.cells_columns.specs.DrawnAs.{drawn_as};
ghost use Rattle.cells_columns.specs.Mixed.{mixed_at, mixed_column, unlit, inlaid};

use glyphs_columns::{Lift, Repeat, Stencil, Tall};
use paper::{Module, Rect, Style};

// Mixes a byte into memory.
pub fn mix(g: Module, mem: &mut [u8], style: Style, x: usize, y: usize, v: u8)
    requires { Within g (rect_at x y 1 1) × Fits g mem.old }
    ensures { mem.new ≡ mixed_at g style x y v mem.old }
{
    let a = dots::at(g, x, y);
    mem[a] = glyphs_columns::mixed(style, v, mem[a]);
}

// Mixes a column into memory, as many rows of it as the rectangle has.
pub fn mix_column(
    g: Module,
    mem: &mut [u8],
    style: Style,
    x: usize,
    top: usize,
    height: usize,
    t: Tall,
)
    requires { Within g (rect_at x top 1 height) × Fits g mem.old × (height ≤ 2) }
    ensures { mem.new ≡ mixed_column g style x top height t mem.old }
{
    if height == 0 {
        return;
    }
    mix(g, mem, style, x, top, t.upper);
    if height == 1 {
        return;
    }
    mix(g, mem, style, x, top + 1, t.lower);
}

// A blank column, if there is one.
fn stamp_blank(g: Module, mem: &mut [u8], style: Style, x: usize, y: usize, count: usize)
    requires { Within g (rect_at x y count 1) × Fits g mem.old × (count ≤ 1) }
    ensures { mem.new ≡ unlit g style x y count mem.old }
{
    if 0 < count {
        mix(g, mem, style, x, y, glyphs_columns::reversed(style, 0));
    }
}

// The first columns of a glyph, one row high and not enlarged.
pub fn stamp_glyph(
    g: Module,
    mem: &mut [u8],
    framed: bool,
    cols: &[u8],
    style: Style,
    left: usize,
    top: usize,
    count: usize,
)
    requires { Within g (rect_at left top count 1) × Fits g mem.old × (count ≤ length cols.now) }
    ensures { mem.new ≡ inlaid g framed cols.now style left top count mem.old }
{
    let p = Lift::placing(framed, top);
    for (j, &column) in cols[..count].iter().enumerate() {
        let v = glyphs_columns::reversed(style, p.placed(column));
        mix(g, mem, style, left + j, top, v);
    }
}

// A whole cell one row high that is not enlarged, of a glyph with as many columns as the font's: a blank column on the left or none,
// the glyph's, and one on the right or none. The module tells how many they are, so that a loop over characters knows it.
pub fn stamp(g: Module, mem: &mut [u8], cols: &[u8], w: u8, style: Style, left: usize, top: usize)
    requires within { Within g (rect_at left top (plain_width g w) 1) × Fits g mem.old × (length cols.now ≡ g.glyph) }
    requires w_bound { (w ≤ 1) × (style.across ≡ 1) × (style.down ≡ 1) }
    ensures { mem.new ≡ drawn_as g g.framed cols.now w style (rect_at left top (plain_width g w) 1) mem.old }
{
    let framed = g.framed;
    let blanks = glyphs_columns::blanks_left(framed, w);
    let last = blanks + g.glyph;
    stamp_blank(g, mem, style, left, top, blanks);
    stamp_glyph(g, mem, framed, cols, style, left + blanks, top, g.glyph);
    stamp_blank(
        g,
        mem,
        style,
        left + last,
        top,
        glyphs_columns::blank_right(framed),
    );
}

// Any cell, or the part of it that lies in a rectangle. Columns twice as wide and replaced stand here, so that a loop over characters has
// them in it and knows how many they are. All others are called from two places, which keeps them out of that loop.
pub fn walk_over(g: Module, mem: &mut [u8], framed: bool, cols: &[u8], w: u8, style: Style, r: Rect)
    requires within { Within g r × Fits g mem.old }
    requires le_across { (1 ≤ style.across) × (style.down ≤ 2) × (r.height ≤ style.down) }
    ensures { mem.new ≡ drawn_as g framed cols.now w style r mem.old }
{
    let width = r.width;
    let height = r.height;
    if width == 0 {
        return;
    }
    if height == 0 {
        return;
    }
    let top = r.top;
    let blanks = glyphs_columns::blanks_left(framed, w);
    let lift = Lift::placing(framed, top);
    let a = dots::at(g, r.left, top);
    let s = g.rows;
    let twice = (style.mixing == 0) & (style.across == 2) & (style.down == 1);
    let whole = cells_cut::is_whole(cols.len(), blanks, lift.down, style, width, height);
    if twice & whole {
        // made on this path alone: made before the test digits 2 by 1 take 188 instructions for 179
        let f = Stencil {
            cols,
            blanks,
            lift,
            style,
        };
        cells_rows::row::<0>(mem, &f, 1, 0, a, Repeat { step: s, times: 2 });
        return;
    }
    if height == 1 {
        cells_wide::draw(mem, cols, blanks, lift, style, a, s, width, 1, whole);
        return;
    }
    cells_wide::draw(mem, cols, blanks, lift, style, a, s, width, height, whole);
}
