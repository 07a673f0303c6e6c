// Cells of which a part is drawn: whether one is whole, and a row of one that is not.
// It may use the paper, the laws of what is laid into memory, and the columns of glyphs. It knows addresses, and how far apart columns lie, but
// neither dots nor rectangles.
#![tactic(auto)]

ghost use Rattle.std.specs.Prelude.{◌≡◌, ◌+◌, ◌*◌, ◌≤◌, ◌<◌, length};
ghost use Rattle.laws_laid.specs.Laid.{laid};
ghost use Rattle.glyphs_columns.specs.Columns.{cell_stroke};
ghost use Rattle.cells_cut.specs.Whole.{is_whole};

use glyphs_columns::Stencil;
use paper::Style;

// Whether all of a cell is there, `glyph` columns after at most one blank and before at most one, and no column repeated more than four times.
// (Numbers and no `Stencil`: a slice is shorter than `glyph` may be, so it would ask more of callers.)
pub fn is_whole(
    glyph: usize,
    blanks: usize,
    right: u8,
    style: Style,
    width: usize,
    height: usize,
) -> bool
    requires { (1 ≤ style.across) × (right ≤ 1) × (width ≤ 65536) }
    ensures { result ≡ is_whole glyph blanks right style width height }
{
    let n = style.across;
    if 1 < blanks {
        return false;
    }
    if 4 < n {
        return false;
    }
    if width < glyph {
        return false;
    }
    if height != style.down as usize {
        return false;
    }
    width == (blanks + glyph + (right as usize)) * (n as usize)
}

// Row r of a cell of which only `width` columns are there: each is made by itself.
pub fn cut_row(mem: &mut [u8], f: &Stencil, r: u8, from: usize, s: usize, width: usize)
    requires down_bound { (1 ≤ f.now.style.across) × (s ≤ 65536) × (length mem.old ≤ 65536) }
    requires width_in_bounds { from + s * width < length mem.old + s }
    ensures { mem.new ≡ laid (cell_stroke f.now.cols.now f.now.blanks f.now.lift f.now.style r) s from width mem.old }
{
    let Stencil {
        cols,
        blanks,
        lift,
        style,
    } = *f;
    let n = style.across as usize;
    let mut a = from;
    for j in 0..width {
        let v = lift.placed(glyphs_columns::fetched(cols, blanks, j / n));
        let b = glyphs_columns::tall_byte(style.down, r, v);
        mem[a] = glyphs_columns::mixed_by(style.mixing, glyphs_columns::reversed(style, b), mem[a]);
        a += s;
    }
}
