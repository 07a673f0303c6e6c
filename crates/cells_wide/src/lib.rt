// Enlarged cells in memory: a whole one by rows that have the mixing as a const parameter, a part of one column by column.
// It may use the paper, the laws of what is laid into memory, the columns of glyphs, the rows of cells and their parts. It knows addresses,
// and how far apart columns lie, but neither dots nor rectangles.
#![tactic(auto)]

ghost use Rattle.std.specs.Prelude.{◌≡◌, ◌+◌, ◌*◌, ◌≤◌, ◌<◌, length};
ghost use Rattle.laws_laid.specs.Laid.{piled};
ghost use Rattle.glyphs_columns.specs.Columns.{cell_stroke, whole_of};
ghost use Rattle.cells_cut.specs.Whole.{is_whole};

use glyphs_columns::{Lift, Repeat, Stencil};
use paper::Style;

// A whole cell that is not repeated downwards. The mixing is decided once for it: there is a row for each, and the commonest enlargements are
// written out, so that the loop over columns asks for neither.
fn flat(mem: &mut [u8], f: &Stencil, a: usize, s: usize)
    requires blanks_bound { (f.now.blanks ≤ 1) × (1 ≤ f.now.style.across) × (f.now.style.across ≤ 4) × (f.now.style.down ≡ 1) × (s ≤ 65536) }
    requires mem_len_bound { (length mem.old ≤ 65536) × (a + s * (whole_of f.now.cols.now f.now.blanks f.now.lift * f.now.style.across) < length mem.old + s) }
    ensures { mem.new ≡ piled (cell_stroke f.now.cols.now f.now.blanks f.now.lift f.now.style) s a
        (whole_of f.now.cols.now f.now.blanks f.now.lift * f.now.style.across) 1 mem.old }
{
    let n = f.style.across;
    let asked = Repeat { step: s, times: n };
    let twice = Repeat { step: s, times: 2 };
    let four = Repeat { step: s, times: 4 };
    match f.style.mixing {
        0 if n == 4 => cells_rows::row::<0>(mem, f, 1, 0, a, four),
        3.. if n == 2 => cells_rows::row::<3>(mem, f, 1, 0, a, twice),
        3.. if n == 4 => cells_rows::row::<3>(mem, f, 1, 0, a, four),
        mixing => cells_rows::row_by(mem, f, 1, 0, a, asked, mixing),
    }
}

// A whole cell that is repeated downwards, its mixing decided once: replaced and by exclusive or both rows at a time.
fn tall(mem: &mut [u8], f: &Stencil, a: usize, s: usize)
    requires blanks_bound { (f.now.blanks ≤ 1) × (1 ≤ f.now.style.across) × (f.now.style.across ≤ 4) × (f.now.style.down ≡ 2) × (2 ≤ s) }
    requires s_bound { (s ≤ 65536) × (length mem.old ≤ 65536) × (a + 1 + s * (whole_of f.now.cols.now f.now.blanks f.now.lift * f.now.style.across) < length mem.old + s) }
    ensures { mem.new ≡ piled (cell_stroke f.now.cols.now f.now.blanks f.now.lift f.now.style) s a
        (whole_of f.now.cols.now f.now.blanks f.now.lift * f.now.style.across) 2 mem.old }
{
    let asked = Repeat {
        step: s,
        times: f.style.across,
    };
    match f.style.mixing {
        0 => cells_tall::whole::<false>(mem, f, a, asked),
        1 => {
            cells_rows::row::<1>(mem, f, 2, 0, a, asked);
            cells_rows::row::<1>(mem, f, 2, 1, a + 1, asked);
        }
        2 => {
            cells_rows::row::<2>(mem, f, 2, 0, a, asked);
            cells_rows::row::<2>(mem, f, 2, 1, a + 1, asked);
        }
        _ => cells_tall::whole::<true>(mem, f, a, asked),
    }
}

// A cell at address a, or the part of it that lies in a rectangle of so many columns and rows, the columns s apart. The caller knows whether it
// is whole. (Numbers and no `Stencil`: a caller that has them in registers need not store them.)
pub fn draw(
    mem: &mut [u8],
    cols: &[u8],
    blanks: usize,
    lift: Lift,
    style: Style,
    a: usize,
    s: usize,
    width: usize,
    height: usize,
    whole: bool,
)
    requires down_bound { (1 ≤ style.across) × (style.down ≤ 2) × (1 ≤ height) × (height ≤ style.down) × (height ≤ s) }
    requires whole_value { whole ≡ is_whole (length cols.now) blanks lift.down style width height }
    requires s_bound { (s ≤ 65536) × (width ≤ 65536) × (length mem.old ≤ 65536) × (a + height + s * width ≤ length mem.old + s) }
    ensures { mem.new ≡ piled (cell_stroke cols.now blanks lift style) s a width height mem.old }
{
    let f = Stencil {
        cols,
        blanks,
        lift,
        style,
    };
    if whole {
        if height == 1 {
            flat(mem, &f, a, s);
            return;
        }
        tall(mem, &f, a, s);
        return;
    }
    for r in 0..height {
        cells_cut::cut_row(mem, &f, r as u8, a + r, s, width);
    }
}
