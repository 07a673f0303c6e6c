// Rows of enlarged cells, written into memory: each column of a row is made once, and stored as often as it is repeated.
// It may use the paper, the laws of what is laid into memory, and the columns of glyphs. It knows addresses, and how far apart the columns
// of a row lie, but neither dots nor rectangles. The mixing is a const parameter, so that a loop over columns does not ask for it; `row_by` asks
// for it once, before the loop.
#![tactic(auto)]

ghost use Rattle.std.specs.Prelude.{◌≡◌, ◌+◌, ◌*◌, ◌≤◌, ◌<◌, length};
ghost use Rattle.laws_laid.specs.Laid.{laid};
ghost use Rattle.glyphs_columns.specs.Columns.{mixed_by, row_stroke, whole_of};

use glyphs_columns::{Repeat, Stencil};

// A column's byte stored from address a on, as often as asked. Written out for speed: as a loop digits 4 by 1 take 301 instructions a byte
// and not 268. (cells_tall has `put_both` and `edge` over two bytes at once: one for both takes a trait with a store and its laws, no plainer.)
fn put<const MIXING: u8>(mem: &mut [u8], a: usize, to: Repeat, v: u8)
    requires { (a + to.step * to.times < length mem.old + to.step) × (length mem.old ≤ 65536) }
    ensures { mem.new ≡ laid (λ j b. mixed_by MIXING v b) to.step a to.times mem.old }
{
    mem[a] = glyphs_columns::mixed_by(MIXING, v, mem[a]);
    if to.times == 1 {
        return;
    }
    let b = a + to.step;
    mem[b] = glyphs_columns::mixed_by(MIXING, v, mem[b]);
    if to.times == 2 {
        return;
    }
    let c = b + to.step;
    mem[c] = glyphs_columns::mixed_by(MIXING, v, mem[c]);
    if to.times == 3 {
        return;
    }
    let d = c + to.step;
    mem[d] = glyphs_columns::mixed_by(MIXING, v, mem[d]);
}

// A blank column so stored, if there is one; gives the address after it.
fn edge<const MIXING: u8>(mem: &mut [u8], a: usize, to: Repeat, blank: u8, count: usize) -> usize
    requires count_bound { (count ≤ 1) × (length mem.old ≤ 65536) }
    requires n_in_bounds { a + to.step * (count * to.times) < length mem.old + to.step }
    ensures { (mem.new ≡ laid (λ j b. mixed_by MIXING blank b) to.step a (count * to.times) mem.old) × (result ≡ a + to.step * (count * to.times)) }
{
    if count == 0 {
        return a;
    }
    put::<MIXING>(mem, a, to, blank);
    a + to.step * (to.times as usize)
}

// Row r of a whole cell, from address `from` on: a blank column on the left or none, the glyph's, and a blank one on the right if the glyph
// has a blank dot. Each is stored as often as asked.
pub fn row<const MIXING: u8>(mem: &mut [u8], f: &Stencil, down: u8, r: u8, from: usize, to: Repeat)
    requires blanks_bound { (f.now.blanks ≤ 1) × (length mem.old ≤ 65536) }
    requires n_in_bounds { from + to.step * (whole_of f.now.cols.now f.now.blanks f.now.lift * to.times) < length mem.old + to.step }
    ensures { mem.new ≡ laid (row_stroke f.now.cols.now f.now.blanks f.now.lift f.now.style down r to.times MIXING) to.step from
        (whole_of f.now.cols.now f.now.blanks f.now.lift * to.times) mem.old }
{
    let Stencil {
        cols,
        blanks,
        lift,
        style,
    } = *f;
    let step = to.step * (to.times as usize);
    let blank = glyphs_columns::reversed(style, 0);
    let mut a = edge::<MIXING>(mem, from, to, blank, blanks);
    for &column in cols {
        let v = glyphs_columns::tall_byte(down, r, lift.placed(column));
        put::<MIXING>(mem, a, to, glyphs_columns::reversed(style, v));
        a += step;
    }
    edge::<MIXING>(mem, a, to, blank, lift.down as usize);
}

// The same row by a mixing that is known at run time alone: every number above 2 is exclusive or.
pub fn row_by(mem: &mut [u8], f: &Stencil, down: u8, r: u8, from: usize, to: Repeat, mixing: u8)
    requires blanks_bound { (f.now.blanks ≤ 1) × (length mem.old ≤ 65536) }
    requires n_in_bounds { from + to.step * (whole_of f.now.cols.now f.now.blanks f.now.lift * to.times) < length mem.old + to.step }
    ensures { mem.new ≡ laid (row_stroke f.now.cols.now f.now.blanks f.now.lift f.now.style down r to.times mixing) to.step from
        (whole_of f.now.cols.now f.now.blanks f.now.lift * to.times) mem.old }
{
    match mixing {
        0 => row::<0>(mem, f, down, r, from, to),
        1 => row::<1>(mem, f, down, r, from, to),
        2 => row::<2>(mem, f, down, r, from, to),
        _ => row::<3>(mem, f, down, r, from, to),
    }
}
