// Cells two rows high, written into memory in place of what stood there, or by exclusive or with it: each column is made once as one number
// of both its bytes, and stored as often as it is repeated. It may use the paper, the laws of what is laid into memory, and the columns of
// glyphs. It knows addresses, and how far apart columns lie, but neither dots nor rectangles.
#![tactic(auto)]

ghost use Rattle.std.specs.Prelude.{◌≡◌, ◌+◌, ◌*◌, ◌≤◌, ◌<◌, cond, length};
ghost use Rattle.laws_laid.specs.Laid.{piled, stacked};
ghost use Rattle.glyphs_columns.specs.Columns.{row_stroke, whole_of};
ghost use Rattle.cells_tall.specs.Both.{spread_of, reversed_both, both_stroke};

use glyphs_columns::{Repeat, Stencil};
use paper::Style;

// A column with each dot repeated downwards, as one number: its upper half's dots in the low byte, its lower half's in the high byte.
fn spread(v: u8) -> u16
    ensures { result ≡ spread_of v }
{
    let halves = (((v as u16) << 8) | ((v as u16) >> 4)) & 0x0F0F;
    let pairs = (halves | (halves << 2)) & 0x3333;
    let dots = (pairs | (pairs << 1)) & 0x5555;
    dots | (dots << 1)
}

// Both bytes inverted, if the style says so.
fn reversed_both(style: Style, z: u16) -> u16
    ensures { result ≡ reversed_both style z }
{
    if style.reverse == 1 { 65535 - z } else { z }
}

// The two bytes of a column, one below the other: in place of those that stand there, or flipping them. (By 256: with `from_le_bytes` it stayed
// open that the byte read is below 256.)
fn store(mem: &mut [u8], a: usize, flip: bool, z: u16)
    requires { (a + 1 < length mem.old) × (length mem.old ≤ 65536) }
    ensures { mem.new ≡ stacked (both_stroke flip (λ j. z)) 2 a 1 mem.old }
{
    let old = (mem[a] as u16) + (mem[a + 1] as u16) * 256;
    let y = if flip { old ^ z } else { z };
    mem[a] = (y % 256) as u8;
    mem[a + 1] = (y / 256) as u8;
}

// A column stored from address a on, as often as asked. Written out for speed, as cells_rows::put is.
fn put_both(mem: &mut [u8], a: usize, to: Repeat, flip: bool, z: u16)
    requires { (a + 1 + to.step * to.times < length mem.old + to.step) × (length mem.old ≤ 65536) }
    ensures { mem.new ≡ stacked (both_stroke flip (λ j. z)) to.step a to.times mem.old }
{
    store(mem, a, flip, z);
    if to.times == 1 {
        return;
    }
    let b = a + to.step;
    store(mem, b, flip, z);
    if to.times == 2 {
        return;
    }
    let c = b + to.step;
    store(mem, c, flip, z);
    if to.times == 3 {
        return;
    }
    let d = c + to.step;
    store(mem, d, flip, z);
}

// A blank column so stored, if there is one; gives the address after it.
fn edge(mem: &mut [u8], a: usize, to: Repeat, flip: bool, blank: u16, count: usize) -> usize
    requires count_bound { (count ≤ 1) × (length mem.old ≤ 65536) }
    requires n_in_bounds { a + 1 + to.step * (count * to.times) < length mem.old + to.step }
    ensures { (mem.new ≡ stacked (both_stroke flip (λ j. blank)) to.step a (count * to.times) mem.old) × (result ≡ a + to.step * (count * to.times)) }
{
    if count == 0 {
        return a;
    }
    put_both(mem, a, to, flip, blank);
    a + to.step * (to.times as usize)
}

// A whole cell, in place of what stood there or by exclusive or with it, from address `from` on: a blank column on the left or none, the
// glyph's, and a blank one on the right if the glyph has a blank dot. Each is stored as often as asked. Which of the two is a const parameter, so
// that no loop asks for it.
pub fn whole<const FLIP: bool>(mem: &mut [u8], f: &Stencil, from: usize, to: Repeat)
    requires blanks_bound { (f.now.blanks ≤ 1) × (2 ≤ to.step) × (length mem.old ≤ 65536) }
    requires n_in_bounds { from + 1 + to.step * (whole_of f.now.cols.now f.now.blanks f.now.lift * to.times) < length mem.old + to.step }
    ensures { mem.new ≡ piled (λ r. row_stroke f.now.cols.now f.now.blanks f.now.lift f.now.style 2 r to.times (cond FLIP 3 0)) to.step from
        (whole_of f.now.cols.now f.now.blanks f.now.lift * to.times) 2 mem.old }
{
    let Stencil {
        cols,
        blanks,
        lift,
        style,
    } = *f;
    let step = to.step * (to.times as usize);
    let blank = reversed_both(style, 0);
    let mut a = edge(mem, from, to, FLIP, blank, blanks);
    for &column in cols {
        let z = spread(lift.placed(column));
        put_both(mem, a, to, FLIP, reversed_both(style, z));
        a += step;
    }
    edge(mem, a, to, FLIP, blank, lift.down as usize);
}
