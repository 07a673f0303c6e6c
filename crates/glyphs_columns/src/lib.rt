// The columns of a glyph's cell in bytes, and what reverse and mixing make of a byte.
// It may use the paper and the laws of bytes. It reads the glyph's columns that it is lent and writes nothing.
// A row of a column is fetched, placed, stretched and reversed.
#![tactic(auto)]

ghost use Rattle.std.specs.Prelude.{◌≡◌, ◌≤◌, ◌<◌};
ghost use Rattle.paper.specs.Cells.{blanks_left};
ghost use Rattle.laws_bytes.specs.Bytes.{double, tall_byte, reversed_byte, mixed_byte};
ghost use Rattle.glyphs_columns.specs.Columns.{fetched_of, mixed_by, blank_right};

pub mod lift;

pub use lift::Lift;
use paper::Style;

// A column of a cell repeated downwards: the bytes of its two rows. A cell one row high has the first alone.
#[derive(Clone, Copy)]
pub struct Tall {
    pub upper: u8,
    pub lower: u8,
}

// A glyph as it is drawn: its columns, how many blank ones stand on their left, how its dots are placed, and in which style.
// (No bound on the blanks is the type's: `cells_cut::is_whole` tests it.)
#[derive(Clone, Copy)]
pub struct Stencil<'a> {
    pub cols: &'a [u8],
    pub blanks: usize,
    pub lift: Lift,
    pub style: Style,
}

// How often a column is stored, and how far apart the columns lie in memory.
#[derive(Clone, Copy)]
pub struct Repeat {
    pub step: usize,
    pub times: u8,
    // once at least, four times at most, and no further apart than a memory is long
    pub ghost some: { 1 ≤ times },
    pub ghost few: { times ≤ 4 },
    pub ghost near: { step ≤ 65536 },
}

// How many blank columns stand on the left of a glyph.
pub fn blanks_left(framed: bool, w: u8) -> usize
    ensures { (result ≡ blanks_left framed w) × (result ≤ w) }
{
    if framed { w as usize } else { 0 }
}

// And on the right.
pub fn blank_right(framed: bool) -> usize
    ensures { (result ≡ blank_right framed) × (result ≤ 1) }
{
    usize::from(framed)
}

// Column k of a cell: after the blank columns the glyph's, then blank. (No `get`: the edit cell_reads_past_the_glyph needs the second test.)
pub fn fetched(cols: &[u8], blanks: usize, k: usize) -> u8
    ensures { result ≡ fetched_of cols.now blanks k }
{
    if k < blanks {
        return 0;
    }
    let j = k - blanks;
    if cols.len() <= j {
        return 0;
    }
    cols[j]
}

// A byte of four dots, each twice: the dots moved apart, then each put beside itself.
fn doubled(n: u8) -> u8
    requires { n < 16 }
    ensures { result ≡ double n }
{
    let pairs = (n | (n << 2)) & 0x33;
    let dots = (pairs | (pairs << 1)) & 0x55;
    dots | (dots << 1)
}

// Row r of a column repeated downwards: itself, or its upper half's dots or its lower half's, each twice.
pub fn tall_byte(down: u8, r: u8, v: u8) -> u8
    ensures { result ≡ tall_byte down r v }
{
    if down == 1 {
        return v;
    }
    if r == 0 {
        return doubled(v / 16);
    }
    doubled(v % 16)
}

// A byte with all its dots inverted, if the style says so.
pub fn reversed(style: Style, v: u8) -> u8
    ensures { result ≡ reversed_byte style v }
{
    if style.reverse == 1 { 255 - v } else { v }
}

// A byte joined with the one that stands in memory, by the number of the mixing.
pub fn mixed_by(mixing: u8, v: u8, old: u8) -> u8
    ensures { result ≡ mixed_by mixing v old }
{
    match mixing {
        0 => v,
        1 => old | v,
        2 => old & v,
        _ => old ^ v,
    }
}

// And by the style's.
pub fn mixed(style: Style, v: u8, old: u8) -> u8
    ensures { result ≡ mixed_byte style v old }
{
    mixed_by(style.mixing, v, old)
}
