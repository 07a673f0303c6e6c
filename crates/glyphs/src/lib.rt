// Glyphs: how large a cell is, and where a code's columns stand, in the font or in the downloads.
// It may use the paper, and the downloads to find one by its code. It reads font and downloads and writes nothing.
// A glyph is the slice of its columns.
#![tactic(auto)]

ghost use Rattle.std.specs.Prelude.{◌≡◌, cond, ◌≤◌, ◌<◌, eqb, length};
ghost use Rattle.paper.specs.Panel.{font_length, font_glyph};
ghost use Rattle.paper.specs.Downloads.{places_in, own_glyph};
ghost use Rattle.paper.specs.Cells.{blank_columns, cell_width};
ghost use Rattle.glyphs.specs.Cell.{cell_of};
ghost use Rattle.glyphs.specs.Own.{own_columns};

use paper::{Module, Style};

// How many blank columns a frame adds to a glyph: the one on the right, and one on the left if w says so.
fn frame_columns(w: u8) -> usize
    ensures { result ≡ cond (eqb w 0) 1 2 }
{
    if w == 0 { 1 } else { 2 }
}

// How many blank columns a cell has on a module.
fn blank_columns(g: Module, w: u8) -> usize
    ensures { result ≡ blank_columns g w }
{
    if g.framed { frame_columns(w) } else { 0 }
}

// How many columns a cell has.
#[tactic(auto, unfolding(paper::specs::Cells::cell_width))]
pub fn cell_width(g: Module, w: u8, style: Style) -> usize
    requires { g.glyph ≤ 8 }
    ensures { result ≡ cell_width g w style }
{
    let columns = g.glyph + blank_columns(g, w);
    columns * (style.across as usize)
}

// A cell as the settings ask for it: its blank columns on the left, its style, and how many columns and rows it has.
#[derive(Clone, Copy)]
pub struct Cell {
    pub blanks: u8,
    pub style: Style,
    pub columns: usize,
    pub rows: usize,
}

// The cell that the width setting and the style ask for, measured once for a command.
pub fn cell_of(g: Module, w: u8, style: Style) -> Cell
    requires { g.glyph ≤ 8 }
    ensures { result ≡ cell_of g w style }
{
    Cell {
        blanks: w,
        style,
        columns: cell_width(g, w, style),
        rows: style.down as usize,
    }
}

// What characters are drawn from: the font, and the downloads in force, none where the switch is off.
#[derive(Clone, Copy)]
pub struct Faces<'a> {
    pub font: &'a [u8],
    pub own: &'a [u8],
}

// A code's columns in the font.
pub fn font_glyph(g: Module, font: &[u8], code: u8) -> &[u8]
    requires { (length font.now ≡ font_length g) × (0x20 ≤ code) }
    ensures { result.now ≡ font_glyph g font.now code }
{
    let first = g.glyph * ((code as usize) - 0x20);
    let end = first + g.glyph;
    &font[first..end]
}

// The columns of the download in place k.
fn columns_at(own: &[u8], k: usize) -> &[u8]
    requires { k < places_in own.now }
    ensures { result.now ≡ own_glyph own.now k }
{
    let first = 9 * k + 2;
    if own[9 * k + 1] == 5 {
        return &own[first..first + 5];
    }
    &own[first..first + 7]
}

// The columns of a code's download, none where it is not stored.
#[tactic(auto, unfolding(crate::specs::Own::own_columns))]
pub fn own_glyph(own: &[u8], code: u8) -> &[u8]
    ensures { result.now ≡ own_columns own.now code }
{
    match downloads::place(own, code) {
        Some(k) => columns_at(own, k),
        None => &own[0..0],
    }
}
