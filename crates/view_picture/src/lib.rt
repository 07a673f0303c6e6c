// The glass as a picture: half-block characters for a terminal, or the bytes of a PBM file.
// It uses view_dots for the dots.
#![tactic(auto)]

ghost use Rattle.std.specs.Prelude.{◌<◌};

const COLUMNS: usize = 112;

const LINES: usize = 16;

// ---- for a terminal

// The picture is put into a lent buffer, each call handing on the place behind what it put: with a formatter, or a vector that keeps its
// own length, a frame took four times and nearly twice as long.

// Puts a byte; what does not fit in the buffer is dropped.
fn put(out: &mut [u8], at: usize, b: u8) -> usize {
    if at < out.len() {
        out[at] = b;
        return at + 1;
    }
    at
}

// Puts a block or a part of the frame, from 2500h to 25FFh, as the three bytes of its UTF-8; any other character as a blank.
fn put_drawn(out: &mut [u8], at: usize, c: char) -> usize {
    let code = u32::from(c);
    if !(0x2500..0x2600).contains(&code) {
        return put(out, at, b' ');
    }
    let at = put(out, at, 0xE2);
    let at = put(out, at, (0x80 + code / 64 % 64) as u8);
    put(out, at, (0x80 + code % 64) as u8)
}

// Puts a line of characters, lines 2n and 2n + 1 of the dots, between the frame's sides.
fn put_row(out: &mut [u8], at: usize, glass: &[u8; 224], n: usize) -> usize
    requires { n < 8 }
{
    let mut to = put_drawn(out, at, '│');
    for x in 0..COLUMNS {
        let upper = view_dots::is_lit(glass, x, 2 * n);
        let lower = view_dots::is_lit(glass, x, 2 * n + 1);
        to = put_drawn(out, to, view_dots::block(upper, lower));
    }
    let to = put_drawn(out, to, '│');
    put(out, to, b'\n')
}

// Puts the frame's upper or lower edge, between its corners.
fn put_edge(out: &mut [u8], at: usize, left: char, right: char) -> usize {
    let mut to = put_drawn(out, at, left);
    for _ in 0..COLUMNS {
        to = put_drawn(out, to, '─');
    }
    let to = put_drawn(out, to, right);
    put(out, to, b'\n')
}

// The glass in a frame, drawn from the start of the buffer: at most 3,430 bytes. It answers how many.
pub fn draw(out: &mut [u8], glass: &[u8; 224]) -> usize {
    let mut to = put_edge(out, 0, '┌', '┐');
    for n in 0..LINES / 2 {
        to = put_row(out, to, glass, n);
    }
    put_edge(out, to, '└', '┘')
}

// ---- as a PBM file

// What the file begins with.
const HEAD: &[u8; 10] = b"P4\n112 16\n";

// The glass as a PBM file of 112 by 16 dots: its head, and 14 bytes for each line.
pub fn pbm(glass: &[u8; 224]) -> [u8; 234] {
    let mut file = [0; 234];
    file[..10].copy_from_slice(HEAD);
    for y in 0..LINES {
        for k in 0..COLUMNS / 8 {
            file[10 + 14 * y + k] = view_dots::pbm_byte(glass, k, y);
        }
    }
    file
}
