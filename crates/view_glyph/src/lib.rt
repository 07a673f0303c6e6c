// A picture of seven lines of five characters, one after the other, as the five bytes of its columns. It uses the paper alone.
#![tactic(auto)]

ghost use Rattle.std.specs.Prelude.{◌≡◌, ◌≤◌, ◌<◌, ◌==◌, length, get_or};
ghost use Rattle.paper.specs.Panel.{lit};
ghost use Rattle.view_glyph.specs.Glyph.{column_of};

// What the character at `at` adds to a byte in which it is worth so much.
fn worth_of(dots: &[u8], at: usize, worth: u8) -> u8
    requires { at < length dots.now }
    ensures { (result ≡ lit worth (get_or dots.now at 0 == 0x23)) × (result ≤ worth) }
{
    if dots[at] == b'#' { worth } else { 0 }
}

// The byte of column k: the top dot is bit 7, bit 0 is not used.
pub fn column(dots: &[u8], k: usize) -> u8
    requires { (k < 5) × (length dots.now ≡ 35) }
    ensures { result ≡ column_of dots.now k }
{
    let mut byte = 0;
    for i in 0..7 {
        byte += worth_of(dots, 5 * i + k, 128 >> i);
    }
    byte
}

// Whether each character of a line is one of a picture: # or a dot.
pub fn is_row(line: &[u8]) -> bool {
    line.iter().all(|b| matches!(b, b'#' | b'.'))
}
