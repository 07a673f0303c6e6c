// The dots of the glass, as a terminal's characters and as a PBM file's bytes have them.
// It uses the paper alone. A dot at a place is the paper's dot of the glass there.
#![tactic(auto)]

ghost use Rattle.std.specs.Prelude.{◌≡◌, ◌≤◌, ◌<◌};
ghost use Rattle.paper.specs.Panel.{panel, lit};
ghost use Rattle.view_dots.specs.Picture.{glass_dot, block_of, pbm_byte};

// Whether the dot at column x and line y of the glass is lit, line 0 on top.
pub fn is_lit(glass: &[u8; 224], x: usize, y: usize) -> bool
    requires { (x < 112) × (y < 16) }
    ensures { result ≡ glass_dot panel glass.now x y }
{
    let b = glass[2 * x + y / 8];
    (b >> (7 - y % 8)) % 2 == 1
}

// The character that shows two dots, one above the other.
pub fn block(upper: bool, lower: bool) -> char
    ensures { result ≡ block_of upper lower }
{
    match (upper, lower) {
        (true, true) => '█',
        (true, false) => '▀',
        (false, true) => '▄',
        (false, false) => ' ',
    }
}

// What a dot adds to a byte in which it is worth so much.
fn worth_of(glass: &[u8; 224], x: usize, y: usize, worth: u8) -> u8
    requires { (x < 112) × (y < 16) }
    ensures { (result ≡ lit worth (glass_dot panel glass.now x y)) × (result ≤ worth) }
{
    if is_lit(glass, x, y) { worth } else { 0 }
}

// Byte k of line y: eight dots, the leftmost the highest bit, 1 for one that is lit.
// Eight terms and no loop, which is no plainer: its sum would need an invariant that it stays below 256.
pub fn pbm_byte(glass: &[u8; 224], k: usize, y: usize) -> u8
    requires { (k < 14) × (y < 16) }
    ensures { result ≡ pbm_byte panel glass.now k y }
{
    let x = 8 * k;
    worth_of(glass, x, y, 128)
        + worth_of(glass, x + 1, y, 64)
        + worth_of(glass, x + 2, y, 32)
        + worth_of(glass, x + 3, y, 16)
        + worth_of(glass, x + 4, y, 8)
        + worth_of(glass, x + 5, y, 4)
        + worth_of(glass, x + 6, y, 2)
        + worth_of(glass, x + 7, y, 1)
}
