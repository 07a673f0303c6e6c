// The first line of a picture: its first word says which place the picture belongs to. What follows is for the reader.
ghost use Rattle.std.specs.Prelude.{◌<◌, IfSome};

use crate::store::Place;

// Words are parted by blanks and tabs.
fn is_blank(b: u8) -> bool {
    matches!(b, b' ' | b'\t')
}

// What a line says: what stands from its first word on, if it has one.
pub fn said(line: &[u8]) -> Option<&[u8]> {
    let start = line.iter().position(|b| !is_blank(*b))?;
    Some(&line[start..])
}

// The word that a text begins with.
pub fn first_word(said: &[u8]) -> &[u8] {
    let end = said.iter().position(|b| is_blank(*b));
    &said[..end.unwrap_or(said.len())]
}

// The value of a hexadecimal digit.
fn digit(b: u8) -> Option<u8>
    ensures { IfSome result (λ d. d < 16) }
{
    Some(char::from(b).to_digit(16)? as u8)
}

// The place that a word names: two hexadecimal digits that spell a code, or the word others.
pub fn place_of(word: &[u8]) -> Option<Place> {
    if word == b"others".as_slice() {
        return Some(Place::of_others());
    }
    let [high, low] = word else {
        return None;
    };
    Place::of_code(16 * digit(*high)? + digit(*low)?)
}
