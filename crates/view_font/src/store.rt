// The pictures that were read: a place for each code 20h to FFh, and the last for all codes that have none.
ghost use Rattle.std.specs.Prelude.{◌≤◌};

use std::array;

// How many codes there are.
const CODES: usize = 224;

// A picture's place.
#[derive(Clone, Copy)]
pub struct Place {
    at: usize,
    ghost in_store: { at ≤ 224 },
}

impl Place {
    // The place for all codes that have no picture.
    pub fn of_others() -> Place {
        Place { at: CODES }
    }

    // The place of a code, if it is 20h at least.
    pub fn of_code(code: u8) -> Option<Place> {
        let at = usize::from(code.checked_sub(0x20)?);
        Some(Place { at })
    }
}

// The columns of each place's picture, where it was read.
#[derive(Drop)]
pub struct Store {
    pictures: [Option<[u8; 5]>; CODES + 1],
}

impl Store {
    // No picture was read.
    pub fn new() -> Store {
        Store {
            pictures: [None; CODES + 1],
        }
    }

    // Whether a place has its picture.
    pub fn has(&self, place: Place) -> bool {
        self.pictures[place.at].is_some()
    }

    // Puts a picture into its place.
    pub fn put(&mut self, place: Place, dots: &[[u8; 5]; 7]) {
        let dots = dots.as_flattened();
        self.pictures[place.at] = Some(array::from_fn(|k| view_glyph::column(dots, k)));
    }

    // The font: each code's columns, or those of the picture for all others.
    pub fn font(&self) -> [[u8; 5]; CODES] {
        let others = self.pictures[CODES].unwrap_or_default();
        array::from_fn(|i| self.pictures[i].unwrap_or(others))
    }
}
