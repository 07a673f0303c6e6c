// What a define's download and an erase do to the downloads, and what they are answered: 15, 11, 18 and 19. It knows no state, so that
// the answers meet before one is built.
// It may use downloads and downloads_write for the places.
#![tactic(auto)]

ghost use Rattle.std.specs.Prelude.{◌≡◌};
ghost use Rattle.downloads_answer.specs.Answers.{noted_if, answer_if, stored_if, erase_answer, erased_if};

use paper::{Columns, Outcome};

// Stores a download that has come whole, and gives its define's note of a drop, which was `noted` before. While held nothing is
// stored, and nothing dropped.
pub fn store_one(store: &mut [u8], held: bool, code: u8, noted: bool, columns: Columns) -> bool
    ensures { (result ≡ noted_if held store.old code noted)
        × (store.new ≡ stored_if held store.old code columns) }
{
    if held {
        return noted;
    }
    let dropped = downloads::is_dropped(store, code);
    downloads_write::put(store, code, columns);
    noted | dropped
}

// What a define read to its end is answered.
pub fn define_answer(held: bool, dropped: bool) -> Outcome
    ensures { result ≡ answer_if held dropped }
{
    if held {
        return Outcome::WindowHeld;
    }
    if dropped {
        return Outcome::Dropped;
    }
    Outcome::Carried
}

// Erases a code, and gives what that is answered. It knows no state, so that its answers meet before one is built.
#[tactic(auto, unfolding(paper::specs::Numbers::outcome_number))]
pub fn erase_one(store: &mut [u8], held: bool, a: u8, code: u8) -> Outcome
    ensures { (result ≡ erase_answer held store.old a code)
        × (store.new ≡ erased_if held store.old a code) }
{
    if held {
        return Outcome::WindowHeld;
    }
    if !((a == 1) & (0x20 <= code)) {
        return Outcome::OutOfDomain;
    }
    if downloads::is_stored(store, code) {
        downloads_write::erase(store, code);
        return Outcome::Carried;
    }
    Outcome::NotStored
}
