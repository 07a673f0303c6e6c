// The telegrams of a link as C asks for them: where the data of the first one for an address lie. It knows no state.
// It may use telegrams for the search, face for the answer's type, numbers for its number.
#![tactic(auto)]

ghost use Rattle.std.specs.Prelude.{◌≡◌};
ghost use Rattle.face.specs.Face.{receive_c};

use face::PanelReceived;

// Finds the first telegram for an address in a received piece. 20: the address is not 0 to 15; 21: there is none.
pub fn receive(piece: &[u8], address: usize) -> PanelReceived
    ensures { result ≡ receive_c piece.now address }
{
    match telegrams::find(piece, address) {
        Ok(telegram) => PanelReceived {
            answer: 0,
            first: telegram.first,
            count: telegram.count,
            after: telegram.after,
        },
        Err(refusal) => PanelReceived {
            answer: numbers::refusal_number(refusal),
            first: 0,
            count: 0,
            after: 0,
        },
    }
}
