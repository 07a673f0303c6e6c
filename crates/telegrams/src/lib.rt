// Addressed telegrams, receiving (document 02, order 4): what a received piece has for an address, handed back as the caller's own bytes.
// It uses the paper, telegrams_good for the places of good ones, and numbers for the answer.
#![tactic(auto)]

ghost use Rattle.std.specs.Prelude.{◌≡◌, true, ◌||◌, ◌+◌, ◌≤◌, eqb, length};
ghost use Rattle.paper.specs.Telegrams.{good, found_at, receive_call, OwnPart, Receives};
ghost use Rattle.telegrams.specs.Found.{accepted, received};

use paper::Refusal;

// A telegram in a piece: where its data start, how many bytes they are, and the place after it.
#[derive(Clone, Copy)]
pub struct Telegram {
    pub first: usize,
    pub count: usize,
    pub after: usize,
}

// The good telegram at `place`.
pub fn found(piece: &[u8], place: usize) -> Telegram
    requires { good piece.now place ≡ true }
    ensures { accepted result ≡ found_at piece.now place }
{
    let count = usize::from(piece[place + 2]);
    Telegram {
        first: place + 3,
        count,
        after: place + count + 5,
    }
}

// Whether a telegram to this address is for us: to ours, or to all.
pub fn is_ours(to: u8, address: usize) -> bool
    ensures { result ≡ (eqb to address || eqb to 0xFF) }
{
    (usize::from(to) == address) | (to == 0xFF)
}

// What a received piece has for an address: the first good telegram to it, or to all. One to another is passed as a whole.
#[tactic(auto, unfolding(paper::specs::Telegrams::receive_call))]
pub fn find(piece: &[u8], address: usize) -> Result<Telegram, Refusal>
    ensures { received result ≡ receive_call piece.now address }
{
    if 15 < address {
        return Err(Refusal::NoSuchAddress);
    }
    let mut from = 0;
    while let Some(place) = telegrams_good::next(piece, from) {
        let telegram = found(piece, place);
        if is_ours(piece[place + 1], address) {
            return Ok(telegram);
        }
        from = telegram.after;
    }
    Err(Refusal::NoTelegram)
}

// The data of a telegram: the caller's own bytes.
pub fn handed(piece: &[u8], telegram: Telegram) -> &[u8]
    requires { telegram.first + telegram.count ≤ length piece.now }
    ensures { OwnPart piece.entry result telegram.first telegram.count }
{
    let from = telegram.first;
    &piece[from..from + telegram.count]
}

// Order 4's call: the data of the first telegram for an address; behind the references the answer's number and the place after.
pub fn receive<'a>(piece: &'a [u8], address: usize, answer: &mut u32, after: &mut usize) -> &'a [u8]
    ensures { Receives piece.entry (receive_call piece.now address) answer.new after.new result }
{
    match find(piece, address) {
        Ok(telegram) => {
            *answer = 0;
            *after = telegram.after;
            handed(piece, telegram)
        }
        Err(refusal) => {
            *answer = numbers::refusal_number(refusal);
            *after = 0;
            &piece[..0]
        }
    }
}
