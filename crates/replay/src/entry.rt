// The entries of the stored bytes, as docs/SCRIPTS.md lists them.
ghost use Rattle.std.specs.Prelude.{◌-◌, ◌≤◌, length};

use replay_input::Stored;

// What the next calls find, or a call.
pub enum Entry<'a> {
    // bytes that are kept among the stored ones
    Kept,
    // the font's place among them
    FontAt(usize),
    // the lengths that are lent
    Memory(usize),
    Font(usize),
    Glass(usize),
    // a new world
    New,
    // a place of the record, and the byte there
    Record(usize, u8),
    Call(Call<'a>),
}

// A call with what it takes: a feed its piece, a hold its window, a receive its address and its piece.
pub enum Call<'a> {
    Start,
    Feed(&'a [u8]),
    Hold(usize),
    Release,
    Refresh,
    Receive(usize, &'a [u8]),
}

// Reads an entry: its kind, its number, and what the kind says. It ends before what a call answered.
pub fn read<'a>(from: &mut Stored<'a>) -> Entry<'a>
    ensures { length from.new.rest.now ≤ length from.old.rest.now - 1 }
{
    let kind = from.byte();
    let n = from.number() as usize;
    match kind {
        0 => {
            from.piece(n);
            Entry::Kept
        }
        1 => Entry::FontAt(n),
        2 => Entry::Memory(n),
        3 => Entry::Font(n),
        4 => Entry::Glass(n),
        5 => Entry::New,
        6 => Entry::Record(n, from.byte()),
        7 => Entry::Call(Call::Start),
        8 => Entry::Call(Call::Feed(from.piece(n))),
        9 => Entry::Call(Call::Hold(n)),
        10 => Entry::Call(Call::Release),
        11 => Entry::Call(Call::Refresh),
        // 12, and whatever is no kind
        _ => {
            let length = from.number() as usize;
            Entry::Call(Call::Receive(n, from.piece(length)))
        }
    }
}
