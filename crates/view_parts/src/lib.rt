// An input of the viewer, one stream or a link of several panels, and the parts of it that a trace feeds: a stream is one part, a link has
// one for each telegram to the address. The lines of what a link has between them are written here. It uses telegrams to find them, and
// view_line for the lines.
#![tactic(auto)]

ghost use Rattle.std.specs.Prelude.{◌≡◌, true, ◌+◌, ◌<◌, ◌≤◌, length, IfOk};
ghost use Rattle.paper.specs.Telegrams.{good};

use std::io;
use std::io::Print;
use telegrams::Telegram;
use view_line::{StretchLine, TelegramLine};

// The bytes from `first` to before `end` are fed, and the next part is looked for from `after` on.
#[derive(Clone, Copy)]
pub struct Part {
    pub first: usize,
    pub end: usize,
    pub after: usize,
}

// Writes the line of bytes that are no telegram's, if there are any.
fn write_stretch(rt: &impl Print, place: usize, bytes: &[u8]) -> io::Result<()> {
    if bytes.is_empty() {
        return Ok(());
    }
    view_line::write(rt, StretchLine { place, bytes })
}

// Where the bytes that are fed of a telegram end: behind its data, or before them if it is another's.
fn fed_end(t: Telegram, ours: bool) -> usize
    requires { t.first + t.count < t.after }
    ensures { result < t.after }
{
    if ours {
        return t.first + t.count;
    }
    t.first
}

// Writes the line of the good telegram at `place`, and answers what of it is fed.
fn telegram_at(rt: &impl Print, link: &[u8], place: usize, address: usize) -> io::Result<Part>
    requires { good link.now place ≡ true }
    ensures { IfOk result (λ p. (p.end ≤ length link.now) × (place < p.after)) }
{
    let t = telegrams::found(link, place);
    let to = link[place + 1];
    let ours = telegrams::is_ours(to, address);
    let bytes = &link[place..t.after];
    let line = TelegramLine {
        place,
        bytes,
        to,
        ours,
    };
    view_line::write(rt, line)?;
    Ok(Part {
        first: t.first,
        end: fed_end(t, ours),
        after: t.after,
    })
}

// The next telegram from a place on, and what lies before it. Behind the last one nothing is fed.
fn next_telegram(rt: &impl Print, link: &[u8], place: usize, address: usize) -> io::Result<Part>
    requires { place < length link.now }
    ensures { IfOk result (λ p. (p.end ≤ length link.now) × (place < p.after)) }
{
    let Some(at) = telegrams_good::next(link, place) else {
        write_stretch(rt, place, &link[place..])?;
        return Ok(Part {
            first: place,
            end: place,
            after: link.len(),
        });
    };
    write_stretch(rt, place, &link[place..at])?;
    telegram_at(rt, link, at, address)
}

// The part that begins at `place` or, in a link that is read at an address, behind it.
pub fn next_part(
    rt: &impl Print,
    input: &[u8],
    place: usize,
    address: Option<usize>,
) -> io::Result<Part>
    requires { place < length input.now }
    ensures { IfOk result (λ p. (p.end ≤ length input.now) × (place < p.after)) }
{
    if let Some(address) = address {
        return next_telegram(rt, input, place, address);
    }
    Ok(Part {
        first: place,
        end: input.len(),
        after: input.len(),
    })
}
