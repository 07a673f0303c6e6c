// The glass of a recorded stream or link, 224 bytes, and a line of counts. The glass is what one refresh brings after the stream, or the
// link's telegrams for the address, were fed to a fresh panel. It uses the panel's calls, and telegrams for a link's.
#![tactic(auto)]

mod link;

ghost use Rattle.paper.specs.Panel.{panel};
ghost use Rattle.view_show.specs.Shown.{Shows, fed_fresh, shown_fresh};

use paper::{Half, State};
use std::io::Print;
use std::{fmt, io};

// What became of a stream or a link: the link's telegrams that were fed, commands carried out, those answered 11 to 19, bytes moved, and
// whether a command is half read.
#[derive(Clone, Copy)]
struct Counts {
    telegrams: usize,
    carried: usize,
    answered: usize,
    moved: usize,
    half: bool,
}

// Whether a command is half read.
fn is_half_read(s: State) -> bool {
    !matches!(s.half, Half::Nothing)
}

// Plays a stream on a fresh panel and refreshes the glass: its counts and its dots are document 01's.
// Memory, store and glass are lent apart, and in no struct of arrays: its clause holds whatever their lengths. (play_link has
// its frame too, but feeds a link: the clause is of one feed.)
fn play(font: &[u8], stream: &[u8], mem: &mut [u8], store: &mut [u8], glass: &mut [u8]) -> Counts
    ensures { Shows (fed_fresh panel font.now mem.old store.old stream.now)
        (shown_fresh panel font.now mem.old store.old stream.now glass.old) result glass.new }
{
    let a = panel::start(mem, store);
    let fresh = a.state;
    let f = panel::feed(mem, store, font, stream, fresh);
    let fed = f.state;
    let r = panel::refresh(store, mem, glass, fed);
    Counts {
        telegrams: 0,
        carried: f.carried,
        answered: f.answered,
        moved: r.moved,
        half: is_half_read(fed),
    }
}

// Plays a link at an address on a fresh panel and refreshes the glass.
fn play_link(
    font: &[u8],
    link: &[u8],
    address: usize,
    mem: &mut [u8],
    store: &mut [u8],
    glass: &mut [u8],
) -> Counts {
    let a = panel::start(mem, store);
    let fresh = a.state;
    let f = link::feed(font, link, address, mem, store, fresh);
    let fed = f.state;
    let r = panel::refresh(store, mem, glass, fed);
    Counts {
        telegrams: f.telegrams,
        carried: f.carried,
        answered: f.answered,
        moved: r.moved,
        half: is_half_read(fed),
    }
}

// Plays the input, a link where there is an address.
fn play_as(
    address: Option<usize>,
    font: &[u8],
    input: &[u8],
    mem: &mut [u8],
    store: &mut [u8],
    glass: &mut [u8],
) -> Counts {
    match address {
        Some(address) => play_link(font, input, address, mem, store, glass),
        None => play(font, input, mem, store, glass),
    }
}

// What a link's note begins with: how many telegrams there were for the address. None is what a call answers 21.
#[derive(Clone, Copy)]
struct Telegrams {
    count: usize,
    address: usize,
}

impl fmt::Display for Telegrams {
    fn fmt<W: fmt::Write>(&self, f: &mut fmt::Formatter<W>) -> fmt::Result {
        let address = self.address;
        match self.count {
            0 => write!(f, "no telegram for address {address} (21)"),
            1 => write!(f, "1 telegram for address {address}"),
            n => write!(f, "{n} telegrams for address {address}"),
        }
    }
}

// The line below the glass.
#[derive(Clone, Copy)]
struct Note {
    address: Option<usize>,
    counts: Counts,
}

impl fmt::Display for Note {
    fn fmt<W: fmt::Write>(&self, f: &mut fmt::Formatter<W>) -> fmt::Result {
        let c = self.counts;
        if let Some(address) = self.address {
            write!(
                f,
                "{}, ",
                Telegrams {
                    count: c.telegrams,
                    address
                }
            )?;
        }
        write!(
            f,
            "{} commands carried out, {} answered 11 to 19, ",
            c.carried, c.answered
        )?;
        write!(f, "{} bytes moved to the glass", c.moved)?;
        if c.half {
            f.write_str("; a command is half read")?;
        }
        Ok(())
    }
}

// Plays the input and writes its glass and its counts.
pub fn show(rt: &impl Print, font: &[u8], input: &[u8], address: Option<usize>) -> io::Result<()> {
    let mut mem = [0u8; 1024];
    let mut store = [0u8; 144];
    let mut glass = [0u8; 224];
    let counts = play_as(address, font, input, &mut mem, &mut store, &mut glass);
    rt.write_all(&glass)?;
    rt.println(Note { address, counts })
}
