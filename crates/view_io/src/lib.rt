// What the viewer's programs share: the font and then a stream on the input, or a glass; and why a program ends early, which is said on
// standard error. A program that complains of its input writes nothing else. It uses the library's readers, and hands back their errors.
#![tactic(auto)]

ghost use Rattle.std.specs.Prelude.{◌≡◌, ◌≤◌, length, Err, IsOk, IfOk, OnErr};
ghost use Rattle.view_io.specs.declared.Stop.TheVariants.{Io};

use paper::Refusal;
use std::io::{Eprint, Read};
use std::{fmt, io};

// Why a program ends early: what is wrong with its input or with an address (none: the number is above 255); or an error of its
// reader or writer.
#[derive(Debug, Drop)]
pub enum Stop {
    NoFont,
    NoGlass,
    TooLong,
    WrongAddress(Option<u8>),
    Io(io::Error),
}

impl fmt::Display for Stop {
    fn fmt<W: fmt::Write>(&self, f: &mut fmt::Formatter<W>) -> fmt::Result {
        match self {
            Stop::NoFont => write!(f, "the input begins with no font of 1120 bytes"),
            Stop::NoGlass => write!(f, "the input begins with no glass of 224 bytes"),
            Stop::TooLong => write!(f, "more than 1048576 bytes"),
            Stop::WrongAddress(address) => write_address(f, *address),
            Stop::Io(e) => write!(f, "{e}"),
        }
    }
}

// With which number a call refuses an address, and why.
fn write_address<W: fmt::Write>(f: &mut fmt::Formatter<W>, address: Option<u8>) -> fmt::Result {
    let number = numbers::refusal_number(Refusal::NoSuchAddress);
    match address {
        Some(n) => write!(f, "{number}: the address {n} is not 0 to 15"),
        None => write!(f, "{number}: the address is not 0 to 15"),
    }
}

impl From<io::Error> for Stop {
    fn from(e: io::Error) -> Stop {
        Stop::Io(e)
    }
}

// What a program ends with: a complaint is said, an error of a reader or writer is its own.
pub fn end(rt: &impl Eprint, ended: Result<(), Stop>) -> io::Result<()>
    ensures well { IsOk ended → IsOk result }
    ensures error { (e : _) → ended ≡ Err (Io e) → result ≡ Err e }
{
    match ended {
        Ok(()) => Ok(()),
        Err(Stop::Io(e)) => Err(e),
        Err(complaint) => rt.eprintln(complaint),
    }
}

// Fills a buffer from the input; `short` says what is wrong where too little has come.
// Here and below a slice is lent, and no array: one of a fixed length would ask more of a caller.
fn read_whole(from: &mut impl Read, to: &mut [u8], short: Stop) -> Result<(), Stop>
    ensures err { OnErr result (length to.new ≡ length to.old) }
{
    if host_io::read_full(from, to)? == to.len() {
        return Ok(());
    }
    Err(short)
}

// Reads a font.
pub fn read_font(from: &mut impl Read, font: &mut [u8]) -> Result<(), Stop>
    ensures err { OnErr result (length font.new ≡ length font.old) }
{
    read_whole(from, font, Stop::NoFont)
}

// Reads a glass.
pub fn read_glass(from: &mut impl Read, glass: &mut [u8]) -> Result<(), Stop>
    ensures err { OnErr result (length glass.new ≡ length glass.old) }
{
    read_whole(from, glass, Stop::NoGlass)
}

// Room for the longest stream, and a byte more.
pub fn room() -> [u8; 1048577]
    ensures { 1048577 ≡ length result }
{
    [0; 1048577]
}

// Reads what follows the font, and answers how many bytes it put at the start of the room. It is too long if it fills the room.
pub fn read_rest(from: &mut impl Read, room: &mut [u8]) -> Result<usize, Stop>
    ensures count { IfOk result (λ n. n ≤ length room.new) }
    ensures err { OnErr result (length room.new ≡ length room.old) }
{
    let n = host_io::read_full(from, room)?;
    if n < room.len() {
        return Ok(n);
    }
    Err(Stop::TooLong)
}
