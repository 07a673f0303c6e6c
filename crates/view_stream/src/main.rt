// Writes what becomes of a recorded stream, as the arguments ask, one after the other: `show` its glass and its counts, `trace` a line for
// each command. A number is an address: from there on the input is a link of several panels, read at this address.
// Standard input has the font's 1,120 bytes and then the stream or link.
#![tactic(auto)]

use paper::Refusal;
use std::env::Env;
use std::io::{Eprint, Print};
use std::{io, str};
use view_io::Stop;

// Whether a word is a number: decimal digits, and one at least.
fn is_number(word: &[u8]) -> bool {
    !word.is_empty() && word.iter().all(|b| b.is_ascii_digit())
}

// What the digits of a word say; none above 255.
fn number(word: &[u8]) -> Option<u8> {
    str::from_utf8(word).ok()?.parse().ok()
}

// Whether a call takes an address: one over no bytes finds nothing, but refuses a wrong address.
fn is_taken(address: usize) -> bool {
    !matches!(telegrams::find(b"", address), Err(Refusal::NoSuchAddress))
}

// The address that a number says. From here on the input is a link at this address.
fn address_of(word: &[u8]) -> Result<usize, Stop> {
    let address = number(word);
    match address.map(usize::from).filter(|n| is_taken(*n)) {
        Some(n) => Ok(n),
        None => Err(Stop::WrongAddress(address)),
    }
}

// Writes what a word asks for, `show` or `trace`, or takes it as an address; any other word is complained of and passed. It answers the
// address at which the input is read from here on.
fn write_as(
    rt: &(impl Print + Eprint),
    word: &[u8],
    font: &[u8],
    input: &[u8],
    address: Option<usize>,
) -> Result<Option<usize>, Stop> {
    match word {
        b"show" => view_show::show(rt, font, input, address)?,
        b"trace" => view_trace::trace(rt, font, input, address)?,
        _ if is_number(word) => return Ok(Some(address_of(word)?)),
        _ => eprintln!(rt; "an argument that is neither show nor trace")?,
    }
    Ok(address)
}

// Writes what each of the program's arguments asks for, up to a wrong address.
fn write_all(rt: &(impl Env + Print + Eprint), font: &[u8], input: &[u8]) -> Result<(), Stop> {
    let mut address = None;
    let mut word = [0u8; 64];
    for i in 1..usize::MAX {
        let Some(n) = host_io::argument(rt, i, &mut word) else {
            break;
        };
        address = write_as(rt, &word[..n], font, input, address)?;
    }
    Ok(())
}

// Reads the font and the stream or link, and writes what the arguments ask for.
fn run(rt: &HostRuntime) -> Result<(), Stop> {
    let mut font = [0u8; 1120];
    let mut room = view_io::room();
    view_io::read_font(&mut rt.stdin(), &mut font)?;
    let n = view_io::read_rest(&mut rt.stdin(), &mut room)?;
    write_all(rt, &font, &room[..n])
}

fn main(rt: HostRuntime) -> io::Result<()> {
    view_io::end(&rt, run(&rt))
}
