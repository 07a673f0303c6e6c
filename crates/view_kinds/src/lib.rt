// What a technician reads of a command: its kind, by its first bytes as document 01 lists them under "How bytes are read", and
// its outcome in words. It uses the paper for the outcomes.
#![tactic(auto)]

use paper::Outcome;
use std::fmt;

// The kind of a command, whole or not: one that is cut short, cancelled or unknown is named by what was read of it.
#[derive(Clone, Copy)]
pub struct Kind<'a>(pub &'a [u8]);

impl fmt::Display for Kind<'_> {
    fn fmt<W: fmt::Write>(&self, f: &mut fmt::Formatter<W>) -> fmt::Result {
        match self.0 {
            [b @ 0x20..=0x7E, ..] => write!(f, "character '{}'", char::from(*b)),
            command => f.write_str(name_of(command)),
        }
    }
}

// The name of a kind, but for a character that ASCII has.
fn name_of(command: &[u8]) -> &'static str {
    match command {
        [0x08, ..] => "BS",
        [0x09, ..] => "HT",
        [0x0A, ..] => "LF",
        [0x0B, ..] => "HOM",
        [0x0C, ..] => "CLR",
        [0x0D, ..] => "CR",
        [0x10..=0x14, ..] => "select window",
        [0x1B, rest @ ..] => escape_name(rest),
        [0x1F, rest @ ..] => unit_name(rest),
        [0x7F..=0xFF, ..] => "character",
        _ => "unknown byte",
    }
}

// After 1Bh.
fn escape_name(rest: &[u8]) -> &'static str {
    match rest {
        [0x25, ..] => "download use",
        [0x26, ..] => "download define",
        [0x3F, ..] => "download delete",
        [0x40, ..] => "initialise",
        [0x52, ..] => "international set",
        [0x74, ..] => "character code",
        _ => "1Bh command",
    }
}

// After 1Fh.
fn unit_name(rest: &[u8]) -> &'static str {
    match rest {
        [0x01, ..] => "mode MD1",
        [0x02, ..] => "mode MD2",
        [0x03, ..] => "mode MD3",
        [0x24, ..] => "cursor set",
        [0x28, rest @ ..] => group_name(rest),
        [0x43, ..] => "cursor display",
        [0x58, ..] => "brightness",
        [0x72, ..] => "reverse",
        [0x73, ..] => "scroll speed",
        [0x77, ..] => "mixing",
        _ => "1Fh command",
    }
}

// After 1Fh 28h: display actions, images, characters and windows.
fn group_name(rest: &[u8]) -> &'static str {
    match rest {
        [0x61, 0x01, ..] => "wait",
        [0x61, 0x10, ..] => "scroll action",
        [0x61, 0x11, ..] => "blink action",
        [0x61, 0x40, ..] => "screen saver",
        [0x61, ..] => "display action",
        [0x66, 0x11, ..] => "image",
        [0x66, ..] => "image command",
        [0x67, 0x03, ..] => "character width",
        [0x67, 0x40, ..] => "enlargement",
        [0x67, ..] => "character command",
        [0x77, rest @ ..] => window_name(rest),
        _ => "1Fh 28h command",
    }
}

// After 1Fh 28h 77h. The byte after a window's number says whether it is defined or cancelled.
fn window_name(rest: &[u8]) -> &'static str {
    match rest {
        [0x01, ..] => "select window",
        [0x02, _, 0x00, ..] => "cancel window",
        [0x02, _, 0x01, ..] => "define window",
        [0x02, ..] => "define or cancel",
        [0x10, ..] => "write mode",
        _ => "window command",
    }
}

// An outcome in words.
pub fn outcome_words(o: Outcome) -> &'static str {
    match o {
        Outcome::Unfinished => "not finished",
        Outcome::Carried => "carried out",
        Outcome::OutOfDomain => "out of its domain",
        Outcome::Cancelled => "cancelled",
        Outcome::Unknown => "unknown code",
        Outcome::NotCarried => "not carried",
        Outcome::WindowHeld => "a window is held",
        Outcome::TooLarge => "cell too large",
        Outcome::NotDefined => "window not defined",
        Outcome::Dropped => "a code was dropped",
        Outcome::NotStored => "code not stored",
    }
}
