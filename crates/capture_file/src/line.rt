// The one line: what a file came to, with a first word that a script can test.
ghost use Rattle.std.specs.Prelude.{◌<◌, ◌^◌};

use crate::course::{Records, Told};
use crate::hex;
use captures::{Departure, Due, Flaw, Malformed};
use judge::Seen;
use std::fmt::{Display, Formatter, Radix, Style};
use std::io::{Read, Seek, Write};
use std::rt::Files;
use std::{fmt, io};

// What a list is judged by: the channel's descriptor, and CR.
#[derive(Clone, Copy)]
struct Channel {
    descriptor: [u8; 32],
    cr: u32,
}

// An access as the line tells it: of a read that is due, any value will do.
#[derive(Clone, Copy)]
struct Access {
    is_read: bool,
    width: u32,
    value: Option<u32>,
    address: u32,
}

impl From<Due> for Access {
    fn from(due: Due) -> Self {
        match due {
            Due::Read(address, width) => Access {
                is_read: true,
                width,
                value: None,
                address,
            },
            Due::Write(address, width, value) => Access {
                is_read: false,
                width,
                value: Some(value),
                address,
            },
        }
    }
}

impl From<Seen> for Access {
    fn from(x: Seen) -> Self {
        Access {
            is_read: x.read,
            width: x.width,
            value: Some(x.value),
            address: x.address,
        }
    }
}

impl Display for Access {
    fn fmt<W: fmt::Write>(&self, f: &mut Formatter<W>) -> fmt::Result {
        let kind = if self.is_read { "read" } else { "write" };
        // (each word in one piece: what is printed goes out piece by piece)
        if self.width == 1 {
            write!(f, "a {kind} of {} byte", self.width)?;
        } else {
            write!(f, "a {kind} of {} bytes", self.width)?;
        }
        if let Some(value) = self.value {
            // two digits for each byte of the width
            let digits = self.width as usize % 16 * 2;
            write!(f, ", {}", value.hex().zero().width(digits.min(16)))?;
        }
        write!(f, " at {:08x}", self.address)
    }
}

// What the rules ask for, or the list has, at a place.
#[derive(Clone, Copy)]
struct AtPlace(Option<Access>);

impl Display for AtPlace {
    fn fmt<W: fmt::Write>(&self, f: &mut Formatter<W>) -> fmt::Result {
        match &self.0 {
            Some(access) => access.fmt(f),
            None => f.write_str("no more accesses"),
        }
    }
}

// What the list has there.
fn record_of<F: Read + Seek, E: Write>(records: &mut Records<'_, F, E>, number: u64) -> AtPlace
    requires { number < 2 ^ 59 }
{
    let mut record = [0u8; 16];
    if !matches!(records.fill_from(number, &mut record), Ok(16)) {
        return AtPlace(None);
    }
    AtPlace(judge::record_at(&record, 0).ok().map(Access::from))
}

fn print_departure<F: Read + Seek, O: Write, E: Write>(
    out: &mut O,
    records: &mut Records<'_, F, E>,
    first: Departure,
) -> io::Result<()> {
    let due = AtPlace(first.due.map(Access::from));
    write!(
        out,
        "departs at access {}: the rules ask for {due}; the list has ",
        first.at
    )?;
    let there = record_of(records, first.at % 0x800000000000000);
    writeln!(out, "{there}")
}

fn print_allowed<O: Write>(out: &mut O, records: u64) -> io::Result<()> {
    if records == 1 {
        writeln!(out, "allowed: {records} access")
    } else {
        writeln!(out, "allowed: {records} accesses")
    }
}

// Stays a function: `Flaw` is of another crate, so that `Display` would need a type round it, and these words are this program's.
fn told_of(why: Flaw) -> &'static str {
    match why {
        Flaw::Mark => "the mark is not 4a 52",
        Flaw::Kind => "the kind is neither 4 (a read) nor 5 (a write)",
        Flaw::Width => "the width is not 1, 2 or 4",
        Flaw::Value => "the value is wider than the width",
        Flaw::Cut => "cut short, a record has 16 bytes",
    }
}

fn print_flaw<O: Write>(out: &mut O, malformed: Malformed) -> io::Result<()> {
    writeln!(
        out,
        "refused (22) at record {}: {}",
        malformed.place,
        told_of(malformed.why)
    )
}

fn print_unusable<O: Write>(out: &mut O, why: &str) -> io::Result<()> {
    writeln!(out, "unusable: {why}")
}

fn print_told<F: Read + Seek, O: Write, E: Write>(
    out: &mut O,
    records: &mut Records<'_, F, E>,
    told: Told,
) -> io::Result<()> {
    match told.captured {
        Ok(None) => print_allowed(out, told.records),
        Ok(Some(first)) => print_departure(out, records, first),
        Err(malformed) => print_flaw(out, malformed),
    }
}

fn print_opened<F: Read + Seek, O: Write, E: Write>(
    out: &mut O,
    mut records: Records<'_, F, E>,
    channel: &Channel,
) -> io::Result<()> {
    match records.judge(&channel.descriptor, channel.cr) {
        Ok(told) => print_told(out, &mut records, told),
        Err(_) => print_unusable(out, "the file cannot be read"),
    }
}

fn print_file<R: Files, O: Write, E: Write>(
    files: &R,
    out: &mut O,
    notes: &mut E,
    path: &[u8],
    channel: &Channel,
) -> io::Result<()> {
    match pieces::open(files, path) {
        Ok(mut file) => {
            let records = Records {
                file: &mut file,
                path,
                notes,
            };
            print_opened(out, records, channel)
        }
        Err(why) => {
            pieces::fail(notes, path, why);
            print_unusable(out, "the file cannot be opened")
        }
    }
}

fn descriptor_of(text: &[u8]) -> Option<[u8; 32]> {
    if text.len() == 64 && hex::is_hex(text) {
        Some(hex::descriptor(text))
    } else {
        None
    }
}

fn cr_of(text: &[u8]) -> Option<u32> {
    if !text.is_empty() && text.len() <= 8 && hex::is_hex(text) {
        Some(hex::number(text))
    } else {
        None
    }
}

// Both, or why they cannot be used.
fn channel_of(descriptor: &[u8], cr: &[u8]) -> Result<Channel, &'static str> {
    Ok(Channel {
        descriptor: descriptor_of(descriptor).ok_or("the descriptor is not 64 hex digits")?,
        cr: cr_of(cr).ok_or("CR is not 1 to 8 hex digits")?,
    })
}

fn print_capture<R: Files, O: Write, E: Write>(
    files: &R,
    descriptor: &[u8],
    cr: &[u8],
    path: &[u8],
    out: &mut O,
    notes: &mut E,
) -> io::Result<()> {
    match channel_of(descriptor, cr) {
        Ok(channel) => print_file(files, out, notes, path, &channel),
        Err(why) => print_unusable(out, why),
    }
}

// Judges the file of this name, by a descriptor of 64 digits and a CR of up to 8, and prints the line on `out`. Why the system refused goes to
// `notes`, which is standard error in a program. Nothing is left to say where the line cannot be written.
pub fn judge_capture<R: Files, O: Write, E: Write>(
    files: &R,
    descriptor: &[u8],
    cr: &[u8],
    path: &[u8],
    out: &mut O,
    notes: &mut E,
) {
    let _ = print_capture(files, descriptor, cr, path, out, notes);
}
