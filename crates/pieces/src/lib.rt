// A file read a piece at a time: as much as is there, or until a read fails.
#![tactic(auto)]

ghost use Rattle.std.specs.Prelude.{IfOk, IfErr, [], ◌≡◌, ◌+◌, ◌≤◌, ◌<◌, length, take, drop};
ghost use Rattle.std.specs.Io.KnownBytes.{Consumes, IsAtEnd};
ghost use Rattle.pieces.specs.Come.{come};

use std::io::{ErrorKind, Read, Seek, SeekFrom, Write};
use std::rt::Files;
use std::{fs, io};

// No file has more bytes than 2^63, nor more records of 16 than this. It is what ends a loop over pieces for the proof: nothing says that a file ends.
pub const RECORDS: u64 = 0x800000000000000;

// Reading failed, after so many bytes.
#[derive(Clone, Copy)]
pub struct Failed {
    pub after: usize,
}

// Opens the file of this name for reading. A name is bytes, and one that is no UTF-8 text names no file that can be opened.
pub fn open<R: Files>(files: &R, path: &[u8]) -> io::Result<R::File> {
    match str::from_utf8(path) {
        Ok(name) => fs::open(files, name),
        Err(_) => Err(io::Error::new(ErrorKind::InvalidInput, "the name is not UTF-8")),
    }
}

fn write_reason<E: Write>(notes: &mut E, what: &[u8], why: io::Error) -> io::Result<()> {
    notes.write_all(what)?;
    writeln!(notes, ": {why}")
}

// A line on `notes`: what failed, a colon and why. Nothing is left to say it where that cannot be written.
pub fn fail<E: Write>(notes: &mut E, what: &[u8], why: io::Error) {
    let _ = write_reason(notes, what, why);
}

// One read, behind the bytes that are there; why it failed goes to `notes`. (It is given the whole piece, and not what is free of it, since it promises that
// what is there stays.)
fn read_more<F: Read, E: Write>(
    file: &mut F,
    notes: &mut E,
    path: &[u8],
    buf: &mut [u8],
    have: usize,
) -> Result<usize, Failed>
    requires { have ≤ length buf.old }
    ensures within { IfOk result (λ n. have + n ≤ length buf.old) }
    ensures front { take have buf.new ≡ take have buf.old }
    ensures bytes { IfOk result (λ n. Consumes (F.remaining file.old) (F.remaining file.new) (take n (drop have buf.new))) }
    ensures none { IfErr result (λ x. (x.after ≡ have) × Consumes (F.remaining file.old) (F.remaining file.new) []) }
    ensures end { IfOk result (λ n. n ≡ 0 → have < length buf.old → IsAtEnd (F.remaining file.new)) }
{
    match file.read(&mut buf[have..]) {
        Ok(n) => Ok(n),
        Err(why) => {
            fail(notes, path, why);
            Err(Failed { after: have })
        }
    }
}

// Reads until the piece is full, the file ends or a read fails. The bytes are the file's next ones, and all of them where there is room left and
// no read failed.
pub fn fill<F: Read, E: Write>(
    file: &mut F,
    notes: &mut E,
    path: &[u8],
    buf: &mut [u8],
) -> Result<usize, Failed>
    ensures within { come result ≤ length buf.old }
    ensures bytes { Consumes (F.remaining file.old) (F.remaining file.new) (take (come result) buf.new) }
    ensures end { IfOk result (λ n. n < length buf.old → IsAtEnd (F.remaining file.new)) }
{
    let mut have = 0;
    // (no `for`: it counts bytes that came, and a read brings as many as it will)
    while have < buf.len() {
        let n = read_more(file, notes, path, buf, have)?;
        if n == 0 {
            return Ok(have);
        }
        have += n;
    }
    Ok(have)
}

// The file then stands at this place; why it does not goes to `notes`.
fn seek_to<F: Seek, E: Write>(
    file: &mut F,
    notes: &mut E,
    path: &[u8],
    place: i64,
) -> Result<(), Failed>
    ensures { IfErr result (λ x. x.after ≡ 0) }
{
    match file.seek(SeekFrom::Start(place.cast_unsigned())) {
        Ok(at) => {
            if at == place.cast_unsigned() {
                return Ok(());
            }
        }
        Err(why) => fail(notes, path, why),
    }
    Err(Failed { after: 0 })
}

// The same from a place in the file on, which is then where the file stands.
pub fn fill_from<F: Read + Seek, E: Write>(
    file: &mut F,
    notes: &mut E,
    path: &[u8],
    place: i64,
    buf: &mut [u8],
) -> Result<usize, Failed>
    ensures within { come result ≤ length buf.old }
    ensures end { IfOk result (λ n. n < length buf.old → IsAtEnd (F.remaining file.new)) }
{
    seek_to(file, notes, path, place)?;
    fill(file, notes, path, buf)
}
