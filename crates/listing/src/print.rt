// The printing of a journal file of any length, a piece of 64 records at a time.
ghost use Rattle.std.specs.Prelude.{◌<◌, ◌^◌};

use crate::list;
use std::io;
use std::io::{Read, Write};
use std::rt::Files;

fn write_report<E: Write>(errors: &mut E, path: &[u8], at: u64, why: &str) -> io::Result<()>
    requires { at < 2 ^ 60 }
{
    errors.write_all(path)?;
    writeln!(errors, ": record {at}, byte {}: {why}", at * 16)
}

// A line that says at which record, counted from 0, and at which byte of the file the printing stopped, and why. Nothing is left to say it where
// that cannot be written.
fn report<E: Write>(errors: &mut E, path: &[u8], at: u64, why: &str)
    requires { at < 2 ^ 60 }
{
    let _ = write_report(errors, path, at, why);
}

// A journal that is open, its name, where its lines go, where it is told that they stopped short, and where why the system refused.
#[derive(Drop)]
struct Journal<'a, F, O, E, N> {
    file: &'a mut F,
    path: &'a [u8],
    out: &'a mut O,
    errors: &'a mut E,
    notes: &'a mut N,
}

impl<F: Read, O: Write, E: Write, N: Write> Journal<'_, F, O, E, N> {
    // Prints the next piece, which begins at record `first`; whether the file may go on after it.
    fn print_piece(&mut self, first: u64) -> bool
        requires { first < 2 ^ 59 }
    {
        let mut piece = [0u8; 1024];
        let read = pieces::fill(self.file, self.notes, self.path, &mut piece);
        let n = match read {
            Ok(n) => n,
            Err(failed) => failed.after,
        };
        let whole = n / 16;
        let mut text = [0u8; 2112];
        let lines = list(&piece, whole, &mut text);
        let end = lines * 33;
        if let Err(why) = self.out.write_all(&text[..end]) {
            pieces::fail(self.notes, b"write", why);
            return false;
        }
        let next = first + lines as u64;
        if lines < whole {
            report(
                self.errors,
                self.path,
                next,
                "wrong mark, a record begins with 4a 52",
            );
            return false;
        }
        if read.is_err() {
            report(self.errors, self.path, next, "cannot be read");
            return false;
        }
        if n % 16 != 0 {
            report(
                self.errors,
                self.path,
                next,
                "cut short, a record has 16 bytes",
            );
            return false;
        }
        n == 1024
    }

    fn print_pieces(mut self) {
        for first in (0..pieces::RECORDS).step_by(64) {
            if !self.print_piece(first) {
                return;
            }
        }
    }
}

// Prints the journal file of this name on `out`, and on `errors` where it stopped short of the file's end. Why the system refused goes to `notes`,
// which is standard error in a program.
pub fn print_journal<R: Files, O: Write, E: Write, N: Write>(
    files: &R,
    path: &[u8],
    out: &mut O,
    errors: &mut E,
    notes: &mut N,
) {
    match pieces::open(files, path) {
        Ok(mut file) => {
            let journal = Journal {
                file: &mut file,
                path,
                out,
                errors,
                notes,
            };
            journal.print_pieces();
        }
        Err(why) => {
            pieces::fail(notes, path, why);
            report(errors, path, 0, "cannot be opened");
        }
    }
}
