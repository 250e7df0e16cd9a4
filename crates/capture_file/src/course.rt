// A file of records judged a piece of 1,000 at a time. A unit that is written carries the values of four records at most, so that a second piece of
// 4,001 has all that the first can need.
ghost use Rattle.std.specs.Prelude.{IfOk, ◌≤◌, ◌<◌, ◌^◌, length};
ghost use Rattle.judge.specs.Walks.{Fitting, Safe};
ghost use Rattle.pieces.specs.Come.{come};

use captures::Captured;
use judge::{Course, Plan};
use pieces::Failed;
use std::io::{Read, Seek, Write};

// What a file came to: how many whole records there are, and the verdict.
#[derive(Clone, Copy)]
pub struct Told {
    pub records: u64,
    pub captured: Captured,
}

// What a piece came to: the course after it, and how many bytes it has.
#[derive(Clone, Copy)]
struct Piece {
    course: Course,
    bytes: usize,
}

// A file of records that is open, its name, and where it is told why the system refused.
#[derive(Drop)]
pub struct Records<'a, F, E> {
    pub file: &'a mut F,
    pub path: &'a [u8],
    pub notes: &'a mut E,
}

impl<F: Read + Seek, E: Write> Records<'_, F, E> {
    // The bytes from record `number` on, as many as there are and as `buf` holds.
    pub fn fill_from(&mut self, number: u64, buf: &mut [u8]) -> Result<usize, Failed>
        requires { number < 2 ^ 59 }
        ensures { come result ≤ length buf.old }
    {
        pieces::fill_from(self.file, self.notes, self.path, (number * 16) as i64, buf)
    }

    // The records from number `origin` on, whose values the writes carry; where the sizes are equal, none do.
    fn fill_sources(&mut self, p: Plan, origin: u64, sources: &mut [u8]) -> Result<(), Failed>
        requires { origin < 2 ^ 40 }
    {
        if p.source.size != p.dest.size {
            self.fill_from(origin, sources)?;
        }
        Ok(())
    }

    // The piece that begins at record `number`.
    fn judge_piece(&mut self, p: Plan, number: u64, c: Course) -> Result<Piece, Failed>
        requires { Fitting p × Safe c × (number < 2 ^ 59) }
        ensures { IfOk result (λ piece. Safe piece.course × (piece.bytes ≤ 16000)) }
    {
        let mut records = [0u8; 16000];
        let bytes = self.fill_from(number, &mut records)?;
        let mut sources = [0u8; 64016];
        let origin = judge::origin_of(p, c);
        self.fill_sources(p, origin, &mut sources)?;
        let course = judge::on_all(p, &sources, origin, number, &records, bytes / 16, c);
        Ok(Piece { course, bytes })
    }

    // After the last piece.
    fn conclude(&mut self, p: Plan, number: u64, is_cut: bool, c: Course) -> Result<Told, Failed>
        requires { Fitting p × Safe c }
    {
        let mut sources = [0u8; 64016];
        let origin = judge::origin_of(p, c);
        self.fill_sources(p, origin, &mut sources)?;
        Ok(Told {
            records: number,
            captured: judge::verdict(p, &sources, origin, number, is_cut, c),
        })
    }

    // The whole file, from a course that has begun.
    fn judge_pieces(&mut self, p: Plan, begun: Course) -> Result<Told, Failed>
        requires { Fitting p × Safe begun }
    {
        let mut c = begun;
        for number in (0..pieces::RECORDS).step_by(1000) {
            let piece = self.judge_piece(p, number, c)?;
            c = piece.course;
            if piece.bytes < 16000 {
                let whole = number + (piece.bytes / 16) as u64;
                return self.conclude(p, whole, piece.bytes % 16 != 0, c);
            }
        }
        Err(Failed { after: 0 })
    }

    pub fn judge(&mut self, descriptor: &[u8; 32], cr: u32) -> Result<Told, Failed> {
        let t = sums::tcd_at(descriptor, 0);
        let p = judge::plan_of(cr, t);
        self.judge_pieces(p, Course::Going(judge::start(p, cr, t)))
    }
}
