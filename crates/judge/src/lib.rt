// Judges a capture (document 02, [2]) in one pass over its records, with memory that does not grow with them: a walk follows the accesses that the
// rules ask for, and the values read stand in the records themselves. Each contract is an equation with a definition of specs/Walks.antt; that the whole
// is the rules' judge (crate `captures`) is said once, at `captured`. Quoted words are the documents'.
#![tactic(auto)]

ghost use Rattle.std.specs.Prelude.{Some, ◌≡◌, ◌+◌, ◌*◌, ◌^◌, ◌<◌, ◌≤◌, true, ◌&&◌, ◌||◌, length, ◌==◌, nat_lt, slice_index};
ghost use Rattle.rules.specs.Bytes.{part};
ghost use Rattle.rules.specs.Minor.{ESG, ssize};
ghost use Rattle.rules.specs.Words.{has, count_of};
ghost use Rattle.words.specs.Sizes.{Sized};
ghost use Rattle.captures.specs.declared.Due.TheVariants as Due;
ghost use Rattle.captures.specs.Capture.{captured as captured_of};
ghost use Rattle.judge.specs.declared.Walk.TheVariants as Walk;
ghost use Rattle.judge.specs.declared.Course.TheVariants as Course;
ghost use Rattle.judge.specs.Walks.{a_unit, Parted, Narrow, Fitting, Within, Sane, Safe, side_of, reads_of, plan_of, place_at, next_unit, advanced, fetch_on, ending_of, moves_from, writes_from, reads_from, start_of, move_on, read_on, write_on, onward_of, unit_at, source_byte, source_number, place_of, due_of, origin_in, looked_at, meets_due, walk_on, look_past, step_of, origin_of, on_all, ended_at, unless_cut, verdict_of};

use captures::{Captured, Departure, Due, Flaw, Judged, Malformed};
use rules::Tcd;

// ---- what a descriptor asks for

// `Narrow`, `Fitting`, `Within` and `Sane` stay clauses, and no ghost fields: the definitions of specs/Walks.antt build every side, plan and place, so that
// each would carry a proof, and `next_unit` builds a place also where `Within` fails, of one with nothing left.

// One side of a transfer, source or destination: its size in bytes, the bytes of a unit, how many more units a size has after its first, what an
// address moves on by after each size, and with which modulo.
#[derive(Clone, Copy)]
pub struct Side {
    pub size: u32,
    pub unit: u32,
    pub more: u32,
    pub offset: u32,
    pub modulo: u32,
}

// Both sides; how many whole destination sizes are written where the sizes differ; whether the 32 fetches of a scatter/gather end follow, and where. (`next`
// is the descriptor's `dlast` either way, as `plan_of` of specs/Walks.antt has it: no Option.)
#[derive(Clone, Copy)]
pub struct Plan {
    pub source: Side,
    pub dest: Side,
    pub writes: u32,
    pub gathers: bool,
    pub next: u32,
}

// "A size moves in units (the size, at most 4 bytes)."
fn unit_of(size: u32) -> u32
    requires { Sized size }
    ensures { Parted size result }
{
    size.min(4)
}

// One half of `attr`, and the offset: a half has a size code in its low 3 bits and a modulo in the 5 above them.
fn side_of(code: u16, off: u16) -> Side
    ensures { (result ≡ side_of code off) × Narrow result }
{
    let size = words::size_of(code);
    let unit = unit_of(size);
    Side {
        size,
        unit,
        more: size / unit - 1,
        offset: words::signed16(off),
        modulo: (code / 8 % 32) as u32,
    }
}

// How many sizes are read, "rounding up to whole source sizes".
pub fn reads_of(cr: u32, t: Tcd) -> u32
    ensures { (result ≡ reads_of cr t) × (result * ssize t < 2 ^ 32) }
{
    let n = sums::minor_bytes(cr, t);
    words::whole_sizes(n, words::size_of(t.attr / 0x100))
}

// "The 32 fetches of a scatter/gather end": where this is the last minor loop, and ESG is set.
fn gathers(t: Tcd) -> bool
    ensures { result ≡ (count_of t.citer == 1) && has t.csr ESG }
{
    words::count_of(t.citer) == 1 && words::has_bit(t.csr as u64, 4)
}

pub fn plan_of(cr: u32, t: Tcd) -> Plan
    ensures { (result ≡ plan_of cr t) × Fitting result }
{
    let source = side_of(t.attr / 0x100, t.soff);
    let dest = side_of(t.attr, t.doff);
    let bytes = reads_of(cr, t) * source.size;
    Plan {
        source,
        dest,
        writes: bytes / dest.size,
        gathers: gathers(t),
        next: t.dlast,
    }
}

// ---- the walk

// Where a walk stands in a side: whole sizes left after this one, units left in it after this one, this unit's number in it, and where this size is
// read and written.
#[derive(Clone, Copy)]
pub struct Place {
    pub sizes: u32,
    pub left: u32,
    pub unit: u32,
    pub from: u32,
    pub to: u32,
}

// What comes next. Equal sizes: a unit is to be moved; its value was read and is to be laid down. Unequal sizes: a unit is to be read; or written, with
// how many whole sizes were written before, and how many accesses were reads. A byte is to be fetched, with how many after it, and from where. Or
// nothing.
#[derive(Clone, Copy)]
pub enum Walk {
    Move(Place),
    Lay(Place, u32),
    Read(Place),
    Write(Place, u32, u64),
    Fetch(u32, u64),
    Over,
}

// "Only the step by `soff` or `doff` after each whole size uses modulo."
#[tactic(auto, unfolding(crate::specs::Walks::advanced))]
fn advanced(side: Side, a: u32) -> u32
    requires { Narrow side }
    ensures { result ≡ advanced side a }
{
    words::modulo_add(a, side.offset, side.modulo)
}

#[tactic(auto, unfolding(crate::specs::Walks::place_at))]
fn place_at(side: Side, sizes: u32, from: u32, to: u32) -> Place
    requires { Narrow side }
    ensures { (result ≡ place_at side sizes from to) × Within result × (result.sizes ≡ sizes) }
{
    Place {
        sizes,
        left: side.more,
        unit: 0,
        from,
        to,
    }
}

#[tactic(auto, unfolding(crate::specs::Walks::next_unit))]
fn next_unit(at: Place) -> Place
    requires { Within at × (0 < at.left) }
    ensures { (result ≡ next_unit at) × Within result × (result.sizes ≡ at.sizes) }
{
    Place {
        left: at.left - 1,
        unit: at.unit + 1,
        ..at
    }
}

// After the transfer.
#[tactic(auto, unfolding(crate::specs::Walks::ending_of))]
fn ending(p: Plan) -> Walk
    ensures { (result ≡ ending_of p) × Sane result }
{
    if p.gathers {
        Walk::Fetch(31, p.next as u64)
    } else {
        Walk::Over
    }
}

// With so many whole sizes left: "read and write unit by unit".
#[tactic(auto, unfolding(crate::specs::Walks::moves_from))]
fn moves_from(p: Plan, sizes: u32, from: u32, to: u32) -> Walk
    requires { Fitting p }
    ensures { (result ≡ moves_from p sizes from to) × Sane result }
{
    if sizes == 0 {
        return ending(p);
    }
    Walk::Move(place_at(p.source, sizes - 1, from, to))
}

// "Then write only whole destination sizes."
#[tactic(auto, unfolding(crate::specs::Walks::writes_from))]
fn writes_from(p: Plan, sizes: u32, written: u32, read: u64, from: u32, to: u32) -> Walk
    requires { Fitting p × (written + sizes ≤ 2 ^ 32) }
    ensures { (result ≡ writes_from p sizes written read from to) × Sane result }
{
    if sizes == 0 {
        return ending(p);
    }
    Walk::Write(place_at(p.dest, sizes - 1, from, to), written, read)
}

// "Read all first."
#[tactic(auto, unfolding(crate::specs::Walks::reads_from))]
fn reads_from(p: Plan, sizes: u32, read: u64, from: u32, to: u32) -> Walk
    requires { Fitting p }
    ensures { (result ≡ reads_from p sizes read from to) × Sane result }
{
    if sizes == 0 {
        return writes_from(p, p.writes, 0, read, from, to);
    }
    Walk::Read(place_at(p.source, sizes - 1, from, to))
}

// The whole minor loop. "Count 0: nothing happens."
pub fn start(p: Plan, cr: u32, t: Tcd) -> Walk
    requires { (p ≡ plan_of cr t) × Fitting p }
    ensures { (result ≡ start_of cr t) × Sane result }
{
    if words::count_of(t.citer) == 0 {
        return Walk::Over;
    }
    let reads = reads_of(cr, t);
    if p.source.size == p.dest.size {
        return moves_from(p, reads, t.saddr, t.daddr);
    }
    reads_from(p, reads, 0, t.saddr, t.daddr)
}

// After a unit was moved, read, or written.
#[tactic(auto, unfolding(crate::specs::Walks::move_on))]
fn move_on(p: Plan, at: Place) -> Walk
    requires { Fitting p × Within at }
    ensures { (result ≡ move_on p at) × Sane result }
{
    if at.left == 0 {
        return moves_from(
            p,
            at.sizes,
            advanced(p.source, at.from),
            advanced(p.dest, at.to),
        );
    }
    Walk::Move(next_unit(at))
}

#[tactic(auto, unfolding(crate::specs::Walks::read_on))]
fn read_on(p: Plan, i: u64, at: Place) -> Walk
    requires { Fitting p × Within at × (i < 2 ^ 63) }
    ensures { (result ≡ read_on p i at) × Sane result }
{
    if at.left == 0 {
        return reads_from(p, at.sizes, i + 1, advanced(p.source, at.from), at.to);
    }
    Walk::Read(next_unit(at))
}

#[tactic(auto, unfolding(crate::specs::Walks::write_on, crate::specs::Walks::writes_from))]
fn write_on(p: Plan, at: Place, written: u32, read: u64) -> Walk
    requires { Fitting p × Within at × (written + at.sizes < 2 ^ 32) }
    ensures { (result ≡ write_on p at written read) × Sane result }
{
    if at.left == 0 {
        if at.sizes == 0 {
            return ending(p);
        }
        let to = advanced(p.dest, at.to);
        return writes_from(p, at.sizes, written + 1, read, at.from, to);
    }
    Walk::Write(next_unit(at), written, read)
}

// After a byte was fetched.
#[tactic(auto, unfolding(crate::specs::Walks::fetch_on))]
fn fetch_on(left: u32, a: u64) -> Walk
    requires { a + left < 2 ^ 33 }
    ensures { (result ≡ fetch_on left a) × Sane result }
{
    if left == 0 {
        return Walk::Over;
    }
    Walk::Fetch(left - 1, a + 1)
}

// Where a walk stands after access number `i`, which had value `v`.
#[tactic(auto, unfolding(crate::specs::Walks::onward_of))]
fn onward(p: Plan, i: u64, w: Walk, v: u32) -> Walk
    requires { Fitting p × Sane w × (i < 2 ^ 63) }
    ensures { (result ≡ onward_of p i w v) × Sane result }
{
    match w {
        Walk::Move(at) => Walk::Lay(at, v),
        Walk::Lay(at, _) => move_on(p, at),
        Walk::Read(at) => read_on(p, i, at),
        Walk::Write(at, written, read) => write_on(p, at, written, read),
        Walk::Fetch(left, a) => fetch_on(left, a),
        Walk::Over => Walk::Over,
    }
}

// ---- what is due

// "A size moves in units .. at address + k x unit, plainly."
#[tactic(auto, unfolding(crate::specs::Walks::unit_at, rules::specs::Words::wrap32))]
fn unit_at(side: Side, a: u32, k: u32) -> u32
    requires { Narrow side × (k < 8) }
    ensures { result ≡ unit_at side a k }
{
    a.wrapping_add(k * side.unit)
}

// Byte `b` of a record, or 0 where there is none.
fn byte_at(records: &[u8], place: u64, b: u64) -> u8
    requires { b < 16 }
    ensures { result ≡ slice_index records.now (16 * place + b) }
{
    let at = place.saturating_mul(16).saturating_add(b);
    records.get(at as usize).copied().unwrap_or(0)
}

// Where a unit to be written stands in what was read.
fn place_of(side: Side, at: Place, written: u32) -> u64
    requires { Narrow side × Within at }
    ensures { (result ≡ place_of side at written) × (result < 2 ^ 40) }
{
    written as u64 * side.size as u64 + (at.unit * side.unit) as u64
}

// A plan, and the values that were read under it: they stand in the records at hand, of which the first has number `origin`.
#[derive(Clone, Copy)]
struct Judge<'a> {
    plan: Plan,
    sources: &'a [u8],
    origin: u64,
}

impl Judge<'_> {
    // Byte `j` of what was read, from the records at hand: 0 past the last read, and outside them.
    fn source_byte(&self, read: u64, j: u64) -> u8
        requires { Fitting self.now.plan }
        ensures { result ≡ source_byte self.now.sources.now self.now.origin self.now.plan.source.unit read j }
    {
        let unit = self.plan.source.unit as u64;
        let number = j / unit;
        if read <= number || number < self.origin {
            return 0;
        }
        byte_at(self.sources, number - self.origin, 16 - unit + j % unit)
    }

    // The number that `n` bytes of it from `j` on spell.
    fn source_number(&self, read: u64, j: u64, n: u32) -> u32
        requires { Fitting self.now.plan × (n ≤ 4) × (j < 2 ^ 62) }
        ensures { result ≡ source_number self.now.sources.now self.now.origin self.now.plan.source.unit read j n }
    {
        let mut v = 0;
        for k in 0..n {
            v = v * 0x100 + self.source_byte(read, j + k as u64) as u32;
        }
        v
    }

    #[tactic(auto, unfolding(crate::specs::Walks::due_of))]
    fn write_due(&self, at: Place, written: u32, read: u64) -> Due
        requires { Fitting self.now.plan × Within at }
        ensures { Some result ≡ due_of self.now.sources.now self.now.origin self.now.plan (Walk.Write at written read) }
    {
        let side = self.plan.dest;
        let j = place_of(side, at, written);
        let a = unit_at(side, at.to, at.unit);
        Due::Write(a, side.unit, self.source_number(read, j, side.unit))
    }

    #[tactic(auto, unfolding(crate::specs::Walks::due_of, rules::specs::Words::wrap32))]
    fn due(&self, w: Walk) -> Option<Due>
        requires { Fitting self.now.plan × Sane w }
        ensures { result ≡ due_of self.now.sources.now self.now.origin self.now.plan w }
    {
        let side = self.plan.source;
        match w {
            Walk::Move(at) => Some(Due::Read(unit_at(side, at.from, at.unit), side.unit)),
            Walk::Lay(at, v) => Some(Due::Write(unit_at(side, at.to, at.unit), side.unit, v)),
            Walk::Read(at) => Some(Due::Read(unit_at(side, at.from, at.unit), side.unit)),
            Walk::Write(at, written, read) => Some(self.write_due(at, written, read)),
            Walk::Fetch(_, a) => Some(Due::Read((a % 0x100000000) as u32, 1)),
            Walk::Over => None,
        }
    }
}

#[tactic(auto, unfolding(crate::specs::Walks::origin_in))]
fn origin_in(p: Plan, w: Walk) -> u64
    requires { Fitting p × Sane w }
    ensures { (result ≡ origin_in p w) × (result < 2 ^ 40) }
{
    match w {
        Walk::Write(at, written, _) => place_of(p.dest, at, written) / p.source.unit as u64,
        Walk::Move(_) | Walk::Lay(_, _) | Walk::Read(_) | Walk::Fetch(_, _) | Walk::Over => 0,
    }
}

// ---- records

// An access as a record has it: a read, or else a write. (There is no third kind, and no value beside it that only one of the two has.)
#[derive(Clone, Copy)]
pub struct Seen {
    pub read: bool,
    pub address: u32,
    pub width: u32,
    pub value: u32,
}

// What a record holds, or why it is malformed.
pub type Record = Result<Seen, Flaw>;

// 4 a read, 5 a write.
fn is_kind(n: u8) -> bool
    ensures { result ≡ (n == 4 || n == 5) }
{
    matches!(n, 4 | 5)
}

fn is_width(n: u8) -> bool
    ensures { result ≡ (n == 1 || n == 2 || n == 4) }
{
    matches!(n, 1 | 2 | 4)
}

// Whether a value is no wider than its width.
fn is_narrow(value: u64, width: u8) -> bool
    requires { (width == 1 || width == 2 || width == 4) ≡ true }
    ensures { (result ≡ nat_lt value (256 ^ width)) × (result ≡ true → value < 2 ^ 32) }
{
    match width {
        1 => value < 0x100,
        2 => value < 0x10000,
        _ => value < 0x100000000,
    }
}

// "Malformed": no mark, no kind of access, no width, or a value wider than its width.
pub fn record_at(records: &[u8], at: usize) -> Record
    requires { at + 16 ≤ length records.now }
    ensures { result ≡ looked_at (part records.now at 16) }
{
    if words::get::<u16>(records, at) != 0x4A52 {
        return Err(Flaw::Mark);
    }
    let kind = words::get::<u8>(records, at + 2);
    if !is_kind(kind) {
        return Err(Flaw::Kind);
    }
    let width = words::get::<u8>(records, at + 3);
    if !is_width(width) {
        return Err(Flaw::Width);
    }
    let value = words::get::<u64>(records, at + 8);
    if !is_narrow(value, width) {
        return Err(Flaw::Value);
    }
    Ok(Seen {
        read: kind == 4,
        address: words::get(records, at + 4),
        width: width as u32,
        value: value as u32,
    })
}

// Whether an access is the one that is due. (No derived `==`: what is due and what was seen are two types, and the rules compare them so.)
#[tactic(auto, unfolding(crate::specs::Walks::meets_due))]
fn meets_due(due: Option<Due>, x: Seen) -> bool
    ensures { result ≡ meets_due due x }
{
    match due {
        Some(Due::Read(a, n)) => x.read && a == x.address && n == x.width,
        Some(Due::Write(a, n, v)) => { !x.read && a == x.address && n == x.width && v == x.value }
        None => false,
    }
}

// ---- the course of a judgement

// A walk goes on; or an access departed, and records are only looked at; or one of them was malformed.
#[derive(Clone, Copy)]
pub enum Course {
    Going(Walk),
    Departed(Departure),
    Refused(Malformed),
}

impl Judge<'_> {
    #[tactic(auto, unfolding(crate::specs::Walks::walk_on))]
    fn walk_on(&self, i: u64, w: Walk, x: Seen) -> Course
        requires { Fitting self.now.plan × Sane w × (i < 2 ^ 63) }
        ensures { (result ≡ walk_on self.now.plan self.now.sources.now self.now.origin i w x) × Safe result }
    {
        let due = self.due(w);
        if meets_due(due, x) {
            Course::Going(onward(self.plan, i, w, x.value))
        } else {
            Course::Departed(Departure { at: i, due })
        }
    }

    // After record number `i`. Once an access departed, records are only looked at.
    #[tactic(auto, unfolding(crate::specs::Walks::step_of, crate::specs::Walks::look_past))]
    fn step(&self, i: u64, c: Course, r: Record) -> Course
        requires { Fitting self.now.plan × Safe c × (i < 2 ^ 63) }
        ensures { (result ≡ step_of self.now.plan self.now.sources.now self.now.origin i c r) × Safe result }
    {
        match c {
            Course::Going(w) => match r {
                Ok(x) => self.walk_on(i, w, x),
                Err(why) => Course::Refused(Malformed { place: i, why }),
            },
            Course::Departed(first) => match r {
                Ok(_) => Course::Departed(first),
                Err(why) => Course::Refused(Malformed { place: i, why }),
            },
            Course::Refused(first) => Course::Refused(first),
        }
    }
}

// The first record whose value the next write carries; 0 where writes have not begun.
#[tactic(auto, unfolding(crate::specs::Walks::origin_of))]
pub fn origin_of(p: Plan, c: Course) -> u64
    requires { Fitting p × Safe c }
    ensures { (result ≡ origin_of p c) × (result < 2 ^ 40) }
{
    match c {
        Course::Going(w) => origin_in(p, w),
        Course::Departed(_) | Course::Refused(_) => 0,
    }
}

// After `count` records, of which the first has this number. The count stays beside the records, as whoever calls has a buffer that is filled in part.
pub fn on_all(
    p: Plan,
    sources: &[u8],
    origin: u64,
    number: u64,
    records: &[u8],
    count: usize,
    begun: Course,
) -> Course
    requires { Fitting p × Safe begun × (count * 16 ≤ length records.now) × (number < 2 ^ 62) }
    ensures { (result ≡ on_all p sources.now origin number records.now count 0 begun) × Safe result }
{
    let judge = Judge {
        plan: p,
        sources,
        origin,
    };
    let mut c = begun;
    for k in 0..count {
        c = judge.step(number + k as u64, c, record_at(records, 16 * k));
    }
    c
}

// A list that ends where this is still due: short, if anything is.
#[tactic(auto, unfolding(crate::specs::Walks::ended_at))]
fn ended_at(at: u64, due: Option<Due>) -> Judged
    ensures { result ≡ ended_at at due }
{
    Some(Departure {
        at,
        due: Some(due?),
    })
}

// "22, a malformed or cut record, with its place and no verdict."
#[tactic(auto, unfolding(crate::specs::Walks::unless_cut))]
fn unless_cut(n: u64, is_cut: bool, found: Judged) -> Captured
    ensures { result ≡ unless_cut n is_cut found }
{
    if is_cut {
        Err(Malformed {
            place: n,
            why: Flaw::Cut,
        })
    } else {
        Ok(found)
    }
}

// What a course came to, where `n` records were there and then a cut one or none. (This function and the two above take plan, sources and origin apart, as
// docs/PROMISES.md has them; that a number of a record is below 2^62 is what keeps sums of them in 64 bits.)
#[tactic(auto, unfolding(crate::specs::Walks::verdict_of))]
pub fn verdict(p: Plan, sources: &[u8], origin: u64, n: u64, is_cut: bool, c: Course) -> Captured
    requires { Fitting p × Safe c }
    ensures { result ≡ verdict_of p sources.now origin n is_cut c }
{
    let judge = Judge {
        plan: p,
        sources,
        origin,
    };
    match c {
        Course::Going(w) => unless_cut(n, is_cut, ended_at(n, judge.due(w))),
        Course::Departed(first) => unless_cut(n, is_cut, Some(first)),
        Course::Refused(first) => Err(first),
    }
}

// "Takes the descriptor, CR and that list and says whether our rules allow it, or at which access it first departs."
pub fn captured(descriptor: &[u8], cr: u32, records: &[u8]) -> Captured
    requires { length descriptor.now ≡ 32 }
    ensures { result ≡ captured_of records.now descriptor.now cr }
{
    let t = sums::tcd_at(descriptor, 0);
    let p = plan_of(cr, t);
    let n = records.len() / 16;
    let begun = Course::Going(start(p, cr, t));
    let c = on_all(p, records, 0, 0, records, n, begun);
    verdict(p, records, 0, n as u64, records.len() % 16 != 0, c)
}
