// Transfers of equal sizes: "read and write unit by unit, in rising k, rounding up to whole sizes". Each unit size compiles to a loop of its own,
// in which the width is a constant, so that a unit is plain loads and stores. Most transfers take a quick way, on which no unit asks where
// it falls and whether its record fits; the loops that ask decide every refusal.
// Each contract says that the function does the steps of its tree (crate `rules`, specs/Minor.antt), whatever the rest of the world is.
#![tactic(auto)]

ghost use Rattle.std.specs.Prelude.{◌≡◌, ◌+◌, ◌*◌, ◌%◌, ◌^◌, ◌<◌, ◌≤◌, true, length};
ghost use Rattle.rules.specs.Act.{store, window as in_window};
ghost use Rattle.rules.specs.Minor.{move_unit, move_units, move_sizes};
ghost use Rattle.act.specs.Lent.{◌⇒◌};
ghost use Rattle.words.specs.Sizes.{Sized};
ghost use Rattle.words.specs.Widths.{MemoryWidth};
ghost use Rattle.act.specs.Worlds.{Walks};
ghost use Rattle.equal_sizes.specs.Moves.{Moves};
ghost use Rattle.equal_sizes.specs.Known.{Recorded, Within, Inside, Known, Plain, sizes_of};

mod steps;

use act::{Stopped, Walk};
use rules::Refusal;
pub use steps::Steps;

// The two addresses after a transfer, and the journal's end.
#[derive(Clone, Copy)]
pub struct Moved {
    pub from: u32,
    pub to: u32,
    pub at: usize,
}

// ---- a unit stored, "one record per store, changed or not, before the store"; "9 before 11 at one store". The old value is read and room for its
// record is asked before the store; the record's bytes are laid down after it, which nobody sees, and which takes fewer instructions. Callers give
// a constant width, so that one arm of `get_width` and of `put_width` is left.

// Where the unit is known to lie in the window and its record to fit, the store alone.
fn store_known(
    base: u32,
    window: &mut [u8],
    address: u32,
    width: usize,
    value: u64,
    journal: &mut [u8],
    at: usize,
)
    requires { (Within base (length window.old) address width) × (at + 16 ≤ length journal.old) × (MemoryWidth width) }
    ensures { Recorded (store in_window address width value) base at ⇒ window ⇒ journal }
{
    let i = (address - base) as usize;
    let old = words::get_width(window, i, width);
    words::put_width(window, i, width, value);
    journal::put_record(journal, at, 0, width as u8, address, old);
}

pub fn store(
    base: u32,
    window: &mut [u8],
    address: u32,
    width: usize,
    value: u64,
    journal: &mut [u8],
    at: usize,
) -> Walk
    requires { MemoryWidth width }
    ensures { Walks (store in_window address width value) base at result ⇒ window ⇒ journal }
{
    memory::where_is(base, window, address, width).ok_or(Stopped {
        why: Refusal::Outside,
        at,
    })?;
    if !journal::has_room(journal, at) {
        return Err(Stopped {
            why: Refusal::Room,
            at,
        });
    }
    store_known(base, window, address, width, value, journal, at);
    Ok(at + 16)
}

// ---- a unit moved. (That a width is one of memory's, and a size one of the five, stay clauses: a const parameter has no invariant, and the rules' trees take
// both as numbers.)

fn move_unit<const WIDTH: usize>(
    base: u32,
    window: &mut [u8],
    a: u32,
    b: u32,
    journal: &mut [u8],
    at: usize,
) -> Walk
    requires { MemoryWidth WIDTH }
    ensures { Walks (move_unit WIDTH a b) base at result ⇒ window ⇒ journal }
{
    let i = memory::where_is(base, window, a, WIDTH).ok_or(Stopped {
        why: Refusal::Outside,
        at,
    })?;
    let v = words::get_width(window, i, WIDTH);
    store(base, window, b, WIDTH, v, journal, at)
}

// (How many sizes, what they step by, and from where to where, stay four arguments, as the trees take them: a transfer of sizes, of units and of known units
// differ in each of them.)

// ---- sizes of 1, 2 and 4 bytes, each one unit: "only the step by `soff` or `doff` after each whole size uses modulo"

fn move_units<const WIDTH: usize>(
    base: u32,
    window: &mut [u8],
    count: u32,
    step: Steps,
    from: u32,
    to: u32,
    journal: &mut [u8],
    at: usize,
) -> Result<Moved, Stopped<usize>>
    requires { MemoryWidth WIDTH }
    ensures { Moves (move_sizes count step.soff step.smod step.doff step.dmod WIDTH from to) base at result ⇒ window ⇒ journal }
{
    let mut s = from;
    let mut d = to;
    let mut end = at;
    for _ in 0..count {
        end = move_unit::<WIDTH>(base, window, s, d, journal, end)?;
        s = words::modulo_add(s, step.soff, step.smod);
        d = words::modulo_add(d, step.doff, step.dmod);
    }
    Ok(Moved {
        from: s,
        to: d,
        at: end,
    })
}

// ---- sizes of 16 and 32 bytes, which move in units of 4

// Where unit number k of a size is: "at address + k x unit, plainly".
pub fn unit_at(address: u32, k: u32) -> u32
    requires { k < 8 }
    ensures { result ≡ (address + k * 4) % 2 ^ 32 }
{
    address.wrapping_add(k * 4)
}

// `count` units, "in rising k".
fn move_units4(
    base: u32,
    window: &mut [u8],
    count: u32,
    from: u32,
    to: u32,
    journal: &mut [u8],
    at: usize,
) -> Walk
    requires { count ≤ 8 }
    ensures { Walks (move_units count 0 4 from to) base at result ⇒ window ⇒ journal }
{
    let mut end = at;
    for k in 0..count {
        let a = unit_at(from, k);
        let b = unit_at(to, k);
        end = move_unit::<4>(base, window, a, b, journal, end)?;
    }
    Ok(end)
}

fn move_bursts(
    base: u32,
    window: &mut [u8],
    size: u32,
    count: u32,
    step: Steps,
    from: u32,
    to: u32,
    journal: &mut [u8],
    at: usize,
) -> Result<Moved, Stopped<usize>>
    requires { (4 ≤ size) × (size ≤ 32) }
    ensures { Moves (move_sizes count step.soff step.smod step.doff step.dmod size from to) base at result ⇒ window ⇒ journal }
{
    let units = size / 4;
    let mut s = from;
    let mut d = to;
    let mut end = at;
    for _ in 0..count {
        end = move_units4(base, window, units, s, d, journal, end)?;
        s = words::modulo_add(s, step.soff, step.smod);
        d = words::modulo_add(d, step.doff, step.dmod);
    }
    Ok(Moved {
        from: s,
        to: d,
        at: end,
    })
}

// ---- `count` whole sizes, of any size, where every unit asks

fn move_asking(
    base: u32,
    window: &mut [u8],
    size: u32,
    count: u32,
    step: Steps,
    from: u32,
    to: u32,
    journal: &mut [u8],
    at: usize,
) -> Result<Moved, Stopped<usize>>
    requires { Sized size }
    ensures { Moves (move_sizes count step.soff step.smod step.doff step.dmod size from to) base at result ⇒ window ⇒ journal }
{
    match size {
        1 => move_units::<1>(base, window, count, step, from, to, journal, at),
        2 => move_units::<2>(base, window, count, step, from, to, journal, at),
        4 => move_units::<4>(base, window, count, step, from, to, journal, at),
        _ => move_bursts(base, window, size, count, step, from, to, journal, at),
    }
}

// ---- the quick way. One test before the loop shows that every unit lies in the window and that all records fit: then no unit asks.

// `count` sizes that are one unit each.
#[derive(Clone, Copy)]
struct Units {
    width: u32,
    count: u32,
    step: Steps,
}

// A unit moved, where both places are known to lie in the window.
fn move_known<const WIDTH: usize>(
    base: u32,
    window: &mut [u8],
    a: u32,
    b: u32,
    journal: &mut [u8],
    at: usize,
)
    requires { (Within base (length window.old) a WIDTH) × (Within base (length window.old) b WIDTH) × (at + 16 ≤ length journal.old) × (MemoryWidth WIDTH) }
    ensures { Recorded (move_unit WIDTH a b) base at ⇒ window ⇒ journal }
{
    let v = words::get_width(window, (a - base) as usize, WIDTH);
    store_known(base, window, b, WIDTH, v, journal, at);
}

// `count` of them. Their modulos are 0, so that the addresses step by plain sums.
fn run_known<const WIDTH: usize>(
    base: u32,
    window: &mut [u8],
    count: u32,
    step: Steps,
    from: u32,
    to: u32,
    journal: &mut [u8],
    at: usize,
) -> Result<Moved, Stopped<usize>>
    requires { (MemoryWidth WIDTH) × (Known base (length window.old) WIDTH count step from to (length journal.old) at) }
    ensures { Moves (sizes_of count step WIDTH from to) base at result ⇒ window ⇒ journal }
{
    let mut s = from;
    let mut d = to;
    let mut end = at;
    for _ in 0..count {
        move_known::<WIDTH>(base, window, s, d, journal, end);
        s = s.wrapping_add(step.soff);
        d = d.wrapping_add(step.doff);
        end += 16;
    }
    Ok(Moved {
        from: s,
        to: d,
        at: end,
    })
}

// The same by the width.
fn move_known_sizes(
    base: u32,
    window: &mut [u8],
    units: Units,
    from: u32,
    to: u32,
    journal: &mut [u8],
    at: usize,
) -> Result<Moved, Stopped<usize>>
    requires { (MemoryWidth units.width) × (Known base (length window.old) units.width units.count units.step from to (length journal.old) at) }
    ensures { Moves (sizes_of units.count units.step units.width from to) base at result ⇒ window ⇒ journal }
{
    let count = units.count;
    let step = units.step;
    let width = units.width;
    match width {
        1 => run_known::<1>(base, window, count, step, from, to, journal, at),
        2 => run_known::<2>(base, window, count, step, from, to, journal, at),
        _ => run_known::<4>(base, window, count, step, from, to, journal, at),
    }
}

// What `count` sizes come to. Without modulo, sizes of 16 and 32 bytes with no gap between them are units of 4 with no gap; they are taken so where
// the number of units is sure to fit in 32 bits. Any other sizes are taken as they are.
fn units_of(size: u32, count: u32, step: Steps) -> Units
    requires { Sized size }
    ensures { Plain size count step result }
{
    if 4 < size {
        if step.soff == size {
            if step.doff == size {
                if count < 0x10000000 {
                    let plain = Steps {
                        soff: 4,
                        smod: step.smod,
                        doff: 4,
                        dmod: step.dmod,
                    };
                    return Units {
                        width: 4,
                        count: count * (size / 4),
                        step: plain,
                    };
                }
            }
        }
    }
    Units {
        width: size,
        count,
        step,
    }
}

// Whether `count` units from `from` on, `off` apart, lie in a window of `len` bytes. A step downwards is a large number here, as what is added for
// it in a sum that wraps: no two units that far apart lie in a window, so these ask.
fn inside(base: u32, len: usize, width: usize, count: u32, off: u32, from: u32) -> bool
    requires { (len ≤ 2 ^ 32) × (width ≤ 4) }
    ensures { result ≡ true → Inside base len width count off from }
{
    if from < base {
        return false;
    }
    (from - base) as usize + (count as usize) * (off as usize) + width <= len + (off as usize)
}

// Whether no unit need ask. The window must not end past 2^32: then no sum wraps from one unit in it to the next.
fn all_known(
    base: u32,
    len: usize,
    units: Units,
    from: u32,
    to: u32,
    room: usize,
    at: usize,
) -> bool
    ensures { result ≡ true → Known base len units.width units.count units.step from to room at }
{
    let width = units.width as usize;
    let count = units.count;
    let step = units.step;
    if 4 < width {
        return false;
    }
    if step.smod != 0 {
        return false;
    }
    if step.dmod != 0 {
        return false;
    }
    if 0x100000000 - (base as usize) < len {
        return false;
    }
    if !inside(base, len, width, count, step.soff, from) {
        return false;
    }
    if !inside(base, len, width, count, step.doff, to) {
        return false;
    }
    (count as usize) * 16 <= journal::span(at, room)
}

// ---- `count` whole sizes, of any size

pub fn move_sizes(
    base: u32,
    window: &mut [u8],
    size: u32,
    count: u32,
    step: Steps,
    from: u32,
    to: u32,
    journal: &mut [u8],
    at: usize,
) -> Result<Moved, Stopped<usize>>
    requires { Sized size }
    ensures { Moves (move_sizes count step.soff step.smod step.doff step.dmod size from to) base at result ⇒ window ⇒ journal }
{
    let units = units_of(size, count, step);
    if all_known(base, window.len(), units, from, to, journal.len(), at) {
        return move_known_sizes(base, window, units, from, to, journal, at);
    }
    move_asking(base, window, size, count, step, from, to, journal, at)
}
