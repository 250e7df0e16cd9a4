// Transfers of unequal sizes: "read all first, rounding up to whole source sizes, then write only whole destination sizes". What is read stands
// in the caller's staging. As in crate `equal_sizes` each unit size compiles to a loop of its own, in which the width is a constant.
// Each contract says that the function does the steps of its tree (crate `rules`, specs/Minor.antt), whatever the rest of the world is.
#![tactic(auto)]

ghost use Rattle.std.specs.Prelude.{◌≡◌, ◌+◌, ◌*◌, ◌/◌, ◌^◌, ◌≤◌, ◌<◌, length, take};
ghost use Rattle.rules.specs.Minor.{read_unit, read_units, write_units, move_unequal};
ghost use Rattle.act.specs.Lent.{◌⇒◌, by};
ghost use Rattle.words.specs.Sizes.{Sized};
ghost use Rattle.words.specs.Widths.{MemoryWidth};
ghost use Rattle.act.specs.Worlds.{Walks};
ghost use Rattle.unequal_sizes.specs.Stages.{Reads, ReadsTo, Writes, Stages, reads_of, writes_of};

mod sizes;

use act::{Stopped, Walk};
use equal_sizes::{Moved, Steps};
use rules::Refusal;
use sizes::Sizes;

// The address after writes, and the journal's end.
#[derive(Clone, Copy)]
struct Written {
    to: u32,
    at: usize,
}

// ---- a unit read: it goes behind the `len` bytes that were read before. Reads that come to nothing had a byte outside the window.

fn read_unit<const WIDTH: usize>(
    base: u32,
    window: &[u8],
    a: u32,
    staging: &mut [u8],
    len: usize,
) -> Option<()>
    requires { (len + WIDTH ≤ length staging.old) × (MemoryWidth WIDTH) }
    ensures { Reads (read_unit WIDTH a (take len staging.old)) base window.now result (take (len + WIDTH) staging.new) }
{
    let i = memory::where_is(base, window, a, WIDTH)?;
    words::put_width(staging, len, WIDTH, words::get_width(window, i, WIDTH));
    Some(())
}

// ---- whole sizes read, from the start of staging on; the address after them

// Sizes of 1, 2 and 4 bytes, each one unit.
fn read_units<const WIDTH: usize>(
    base: u32,
    window: &[u8],
    sizes: Sizes,
    staging: &mut [u8],
) -> Option<u32>
    requires { (MemoryWidth WIDTH) × (sizes.count * WIDTH ≤ length staging.old) }
    ensures { ReadsTo (reads_of sizes WIDTH) base window.now result (take (sizes.count * WIDTH) staging.new) }
{
    let mut s = sizes.first;
    let mut len: usize = 0;
    for _ in 0..sizes.count {
        read_unit::<WIDTH>(base, window, s, staging, len)?;
        s = words::modulo_add(s, sizes.off, sizes.modulo);
        len += WIDTH;
    }
    Some(s)
}

// One size of 16 or 32 bytes, which is read in units of 4.
fn read_units4(
    base: u32,
    window: &[u8],
    count: u32,
    from: u32,
    staging: &mut [u8],
    len: usize,
) -> Option<()>
    requires { (count ≤ 8) × (len + count * 4 ≤ length staging.old) }
    ensures { Reads (read_units count 0 4 from (take len staging.old)) base window.now result (take (len + count * 4) staging.new) }
{
    for k in 0..count {
        let a = equal_sizes::unit_at(from, k);
        read_unit::<4>(base, window, a, staging, len + (k * 4) as usize)?;
    }
    Some(())
}

fn read_bursts(base: u32, window: &[u8], size: u32, sizes: Sizes, staging: &mut [u8]) -> Option<u32>
    requires { (4 ≤ size) × (size ≤ 32) × (size / 4 * 4 ≡ size) × (sizes.count * size ≤ length staging.old) }
    ensures { ReadsTo (reads_of sizes size) base window.now result (take (sizes.count * size) staging.new) }
{
    let units = size / 4;
    let mut s = sizes.first;
    let mut len: usize = 0;
    for _ in 0..sizes.count {
        read_units4(base, window, units, s, staging, len)?;
        s = words::modulo_add(s, sizes.off, sizes.modulo);
        len += size as usize;
    }
    Some(s)
}

fn read_sizes(base: u32, window: &[u8], size: u32, sizes: Sizes, staging: &mut [u8]) -> Option<u32>
    requires { (Sized size) × (sizes.count * size ≤ length staging.old) }
    ensures { ReadsTo (reads_of sizes size) base window.now result (take (sizes.count * size) staging.new) }
{
    match size {
        1 => read_units::<1>(base, window, sizes, staging),
        2 => read_units::<2>(base, window, sizes, staging),
        4 => read_units::<4>(base, window, sizes, staging),
        _ => read_bursts(base, window, size, sizes, staging),
    }
}

// ---- what was read, written as whole sizes

// Sizes of 1, 2 and 4 bytes, each one unit.
fn write_units<const WIDTH: usize>(
    base: u32,
    window: &mut [u8],
    sizes: Sizes,
    staging: &[u8],
    journal: &mut [u8],
    at: usize,
) -> Result<Written, Stopped<usize>>
    requires { (MemoryWidth WIDTH) × (sizes.count * WIDTH ≤ length staging.now) }
    ensures { Writes (writes_of sizes WIDTH staging.now) base at result ⇒ window ⇒ journal }
{
    let mut d = sizes.first;
    let mut pos: usize = 0;
    let mut journal_end = at;
    for _ in 0..sizes.count {
        let v = words::get_width(staging, pos, WIDTH);
        journal_end = equal_sizes::store(base, window, d, WIDTH, v, journal, journal_end)?;
        d = words::modulo_add(d, sizes.off, sizes.modulo);
        pos += WIDTH;
    }
    Ok(Written {
        to: d,
        at: journal_end,
    })
}

// One size of 16 or 32 bytes, which is written in units of 4.
fn write_units4(
    base: u32,
    window: &mut [u8],
    count: u32,
    to: u32,
    staging: &[u8],
    pos: usize,
    journal: &mut [u8],
    at: usize,
) -> Walk
    requires { (count ≤ 8) × (pos + count * 4 ≤ length staging.now) }
    ensures { Walks (write_units count 0 4 to staging.now pos) base at result ⇒ window ⇒ journal }
{
    let mut journal_end = at;
    for k in 0..count {
        let b = equal_sizes::unit_at(to, k);
        let v = words::get_width(staging, pos + (k * 4) as usize, 4);
        journal_end = equal_sizes::store(base, window, b, 4, v, journal, journal_end)?;
    }
    Ok(journal_end)
}

fn write_bursts(
    base: u32,
    window: &mut [u8],
    size: u32,
    sizes: Sizes,
    staging: &[u8],
    journal: &mut [u8],
    at: usize,
) -> Result<Written, Stopped<usize>>
    requires { (4 ≤ size) × (size ≤ 32) × (size / 4 * 4 ≡ size) × (sizes.count * size ≤ length staging.now) }
    ensures { Writes (writes_of sizes size staging.now) base at result ⇒ window ⇒ journal }
{
    let units = size / 4;
    let mut d = sizes.first;
    let mut pos: usize = 0;
    let mut journal_end = at;
    for _ in 0..sizes.count {
        journal_end = write_units4(base, window, units, d, staging, pos, journal, journal_end)?;
        d = words::modulo_add(d, sizes.off, sizes.modulo);
        pos += size as usize;
    }
    Ok(Written {
        to: d,
        at: journal_end,
    })
}

fn write_sizes(
    base: u32,
    window: &mut [u8],
    size: u32,
    sizes: Sizes,
    staging: &[u8],
    journal: &mut [u8],
    at: usize,
) -> Result<Written, Stopped<usize>>
    requires { (Sized size) × (sizes.count * size ≤ length staging.now) }
    ensures { Writes (writes_of sizes size staging.now) base at result ⇒ window ⇒ journal }
{
    match size {
        1 => write_units::<1>(base, window, sizes, staging, journal, at),
        2 => write_units::<2>(base, window, sizes, staging, journal, at),
        4 => write_units::<4>(base, window, sizes, staging, journal, at),
        _ => write_bursts(base, window, size, sizes, staging, journal, at),
    }
}

// ---- the whole: 10, "an unequal-size pass reads more bytes than staging has", "at the start of the pass"

pub fn move_unequal(
    base: u32,
    window: &mut [u8],
    ssize: u32,
    dsize: u32,
    reads: u32,
    step: Steps,
    from: u32,
    to: u32,
    staging: &mut [u8],
    journal: &mut [u8],
    at: usize,
) -> Result<Moved, Stopped<usize>>
    requires { (Sized ssize) × (Sized dsize) × (reads * ssize < 2 ^ 32) }
    ensures { Stages (move_unequal reads step.soff step.smod step.doff step.dmod ssize dsize from to) base (by staging) at result ⇒ window ⇒ journal }
{
    let total = reads * ssize;
    let all = total as usize;
    if staging.len() < all {
        return Err(Stopped {
            why: Refusal::Staging,
            at,
        });
    }
    let sources = Sizes {
        count: reads,
        first: from,
        off: step.soff,
        modulo: step.smod,
    };
    let targets = Sizes {
        count: total / dsize,
        first: to,
        off: step.doff,
        modulo: step.dmod,
    };
    let s = read_sizes(base, window, ssize, sources, staging).ok_or(Stopped {
        why: Refusal::Outside,
        at,
    })?;
    let written = write_sizes(base, window, dsize, targets, &staging[..all], journal, at)?;
    Ok(Moved {
        from: s,
        to: written.to,
        at: written.at,
    })
}
