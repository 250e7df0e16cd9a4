// Turns as the chip makes them: document 02, [10]. Of the channels that are ready, the one with the highest priority is served for one minor loop; then
// the next is looked for.
// What a turn looks for is kept in masks. A turn changes them for the channel that it served, and START besides for the two that this one can link to
// (crate `rules`, proofs/Linked.antt): so it looks at three channels and not at 64.
#![tactic(auto)]

ghost use Rattle.std.specs.Prelude.{true, cond, List, ◌≡◌, ℕ, ◌^◌, ◌≤◌, ◌<◌};
ghost use Rattle.rules.specs.Minor.{pass};
ghost use Rattle.rules.specs.Run.{chip_turn};
ghost use Rattle.rules.specs.View.{view_priorities};
ghost use Rattle.rules.specs.Words.{gain};
ghost use Rattle.act.specs.Lent.{◌⇒◌, by};
ghost use Rattle.chip.specs.Chosen.{chosen};
ghost use Rattle.chip.specs.Seen.{start_in, waits_in, free_in, Marks, Sees, LooksAt, ready_in, minor_link, major_link, Renews};
ghost use Rattle.chip.specs.Turned.{line_turn, Passing, Serves, Chips};

use act::{Flow, Step, Stopped};
use rules::{LINE, START};
use turns::{Clock, TURNS};

// ---- what is kept between turns

// The channels that have START, that have a pending count, that are not busy past `now`, and that are passed over.
#[derive(Clone, Copy)]
pub struct Kept {
    pub starts: u64,
    pub waits: u64,
    pub free: u64,
    pub past: u64,
}

// A mask, with a channel or without it.
fn with_bit(m: u64, ch: usize, on: bool) -> u64
    requires { ch < 64 }
    ensures { Marks m ch on result }
{
    if on {
        words::gain_bit(m, ch)
    } else {
        words::lose_bit(m, ch)
    }
}

fn start_of(table: &[u8; 2048], ch: usize) -> bool
    requires { ch < 64 }
    ensures { result ≡ start_in table.now ch }
{
    words::has_bit(words::get::<u8>(table, 32 * ch + 0x1F) as u64, START)
}

fn with_start(starts: u64, table: &[u8; 2048], ch: usize) -> u64
    requires { ch < 64 }
    ensures { Marks starts ch (start_in table.now ch) result }
{
    with_bit(starts, ch, start_of(table, ch))
}

fn waits(pending: &[u32; 64], ch: usize) -> bool
    requires { ch < 64 }
    ensures { result ≡ waits_in pending.now ch }
{
    pending[ch] != 0
}

fn free(time: u64, busy: &[u64; 64], ch: usize) -> bool
    requires { ch < 64 }
    ensures { result ≡ free_in time busy.now ch }
{
    busy[ch] <= time
}

// A channel, looked at anew.
fn looked_at(
    k: Kept,
    time: u64,
    table: &[u8; 2048],
    busy: &[u64; 64],
    pending: &[u32; 64],
    ch: usize,
) -> Kept
    requires { ch < 64 }
    ensures { LooksAt ch time k result table.now busy.now pending.now }
{
    Kept {
        starts: with_start(k.starts, table, ch),
        waits: with_bit(k.waits, ch, waits(pending, ch)),
        free: with_bit(k.free, ch, free(time, busy, ch)),
        past: k.past,
    }
}

// All channels, none of them passed over.
fn look(time: u64, table: &[u8; 2048], busy: &[u64; 64], pending: &[u32; 64]) -> Kept
    ensures { Sees time result table.now busy.now pending.now × (result.past ≡ 0) }
{
    let mut k = Kept {
        starts: 0,
        waits: 0,
        free: 0,
        past: 0,
    };
    for ch in 0..64 {
        k = looked_at(k, time, table, busy, pending, ch);
    }
    k
}

// "The channels that have START or both ERQ and a request and aren't busy past `now`", but for those passed over.
fn ready(k: Kept, erq: u64, standing: u64) -> u64
    ensures { result ≡ ready_in erq standing k }
{
    (k.starts | (erq & (standing | k.waits))) & words::without(k.free, k.past)
}

// ---- the choice

// "The one with the highest priority value, the higher number among equals"; of a priority "only the low six bits are used".
pub fn choose(ready: u64, priorities: &[u8; 64]) -> usize
    requires { 0 < ready }
    ensures { (result ≡ chosen ready (view_priorities true priorities.now) 64 0 64 0) × (result < 64) }
{
    let mut left = ready;
    let mut best = 64;
    let mut top = 0;
    // (no `for`: it walks the set bits of a mask, and counts nothing)
    while left != 0 {
        let ch = words::lowest_bit(left);
        left = words::lose_bit(left, ch);
        let value = priorities[ch] % 64;
        if top <= value {
            best = ch;
            top = value;
        }
    }
    best
}

// ---- a turn

// How a turn ended: whether its pass answered yes, and where the act stands.
#[derive(Clone, Copy)]
pub struct Turned {
    pub went: bool,
    pub flow: Flow,
}

// One pass.
fn by_pass(
    t: Flow,
    base: u32,
    window: &mut [u8],
    table: &mut [u8; 2048],
    majors: &mut [u64; 64],
    ch: usize,
    staging: &mut [u8],
    journal: &mut [u8],
) -> Result<Turned, Stopped<Flow>>
    requires { ch < 64 }
    ensures { Passing (pass ch) base (by staging) t result ⇒ window ⇒ journal ⇒ table ⇒ majors }
{
    let Some(s) = minor::dma_minor(t, base, window, table, majors, ch, staging, journal) else {
        return Ok(Turned {
            went: false,
            flow: t,
        });
    };
    Ok(Turned {
        went: true,
        flow: s?,
    })
}

// "A pass [..] answering no counts 0."
fn moved(went: bool, bytes: u64) -> u64
    ensures { result ≡ cond went bytes 0 }
{
    if went { bytes } else { 0 }
}

// "Channel 35's pace applies to its one loop, if no START led to it; a pass [..] answering no counts 0."
fn by_line(
    t: Flow,
    clock: Clock,
    base: u32,
    window: &mut [u8],
    table: &mut [u8; 2048],
    busy: &mut [u64; 64],
    majors: &mut [u64; 64],
    staging: &mut [u8],
    journal: &mut [u8],
) -> Result<Turned, Stopped<Flow>>
    ensures { (p : List ℕ) → (Serves (line_turn clock.now clock.pace) 35 base (by staging) t result ⇒ window ⇒ journal ⇒ table ⇒ busy ⇒ majors) p p }
{
    let bytes = channel::nbytes_of(table, LINE);
    let pass = by_pass(t, base, window, table, majors, LINE, staging, journal)?;
    let sum = moved(pass.went, bytes);
    Ok(Turned {
        went: pass.went,
        flow: turns::paced(pass.flow, clock, sum, busy),
    })
}

// "A served channel's KICK bit goes and its pending is spent as before": not by START, and not by channel 35.
pub fn chip_turn(
    t: Flow,
    clock: Clock,
    base: u32,
    window: &mut [u8],
    table: &mut [u8; 2048],
    busy: &mut [u64; 64],
    majors: &mut [u64; 64],
    pending: &mut [u32; 64],
    ch: usize,
    staging: &mut [u8],
    journal: &mut [u8],
) -> Result<Turned, Stopped<Flow>>
    requires { ch < 64 }
    ensures { Serves (chip_turn clock.now clock.pace ch) ch base (by staging) t result ⇒ window ⇒ journal ⇒ table ⇒ busy ⇒ majors ⇒ pending }
{
    let kick = words::lose_bit(t.scalars.kick, ch);
    let mut gone = t;
    gone.scalars.kick = kick;
    if words::has_bit(channel::csr_of(table, ch), START) {
        return by_pass(gone, base, window, table, majors, ch, staging, journal);
    }
    if ch == LINE {
        return by_line(
            gone, clock, base, window, table, busy, majors, staging, journal,
        );
    }
    channel::spend(pending, ch);
    by_pass(gone, base, window, table, majors, ch, staging, journal)
}

// ---- turns one after another

// The channels that a channel can link to: by its count, and at the major end.
fn minor_link(table: &[u8; 2048], ch: usize) -> usize
    requires { ch < 64 }
    ensures { (result ≡ minor_link table.now ch) × (result < 64) }
{
    words::link_of(words::get::<u16>(table, 32 * ch + 0x14))
}

fn major_link(table: &[u8; 2048], ch: usize) -> usize
    requires { ch < 64 }
    ensures { (result ≡ major_link table.now ch) × (result < 64) }
{
    ((words::get::<u16>(table, 32 * ch + 0x1E) >> 8) % 64) as usize
}

// "One whose pass answers no [..] is passed over for the rest of the call."
fn passed_over(past: u64, ch: usize, went: bool) -> u64
    requires { ch < 64 }
    ensures { result ≡ cond went past (gain past ch) }
{
    if went {
        past
    } else {
        words::gain_bit(past, ch)
    }
}

// What is kept, after a turn of a channel that can link to two others.
fn renewed(
    k: Kept,
    time: u64,
    table: &[u8; 2048],
    busy: &[u64; 64],
    pending: &[u32; 64],
    ch: usize,
    minor: usize,
    major: usize,
    went: bool,
) -> Kept
    requires { (ch < 64) × (minor < 64) × (major < 64) }
    ensures { Renews ch minor major time went k result table.now busy.now pending.now }
{
    let own = looked_at(k, time, table, busy, pending, ch);
    let starts = with_start(own.starts, table, minor);
    Kept {
        starts: with_start(starts, table, major),
        waits: own.waits,
        free: own.free,
        past: passed_over(k.past, ch, went),
    }
}

// "Each of at most 4,096 turns serves [..] then looks afresh."
pub fn run_chip(
    t: Flow,
    clock: Clock,
    base: u32,
    window: &mut [u8],
    table: &mut [u8; 2048],
    busy: &mut [u64; 64],
    majors: &mut [u64; 64],
    pending: &mut [u32; 64],
    priorities: &[u8; 64],
    staging: &mut [u8],
    journal: &mut [u8],
) -> Step
    ensures { Chips clock.now clock.pace base (by staging) priorities.now t result ⇒ window ⇒ journal ⇒ table ⇒ busy ⇒ majors ⇒ pending }
{
    let mut s = t;
    let mut k = look(clock.now, table, busy, pending);
    for _ in 0..TURNS {
        let m = ready(k, s.scalars.erq, s.scalars.standing);
        if m == 0 {
            return Ok(s);
        }
        let ch = choose(m, priorities);
        let minor = minor_link(table, ch);
        let major = major_link(table, ch);
        let turned = chip_turn(
            s, clock, base, window, table, busy, majors, pending, ch, staging, journal,
        )?;
        s = turned.flow;
        k = renewed(
            k,
            clock.now,
            table,
            busy,
            pending,
            ch,
            minor,
            major,
            turned.went,
        );
    }
    Ok(s)
}
