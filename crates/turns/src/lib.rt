// Turns of the old mode: document 01, "Run, service, controllers". A turn, a run of turns, channel 35's pace, and the release of channels whose busy time is over.
// Each contract says that the function does the steps of its tree (crate `rules`, specs/Run.antt), whatever the rest of the device is.
#![tactic(auto)]

ghost use Rattle.std.specs.Prelude.{◌≡◌, List, ℕ, ◌^◌, ◌≤◌, ◌<◌};
ghost use Rattle.rules.specs.Run.{serve_line, serve, turn, turns, run_turns, over};
ghost use Rattle.rules.specs.Words.{lowest};
ghost use Rattle.act.specs.Lent.{◌⇒◌, by};
ghost use Rattle.turns.specs.Frees.{freed, freeing, Frees};
ghost use Rattle.turns.specs.Turns.{Turns, Paces};

use act::{Flow, Step};
use rules::{LINE, START};

// "At most 4,096 turns".
pub const TURNS: u32 = 4096;

// ---- a turn

// `now` and the pace of a run, as refusal 7 lets them through.
#[derive(Clone, Copy)]
pub struct Clock {
    pub now: u64,
    pub pace: u64,
    ghost now_bounded: { now ≤ 2 ^ 62 },
    ghost pace_bounded: { pace ≤ 1000000 },
}

// "Then busy until = now + sum x pace, and a deadline later than that falls to it."
pub fn paced(t: Flow, clock: Clock, sum: u64, busy: &mut [u64; 64]) -> Flow
    requires { sum < 2 ^ 33 }
    ensures { Paces clock.now clock.pace sum t result ⇒ busy }
{
    let until = clock.now + sum * clock.pace;
    busy[LINE] = until;
    let mut e = t;
    e.scalars.deadline = t.scalars.deadline.min(until);
    e
}

// The passes of channel 35, and its pace. "It spends no pending."
pub fn serve_line(
    t: Flow,
    clock: Clock,
    base: u32,
    window: &mut [u8],
    table: &mut [u8; 2048],
    busy: &mut [u64; 64],
    majors: &mut [u64; 64],
    staging: &mut [u8],
    journal: &mut [u8],
) -> Step
    ensures { (p : List ℕ) → (Turns (serve_line clock.now clock.pace) base (by staging) t result ⇒ window ⇒ journal ⇒ table ⇒ busy ⇒ majors) p p }
{
    let line = channel::line_loop(t, base, window, table, majors, staging, journal)?;
    Ok(paced(line.flow, clock, line.sum, busy))
}

// "START runs minor loops [..] Otherwise ERQ and a request are needed."
pub fn serve(
    t: Flow,
    clock: Clock,
    base: u32,
    window: &mut [u8],
    table: &mut [u8; 2048],
    busy: &mut [u64; 64],
    majors: &mut [u64; 64],
    pending: &mut [u32; 64],
    ch: usize,
    staging: &mut [u8],
    journal: &mut [u8],
) -> Step
    requires { ch < 64 }
    ensures { Turns (serve clock.now clock.pace ch) base (by staging) t result ⇒ window ⇒ journal ⇒ table ⇒ busy ⇒ majors ⇒ pending }
{
    if words::has_bit(channel::csr_of(table, ch), START) {
        let before = majors[ch];
        return channel::start_loop(t, base, window, table, majors, ch, before, staging, journal);
    }
    if !channel::offered(t.scalars.erq, t.scalars.standing, pending, ch) {
        return Ok(t);
    }
    if ch == LINE {
        return serve_line(
            t, clock, base, window, table, busy, majors, staging, journal,
        );
    }
    channel::request_loop(
        t, base, window, table, majors, pending, ch, staging, journal,
    )
}

// The channel "goes first" from KICK. "A channel busy past `now` moves to DEFERRED."
pub fn turn(
    t: Flow,
    clock: Clock,
    base: u32,
    window: &mut [u8],
    table: &mut [u8; 2048],
    busy: &mut [u64; 64],
    majors: &mut [u64; 64],
    pending: &mut [u32; 64],
    ch: usize,
    staging: &mut [u8],
    journal: &mut [u8],
) -> Step
    requires { ch < 64 }
    ensures { Turns (turn clock.now clock.pace ch) base (by staging) t result ⇒ window ⇒ journal ⇒ table ⇒ busy ⇒ majors ⇒ pending }
{
    let kick = words::lose_bit(t.scalars.kick, ch);
    let mut gone = t;
    gone.scalars.kick = kick;
    if clock.now < busy[ch] {
        let deferred = words::gain_bit(t.scalars.deferred, ch);
        gone.scalars.deferred = deferred;
        return Ok(gone);
    }
    serve(
        gone, clock, base, window, table, busy, majors, pending, ch, staging, journal,
    )
}

// ---- a run of turns

// "The lowest set bit of KICK is served next".
fn next_channel(kick: u64) -> usize
    requires { 0 < kick }
    ensures { (result ≡ lowest kick) × (result < 64) }
{
    words::lowest_bit(kick)
}

// "At most 4,096 turns": the next channel "goes first".
pub fn run_dma_inner(
    t: Flow,
    clock: Clock,
    base: u32,
    window: &mut [u8],
    table: &mut [u8; 2048],
    busy: &mut [u64; 64],
    majors: &mut [u64; 64],
    pending: &mut [u32; 64],
    staging: &mut [u8],
    journal: &mut [u8],
) -> Step
    ensures { Turns (turns clock.now clock.pace run_turns) base (by staging) t result ⇒ window ⇒ journal ⇒ table ⇒ busy ⇒ majors ⇒ pending }
{
    let mut s = t;
    for _ in 0..TURNS {
        let kick = s.scalars.kick;
        if kick == 0 {
            return Ok(s);
        }
        let ch = next_channel(kick);
        s = turn(
            s, clock, base, window, table, busy, majors, pending, ch, staging, journal,
        )?;
    }
    Ok(s)
}

// ---- channels whose busy time is over

// "Each busy time that is not 0 and not past `now`".
fn over(time: u64, until: u64) -> bool
    ensures { result ≡ over time until }
{
    until != 0 && until <= time
}

// Such a busy time "becomes 0"; a channel "with ERQ set" joins the mask.
fn release_one(time: u64, erq: u64, busy: &mut [u64; 64], ch: usize, m: u64) -> u64
    requires { ch < 64 }
    ensures { (result ≡ freeing time erq busy.old ch m) × (busy.new ≡ freed time busy.old ch) }
{
    if !over(time, busy[ch]) {
        return m;
    }
    busy[ch] = 0;
    if !words::has_bit(erq, ch) {
        return m;
    }
    words::gain_bit(m, ch)
}

// All of them, and "those channels with ERQ set".
pub fn release(time: u64, erq: u64, busy: &mut [u64; 64]) -> u64
    ensures { Frees time erq result ⇒ busy }
{
    let mut m = 0;
    for ch in 0..64 {
        m = release_one(time, erq, busy, ch, m);
    }
    m
}
