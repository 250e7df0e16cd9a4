// The public calls run and service: document 01, "The calls" and "Run, service, controllers", with document 02's [10].
// Their contracts fix all that is there after a call, for all inputs (crate `rules`, specs/Calls.antt, `after`). All is done on a device in parts: its
// core by value, and its arrays lent (`run_in`). A call on a device by value takes it apart once and puts it together once. (Copies of the device are
// what a short run would spend most of its time on.)
#![tactic(auto)]

ghost use Rattle.std.specs.Prelude.{true, ◌&&◌, ◌≡◌, ◌+◌, ◌^◌, ◌≤◌, eqb, length};
ghost use Rattle.rules.specs.View.{view};
ghost use Rattle.rules.specs.Calls.{verdict_number, wrong, run as run_call, service as service_call, told_acted, Spared, after};
ghost use Rattle.act.specs.Lent.{◌⇒◌, by};
ghost use Rattle.act.specs.Parts.{Arrays, ordered};
ghost use Rattle.engine.specs.Runs.{TakesTurns, RunsAll, Begins, EndsTurns, Carries, Runs};

use act::{Core, Done, Flow, Step};
use acting::Reached;
use rules::{Acted, Device, Refusal, Scalars, Verdict};
use turns::Clock;

// Refusals 5, 6 and 7, in that order.
fn tested(time: u64, pace: u64, base: u32, window: usize, journal: usize, used: usize) -> Verdict
    ensures { verdict_number result ≡ wrong base window journal used (run_call time pace) }
{
    if asking::bad_window(base, window) {
        return Err(Refusal::Window);
    }
    if asking::bad_journal(journal, used) {
        return Err(Refusal::Journal);
    }
    if asking::bad_time(time, pace) {
        return Err(Refusal::Time);
    }
    Ok(())
}

// ---- the turns of a run

// "Service: [..] a run follows if KICK is not 0": else there are no turns.
fn idle(again: bool, kick: u64) -> bool
    ensures { result ≡ (again && eqb kick 0) }
{
    again && kick == 0
}

// The turns of a run, or those that follow a service (`again`), as the mode makes them. (Both stay values that are asked, and no functions handed in: the
// mode is a field of the device, and each contract says in one line what holds for a run and for a service.)
fn take_turns(
    again: bool,
    chip: bool,
    t: Flow,
    clock: Clock,
    base: u32,
    window: &mut [u8],
    table: &mut [u8; 2048],
    busy: &mut [u64; 64],
    majors: &mut [u64; 64],
    pending: &mut [u32; 64],
    priorities: &[u8; 64],
    staging: &mut [u8],
    journal: &mut [u8],
) -> Step
    ensures { TakesTurns again chip priorities.now clock.now clock.pace base (by staging) t result ⇒ window ⇒ journal ⇒ table ⇒ busy ⇒ majors ⇒ pending }
{
    if idle(again, t.scalars.kick) {
        return Ok(t);
    }
    if chip {
        return chip::run_chip(
            t, clock, base, window, table, busy, majors, pending, priorities, staging, journal,
        );
    }
    turns::run_dma_inner(
        t, clock, base, window, table, busy, majors, pending, staging, journal,
    )
}

// All of them. "Staging is [..] all zero after every other run or service."
fn run_all(
    again: bool,
    chip: bool,
    t: Flow,
    clock: Clock,
    base: u32,
    window: &mut [u8],
    table: &mut [u8; 2048],
    busy: &mut [u64; 64],
    majors: &mut [u64; 64],
    pending: &mut [u32; 64],
    priorities: &[u8; 64],
    staging: &mut [u8],
    journal: &mut [u8],
) -> Step
    ensures { RunsAll again chip priorities.now clock.now clock.pace base t result ⇒ window ⇒ staging ⇒ journal ⇒ table ⇒ busy ⇒ majors ⇒ pending }
{
    let s = take_turns(
        again, chip, t, clock, base, window, table, busy, majors, pending, priorities, staging,
        journal,
    );
    let len = staging.len();
    words::clear(staging, 0, len);
    s
}

// "Service: each busy time that is not 0 and not past `now` becomes 0. Those channels with ERQ set, and all of DEFERRED, join KICK if they
// request or are in it; DEFERRED becomes 0": where its turns begin.
fn dma_service(
    n: Scalars,
    time: u64,
    busy: &mut [u64; 64],
    pending: &[u32; 64],
    used: usize,
) -> Flow
    ensures { Begins true time n result busy.old busy.new pending.now used }
{
    let back = turns::release(time, n.erq, busy);
    let asking = controllers::waiting(n.standing, pending);
    let mut e = n;
    e.kick = n.kick | ((back | n.deferred) & (asking | n.kick));
    e.deferred = 0;
    Flow {
        scalars: e,
        at: used,
    }
}

// The same of a service (`again`) or of a run, which begins with what is there.
fn beginning(
    again: bool,
    n: Scalars,
    time: u64,
    busy: &mut [u64; 64],
    pending: &[u32; 64],
    used: usize,
) -> Flow
    ensures { Begins again time n result busy.old busy.new pending.now used }
{
    if !again {
        return Flow {
            scalars: n,
            at: used,
        };
    }
    dma_service(n, time, busy, pending, used)
}

// ---- a call. (The three arrays stand there twice, as they were at entry and as they are: a struct of them would be a copy more, or references, for which see
// crate `act`.)

// The last records of an act of turns, and what it answers: busy times, majors and pending counts are compared with those at entry.
fn end_turns(
    k: Core,
    s: Reached,
    busy: &[u64; 64],
    busy_now: &[u64; 64],
    majors: &[u64; 64],
    majors_now: &[u64; 64],
    pending: &[u32; 64],
    pending_now: &[u32; 64],
    journal: &mut [u8],
    used: usize,
) -> Done
    ensures { EndsTurns k s used result busy.now busy_now.now majors.now majors_now.now pending.now pending_now.now ⇒ journal }
{
    let core = s.core;
    let walk = s.walk;
    let numbers = closing::note_core(acting::begun(walk), k, core, journal);
    let times = closing::note_busy(numbers, busy, busy_now, journal);
    let counts = closing::note_majors(times, majors, majors_now, journal);
    let waits = closing::note_pending(counts, pending, pending_now, journal);
    acting::done(k, s, closing::note_end(waits, used, journal), used)
}

// The turns, then "lines and level anew" and the end of the act. 9, 10 or 11 "leaves window, device and used journal as at entry", and "journal
// bytes past the used length: zero to the end"; but busy times, majors and pending counts are left to the caller: `busy`, `majors` and `pending` are
// those at entry.
fn carried(
    again: bool,
    chip: bool,
    k: Core,
    clock: Clock,
    base: u32,
    window: &mut [u8],
    table: &mut [u8; 2048],
    busy: &[u64; 64],
    busy_now: &mut [u64; 64],
    majors: &[u64; 64],
    majors_now: &mut [u64; 64],
    pending: &[u32; 64],
    pending_now: &mut [u32; 64],
    priorities: &[u8; 64],
    staging: &mut [u8],
    journal: &mut [u8],
    used: usize,
) -> Done
    requires { (used ≤ length journal.old) × (base + length window.old ≤ 2 ^ 32) × (busy.now ≡ busy_now.old) × (majors.now ≡ majors_now.old) × (pending.now ≡ pending_now.old) }
    ensures { (Carries again chip priorities.now clock.now clock.pace base k result ⇒ window ⇒ staging ⇒ journal ⇒ table ⇒ busy_now ⇒ majors_now ⇒ pending_now) used }
{
    let scalars = k.scalars;
    let t = beginning(again, scalars, clock.now, busy_now, pending_now, used);
    let s = run_all(
        again,
        chip,
        t,
        clock,
        base,
        window,
        table,
        busy_now,
        majors_now,
        pending_now,
        priorities,
        staging,
        journal,
    );
    let r = end_turns(
        k,
        acting::settle(k, s),
        busy,
        busy_now,
        majors,
        majors_now,
        pending,
        pending_now,
        journal,
        used,
    );
    let verdict = r.verdict;
    let Ok(()) = verdict else {
        journal::roll_back(base, window, table, journal, used, act::end_of(s));
        return r;
    };
    r
}

// A run, or a service (`again`), on a device in parts: after a refusal they are as at entry.
pub fn run_in(
    again: bool,
    chip: bool,
    k: Core,
    time: u64,
    pace: u64,
    base: u32,
    window: &mut [u8],
    table: &mut [u8; 2048],
    busy: &mut [u64; 64],
    majors: &mut [u64; 64],
    pending: &mut [u32; 64],
    priorities: &[u8; 64],
    staging: &mut [u8],
    journal: &mut [u8],
    used: usize,
) -> Done
    ensures { (x : Arrays) → (Runs again time pace base k result (ordered x priorities.now chip) ⇒ window ⇒ staging ⇒ journal ⇒ table ⇒ busy ⇒ majors ⇒ pending) used }
{
    let v = tested(time, pace, base, window.len(), journal.len(), used);
    let Ok(()) = v else {
        return Done {
            verdict: v,
            used,
            core: k,
        };
    };
    let busy_before = *busy;
    let majors_before = *majors;
    let pending_before = *pending;
    let r = carried(
        again,
        chip,
        k,
        Clock { now: time, pace },
        base,
        window,
        table,
        &busy_before,
        busy,
        &majors_before,
        majors,
        &pending_before,
        pending,
        priorities,
        staging,
        journal,
        used,
    );
    let ended = r.verdict;
    let Ok(()) = ended else {
        *busy = busy_before;
        *majors = majors_before;
        *pending = pending_before;
        return r;
    };
    r
}

// "Run": `now`, pace, base address, window, staging, journal. (It and `service` stand alone, each with the whole text: the compiler takes such a
// function into the entries, and with it the copies of the device; one that both call it does not.)
pub fn run(
    d: Device,
    time: u64,
    pace: u64,
    base: u32,
    window: &mut [u8],
    staging: &mut [u8],
    journal: &mut [u8],
    used: usize,
) -> Acted
    ensures { (told_acted result window.new staging.new journal.new ≡ after (run_call time pace) base (view d) window.old staging.old journal.old used) × Spared result.verdict d.priorities result.device.priorities }
{
    let mut table = d.table;
    let mut busy = d.busy;
    let mut majors = d.majors;
    let mut pending = d.pending;
    let priorities = d.priorities;
    let r = run_in(
        false,
        d.chip,
        act::core_of(d),
        time,
        pace,
        base,
        window,
        &mut table,
        &mut busy,
        &mut majors,
        &mut pending,
        &priorities,
        staging,
        journal,
        used,
    );
    let scalars = r.core.scalars;
    let controllers = r.core.controllers;
    Acted {
        verdict: r.verdict,
        used: r.used,
        device: Device {
            scalars,
            controllers,
            ignore_masks: r.core.ignore_masks,
            table,
            busy,
            majors,
            pending,
            ..d
        },
    }
}

// "Service": the same.
pub fn service(
    d: Device,
    time: u64,
    pace: u64,
    base: u32,
    window: &mut [u8],
    staging: &mut [u8],
    journal: &mut [u8],
    used: usize,
) -> Acted
    ensures { (told_acted result window.new staging.new journal.new ≡ after (service_call time pace) base (view d) window.old staging.old journal.old used) × Spared result.verdict d.priorities result.device.priorities }
{
    let mut table = d.table;
    let mut busy = d.busy;
    let mut majors = d.majors;
    let mut pending = d.pending;
    let priorities = d.priorities;
    let r = run_in(
        true,
        d.chip,
        act::core_of(d),
        time,
        pace,
        base,
        window,
        &mut table,
        &mut busy,
        &mut majors,
        &mut pending,
        &priorities,
        staging,
        journal,
        used,
    );
    let scalars = r.core.scalars;
    let controllers = r.core.controllers;
    Acted {
        verdict: r.verdict,
        used: r.used,
        device: Device {
            scalars,
            controllers,
            ignore_masks: r.core.ignore_masks,
            table,
            busy,
            majors,
            pending,
            ..d
        },
    }
}
