// The calls on registers and inputs: read, write, inputs, pending, acknowledge. Each stands twice: on a device in parts, where the core goes in by
// value and the call is lent the arrays that it can read or change (`.._in`); and on a device by value, which it takes apart and puts together.
// What is wrong with the arguments is tested in the order of document 01's numbers, before anything is done. What an act can have changed is
// compared at its end: the fields of numbers 0 to 27, and of the arrays those that it is lent.
#![tactic(auto)]

ghost use Rattle.std.specs.Prelude.{true, false, ◌≡◌, suc, ◌%◌, ◌^◌, ◌≤◌, ◌<◌, length};
ghost use Rattle.std.proofs.Math.Option.{some};
ghost use Rattle.rules.specs.Act.{put, PRIORITY};
ghost use Rattle.rules.specs.Fields.{bits_in};
ghost use Rattle.rules.specs.View.{view};
ghost use Rattle.rules.specs.Calls.{bad_size, is_none, check, told_reading, read_unless, after_read, Spared, write as write_call, inputs as inputs_call, pending as pending_call, ack};
ghost use Rattle.rules.specs.Registers.{in_blocks, block_of, dma_read, read_in, dma_write, controller_write};
ghost use Rattle.act.specs.Lent.{◌⇒◌};
ghost use Rattle.intc.specs.Cells.{reads};
ghost use Rattle.act.specs.Parts.{Arrays, tabled, counted, taking, ordered, Calls};
ghost use Rattle.dma_read.specs.Access.{is_priority};
ghost use Rattle.registers.specs.Asked.{past_end, past_part, Writes, Stores, Made, MadeHeard};

use act::{Core, Done, Flow};
use acting::{Reached, refused};
use rules::{Acknowledged, Acted, Device, Heard, Reading, Refusal, Verdict};

// ---- addresses. (Address or offset, size and value stay three numbers, and three masks of lines three, in the order of the documents and of C: each function
// takes those that it needs, and the rules' definitions take them so.)

// "Blocks of 0x4000 bytes: DMA 0xFC044000, controllers 0, 1, 2 at 0xFC048000, 0xFC04C000, 0xFC050000."
fn in_blocks(address: u32) -> bool
    ensures { result ≡ in_blocks address }
{
    masks::within(0xFC044000, 0xFC053FFF, address)
}

// 0 DMA; 1, 2, 3: controllers 0, 1, 2: the number that `block_of` of the rules has.
fn block_of(address: u32) -> u32
    requires { in_blocks address ≡ true }
    ensures { (result ≡ block_of address) × (result < 4) }
{
    (address - 0xFC044000) / 0x4000
}

// (A size, here and in the crates below, stays the number of bytes that it is, and no enum: offsets are added to it, and the rules' arms compare it.)

// 4: "descriptor access past offset 0x17FF".
fn past_end(off: u32, size: u32) -> bool
    requires { (off < 0x4000) × (bad_size size ≡ false) }
    ensures { result ≡ past_end off size }
{
    if !masks::within(0x1000, 0x17FF, off) {
        return false;
    }
    0x1800 < off + size
}

// 4: "controller write in 0x08..0x17 with offset mod 4 plus size above 4".
fn past_part(off: u32, size: u32) -> bool
    requires { bad_size size ≡ false }
    ensures { result ≡ past_part off size }
{
    if !masks::within(0x08, 0x17, off) {
        return false;
    }
    4 < off % 4 + size
}

// ---- read

// 3: "no such register at that offset and size".
fn reading(cell: Option<u32>) -> Reading
    ensures { told_reading result ≡ read_unless (check (is_none (reads cell)) 3 0) (reads cell) }
{
    cell.ok_or(Refusal::Register)
}

fn read_dma(d: Device, off: u32, size: u32) -> Reading
    requires { (off < 0x4000) × (bad_size size ≡ false) }
    ensures { told_reading result ≡ read_unless (check (is_none (dma_read (view d) off size)) 3 (check (past_end off size) 4 0)) (dma_read (view d) off size) }
{
    if past_end(off, size) {
        return Err(Refusal::Crossing);
    }
    reading(dma_read::edma_read(d, off, size))
}

fn read_controller(d: Device, c: usize, off: u32, size: u32) -> Reading
    requires { c < 3 }
    ensures { told_reading result ≡ read_unless (check (is_none (read_in (view d) (suc c) off size)) 3 0) (read_in (view d) (suc c) off size) }
{
    let controllers = d.controllers;
    let k = controllers[c];
    reading(intc::intc_read(k, off, size))
}

// "Register read: full address, size."
pub fn read(d: Device, address: u32, size: u32) -> Reading
    ensures { told_reading result ≡ after_read (view d) address size }
{
    if asking::bad_size(size) {
        return Err(Refusal::Size);
    }
    if !in_blocks(address) {
        return Err(Refusal::Address);
    }
    let off = address % 0x4000;
    let block = block_of(address);
    match block {
        0 => read_dma(d, off, size),
        _ => read_controller(d, (block - 1) as usize, off, size),
    }
}

// ---- write

// "Priorities are the low six bits of the bytes at DMA offsets 0x100 to 0x13F."
fn is_priority(off: u32, size: u32) -> bool
    ensures { result ≡ is_priority off size }
{
    if size != 1 {
        return false;
    }
    masks::within(0x100, 0x13F, off)
}

// The bits that a priority has in the mode: six, of a byte "whose upper two bits are not kept"; in the old mode none.
fn kept(chip: bool, value: u32) -> u8
    ensures { result ≡ value % 2 ^ bits_in chip (PRIORITY 0) }
{
    if !chip {
        return 0;
    }
    (value % 64) as u8
}

// A priority, one of the "six-bit fields 768 + channel". No other can have changed, so one is kept and one is noted. After a refusal the byte is as it
// was, with those bits of it that count for nothing.
fn write_priority(
    k: Core,
    channel: u32,
    value: u32,
    chip: bool,
    priorities: &mut [u8; 64],
    journal: &mut [u8],
    used: usize,
) -> Done
    requires { channel < 64 }
    ensures { ((x : Arrays) → (Writes (some (put (PRIORITY channel) value)) false k result (ordered x priorities.old chip) (ordered x priorities.new chip) ⇒ journal) used) × Spared result.verdict priorities.old priorities.new }
{
    if asking::bad_journal(journal.len(), used) {
        return refused(k, Refusal::Journal, used);
    }
    let before = priorities[channel as usize];
    let old = kept(chip, u32::from(before));
    let after = kept(chip, value);
    priorities[channel as usize] = after;
    let scalars = k.scalars;
    let s = acting::settle(k, Ok(Flow { scalars, at: used }));
    let core = s.core;
    let walk = s.walk;
    let numbers = closing::note_core(acting::begun(walk), k, core, journal);
    let order = closing::note_priority(numbers, channel, old, after, journal);
    let r = acting::done(k, s, closing::note_end(order, used, journal), used);
    let verdict = r.verdict;
    let Ok(()) = verdict else {
        priorities[channel as usize] = before;
        acting::clear(journal, used);
        return r;
    };
    r
}

// A DMA register or the table. After a refusal table and priorities are as they were.
fn write_dma(
    k: Core,
    off: u32,
    size: u32,
    value: u32,
    chip: bool,
    table: &mut [u8; 2048],
    pending: &[u32; 64],
    priorities: &mut [u8; 64],
    journal: &mut [u8],
    used: usize,
) -> Done
    requires { (off < 0x4000) × (bad_size size ≡ false) }
    ensures { ((x : Arrays) → (Writes (dma_write off size value) (past_end off size) k result (ordered (tabled (counted x pending.now) table.old) priorities.old chip) (ordered (tabled (counted x pending.now) table.new) priorities.new chip) ⇒ journal) used) × Spared result.verdict priorities.old priorities.new }
{
    if is_priority(off, size) {
        return write_priority(k, off - 0x100, value, chip, priorities, journal, used);
    }
    if !dma::edma_known(off, size) {
        return refused(k, Refusal::Register, used);
    }
    if past_end(off, size) {
        return refused(k, Refusal::Crossing, used);
    }
    if asking::bad_journal(journal.len(), used) {
        return refused(k, Refusal::Journal, used);
    }
    let before = *table;
    let scalars = k.scalars;
    let begun = Ok(Flow { scalars, at: used });
    let s = dma::edma_write(begun, table, pending, off, size, value, journal);
    let r = acting::end_core(k, acting::settle(k, s), false, journal, used);
    let verdict = r.verdict;
    let Ok(()) = verdict else {
        *table = before;
        return r;
    };
    r
}

// The end of an act that came to the core `e` without a store, and touched the level bytes or not.
fn stored(k: Core, e: Core, levels: bool, journal: &mut [u8], used: usize) -> Done
    requires { used ≤ length journal.old }
    ensures { Stores k e levels used result ⇒ journal }
{
    let scalars = e.scalars;
    let s = acting::settle(e, Ok(Flow { scalars, at: used }));
    acting::end_core(k, s, levels, journal, used)
}

// A controller's register.
fn write_controller(
    k: Core,
    c: usize,
    off: u32,
    size: u32,
    value: u32,
    journal: &mut [u8],
    used: usize,
) -> Done
    requires { (c < 3) × (bad_size size ≡ false) }
    ensures { (x : Arrays) → (Writes (controller_write c off size value) (past_part off size) k result x x ⇒ journal) used }
{
    if past_part(off, size) {
        return refused(k, Refusal::Crossing, used);
    }
    let Some(core) = intc::intc_write(k, c, off, size, value) else {
        return refused(k, Refusal::Register, used);
    };
    if asking::bad_journal(journal.len(), used) {
        return refused(k, Refusal::Journal, used);
    }
    stored(k, core, true, journal, used)
}

// "Register write: full address, size, value."
pub fn write_in(
    k: Core,
    address: u32,
    size: u32,
    value: u32,
    chip: bool,
    table: &mut [u8; 2048],
    pending: &[u32; 64],
    priorities: &mut [u8; 64],
    journal: &mut [u8],
    used: usize,
) -> Done
    ensures { ((x : Arrays) → (Calls (write_call address size value) None k result (ordered (tabled (counted x pending.now) table.old) priorities.old chip) (ordered (tabled (counted x pending.now) table.new) priorities.new chip) ⇒ journal) used) × Spared result.verdict priorities.old priorities.new }
{
    if asking::bad_size(size) {
        return refused(k, Refusal::Size, used);
    }
    if !in_blocks(address) {
        return refused(k, Refusal::Address, used);
    }
    let off = address % 0x4000;
    let block = block_of(address);
    match block {
        0 => write_dma(
            k, off, size, value, chip, table, pending, priorities, journal, used,
        ),
        _ => write_controller(k, (block - 1) as usize, off, size, value, journal, used),
    }
}

pub fn write(
    d: Device,
    address: u32,
    size: u32,
    value: u32,
    journal: &mut [u8],
    used: usize,
) -> Acted
    ensures { (Made (write_call address size value) (view d) used result ⇒ journal) × Spared result.verdict d.priorities result.device.priorities }
{
    let mut table = d.table;
    let pending = d.pending;
    let mut priorities = d.priorities;
    let r = write_in(
        act::core_of(d),
        address,
        size,
        value,
        d.chip,
        &mut table,
        &pending,
        &mut priorities,
        journal,
        used,
    );
    let scalars = r.core.scalars;
    let controllers = r.core.controllers;
    Acted {
        verdict: r.verdict,
        used: r.used,
        device: Device {
            scalars,
            controllers,
            ignore_masks: r.core.ignore_masks,
            table,
            priorities,
            ..d
        },
    }
}

// ---- inputs, pending

// "Device inputs: standing request mask and three line masks".
pub fn inputs_in(
    k: Core,
    standing: u64,
    lines0: u64,
    lines1: u64,
    lines2: u64,
    pending: &[u32; 64],
    journal: &mut [u8],
    used: usize,
) -> Done
    ensures { (x : Arrays) → (Calls (inputs_call standing lines0 lines1 lines2) None k result (counted x pending.now) (counted x pending.now) ⇒ journal) used }
{
    if asking::bad_journal(journal.len(), used) {
        return refused(k, Refusal::Journal, used);
    }
    let e = controllers::with_inputs(k, standing, lines0, lines1, lines2, pending);
    stored(k, e, false, journal, used)
}

pub fn inputs(
    d: Device,
    standing: u64,
    lines0: u64,
    lines1: u64,
    lines2: u64,
    journal: &mut [u8],
    used: usize,
) -> Acted
    ensures { (Made (inputs_call standing lines0 lines1 lines2) (view d) used result ⇒ journal) × Spared result.verdict d.priorities result.device.priorities }
{
    let pending = d.pending;
    let r = inputs_in(
        act::core_of(d),
        standing,
        lines0,
        lines1,
        lines2,
        &pending,
        journal,
        used,
    );
    let scalars = r.core.scalars;
    let controllers = r.core.controllers;
    Acted {
        verdict: r.verdict,
        used: r.used,
        device: Device {
            scalars,
            controllers,
            ignore_masks: r.core.ignore_masks,
            ..d
        },
    }
}

// "Pending: stores a 32-bit count for one channel", which "shall add to the count that stands" ([1]). No other count can have changed, so one is kept
// and one is noted.
pub fn pending_in(
    k: Core,
    channel: u32,
    count: u32,
    pending: &mut [u32; 64],
    journal: &mut [u8],
    used: usize,
) -> Done
    ensures { (x : Arrays) → (Calls (pending_call channel count) None k result (counted x pending.old) (counted x pending.new) ⇒ journal) used }
{
    if asking::bad_journal(journal.len(), used) {
        return refused(k, Refusal::Journal, used);
    }
    if 63 < channel {
        return refused(k, Refusal::Channel, used);
    }
    let before = pending[channel as usize];
    if asking::bad_sum(before, count) {
        return refused(k, Refusal::Count, used);
    }
    let after = before + count;
    pending[channel as usize] = after;
    let scalars = k.scalars;
    let s = acting::settle(k, Ok(Flow { scalars, at: used }));
    let core = s.core;
    let walk = s.walk;
    let numbers = closing::note_core(acting::begun(walk), k, core, journal);
    let counts = closing::note_count(numbers, channel, before, after, journal);
    let r = acting::done(k, s, closing::note_end(counts, used, journal), used);
    let verdict = r.verdict;
    let Ok(()) = verdict else {
        pending[channel as usize] = before;
        acting::clear(journal, used);
        return r;
    };
    r
}

pub fn pending(d: Device, channel: u32, count: u32, journal: &mut [u8], used: usize) -> Acted
    ensures { (Made (pending_call channel count) (view d) used result ⇒ journal) × Spared result.verdict d.priorities result.device.priorities }
{
    let mut pending = d.pending;
    let r = pending_in(act::core_of(d), channel, count, &mut pending, journal, used);
    let scalars = r.core.scalars;
    let controllers = r.core.controllers;
    Acted {
        verdict: r.verdict,
        used: r.used,
        device: Device {
            scalars,
            controllers,
            ignore_masks: r.core.ignore_masks,
            pending,
            ..d
        },
    }
}

// ---- acknowledge

// What an acknowledge came to besides arrays.
#[derive(Clone, Copy)]
pub struct Answered {
    pub done: Done,
    pub heard: Heard,
}

// "Acknowledge: `ipl`, any byte." "Each accepted act writes a journal group, an acknowledge that finds nothing too." Nothing is worked out anew.
pub fn acknowledge_in(
    k: Core,
    ipl: u8,
    taken: &mut [u64; 192],
    journal: &mut [u8],
    used: usize,
) -> Answered
    ensures { (x : Arrays) → (Calls (ack ipl) result.heard k result.done (taking x taken.old) (taking x taken.new) ⇒ journal) used }
{
    if asking::bad_journal(journal.len(), used) {
        return Answered {
            done: refused(k, Refusal::Journal, used),
            heard: None,
        };
    }
    let before = *taken;
    let heard = controllers::ack_irq(k, ipl, taken);
    let s = Reached {
        walk: Ok(used),
        core: k,
    };
    let counts = closing::note_taken(Some(used), &before, taken, journal);
    let r = acting::done(k, s, closing::note_end(counts, used, journal), used);
    let verdict = r.verdict;
    let Ok(()) = verdict else {
        *taken = before;
        acting::clear(journal, used);
        return Answered {
            done: r,
            heard: None,
        };
    };
    Answered { done: r, heard }
}

pub fn acknowledge(d: Device, ipl: u8, journal: &mut [u8], used: usize) -> Acknowledged
    ensures { (MadeHeard ipl (view d) used result ⇒ journal) × Spared result.verdict d.priorities result.device.priorities }
{
    let mut taken = d.taken;
    let r = acknowledge_in(act::core_of(d), ipl, &mut taken, journal, used);
    let scalars = r.done.core.scalars;
    let controllers = r.done.core.controllers;
    Acknowledged {
        verdict: r.done.verdict,
        heard: r.heard,
        used: r.done.used,
        device: Device {
            scalars,
            controllers,
            ignore_masks: r.done.core.ignore_masks,
            taken,
            ..d
        },
    }
}
