// Entries for C and Rust over a device that the caller holds in memory: a register access or a run costs its own work, and no packing.
// Each takes the device behind a reference. An act copies its core, is lent those of its arrays that it reads or changes, where they lie, and stores
// numbers and controllers when it comes back; the others copy the device. The contract is that of the call. Each of these is one call, some stores and
// one number.
#![tactic(auto)]

ghost use Rattle.std.specs.Prelude.{[], ◌≡◌, ◌%◌, ◌^◌};
ghost use Rattle.rules.specs.Calls.{verdict_number, after, after_back, after_read, write, inputs, pending as pending_call, run, service, ack};
ghost use Rattle.rules.specs.View.{view};
ghost use Rattle.rules.proofs.Proper.{Proper};
ghost use Rattle.act.specs.Lent.{◌⇒◌};
ghost use Rattle.act.specs.Parts.{Arrays, ordered, tabled, counted, taking};
ghost use Rattle.engine.specs.Runs.{call_of};
ghost use Rattle.answers.specs.Answers.{packed, left, read_by};
ghost use Rattle.direct.specs.Direct.{left_of, SparedBy, core_in, Aside, Feeds, Heeds, RunsFed, fresh_by, saved, saved_by, loaded_by};

use act::{Core, Done};
use rules::{Acted, Controller, Device, Scalars};

// The answer of a call, and the device after it.
#[derive(Clone, Copy)]
pub struct Entered {
    pub answer: u64,
    pub device: Device,
}

// The same of a call that works on the device's arrays in place: of the rest what the call can change.
#[derive(Clone, Copy)]
pub struct Fed {
    pub answer: u64,
    pub scalars: Scalars,
    pub controllers: [Controller; 3],
}

// What of a device is short, as an entry copies it: a core, and the mode, which the calls are given apart from it.
#[derive(Clone, Copy)]
pub struct Short {
    pub scalars: Scalars,
    pub controllers: [Controller; 3],
    pub ignore_masks: bool,
    pub chip: bool,
}

fn core_in(k: Short) -> Core
    ensures { result ≡ core_in k }
{
    let scalars = k.scalars;
    let controllers = k.controllers;
    Core {
        scalars,
        controllers,
        ignore_masks: k.ignore_masks,
    }
}

// That a device's numbers fit their types: nothing is done, and nothing is left of it in the compiled code.
fn known(d: Device)
    ensures { Proper (view d) }
{}

// ---- answers

fn answered(a: Acted) -> Entered
    ensures { (result.answer ≡ packed (verdict_number a.verdict) 0 0 a.used) × (result.device ≡ a.device) }
{
    let device = a.device;
    let v = a.verdict;
    Entered {
        answer: answers::answer_of(v, a.used),
        device,
    }
}

// What an act came to besides arrays, its answer in one number.
fn handed_back(r: Done) -> Fed
    ensures { (result.answer ≡ packed (verdict_number r.verdict) 0 0 r.used) × (result.scalars ≡ r.core.scalars) × (result.controllers ≡ r.core.controllers) }
{
    let core = r.core;
    let verdict = r.verdict;
    let answer = answers::answer_of(verdict, r.used);
    let scalars = core.scalars;
    let controllers = core.controllers;
    Fed {
        answer,
        scalars,
        controllers,
    }
}

// ---- the calls, on a device by value

fn fresh_by(d: Device, ignore_masks: u32, mode: u32) -> Entered
    ensures { (left result.answer (view result.device) [] [] [] ≡ fresh_by (view d) ignore_masks mode) × SparedBy result.answer d.priorities result.device.priorities }
{
    if 1 < ignore_masks {
        return Entered {
            answer: answers::packed(255, 0, 0, 0),
            device: d,
        };
    }
    if 1 < mode {
        return Entered {
            answer: answers::packed(255, 0, 0, 0),
            device: d,
        };
    }
    Entered {
        answer: 0,
        device: device::fresh(ignore_masks == 1, mode == 1),
    }
}

fn read_by(d: Device, address: u32, size: u32) -> u64
    ensures { result ≡ read_by (after_read (view d) address size) }
{
    answers::reading_of(registers::read(d, address, size))
}

// ---- the acts, on a device in parts: its core by value, its arrays lent

fn write_by(
    k: Short,
    address: u32,
    size: u32,
    value: u32,
    table: &mut [u8; 2048],
    pending: &mut [u32; 64],
    priorities: &mut [u8; 64],
    journal: &mut [u8],
    used: u64,
) -> Fed
    ensures { ((x : Arrays) → (Feeds (write address size value) k result (ordered (tabled (counted x pending.old) table.old) priorities.old k.chip) (ordered (tabled (counted x pending.new) table.new) priorities.new k.chip) ⇒ journal) used) × SparedBy result.answer priorities.old priorities.new }
{
    handed_back(registers::write_in(
        core_in(k),
        address,
        size,
        value,
        k.chip,
        table,
        pending,
        priorities,
        journal,
        used as usize,
    ))
}

fn inputs_by(
    k: Short,
    standing: u64,
    lines0: u64,
    lines1: u64,
    lines2: u64,
    pending: &mut [u32; 64],
    journal: &mut [u8],
    used: u64,
) -> Fed
    ensures { (x : Arrays) → (Feeds (inputs standing lines0 lines1 lines2) k result (counted x pending.old) (counted x pending.new) ⇒ journal) used }
{
    handed_back(registers::inputs_in(
        core_in(k),
        standing,
        lines0,
        lines1,
        lines2,
        pending,
        journal,
        used as usize,
    ))
}

fn pending_by(
    k: Short,
    channel: u32,
    count: u32,
    pending: &mut [u32; 64],
    journal: &mut [u8],
    used: u64,
) -> Fed
    ensures { (x : Arrays) → (Feeds (pending_call channel count) k result (counted x pending.old) (counted x pending.new) ⇒ journal) used }
{
    handed_back(registers::pending_in(core_in(k), channel, count, pending, journal, used as usize))
}

// Of `ipl` the low byte counts.
fn acknowledge_by(k: Short, ipl: u32, taken: &mut [u64; 192], journal: &mut [u8], used: u64) -> u64
    ensures { (x : Arrays) → (Heeds (ack (ipl % 2 ^ 8)) k result (taking x taken.old) (taking x taken.new) ⇒ journal) used }
{
    let r = registers::acknowledge_in(
        core_in(k),
        (ipl % 0x100) as u8,
        taken,
        journal,
        used as usize,
    );
    let done = r.done;
    let heard = r.heard;
    let verdict = done.verdict;
    answers::heard_answer(verdict, heard, done.used)
}

// A run, or a service (`again`).
fn run_by(
    again: bool,
    k: Short,
    time: u64,
    pace: u64,
    base: u32,
    window: &mut [u8],
    table: &mut [u8; 2048],
    busy: &mut [u64; 64],
    majors: &mut [u64; 64],
    pending: &mut [u32; 64],
    priorities: &mut [u8; 64],
    staging: &mut [u8],
    journal: &mut [u8],
    used: u64,
) -> Fed
    ensures { ((x : Arrays) → (RunsFed (call_of again time pace) base k result x ⇒ window ⇒ staging ⇒ journal ⇒ table ⇒ busy ⇒ majors ⇒ pending ⇒ priorities) used) × SparedBy result.answer priorities.old priorities.new }
{
    handed_back(engine::run_in(
        again,
        k.chip,
        core_in(k),
        time,
        pace,
        base,
        window,
        table,
        busy,
        majors,
        pending,
        priorities,
        staging,
        journal,
        used as usize,
    ))
}

fn take_back_by(d: Device, base: u32, window: &mut [u8], journal: &mut [u8], used: u64) -> Entered
    ensures { (left result.answer (view result.device) window.new [] journal.new ≡ left_of (after_back base (view d) window.old journal.old used)) × SparedBy result.answer d.priorities result.device.priorities }
{
    answered(back::take_back(d, base, window, journal, used as usize))
}

// ---- a device as bytes

fn save_by(d: Device, image: &mut [u8]) -> u64
    ensures { saved result image.new ≡ saved_by (view d) image.old }
{
    if image.len() != image::BYTES {
        return answers::packed(255, 0, 0, 0);
    }
    image::put_device(image, d);
    0
}

fn load_by(d: Device, image: &[u8]) -> Entered
    ensures { (left result.answer (view result.device) [] [] [] ≡ loaded_by (view d) image.now) × SparedBy result.answer d.priorities result.device.priorities }
{
    if !image::is_image(image) {
        return Entered {
            answer: answers::packed(255, 0, 0, 0),
            device: d,
        };
    }
    Entered {
        answer: 0,
        device: image::get_device(image),
    }
}

// ---- the entries

#[unsafe(no_mangle)]
pub extern "C" fn kp_device_fresh(d: &mut Device, ignore_masks: u32, mode: u32) -> u64
    ensures { (left result (view d.new) [] [] [] ≡ fresh_by (view d.old) ignore_masks mode) × SparedBy result d.old.priorities d.new.priorities }
{
    let e = fresh_by(*d, ignore_masks, mode);
    *d = e.device;
    e.answer
}

#[unsafe(no_mangle)]
pub extern "C" fn kp_device_read(d: &Device, address: u32, size: u32) -> u64
    ensures { result ≡ read_by (after_read (view d.now) address size) }
{
    read_by(*d, address, size)
}

#[unsafe(no_mangle)]
pub extern "C" fn kp_device_write(
    d: &mut Device,
    address: u32,
    size: u32,
    value: u32,
    journal: &mut [u8],
    used: u64,
) -> u64
    ensures { (Aside (write address size value) (view d.old) (view d.new) journal.old journal.new used result) × SparedBy result d.old.priorities d.new.priorities }
{
    known(*d);
    let k = Short {
        scalars: d.scalars,
        controllers: d.controllers,
        ignore_masks: d.ignore_masks,
        chip: d.chip,
    };
    let e = write_by(
        k,
        address,
        size,
        value,
        &mut d.table,
        &mut d.pending,
        &mut d.priorities,
        journal,
        used,
    );
    d.scalars = e.scalars;
    let controllers = e.controllers;
    d.controllers = controllers;
    e.answer
}

#[unsafe(no_mangle)]
pub extern "C" fn kp_device_inputs(
    d: &mut Device,
    standing: u64,
    lines0: u64,
    lines1: u64,
    lines2: u64,
    journal: &mut [u8],
    used: u64,
) -> u64
    ensures { (Aside (inputs standing lines0 lines1 lines2) (view d.old) (view d.new) journal.old journal.new used result) × SparedBy result d.old.priorities d.new.priorities }
{
    known(*d);
    let k = Short {
        scalars: d.scalars,
        controllers: d.controllers,
        ignore_masks: d.ignore_masks,
        chip: d.chip,
    };
    let e = inputs_by(
        k,
        standing,
        lines0,
        lines1,
        lines2,
        &mut d.pending,
        journal,
        used,
    );
    d.scalars = e.scalars;
    let controllers = e.controllers;
    d.controllers = controllers;
    e.answer
}

#[unsafe(no_mangle)]
pub extern "C" fn kp_device_pending(
    d: &mut Device,
    channel: u32,
    count: u32,
    journal: &mut [u8],
    used: u64,
) -> u64
    ensures { (Aside (pending_call channel count) (view d.old) (view d.new) journal.old journal.new used result) × SparedBy result d.old.priorities d.new.priorities }
{
    known(*d);
    let k = Short {
        scalars: d.scalars,
        controllers: d.controllers,
        ignore_masks: d.ignore_masks,
        chip: d.chip,
    };
    let e = pending_by(k, channel, count, &mut d.pending, journal, used);
    d.scalars = e.scalars;
    let controllers = e.controllers;
    d.controllers = controllers;
    e.answer
}

#[unsafe(no_mangle)]
pub extern "C" fn kp_device_acknowledge(
    d: &mut Device,
    ipl: u32,
    journal: &mut [u8],
    used: u64,
) -> u64
    ensures { (Aside (ack (ipl % 2 ^ 8)) (view d.old) (view d.new) journal.old journal.new used result) × SparedBy result d.old.priorities d.new.priorities }
{
    known(*d);
    let k = Short {
        scalars: d.scalars,
        controllers: d.controllers,
        ignore_masks: d.ignore_masks,
        chip: d.chip,
    };
    acknowledge_by(k, ipl, &mut d.taken, journal, used)
}

#[unsafe(no_mangle)]
pub extern "C" fn kp_device_run(
    d: &mut Device,
    time: u64,
    pace: u64,
    base: u32,
    window: &mut [u8],
    staging: &mut [u8],
    journal: &mut [u8],
    used: u64,
) -> u64
    ensures { (left result (view d.new) window.new staging.new journal.new ≡ left_of (after (run time pace) base (view d.old) window.old staging.old journal.old used)) × SparedBy result d.old.priorities d.new.priorities }
{
    known(*d);
    let k = Short {
        scalars: d.scalars,
        controllers: d.controllers,
        ignore_masks: d.ignore_masks,
        chip: d.chip,
    };
    let e = run_by(
        false,
        k,
        time,
        pace,
        base,
        window,
        &mut d.table,
        &mut d.busy,
        &mut d.majors,
        &mut d.pending,
        &mut d.priorities,
        staging,
        journal,
        used,
    );
    d.scalars = e.scalars;
    let controllers = e.controllers;
    d.controllers = controllers;
    e.answer
}

#[unsafe(no_mangle)]
pub extern "C" fn kp_device_service(
    d: &mut Device,
    time: u64,
    pace: u64,
    base: u32,
    window: &mut [u8],
    staging: &mut [u8],
    journal: &mut [u8],
    used: u64,
) -> u64
    ensures { (left result (view d.new) window.new staging.new journal.new ≡ left_of (after (service time pace) base (view d.old) window.old staging.old journal.old used)) × SparedBy result d.old.priorities d.new.priorities }
{
    known(*d);
    let k = Short {
        scalars: d.scalars,
        controllers: d.controllers,
        ignore_masks: d.ignore_masks,
        chip: d.chip,
    };
    let e = run_by(
        true,
        k,
        time,
        pace,
        base,
        window,
        &mut d.table,
        &mut d.busy,
        &mut d.majors,
        &mut d.pending,
        &mut d.priorities,
        staging,
        journal,
        used,
    );
    d.scalars = e.scalars;
    let controllers = e.controllers;
    d.controllers = controllers;
    e.answer
}

#[unsafe(no_mangle)]
pub extern "C" fn kp_device_take_back(
    d: &mut Device,
    base: u32,
    window: &mut [u8],
    journal: &mut [u8],
    used: u64,
) -> u64
    ensures { (left result (view d.new) window.new [] journal.new ≡ left_of (after_back base (view d.old) window.old journal.old used)) × SparedBy result d.old.priorities d.new.priorities }
{
    let e = take_back_by(*d, base, window, journal, used);
    *d = e.device;
    e.answer
}

// The device is laid down as bytes.
#[unsafe(no_mangle)]
pub extern "C" fn kp_device_save(d: &Device, image: &mut [u8]) -> u64
    ensures { saved result image.new ≡ saved_by (view d.now) image.old }
{
    save_by(*d, image)
}

// And read from them, if they are an image.
#[unsafe(no_mangle)]
pub extern "C" fn kp_device_load(d: &mut Device, image: &[u8]) -> u64
    ensures { (left result (view d.new) [] [] [] ≡ loaded_by (view d.old) image.now) × SparedBy result d.old.priorities d.new.priorities }
{
    let e = load_by(*d, image);
    *d = e.device;
    e.answer
}
