// The device by value: a fresh one, its fields one by one, and its fields by document 01's numbers.
// Each contract is an equation with a definition of crate `rules` (specs/Fields.antt, specs/Calls.antt).
#![tactic(auto)]

ghost use Rattle.std.specs.Option.{unwrap_or};
ghost use Rattle.std.specs.Prelude.{◌≡◌, true, cond, ◌<◌, ◌≤◌, ◌^◌, length, get_or, set, replicate};
ghost use Rattle.rules.specs.Act.{MASKS, FORCED, LINES, CONFIG, BUSY, MAJORS, PENDING, SOURCE, TAKEN, PRIORITY};
ghost use Rattle.rules.specs.Fields.{controller, with_field, with_number, bits_of, bits_in, of_controller, field_at, fits_some};
ghost use Rattle.rules.specs.Calls.{fresh, fresh_controller, counting};
ghost use Rattle.rules.specs.Scalars.{scalar_bits, view_scalars};
ghost use Rattle.rules.specs.View.{view_controller, view_priorities, view};
ghost use Rattle.device.specs.Spots.{cut, Fits, Found, Inside, field_of, bits_at, bits_found};

use rules::{Controller, Device, Scalars};

// ---- "A fresh device is zero in every field, except masks (all ones) and deadline (2^64 - 1)"; and priorities "are reset to the channel's own number".

fn fresh_controller() -> Controller
    ensures { view_controller result ≡ fresh_controller }
{
    Controller {
        masks: 0xFFFFFFFFFFFFFFFF,
        forced: 0,
        lines: 0,
        levels: [0u8; 64],
        config: 0,
    }
}

// The numbers of the channels.
fn own_numbers() -> [u8; 64]
    ensures { result ≡ counting 64 0 }
{
    let mut own = [0u8; 64];
    for channel in 0..64 {
        own[channel] = channel as u8;
    }
    own
}

// Priorities of the chip's mode; the other has none.
fn fresh_priorities(chip: bool) -> [u8; 64]
    ensures { view_priorities chip result ≡ cond chip (counting 64 0) (replicate 64 0) }
{
    if chip { own_numbers() } else { [0u8; 64] }
}

// "Ignoring masks is a setting no call changes", and so is the mode: they are chosen here.
pub fn fresh(ignore_masks: bool, chip: bool) -> Device
    ensures { view result ≡ fresh ignore_masks chip }
{
    let c = fresh_controller();
    Device {
        scalars: Scalars {
            erq: 0,
            eei: 0,
            int: 0,
            err: 0,
            kick: 0,
            deferred: 0,
            deadline: 0xFFFFFFFFFFFFFFFF,
            standing: 0,
            cr: 0,
            level: 0,
        },
        table: [0u8; 2048],
        busy: [0u64; 64],
        majors: [0u64; 64],
        taken: [0u64; 192],
        pending: [0u32; 64],
        priorities: fresh_priorities(chip),
        controllers: [c, c, c],
        ignore_masks,
        chip,
    }
}

// ---- the numbers that stand alone, in the order of document 01's numbers

// How many there are.
const SCALARS: usize = 10;

// "CR [..]: 32 bits; [..] levels 8; others 64."
const SCALAR_BITS: [u32; 10] = [32, 64, 64, 64, 64, 64, 64, 64, 8, 64];

pub fn listed(s: Scalars) -> [u64; 10]
    ensures { result ≡ view_scalars s }
{
    [
        s.cr as u64,
        s.erq,
        s.eei,
        s.int,
        s.err,
        s.kick,
        s.deferred,
        s.deadline,
        s.level as u64,
        s.standing,
    ]
}

// The same from a list, each cut to its bits.
pub fn from_list(v: &[u64]) -> Scalars
    requires { length scalar_bits ≤ length v.now }
    ensures { view_scalars result ≡ cut 0 scalar_bits v.now }
{
    Scalars {
        erq: v[1],
        eei: v[2],
        int: v[3],
        err: v[4],
        kick: v[5],
        deferred: v[6],
        deadline: v[7],
        standing: v[9],
        cr: (v[0] % 0x100000000) as u32,
        level: (v[8] % 0x100) as u8,
    }
}

// ---- one controller, or one of its numbers; what stores one stays a function for each field, as Rust has no name of a field to pass

pub fn controller_at(d: Device, c: usize) -> Controller
    requires { c < 3 }
    ensures { (view_controller result ≡ controller (view d).controllers c) × Fits (view_controller result) }
{
    d.controllers[c]
}

pub fn with_masks(d: Device, c: usize, v: u64) -> Device
    requires { c < 3 }
    ensures { view result ≡ with_field (MASKS c) v (view d) }
{
    let mut e = d;
    e.controllers[c].masks = v;
    e
}

pub fn with_forced(d: Device, c: usize, v: u64) -> Device
    requires { c < 3 }
    ensures { view result ≡ with_field (FORCED c) v (view d) }
{
    let mut e = d;
    e.controllers[c].forced = v;
    e
}

pub fn with_lines(d: Device, c: usize, v: u64) -> Device
    requires { c < 3 }
    ensures { view result ≡ with_field (LINES c) v (view d) }
{
    let mut e = d;
    e.controllers[c].lines = v;
    e
}

pub fn with_config(d: Device, c: usize, v: u16) -> Device
    requires { c < 3 }
    ensures { view result ≡ with_field (CONFIG c) v (view d) }
{
    let mut e = d;
    e.controllers[c].config = v;
    e
}

pub fn with_source(d: Device, c: usize, s: usize, v: u8) -> Device
    requires { (c < 3) × (s < 64) }
    ensures { view result ≡ with_field (SOURCE c s) v (view d) }
{
    let mut k = d.controllers[c];
    k.levels[s] = v;
    let mut e = d;
    e.controllers[c] = k;
    e
}

// ---- one element of the other arrays

pub fn with_busy(d: Device, ch: usize, v: u64) -> Device
    requires { ch < 64 }
    ensures { view result ≡ with_field (BUSY ch) v (view d) }
{
    let mut e = d;
    e.busy[ch] = v;
    e
}

pub fn with_majors(d: Device, ch: usize, v: u64) -> Device
    requires { ch < 64 }
    ensures { view result ≡ with_field (MAJORS ch) v (view d) }
{
    let mut e = d;
    e.majors[ch] = v;
    e
}

pub fn with_pending(d: Device, ch: usize, v: u32) -> Device
    requires { ch < 64 }
    ensures { view result ≡ with_field (PENDING ch) v (view d) }
{
    let mut e = d;
    e.pending[ch] = v;
    e
}

pub fn with_taken(d: Device, i: usize, v: u64) -> Device
    requires { i < 192 }
    ensures { view result ≡ with_field (TAKEN i) v (view d) }
{
    let mut e = d;
    e.taken[i] = v;
    e
}

// "Six-bit fields 768 + channel in this mode's journal".
pub fn with_priority(d: Device, ch: usize, v: u8) -> Device
    requires { (ch < 64) × (v < 2 ^ bits_in d.chip (PRIORITY ch)) }
    ensures { view result ≡ with_field (PRIORITY ch) v (view d) }
{
    let mut e = d;
    e.priorities[ch] = v;
    e
}

// ---- by number

// Where a field stands: one of the scalars; of a controller, its IMR, FRC, lines or ICONFIG; an element of an array.
#[derive(Clone, Copy)]
enum Spot {
    Scalar(usize),
    Masks(usize),
    Forced(usize),
    Lines(usize),
    Config(usize),
    Busy(usize),
    Majors(usize),
    Pending(usize),
    Source(usize, usize),
    Taken(usize),
    Priority(usize),
}

// "IMR, then FRC, lines, ICONFIG".
#[tactic(auto, unfolding(rules::specs::Fields::of_controller))]
fn own_spot(c: usize, k: usize) -> Spot
    requires { (c < 3) × (k < 4) }
    ensures { (field_of result ≡ of_controller k c) × Inside result }
{
    match k {
        0 => Spot::Masks(c),
        1 => Spot::Forced(c),
        2 => Spot::Lines(c),
        _ => Spot::Config(c),
    }
}

// "16+4c IMR, then FRC, lines, ICONFIG; 64+ch busy, 128+ch majors, 192+ch pending, 256+64c+s source level, 512+v taken (v 64..255)"; and in the chip's
// mode "768 + channel". Other numbers have no field.
fn spot_of(chip: bool, n: usize) -> Option<Spot>
    ensures { Found chip n result }
{
    match n {
        0..SCALARS => Some(Spot::Scalar(n)),
        16..28 => Some(own_spot((n - 16) / 4, (n - 16) % 4)),
        64..128 => Some(Spot::Busy(n - 64)),
        128..192 => Some(Spot::Majors(n - 128)),
        192..256 => Some(Spot::Pending(n - 192)),
        256..448 => Some(Spot::Source((n - 256) / 64, (n - 256) % 64)),
        576..768 => Some(Spot::Taken(n - 576)),
        768..832 if chip => Some(Spot::Priority(n - 768)),
        _ => None,
    }
}

// "ICONFIG 16; [..] others 64."
#[tactic(auto, unfolding(rules::specs::Fields::bits_of), using(crate::proofs::Laws::listed_bits))]
fn spot_bits(spot: Spot) -> u32
    requires { Inside spot }
    ensures { result ≡ bits_of (field_of spot) }
{
    match spot {
        Spot::Scalar(i) => SCALAR_BITS[i],
        Spot::Config(_) => 16,
        Spot::Pending(_) => 32,
        Spot::Source(_, _) => 8,
        Spot::Priority(_) => 6,
        Spot::Masks(_) | Spot::Forced(_) | Spot::Lines(_) => 64,
        Spot::Busy(_) | Spot::Majors(_) | Spot::Taken(_) => 64,
    }
}

// How many bits the field of a number has in a mode, if there is such a field.
pub fn field_bits(chip: bool, n: usize) -> Option<u32>
    ensures field { result ≡ bits_found chip (field_at chip n) }
    ensures number { unwrap_or result 0 ≡ bits_at chip n }
{
    let spot = spot_of(chip, n)?;
    Some(spot_bits(spot))
}

fn with_scalar(s: Scalars, n: usize, v: u64) -> Scalars
    requires { (n < length scalar_bits) × (v < 2 ^ get_or scalar_bits n 64) }
    ensures { view_scalars result ≡ set (view_scalars s) n v }
{
    let mut l = listed(s);
    l[n] = v;
    from_list(&l)
}

// The device with `v` in the field of a number.
pub fn with_number(d: Device, n: usize, v: u64) -> Device
    requires { fits_some d.chip (field_at d.chip n) v ≡ true }
    ensures { view result ≡ with_number n v (view d) }
{
    let Some(spot) = spot_of(d.chip, n) else {
        return d;
    };
    match spot {
        Spot::Scalar(i) => {
            let mut e = d;
            let scalars = d.scalars;
            e.scalars = with_scalar(scalars, i, v);
            e
        }
        Spot::Masks(c) => with_masks(d, c, v),
        Spot::Forced(c) => with_forced(d, c, v),
        Spot::Lines(c) => with_lines(d, c, v),
        Spot::Config(c) => with_config(d, c, v as u16),
        Spot::Busy(ch) => with_busy(d, ch, v),
        Spot::Majors(ch) => with_majors(d, ch, v),
        Spot::Pending(ch) => with_pending(d, ch, v as u32),
        Spot::Source(c, s) => with_source(d, c, s, v as u8),
        Spot::Taken(i) => with_taken(d, i, v),
        Spot::Priority(ch) => with_priority(d, ch, v as u8),
    }
}
