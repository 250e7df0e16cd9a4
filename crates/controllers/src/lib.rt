// The interrupt controllers: lines, level, acknowledge; and the inputs of the device. A controller is searched and rebuilt by value, one at
// a time; the functions on a device's core only put the three together. Quoted words are document 01's.
#![tactic(auto)]

ghost use Rattle.std.specs.Prelude.{◌≡◌, ◌<◌, max, map, length, if◌then◌else◌, nat_eq};
ghost use Rattle.rules.specs.View.{view_controller};
ghost use Rattle.rules.specs.Lines.{owned_from, driven, loudest, relevel, answers, loudest_above, above, hear, acknowledge};
ghost use Rattle.rules.specs.Calls.{set_inputs};
ghost use Rattle.rules.specs.With.{with_lines};
ghost use Rattle.rules.specs.Words.{gain};
ghost use Rattle.act.specs.Lent.{◌⇒◌};
ghost use Rattle.act.specs.Parts.{Arrays, counted, taking};
ghost use Rattle.controllers.specs.Levels.{sources_of, level_in, controllers_in, highest_in, loud_in, found, said_by, over};
ghost use Rattle.controllers.specs.Waiting.{waiting_in};
ghost use Rattle.controllers.specs.Works.{Works, Answered, Hears};

use act::Core;
use rules::{Controller, Heard, Source};

// ---- DMA-owned lines

// The lines of controller `c`, with its DMA-owned bits from another mask of lines.
pub fn owned_from(c: usize, other: u64, lines: u64) -> u64
    ensures { result ≡ owned_from c other lines }
{
    match c {
        0 => masks::with_bits_from(8, 16, masks::bits_from(8, 16, other), lines),
        1 => masks::with_bits_from(8, 40, masks::bits_from(8, 40, other), lines),
        _ => masks::with_bits_from(0, 1, masks::bits_from(0, 1, other), lines),
    }
}

// 1 where any bit is set.
fn any(m: u64) -> u64
    ensures { (result ≡ (if nat_eq m 0 then 0 else 1)) × (result < 2) }
{
    u64::from(m != 0)
}

// "INT bits 0..15 drive controller 0 lines 8..23; 16..55 controller 1 lines 8..47; any of 56..63 controller 2 line 0."
pub fn driven(c: usize, int: u64, lines: u64) -> u64
    ensures { result ≡ driven c int lines }
{
    match c {
        0 => masks::with_bits_from(8, 16, masks::bits_from(0, 16, int), lines),
        1 => masks::with_bits_from(8, 40, masks::bits_from(16, 40, int), lines),
        _ => masks::with_bits_from(0, 1, any(masks::bits_from(56, 8, int)), lines),
    }
}

// ---- deliverable sources. (Whether masks are ignored is a setting of the device, and stays a bool beside a controller, as the rules have it.)

// "Deliverable: lines not masked, or forced (with the ignore setting, lines or forced)." Forced ones are not masked.
pub fn deliverable(k: Controller, ignore: bool) -> u64
    ensures { result ≡ sources_of ignore (view_controller k) }
{
    if ignore {
        return k.lines | k.forced;
    }
    words::without(k.lines, k.masks) | k.forced
}

// ---- level

// "The level is the highest of the deliverable sources' low 3 bits, or 0": of the sources in `m`.
pub fn loudest(levels: &[u8], m: u64) -> u8
    requires { length levels.now ≡ 64 }
    ensures { result ≡ loudest levels.now m 64 }
{
    let mut best: u8 = 0;
    let mut p = m;
    // (no `for`: it walks the set bits of a mask, and counts nothing)
    while p != 0 {
        let s = words::lowest_bit(p);
        best = best.max(levels[s] % 8);
        p = words::lose_bit(p, s);
    }
    best
}

// The level of one controller.
pub fn level_of(k: Controller, ignore: bool) -> u8
    ensures { result ≡ level_in ignore (view_controller k) }
{
    loudest(&k.levels, deliverable(k, ignore))
}

// A controller with the lines that INT drives; the others stay.
fn driven_by(int: u64, c: usize, k: Controller) -> Controller
    ensures { view_controller result ≡ with_lines (view_controller k) (driven c int k.lines) }
{
    Controller {
        lines: driven(c, int, k.lines),
        ..k
    }
}

// Controllers with their lines, and the level.
#[derive(Clone, Copy)]
pub struct Levelled {
    pub controllers: [Controller; 3],
    pub level: u8,
}

// Lines and level worked out anew, for callers that hold the controllers apart.
pub fn relevelled(controllers: [Controller; 3], int: u64, ignore: bool) -> Levelled
    ensures { (map view_controller result.controllers ≡ controllers_in int (map view_controller controllers)) × (result.level ≡ highest_in ignore int (map view_controller controllers)) }
{
    let x = driven_by(int, 0, controllers[0]);
    let y = driven_by(int, 1, controllers[1]);
    let z = driven_by(int, 2, controllers[2]);
    let low = level_of(y, ignore).max(level_of(x, ignore));
    let level = level_of(z, ignore).max(low);
    let mut all = controllers;
    all[0] = x;
    all[1] = y;
    all[2] = z;
    Levelled {
        controllers: all,
        level,
    }
}

// "Each accepted act but acknowledge ends by working out lines and level anew."
pub fn update_irq(k: Core) -> Core
    ensures { (x : Arrays) → Works relevel k result x }
{
    let before = k.controllers;
    let l = relevelled(before, k.scalars.int, k.ignore_masks);
    let controllers = l.controllers;
    let mut e = k;
    e.controllers = controllers;
    e.scalars.level = l.level;
    e
}

// ---- acknowledge

// A level and where it was found; level 0: nowhere.
// Stays a pair with a 0: it was tried as Option<Loud>, and an acknowledge took twice the time.
#[derive(Clone, Copy)]
pub struct Loud {
    pub level: u8,
    pub at: usize,
}

// "Acknowledge ignores level 0 and any level at or below `ipl` but 7."
fn answers(ipl: u8, l: u8) -> bool
    ensures { result ≡ answers ipl l }
{
    if l == 0 {
        return false;
    }
    ipl < l || l == 7
}

// What was found in higher sources stands against source `s` with its level: of equals the higher source.
fn louder(ipl: u8, l: u8, s: usize, best: Loud) -> Loud
    ensures { found result ≡ over (found best) (said_by ipl l s) }
{
    if answers(ipl, l) {
        if best.level < l {
            return Loud { level: l, at: s };
        }
    }
    best
}

// "Then highest level, higher controller, higher source": of one controller's sources in `m`, walked downwards.
pub fn loudest_above(ipl: u8, levels: &[u8], m: u64) -> Loud
    requires { length levels.now ≡ 64 }
    ensures { (found result ≡ loudest_above ipl levels.now m 64) × (result.at < 64) }
{
    let mut best = Loud { level: 0, at: 0 };
    let mut p = m;
    // (no `for`: it walks the set bits of a mask, and counts nothing)
    while p != 0 {
        let s = words::highest_bit(p);
        best = louder(ipl, levels[s] % 8, s, best);
        p = words::lose_bit(p, s);
    }
    best
}

// What is found in controller `c` stands against what was found below it: of equals the higher controller.
fn above(c: usize, here: Loud, below: Loud) -> Loud
    requires { (c < 3) × (here.at < 64) × (below.at < 192) }
    ensures { (found result ≡ above c (found here) (found below)) × (result.at < 192) }
{
    if here.level == 0 {
        return below;
    }
    if here.level < below.level {
        return below;
    }
    Loud {
        level: here.level,
        at: 64 * c + here.at,
    }
}

// The loudest of one controller, and what was found in those below it.
pub fn heard_from(ipl: u8, c: usize, k: Controller, ignore: bool, below: Loud) -> Loud
    requires { (c < 3) × (below.at < 192) }
    ensures { (found result ≡ above c (loud_in ipl ignore (view_controller k)) (found below)) × (result.at < 192) }
{
    above(
        c,
        loudest_above(ipl, &k.levels, deliverable(k, ignore)),
        below,
    )
}

// "It answers that level and vector 64 + 64 x controller + source, whose taken count rises." Counts wrap at 2^64.
fn hear(loud: Loud, taken: &mut [u64; 192]) -> Heard
    requires { loud.at < 192 }
    ensures { Hears (hear (found loud)) result ⇒ taken }
{
    if loud.level == 0 {
        return None;
    }
    let at = loud.at;
    taken[at] = taken[at].wrapping_add(1);
    Some(Source {
        level: loud.level,
        vector: (64 + at) as u8,
    })
}

// The controllers are searched in rising order, and what is found is heard.
pub fn ack_irq(k: Core, ipl: u8, taken: &mut [u64; 192]) -> Heard
    ensures { (x : Arrays) → Answered (acknowledge ipl) result k (taking x taken.old) (taking x taken.new) }
{
    let ignore = k.ignore_masks;
    let nothing = Loud { level: 0, at: 0 };
    let a = heard_from(ipl, 0, k.controllers[0], ignore, nothing);
    let b = heard_from(ipl, 1, k.controllers[1], ignore, a);
    let c = heard_from(ipl, 2, k.controllers[2], ignore, b);
    hear(c, taken)
}

// ---- inputs

// The mask with channel `ch`, if its pending count is above 0.
fn waits(m: u64, count: u32, ch: usize) -> u64
    requires { ch < 64 }
    ensures { result ≡ (if nat_eq count 0 then m else gain m ch) }
{
    if count == 0 {
        return m;
    }
    words::gain_bit(m, ch)
}

// "A channel requests if its standing bit is set or its pending count is above 0": those that do.
pub fn waiting(standing: u64, pending: &[u32]) -> u64
    requires { length pending.now ≡ 64 }
    ensures { result ≡ waiting_in pending.now 64 0 standing }
{
    let mut m = standing;
    for i in 0..64 {
        m = waits(m, pending[i], i);
    }
    m
}

// A controller with lines that are given: "the masks replace the old ones, except DMA-owned line bits".
fn given(lines: u64, c: usize, k: Controller) -> Controller
    ensures { view_controller result ≡ with_lines (view_controller k) (owned_from c k.lines lines) }
{
    // (not `..k`, nor `..*k` of a reference: with these, inputs take a sixth more instructions and a quarter more stack)
    let mut e = k;
    e.lines = owned_from(c, k.lines, lines);
    e
}

// "Device inputs: standing request mask and three line masks. [..] Then KICK gains every requesting channel with its ERQ bit set."
pub fn with_inputs(k: Core, standing: u64, l0: u64, l1: u64, l2: u64, pending: &[u32; 64]) -> Core
    ensures { (x : Arrays) → Works (set_inputs standing l0 l1 l2) k result (counted x pending.now) }
{
    let a = given(l0, 0, k.controllers[0]);
    let b = given(l1, 1, k.controllers[1]);
    let c = given(l2, 2, k.controllers[2]);
    let mut e = k;
    e.scalars.standing = standing;
    e.controllers[0] = a;
    e.controllers[1] = b;
    e.controllers[2] = c;
    e.scalars.kick = e.scalars.kick | (waiting(standing, pending) & e.scalars.erq);
    e
}
