// The registers of an interrupt controller: reads, and writes on the controller and on the device around it. Quoted words are document 01's.
#![tactic(auto)]

ghost use Rattle.std.specs.Prelude.{◌≡◌, ◌≤◌, ◌<◌, set, is_some, unwrap_or};
ghost use Rattle.rules.specs.View.{view_controller};
ghost use Rattle.rules.specs.Bytes.{bytes, splice};
ghost use Rattle.rules.specs.Registers.{controller_read, controller_write};
ghost use Rattle.rules.specs.With.{with_levels};
ghost use Rattle.rules.proofs.Proper.{Proper};
ghost use Rattle.act.specs.Parts.{Arrays, whole};
ghost use Rattle.intc.specs.Cells.{reads};
ghost use Rattle.intc.specs.Writes.{InWord, write_to, command_at, WrittenIn, Written};

use act::Core;
use rules::Controller;

// ---- reads

// What a register holds, or that there is no such register.
pub type Cell = Option<u32>;

// A byte: a source's level, or one of the command bytes, which read 0.
fn read_byte(k: Controller, off: u32) -> Cell
    ensures { reads result ≡ controller_read (view_controller k) off 1 }
{
    if masks::within(0x40, 0x7F, off) {
        let levels = k.levels;
        return Some(u32::from(levels[(off - 0x40) as usize]));
    }
    if masks::within(0x1C, 0x1F, off) {
        return Some(0);
    }
    None
}

// A half word: ICONFIG.
fn read_half(k: Controller, off: u32) -> Cell
    ensures { reads result ≡ controller_read (view_controller k) off 2 }
{
    match off {
        0x18 => Some(u32::from(k.config)),
        _ => None,
    }
}

// A word: half of what is pending, of the masks, or of the forced sources.
fn read_word(k: Controller, off: u32) -> Cell
    ensures { reads result ≡ controller_read (view_controller k) off 4 }
{
    match off {
        0x00 => Some(masks::bytes_in(0, 4, k.lines | k.forced)),
        0x04 => Some(masks::bytes_in(4, 4, k.lines | k.forced)),
        0x08 => Some(masks::bytes_in(0, 4, k.masks)),
        0x0C => Some(masks::bytes_in(4, 4, k.masks)),
        0x10 => Some(masks::bytes_in(0, 4, k.forced)),
        0x14 => Some(masks::bytes_in(4, 4, k.forced)),
        _ => None,
    }
}

// "Registers are exactly the arms of [..] `intc_read`": by size, then by offset.
pub fn intc_read(k: Controller, off: u32, size: u32) -> Cell
    ensures { reads result ≡ controller_read (view_controller k) off size }
{
    match size {
        1 => read_byte(k, off),
        2 => read_half(k, off),
        4 => read_word(k, off),
        _ => None,
    }
}

// ---- writes: the controller after one, or none where there is no such register and it is unchanged

// Source `s` with another level byte; there is none past 63.
fn with_level(k: Controller, s: usize, b: u8) -> Controller
    ensures { view_controller result ≡ with_levels (view_controller k) (set k.levels s b) }
{
    let mut e = k;
    if s < 64 {
        e.levels[s] = b;
    }
    e
}

// The level bytes from source `s` on, the last of `size` first.
fn with_levels(k: Controller, s: usize, size: usize, v: u32) -> Controller
    requires { (s < 64) × (size ≤ 4) }
    ensures { view_controller result ≡ with_levels (view_controller k) (splice k.levels s (bytes size v)) }
{
    let mut e = k;
    let mut rest = v;
    for i in (0..size).rev() {
        e = with_level(e, s + i, (rest % 256) as u8);
        rest = rest / 256;
    }
    e
}

// A half word: ICONFIG.
fn half_written(k: Controller, off: u32, v: u32) -> Option<Controller>
    ensures { WrittenIn (command_at off 2 v) (view_controller k) (is_some result) (view_controller (unwrap_or result k)) }
{
    match off {
        0x18 => {
            let mut e = k;
            e.config = (v % 0x10000) as u16;
            Some(e)
        }
        _ => None,
    }
}

// A byte: SIMR masks sources, CIMR unmasks them, and two do nothing.
fn byte_written(k: Controller, off: u32, v: u32) -> Option<Controller>
    ensures { WrittenIn (command_at off 1 v) (view_controller k) (is_some result) (view_controller (unwrap_or result k)) }
{
    match off {
        0x1C => {
            let mut e = k;
            e.masks |= masks::named(v);
            Some(e)
        }
        0x1D => {
            let mut e = k;
            e.masks = words::without(k.masks, masks::named(v));
            Some(e)
        }
        0x1E | 0x1F => Some(k),
        _ => None,
    }
}

// Those that are no ranges of offsets, by size.
fn command_written(k: Controller, off: u32, size: u32, v: u32) -> Option<Controller>
    ensures { WrittenIn (command_at off size v) (view_controller k) (is_some result) (view_controller (unwrap_or result k)) }
{
    match size {
        1 => byte_written(k, off, v),
        2 => half_written(k, off, v),
        _ => None,
    }
}

// "Registers are exactly the arms of [..] `intc_write`", on one controller. "`intc_write` calling itself becomes a merge and one store": byte
// and word writes into the 32-bit registers. That they stay in one, the caller has tested: else it is refusal 4.
pub fn controller_written(k: Controller, off: u32, size: u32, v: u32) -> Option<Controller>
    requires { (0 < size) × (size ≤ 4) × InWord off size }
    ensures { WrittenIn (write_to off size v) (view_controller k) (is_some result) (view_controller (unwrap_or result k)) }
{
    let mut e = k;
    let n = size as usize;
    if masks::within(0x00, 0x07, off) {
        return Some(k);
    }
    if masks::within(0x08, 0x0F, off) {
        e.masks = masks::with_bytes_in((off - 0x08) as usize, n, v, k.masks);
        return Some(e);
    }
    if masks::within(0x10, 0x17, off) {
        e.forced = masks::with_bytes_in((off - 0x10) as usize, n, v, k.forced);
        return Some(e);
    }
    if masks::within(0x40, 0x7F, off) {
        return Some(with_levels(k, (off - 0x40) as usize, n, v));
    }
    command_written(k, off, size, v)
}

// A write to controller `c`, and the core after it. Where there is no such register, there is no core after it: the caller's is unchanged.
pub fn intc_write(k: Core, c: usize, off: u32, size: u32, v: u32) -> Option<Core>
    requires { (c < 3) × (0 < size) × (size ≤ 4) × InWord off size }
    ensures { (x : Arrays) → Proper (whole k x) → Written (controller_write c off size v) (whole k x) (is_some result) (whole (unwrap_or result k) x) }
{
    let written = controller_written(k.controllers[c], off, size, v)?;
    let mut e = k;
    e.controllers[c] = written;
    Some(e)
}
