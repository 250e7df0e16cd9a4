// The DMA registers and the descriptor table, written. Priorities (document 02, [10]) are not written here: they are an array of their own, and
// `registers` writes it.
#![tactic(auto)]

ghost use Rattle.std.specs.Prelude.{◌≡◌, false, not, List, ℕ, ◌+◌, ◌≤◌, ◌<◌, length, drop};
ghost use Rattle.rules.specs.Calls.{bad_size, is_none, or_nothing};
ghost use Rattle.rules.specs.Registers.{in_table, table_write, pick, dma_arms, dma_write};
ghost use Rattle.act.specs.Lent.{◌⇒◌};
ghost use Rattle.act.specs.Worlds.{OnTable};
ghost use Rattle.dma_commands.specs.Commands.{OnNumbers, Commands};
ghost use Rattle.dma_read.specs.Access.{Fair, is_priority};
ghost use Rattle.dma.specs.Started.{starts_in};

use act::Step;
use rules::{START, Scalars};

// (That an offset is none of the table stays a clause, as the arms that it shuts out are the rules'.)

// ---- is there such a register: refusal 3 comes before anything is done, and so this is asked apart

fn byte_known(off: u32) -> bool
    requires { in_table off ≡ false }
    ensures { (v : ℕ) → result ≡ not (is_none (dma_write off 1 v)) }
{
    masks::within(0x18, 0x1F, off) || masks::within(0x100, 0x13F, off)
}

fn word_known(off: u32) -> bool
    requires { in_table off ≡ false }
    ensures { (v : ℕ) → result ≡ not (is_none (dma_write off 4 v)) }
{
    matches!(
        off,
        0x00 | 0x08 | 0x0C | 0x10 | 0x14 | 0x18 | 0x1C | 0x20 | 0x24 | 0x28 | 0x2C
    )
}

// "No such register at that offset and size": of the arms of `edma_write`, and of the table.
pub fn edma_known(off: u32, size: u32) -> bool
    ensures { (v : ℕ) → result ≡ not (is_none (dma_write off size v)) }
{
    if masks::within(0x1000, 0x17FF, off) {
        return true;
    }
    match size {
        1 => byte_known(off),
        4 => word_known(off),
        _ => false,
    }
}

// ---- the descriptor table

// "Covers byte 0x1F of the channel it begins in, and leaves START set": of a write that was made.
fn starts(table: &[u8; 2048], off: usize, size: usize) -> bool
    requires { (off < 2048) × (size ≤ 4) }
    ensures { (result ≡ starts_in table.now off size) × (length table.now ≡ 2048) }
{
    let last = 32 * (off / 32) + 0x1F;
    let b = u64::from(words::get::<u8>(table, last));
    last < off + size && words::has_bit(b, START)
}

// "A guest descriptor write is one of its size"; where it starts its channel, it "sets that KICK bit".
pub fn tcd_write(
    s: Step,
    table: &mut [u8; 2048],
    off: u32,
    size: u32,
    v: u32,
    journal: &mut [u8],
) -> Step
    requires { (bad_size size ≡ false) × (off + size ≤ 2048) }
    ensures { OnTable (table_write off size v) s result ⇒ journal ⇒ table }
{
    let place = off as usize;
    let width = size as usize;
    let stored = journal::store_table(s, table, place, width, u64::from(v), journal);
    let on = starts(table, place, width);
    dma_commands::with_kick(stored, on, 1u64 << (place / 32))
}

// ---- words

// INT and ERR lose the bits that are written: the last four arms.
fn flags_written(n: Scalars, off: u32, v: u32) -> Scalars
    ensures { (p : List ℕ) → OnNumbers (or_nothing (pick off 4 (drop 7 (dma_arms v)))) p n result }
{
    let low = u64::from(v);
    let high = low * 0x100000000;
    match off {
        0x20 => Scalars {
            int: words::without(n.int, high),
            ..n
        },
        0x24 => Scalars {
            int: words::without(n.int, low),
            ..n
        },
        0x28 => Scalars {
            err: words::without(n.err, high),
            ..n
        },
        0x2C => Scalars {
            err: words::without(n.err, low),
            ..n
        },
        _ => n,
    }
}

// CR, and half of ERQ or EEI. A word written to ERQ sets no KICK bit.
fn masks_written(n: Scalars, off: u32, v: u32) -> Scalars
    requires { (off ≡ 0x18 → ⊥) × (off ≡ 0x1C → ⊥) }
    ensures { (p : List ℕ) → OnNumbers (or_nothing (pick off 4 (dma_arms v))) p n result }
{
    match off {
        0x00 => Scalars { cr: v, ..n },
        0x08 => Scalars {
            erq: masks::with_bytes_in(0, 4, v, n.erq),
            ..n
        },
        0x0C => Scalars {
            erq: masks::with_bytes_in(4, 4, v, n.erq),
            ..n
        },
        0x10 => Scalars {
            eei: masks::with_bytes_in(0, 4, v, n.eei),
            ..n
        },
        0x14 => Scalars {
            eei: masks::with_bytes_in(4, 4, v, n.eei),
            ..n
        },
        _ => flags_written(n, off, v),
    }
}

// Four command bytes, or a register.
fn word_written(
    s: Step,
    table: &mut [u8; 2048],
    pending: &[u32; 64],
    off: u32,
    v: u32,
    journal: &mut [u8],
) -> Step
    requires { in_table off ≡ false }
    ensures { Commands (or_nothing (dma_write off 4 v)) pending.now s result ⇒ journal ⇒ table }
{
    match off {
        0x18 => dma_commands::commands(s, table, pending, 0, v, journal),
        0x1C => dma_commands::commands(s, table, pending, 4, v, journal),
        _ => {
            let mut c = s?;
            c.scalars = masks_written(c.scalars, off, v);
            Ok(c)
        }
    }
}

// ---- bytes

// A command byte.
fn byte_written(
    s: Step,
    table: &mut [u8; 2048],
    pending: &[u32; 64],
    off: u32,
    v: u32,
    journal: &mut [u8],
) -> Step
    requires { (in_table off ≡ false) × (is_priority off 1 ≡ false) }
    ensures { Commands (or_nothing (dma_write off 1 v)) pending.now s result ⇒ journal ⇒ table }
{
    if masks::within(0x18, 0x1F, off) {
        return dma_commands::command(s, table, pending, off - 0x18, v, journal);
    }
    s
}

// ---- any register

// "Registers are exactly the arms of [..] `edma_write` [..], and the descriptor table at DMA offsets 0x1000..0x17FF." Where there is no such
// register, nothing is done. A priority is no register here.
pub fn edma_write(
    s: Step,
    table: &mut [u8; 2048],
    pending: &[u32; 64],
    off: u32,
    size: u32,
    v: u32,
    journal: &mut [u8],
) -> Step
    requires { Fair off size × (is_priority off size ≡ false) }
    ensures { Commands (or_nothing (dma_write off size v)) pending.now s result ⇒ journal ⇒ table }
{
    if masks::within(0x1000, 0x17FF, off) {
        return tcd_write(s, table, off - 0x1000, size, v, journal);
    }
    match size {
        1 => byte_written(s, table, pending, off, v, journal),
        4 => word_written(s, table, pending, off, v, journal),
        _ => s,
    }
}
