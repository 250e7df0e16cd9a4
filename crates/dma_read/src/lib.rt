// The DMA registers and the descriptor table, read.
#![tactic(auto)]

ghost use Rattle.std.specs.Prelude.{◌≡◌, false, ◌+◌, ◌%◌, ◌≤◌};
ghost use Rattle.rules.specs.View.{view};
ghost use Rattle.rules.specs.Bytes.{number, part};
ghost use Rattle.rules.specs.Calls.{bad_size};
ghost use Rattle.rules.specs.Registers.{in_table, dma_read};
ghost use Rattle.intc.specs.Cells.{reads};
ghost use Rattle.dma_read.specs.Access.{Fair};

use intc::Cell;
use rules::Device;

// `size` bytes of the table, as a big-endian number. (By hand: `words::get_width` answers 64 bits, of any width that a record has.)
pub fn tcd_read(d: Device, off: u32, size: u32) -> u32
    requires { (bad_size size ≡ false) × (off + size ≤ 2048) }
    ensures { result ≡ number (part d.table off size) }
{
    let at = off as usize;
    // Taken out first: `&d.table` would make the compiler copy the whole device.
    let table = d.table;
    match size {
        1 => u32::from(words::get::<u8>(&table, at)),
        2 => u32::from(words::get::<u16>(&table, at)),
        _ => words::get::<u32>(&table, at),
    }
}

// "The low six bits of the bytes at DMA offsets 0x100 to 0x13F, whose upper two bits [..] read 0."
fn low_six(x: u8) -> u32
    ensures { result ≡ x % 64 }
{
    u32::from(x % 64)
}

// A byte: the command bytes read 0; in the chip's mode priorities are readable too ([10]).
fn read_byte(d: Device, off: u32) -> Cell
    requires { in_table off ≡ false }
    ensures { reads result ≡ dma_read (view d) off 1 }
{
    if masks::within(0x18, 0x1F, off) {
        return Some(0);
    }
    if !d.chip {
        return None;
    }
    if masks::within(0x100, 0x13F, off) {
        // Taken out first, as the table above.
        let priorities = d.priorities;
        return Some(low_six(priorities[(off - 0x100) as usize]));
    }
    None
}

// A word: CR, ES (always 0), half of ERQ, EEI, INT or ERR, and the two words of HRS, which read 0.
fn read_word(d: Device, off: u32) -> Cell
    requires { in_table off ≡ false }
    ensures { reads result ≡ dma_read (view d) off 4 }
{
    match off {
        0x00 => Some(d.scalars.cr),
        0x04 => Some(0),
        0x08 => Some(masks::bytes_in(0, 4, d.scalars.erq)),
        0x0C => Some(masks::bytes_in(4, 4, d.scalars.erq)),
        0x10 => Some(masks::bytes_in(0, 4, d.scalars.eei)),
        0x14 => Some(masks::bytes_in(4, 4, d.scalars.eei)),
        0x20 => Some(masks::bytes_in(0, 4, d.scalars.int)),
        0x24 => Some(masks::bytes_in(4, 4, d.scalars.int)),
        0x28 => Some(masks::bytes_in(0, 4, d.scalars.err)),
        0x2C => Some(masks::bytes_in(4, 4, d.scalars.err)),
        0x30 => Some(0),
        0x34 => Some(0),
        _ => None,
    }
}

// "Registers are exactly the arms of `edma_read` [..], and the descriptor table at DMA offsets 0x1000..0x17FF."
pub fn edma_read(d: Device, off: u32, size: u32) -> Cell
    requires { Fair off size }
    ensures { reads result ≡ dma_read (view d) off size }
{
    if masks::within(0x1000, 0x17FF, off) {
        return Some(tcd_read(d, off - 0x1000, size));
    }
    match size {
        1 => read_byte(d, off),
        4 => read_word(d, off),
        _ => None,
    }
}
