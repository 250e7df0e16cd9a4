// Document 01's 'Run only' example: one channel with START moves four bytes. The used part of the journal is written, one record a line.
#![tactic(auto)]

ghost use Rattle.std.specs.Prelude.{◌<◌};

use rules::Device;
use std::io;

// Channel 0's descriptor.
fn describe(table: &mut [u8; 2048]) {
    words::put(table, 0x00, 0x80000000u32);
    words::put(table, 0x04, 0x0202u16);
    words::put(table, 0x06, 4u16);
    words::put(table, 0x08, 4u32);
    words::put(table, 0x10, 0x80000004u32);
    words::put(table, 0x14, 1u16);
    words::put(table, 0x16, 4u16);
    words::put(table, 0x1C, 1u16);
    words::put(table, 0x1E, 1u16);
}

// A device that is fresh but for the descriptor and KICK.
fn example() -> Device {
    let mut table = [0u8; 2048];
    describe(&mut table);
    let mut d = device::fresh(false, false);
    d.table = table;
    d.scalars.kick = 1;
    d
}

// The record at `16 * i`, as 32 digits.
fn print_record(rt: &impl Print, journal: &[u8; 256], i: usize) -> io::Result<()>
    requires { i < 16 }
{
    let at = 16 * i;
    let first = words::get::<u64>(journal, at);
    let second = words::get::<u64>(journal, at + 8);
    println!(rt; "{first:016x}{second:016x}")
}

// Eleven records and their end.
fn print_group(rt: &impl Print, journal: &[u8; 256]) -> io::Result<()> {
    for i in 0..12 {
        print_record(rt, journal, i)?;
    }
    Ok(())
}

fn main(rt: HostRuntime) -> io::Result<()> {
    let mut window = [0x11u8, 0x22, 0x33, 0x44, 0, 0, 0, 0];
    let mut staging = [0u8; 4];
    let mut journal = [0u8; 256];
    let r = engine::run(
        example(),
        0,
        0,
        0x80000000,
        &mut window,
        &mut staging,
        &mut journal,
        0,
    );
    if r.used == 192 {
        print_group(&rt, &journal)?;
    }
    Ok(())
}
