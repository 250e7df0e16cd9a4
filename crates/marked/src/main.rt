// Document 01's marked examples, as compiled code computes them. The rules compute the same table: crates/rules/proofs/Marked.antt.
#![tactic(auto)]

use std::io;

fn sums(rt: &impl Print) -> io::Result<()> {
    let first = words::modulo_add(0x80000FFE, 4, 4);
    println!(rt; "P1 80000ffe + 4, modulo 4: {first:08x}")?;
    let second = words::modulo_add(0xFFFFFFFE, 4, 0);
    println!(rt; "P2 fffffffe + 4, modulo 0: {second:08x}")?;
    let third = words::modulo_add(0xFFFFFFFF, 1, 31);
    println!(rt; "P3 ffffffff + 1, modulo 31: {third:08x}")
}

// The count, its link and the count field after one minor loop.
fn counts(rt: &impl Print) -> io::Result<()> {
    let count = words::count_of(0x8205);
    let link = words::link_of(0x8205);
    let next = words::recounted(0x8205, 4);
    println!(rt; "P4 count field 8205: count {count:x}, link {link:x}, next {next:04x}")?;
    let last = words::recounted(0x8201, 0);
    let start = words::count_of(last);
    println!(rt; "P5 count field 8201: next {last:04x}, count {start:x}")
}

fn main(rt: HostRuntime) -> io::Result<()> {
    sums(&rt)?;
    counts(&rt)
}
