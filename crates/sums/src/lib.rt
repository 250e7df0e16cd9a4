// What a descriptor's numbers mean for one minor loop: which addresses take the minor offset, how many bytes move, where an address ends.
// Each contract is an equation with a definition of crate `rules` (specs/Minor.antt). Quoted words are document 01's.
#![tactic(auto)]

ghost use Rattle.std.specs.Prelude.{◌≡◌, ◌+◌, ◌^◌, ◌<◌, ◌≤◌, ◌&&◌, ◌||◌, length};
ghost use Rattle.rules.specs.Bytes.{part};
ghost use Rattle.rules.specs.Minor.{tcd_of, source_offset, dest_offset, capped, minor_bytes, offset};
ghost use Rattle.rules.specs.Words.{has};

use rules::Tcd;

// "A descriptor is 32 big-endian bytes": the one at a place.
pub fn tcd_at(s: &[u8], at: usize) -> Tcd
    requires { at + 32 ≤ length s.now }
    ensures { result ≡ tcd_of (part s.now at 32) }
{
    Tcd {
        saddr: words::get(s, at),
        attr: words::get(s, at + 0x04),
        soff: words::get(s, at + 0x06),
        nbytes: words::get(s, at + 0x08),
        slast: words::get(s, at + 0x0C),
        daddr: words::get(s, at + 0x10),
        citer: words::get(s, at + 0x14),
        doff: words::get(s, at + 0x16),
        dlast: words::get(s, at + 0x18),
        biter: words::get(s, at + 0x1C),
        csr: words::get(s, at + 0x1E),
    }
}

// "Minor offsets count only with CR bit 7 set": then a bit of `nbytes` says whether an address takes one.
fn maps(cr: u32, nbytes: u32, bit: usize) -> bool
    requires { bit < 32 }
    ensures { result ≡ has cr 7 && has nbytes bit }
{
    words::has_bit(cr as u64, 7) && words::has_bit(nbytes as u64, bit)
}

// Whether the source takes it: "bit 31 (source)". (CR and the descriptor come from two places, the device and its table, and only these few functions take both.)
pub fn sources(cr: u32, t: Tcd) -> bool
    ensures { result ≡ source_offset cr t }
{
    maps(cr, t.nbytes, 31)
}

// Whether the destination takes it: "or 30 (destination)".
pub fn dests(cr: u32, t: Tcd) -> bool
    ensures { result ≡ dest_offset cr t }
{
    maps(cr, t.nbytes, 30)
}

// Whether either takes it.
fn either(cr: u32, t: Tcd) -> bool
    ensures { result ≡ source_offset cr t || dest_offset cr t }
{
    sources(cr, t) || dests(cr, t)
}

// "Zero becomes 2^30; all is capped at 2^22."
fn cap(n: u32) -> u32
    ensures { (result ≡ capped n) × (0 < result) × (result ≤ 2 ^ 22) }
{
    if n == 0 { 0x400000 } else { n.min(0x400000) }
}

// "Then bit 31 (source) or 30 (destination) of `nbytes` makes the byte count its low 10 bits; otherwise low 30."
pub fn minor_bytes(cr: u32, t: Tcd) -> u32
    ensures { (result ≡ minor_bytes cr t) × (0 < result) × (result ≤ 2 ^ 22) }
{
    if either(cr, t) {
        cap(t.nbytes % 0x400)
    } else {
        cap(t.nbytes % 0x40000000)
    }
}

// The minor offset, on an address that takes one: "the signed 20 bits 29..10, added plainly without modulo, and not on the last minor loop".
pub fn moved_on(on: bool, t: Tcd, a: u32) -> u32
    ensures { result ≡ offset on t a }
{
    if on && words::count_of(t.citer) != 1 {
        a.wrapping_add(words::signed20(t.nbytes / 0x400 % 0x100000))
    } else {
        a
    }
}
