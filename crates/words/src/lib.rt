// The leaves of the engine: sizes, sums of addresses, big-endian words, counts with a link, masks of 64 bits, zeros.
// Each contract is an equation with a definition of crate `rules` (specs/Words.antt, specs/Bytes.antt). Quoted words are document 01's.
#![tactic(auto)]

ghost use Rattle.std.specs.Prelude.{◌≡◌, ℕ, ◌+◌, ◌-◌, ◌*◌, ◌^◌, ◌<◌, ◌≤◌, min, ◌++◌, length, take, drop, replicate};
ghost use Rattle.rules.specs.Bytes.{bytes, number, part, splice};
ghost use Rattle.rules.specs.Words.{has, gain, lose, without, lowest, size_of, wholes, signed, modulo_add, linked, count_of, link_of, recount};
ghost use Rattle.words.specs.Highest.{highest};
ghost use Rattle.words.specs.Sizes.{Sized};
ghost use Rattle.words.specs.Widths.{TableWidth};

// "Size codes 0, 1, 2, 4, 5 mean 1, 2, 4, 16, 32 bytes; 3, 6, 7 mean 1."
const SIZES: [u32; 8] = [1, 2, 4, 1, 16, 32, 1, 1];

// The bytes of a size code, which is the low 3 bits of `code`.
pub fn size_of(code: u16) -> u32
    ensures { (result ≡ size_of code) × (Sized result) }
{
    SIZES[(code % 8) as usize]
}

// "Rounding up to whole sizes": how many of them `n` bytes take. A byte count is at most 2^22, so that all their bytes fit.
pub fn whole_sizes(n: u32, size: u32) -> u32
    requires { (n ≤ 2 ^ 22) × (0 < size) × (size ≤ 32) }
    ensures { (result ≡ wholes n size) × (result * size < 2 ^ 32) }
{
    n.div_ceil(size)
}

// "Every address sum wraps at 2^32; with modulo m above 0 only the low m bits move." A descriptor's modulo has 5 bits.
pub fn modulo_add(addr: u32, delta: u32, m: u32) -> u32
    requires { m < 32 }
    ensures { result ≡ modulo_add addr delta m }
{
    let sum = addr.wrapping_add(delta);
    if m == 0 {
        return sum;
    }
    let mask = (1u32 << m) - 1;
    (addr & !mask) | (sum & mask)
}

// "Offsets `soff` and `doff` are signed 16-bit": what is added for one in a sum that wraps at 2^32.
pub fn signed16(n: u16) -> u32
    ensures { result ≡ signed 16 n }
{
    (n.cast_signed() as i32).cast_unsigned()
}

// "The offset is the signed 20 bits 29..10": what is added for it in a sum that wraps at 2^32. It stays worked out by hand: no type has 20 bits.
pub fn signed20(n: u32) -> u32
    requires { n < 2 ^ 20 }
    ensures { result ≡ signed 20 n }
{
    if n < 0x80000 { n } else { n + 0xFFF00000 }
}

// ---- "Memory is big-endian": words of 1, 2, 4 and 8 bytes. Their bytes are taken and laid down together, so that the compiler makes of them one
// load or store, and one swap, whatever other accesses stand near.

// The N bytes at `at`.
fn bytes_at<const N: usize>(s: &[u8], at: usize) -> [u8; N]
    requires { at + N ≤ length s.now }
    ensures { result ≡ part s.now at N }
{
    let mut found = [0; N];
    found.copy_from_slice(&s[at..at + N]);
    found
}

// N bytes laid over those at `at`.
fn lay<const N: usize>(s: &mut [u8], at: usize, laid: &[u8; N])
    requires { at + N ≤ length s.old }
    ensures { s.new ≡ splice s.old at laid.now }
{
    s[at..at + N].copy_from_slice(laid);
}

// A number that stands in memory.
pub trait Word: Copy {
    // its bytes there, and the number that a value stands for
    ghost width: { ℕ };

    ghost stands_for: { Self → ℕ };

    fn read(s: &[u8], at: usize) -> Self
        requires { at + width ≤ length s.now }
        ensures { stands_for result ≡ number (part s.now at width) };

    fn write(self, s: &mut [u8], at: usize)
        requires { at + width ≤ length s.old }
        ensures { s.new ≡ splice s.old at (bytes width (stands_for self)) };

    // a value is told by its number
    ghost told_by_number: { (v w : Self) → stands_for v ≡ stands_for w → v ≡ w };
}

// ---- its types, each with an impl of its own: no macro of this repository may write one

impl Word for u8 {
    ghost width = { 1 };

    ghost stands_for = { λ v. v };

    ghost told_by_number = { λ _ _ e. e };

    fn read(s: &[u8], at: usize) -> u8 {
        let found = bytes_at::<1>(s, at);
        u8::from_be_bytes(found)
    }

    fn write(self, s: &mut [u8], at: usize) {
        let laid = self.to_be_bytes();
        lay::<1>(s, at, &laid);
    }
}

impl Word for u16 {
    ghost width = { 2 };

    ghost stands_for = { λ v. v };

    ghost told_by_number = { λ _ _ e. e };

    fn read(s: &[u8], at: usize) -> u16 {
        let found = bytes_at::<2>(s, at);
        u16::from_be_bytes(found)
    }

    fn write(self, s: &mut [u8], at: usize) {
        let laid = self.to_be_bytes();
        lay::<2>(s, at, &laid);
    }
}

impl Word for u32 {
    ghost width = { 4 };

    ghost stands_for = { λ v. v };

    ghost told_by_number = { λ _ _ e. e };

    fn read(s: &[u8], at: usize) -> u32 {
        let found = bytes_at::<4>(s, at);
        u32::from_be_bytes(found)
    }

    fn write(self, s: &mut [u8], at: usize) {
        let laid = self.to_be_bytes();
        lay::<4>(s, at, &laid);
    }
}

impl Word for u64 {
    ghost width = { 8 };

    ghost stands_for = { λ v. v };

    ghost told_by_number = { λ _ _ e. e };

    fn read(s: &[u8], at: usize) -> u64 {
        let found = bytes_at::<8>(s, at);
        u64::from_be_bytes(found)
    }

    fn write(self, s: &mut [u8], at: usize) {
        let laid = self.to_be_bytes();
        lay::<8>(s, at, &laid);
    }
}

// ---- a word of any type, read and stored

// The word at `at`.
pub fn get<W: Word>(s: &[u8], at: usize) -> W
    requires { at + W.width ≤ length s.now }
    ensures { W.stands_for result ≡ number (part s.now at W.width) }
{
    W::read(s, at)
}

// The same stored: its bytes are laid over those at `at`.
pub fn put<W: Word>(s: &mut [u8], at: usize, v: W)
    requires { at + W.width ≤ length s.old }
    ensures { s.new ≡ splice s.old at (bytes W.width (W.stands_for v)) }
{
    v.write(s, at);
}

// ---- counts. "If bit 15 of a count is set, the count is its low 9 bits and bits 14..9 the link; else it is the low 15 bits with no link."
// (Whether there is a link and which stay two questions, and no Option: the chip's turns ask for the link whether it counts or not.)

pub fn is_linked(raw: u16) -> bool
    ensures { result ≡ linked raw }
{
    has_bit(raw as u64, 15)
}

pub fn count_of(raw: u16) -> u16
    ensures { result ≡ count_of raw }
{
    if is_linked(raw) {
        raw % 0x200
    } else {
        raw % 0x8000
    }
}

// The link, which means something only where the count is linked.
pub fn link_of(raw: u16) -> usize
    ensures { (result ≡ link_of raw) × (result < 64) }
{
    (raw / 0x200 % 64) as usize
}

// The same field with a lower count: bit 15 and the link stay.
pub fn recounted(raw: u16, n: u16) -> u16
    requires { n < count_of raw }
    ensures { result ≡ recount raw n }
{
    if is_linked(raw) {
        raw / 0x200 * 0x200 + n
    } else {
        n
    }
}

// ---- masks of 64 bits: bit `i` asked, gained, lost. The place stays a number: nearly all callers give a literal or a channel, and a type with the bound
// would be one more word at each call.

pub fn has_bit(x: u64, i: usize) -> bool
    requires { i < 64 }
    ensures { result ≡ has x i }
{
    (x >> i) % 2 == 1
}

pub fn gain_bit(x: u64, i: usize) -> u64
    requires { i < 64 }
    ensures { result ≡ gain x i }
{
    x | (1u64 << i)
}

pub fn lose_bit(x: u64, i: usize) -> u64
    requires { i < 64 }
    ensures { result ≡ lose x i }
{
    without(x, 1u64 << i)
}

// The bits of `x` that are not in `k`.
pub fn without(x: u64, k: u64) -> u64
    ensures { result ≡ without x k }
{
    x & !k
}

// "The lowest set bit of KICK is served next": "trailing zeros choose the channel".
pub fn lowest_bit(x: u64) -> usize
    requires { 0 < x }
    ensures { (result ≡ lowest x) × (result < 64) }
{
    x.trailing_zeros() as usize
}

// "Leading zeros walk deliverable sources downwards": the highest set bit.
pub fn highest_bit(x: u64) -> usize
    requires { 0 < x }
    ensures { (result ≡ highest x) × (result < 64) }
{
    x.ilog2() as usize
}

// ---- words of a width that a store can have: where the width is a constant, its arm alone is left

pub fn get_width(s: &[u8], at: usize, width: usize) -> u64
    requires { (at + width ≤ length s.now) × (TableWidth width) }
    ensures { result ≡ number (part s.now at width) }
{
    match width {
        1 => get::<u8>(s, at) as u64,
        2 => get::<u16>(s, at) as u64,
        4 => get::<u32>(s, at) as u64,
        _ => get(s, at),
    }
}

pub fn put_width(s: &mut [u8], at: usize, width: usize, value: u64)
    requires { (at + width ≤ length s.old) × (TableWidth width) }
    ensures { s.new ≡ splice s.old at (bytes width value) }
{
    match width {
        1 => put(s, at, (value % 0x100) as u8),
        2 => put(s, at, (value % 0x10000) as u16),
        4 => put(s, at, (value % 0x100000000) as u32),
        _ => put(s, at, value),
    }
}

// ---- the lower of two numbers, and zeros

// `min` of std, under the name that docs/DECISIONS.md has for it.
pub fn least(a: usize, b: usize) -> usize
    ensures { result ≡ min a b }
{
    a.min(b)
}

// Zeros from `from` up to `to`; the rest stays. It stays a loop: `fill` stores the last byte apart, in 26 instructions where this takes 10.
pub fn clear(s: &mut [u8], from: usize, to: usize)
    requires { (from ≤ to) × (to ≤ length s.old) }
    ensures { s.new ≡ take from s.old ++ replicate (to - from) 0 ++ drop to s.old }
{
    for i in from..to {
        s[i] = 0;
    }
}
