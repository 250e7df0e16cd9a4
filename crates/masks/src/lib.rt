// Masks and registers in parts: some bits of a mask, some bytes of a register, the bits that a command byte names, an offset within a range.
// Each contract is an equation with a definition of crate `rules` (specs/Lines.antt, specs/Registers.antt).
#![tactic(auto)]

ghost use Rattle.std.specs.Prelude.{◌≡◌, ◌+◌, ◌^◌, ◌≤◌, ◌<◌};
ghost use Rattle.rules.specs.Lines.{bits_from, with_bits_from};
ghost use Rattle.rules.specs.Registers.{within, bytes_in, with_bytes_in, named};

// ---- some bits of a mask

// `n` bits of a mask from bit `i` on.
pub fn bits_from(i: usize, n: usize, m: u64) -> u64
    requires { (i < 64) × (n < 64) }
    ensures { (result ≡ bits_from i n m) × (result < 2 ^ n) }
{
    (m >> i) % (1u64 << n)
}

// The mask with others there: those that it has go, the new ones come.
pub fn with_bits_from(i: usize, n: usize, new: u64, m: u64) -> u64
    requires { (i < 64) × (n < 64) × (i + n ≤ 64) × (new < 2 ^ n) }
    ensures { result ≡ with_bits_from i n new m }
{
    m - (bits_from(i, n, m) << i) + (new << i)
}

// ---- a 64-bit register as eight bytes

// `size` bytes of it from byte `i` on.
pub fn bytes_in(i: usize, size: usize, register: u64) -> u32
    requires { (i + size ≤ 8) × (size ≤ 4) × (0 < size) }
    ensures { result ≡ bytes_in i size register }
{
    bits_from(8 * (8 - (i + size)), 8 * size, register) as u32
}

// The register with `size` bytes of `v` there: a merge.
pub fn with_bytes_in(i: usize, size: usize, v: u32, register: u64) -> u64
    requires { (i + size ≤ 8) × (size ≤ 4) × (0 < size) }
    ensures { result ≡ with_bytes_in i size v register }
{
    let new = bits_from(0, 8 * size, v as u64);
    with_bits_from(8 * (8 - (i + size)), 8 * size, new, register)
}

// ---- offsets and command bytes

// An offset lies between two, both ends included.
pub fn within(lo: u32, hi: u32, off: u32) -> bool
    ensures { result ≡ within lo hi off }
{
    (lo..=hi).contains(&off)
}

// The channels, or sources, that a command byte names: bit 6, all; else bits 5..0.
pub fn named(v: u32) -> u64
    ensures { result ≡ named v }
{
    if words::has_bit(v as u64, 6) {
        u64::MAX
    } else {
        words::gain_bit(0, (v % 64) as usize)
    }
}
