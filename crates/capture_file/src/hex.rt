// Hexadecimal digits, in either case. (By hand: the contracts say what each digit and each text spells.)
ghost use Rattle.std.specs.Prelude.{◌≡◌, ◌%◌, ◌<◌, ℕ, length, slice_index};
ghost use Rattle.capture_file.specs.Hex.{nibble_of, digit_in, digits_from, spelled_from, byte_of};

// A digit's number.
#[tactic(auto, unfolding(crate::specs::Hex::nibble_of, crate::specs::Hex::digit_in))]
fn nibble(b: u8) -> Option<u8>
    ensures { result ≡ digit_in b }
{
    match b {
        b'0'..=b'9' => Some(b - b'0'),
        b'a'..=b'f' => Some(b - b'a' + 10),
        b'A'..=b'F' => Some(b - b'A' + 10),
        _ => None,
    }
}

// Whether a text is digits alone.
pub fn is_hex(text: &[u8]) -> bool
    ensures { result ≡ digits_from text.now 0 (length text.now) }
{
    for k in 0..text.len() {
        if nibble(text[k]).is_none() {
            return false;
        }
    }
    true
}

// A digit's number, 0 of any other character.
fn digit(b: u8) -> u8
    ensures { (result ≡ nibble_of b % 16) × (result < 16) }
{
    nibble(b).unwrap_or(0)
}

// What they spell.
pub fn number(text: &[u8]) -> u32
    ensures { result ≡ spelled_from text.now 0 0 (length text.now) }
{
    let mut v: u32 = 0;
    for k in 0..text.len() {
        v = v % 0x10000000 * 16 + digit(text[k]) as u32;
    }
    v
}

// Byte `k` of two digits each, and all 32 of a descriptor.
#[tactic(auto, unfolding(crate::specs::Hex::byte_of))]
fn byte(text: &[u8], k: usize) -> u8
    requires { (length text.now ≡ 64) × (k < 32) }
    ensures { result ≡ byte_of text.now k }
{
    digit(text[2 * k]) * 16 + digit(text[2 * k + 1])
}

pub fn descriptor(text: &[u8]) -> [u8; 32]
    requires { length text.now ≡ 64 }
    ensures { (k : ℕ) → k < 32 → slice_index result k ≡ byte_of text.now k }
{
    let mut out = [0u8; 32];
    for k in 0..32 {
        out[k] = byte(text, k);
    }
    out
}
