// The damage scan of a take-back: whether a group's records can all be undone. Document 01, "Damaged"; quoted words are its.
#![tactic(auto)]

ghost use Rattle.std.specs.Prelude.{◌≡◌, List, ℕ, ◌+◌, ◌*◌, ◌^◌, ◌≤◌, ltb, length, drop};
ghost use Rattle.rules.specs.Act.{window as in_window, table as in_table};
ghost use Rattle.rules.specs.Bytes.{part};
ghost use Rattle.rules.specs.TakeBack.{marked, sound_store, sound_field};
ghost use Rattle.memory.specs.Places.{holding};
ghost use Rattle.scan.specs.Heads.{Judges, Scanned, scanning, sound_with};

// ---- what the first 8 bytes of a record leave to its value: the lowest so many of its 64 bits; or nothing, since they are damaged

// "Mark 4A 52".
#[tactic(auto, using(crate::proofs::HeadLaws::mark_is))]
pub fn is_marked(journal: &[u8], at: usize) -> bool
    requires { at + 16 ≤ length journal.now }
    ensures { result ≡ marked (part journal.now at 16) }
{
    journal[at] == 0x4A && journal[at + 1] == 0x52
}

// A memory record: "a wrong .. width", "a place outside .. window". Its value may take the bits of as many bytes as it is wide.
fn window_head(base: u32, window: &[u8], place: u32, width: usize) -> Option<usize>
    ensures { Judges result (sound_store base (holding window.now) in_window width place) }
{
    if !journal::is_memory_width(width) {
        return None;
    }
    memory::where_is(base, window, place, width)?;
    Some(width * 8)
}

// A descriptor record: "a wrong .. width", "a place outside table".
fn table_head(place: u32, width: usize) -> Option<usize>
    ensures { (base : ℕ) (w : List ℕ) → Judges result (sound_store base (holding w) in_table width place) }
{
    if !journal::is_table_width(width) {
        return None;
    }
    if 2048 < (place as usize) + width {
        return None;
    }
    Some(width * 8)
}

// "Kind 2: field (8; number)." Its value may take the bits that the field has in the mode; a number that names no field there is a wrong place.
fn field_head(chip: bool, number: u32, width: usize) -> Option<usize>
    ensures { (base : ℕ) → Judges result (sound_field base chip width number) }
{
    if width != 8 {
        return None;
    }
    let bits = device::field_bits(chip, number as usize)?;
    Some(bits as usize)
}

// "A wrong mark, kind, width or place". A group's own end stands behind its records: "an end inside the group" is a wrong kind.
fn head_of(chip: bool, base: u32, window: &[u8], journal: &[u8], at: usize) -> Option<usize>
    requires { at + 16 ≤ length journal.now }
    ensures { Judges result (sound_with base (scanning chip window.now) (part journal.now at 16)) }
{
    if !is_marked(journal, at) {
        return None;
    }
    let kind = words::get::<u8>(journal, at + 2);
    let width = words::get::<u8>(journal, at + 3) as usize;
    let place = words::get::<u32>(journal, at + 4);
    match kind {
        0 => window_head(base, window, place, width),
        1 => table_head(place, width),
        2 => field_head(chip, place, width),
        _ => None,
    }
}

// Of a byte no bit is set but the lowest so many.
fn is_within(byte: u8, bits: usize) -> bool
    requires { bits ≤ 8 }
    ensures { result ≡ ltb byte (2 ^ bits) }
{
    (byte as u32) >> bits == 0
}

// "The scan stops at the first damaged record": the verdict on `count` records from `from` on, found record by record and, of each, value
// byte by value byte: those that neither width nor field leaves to the value are zero, and the next has only bits that are left to it.
pub fn all_sound(
    chip: bool,
    base: u32,
    window: &[u8],
    journal: &[u8],
    from: usize,
    count: usize,
) -> bool
    requires { from + count * 16 ≤ length journal.now }
    ensures { Scanned result chip base window.now count (drop from journal.now) }
{
    // (the labels name the loops; both are left from inside, with the verdict)
    'records: for done in 0..count {
        let at = from + done * 16;
        let Some(bits) = head_of(chip, base, window, journal, at) else {
            return false;
        };
        let wide = (bits + 7) / 8;
        'bytes: for k in 0..8 - wide {
            if journal[at + 8 + k] != 0 {
                return false;
            }
        }
        if !is_within(journal[at + 16 - wide], bits + 8 - wide * 8) {
            return false;
        }
    }
    true
}
