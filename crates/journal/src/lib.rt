// The journal: its records, the stores that write them, and their undoing. Document 01, "Journal records".
#![tactic(auto)]

ghost use Rattle.std.specs.Prelude.{List, ◌≡◌, ℕ, ◌+◌, ◌-◌, ◌/◌, ◌≤◌, leb, length, drop};
ghost use Rattle.rules.specs.Act.{store, window as in_window, table as in_table};
ghost use Rattle.rules.specs.Bytes.{part, splice};
ghost use Rattle.rules.specs.Carry.{legal, line};
ghost use Rattle.act.specs.Lent.{◌⇒◌};
ghost use Rattle.act.specs.Worlds.{OnTable};
ghost use Rattle.words.specs.Widths.{TableWidth};
ghost use Rattle.journal.specs.Undoing.{Undone, undo_as, undo_line, undo_lines, RolledBack};

use act::{Flow, Step, Stopped};
use rules::Refusal;

// ---- records. (That one lies within the journal stays a clause: it is read and laid down where it lies, among others, by its place. Its kind stays the number
// of the journal's format, and no enum: what is read may have any.)

// "Each is 16 bytes: mark 4A 52, kind, width, 4-byte place, 8-byte old value (big-endian, zeros in front)."
pub fn put_record(journal: &mut [u8], at: usize, kind: u8, width: u8, place: u32, value: u64)
    requires { at + 16 ≤ length journal.old }
    ensures { journal.new ≡ splice journal.old at (line kind width place value) }
{
    // in an order that was chosen by counting instructions: docs/DECISIONS.md
    words::put(journal, at + 4, place);
    words::put(journal, at + 8, value);
    journal[at + 3] = width;
    journal[at + 2] = kind;
    journal[at + 1] = 0x52;
    journal[at] = 0x4A;
}

// Whether one more record fits behind `at`: every store asks here, and nowhere else.
pub fn has_room(journal: &[u8], at: usize) -> bool
    ensures { result ≡ leb (at + 16) (length journal.now) }
{
    if journal.len() < 16 {
        return false;
    }
    at <= journal.len() - 16
}

// ---- stores, each with its record

// "One record per store, changed or not, before the store"; 11 where "the next record doesn't fit".
pub fn store_table(
    s: Step,
    table: &mut [u8; 2048],
    place: usize,
    width: usize,
    value: u64,
    journal: &mut [u8],
) -> Step
    requires { (place + width ≤ 2048) × (TableWidth width) }
    ensures { OnTable (store in_table place width value) s result ⇒ journal ⇒ table }
{
    let c = s?;
    let at = c.at;
    // read before room is asked: a table that is lent shows its length, and the proof of the refusal needs that too
    let old = words::get_width(table, place, width);
    if !has_room(journal, at) {
        return Err(Stopped {
            why: Refusal::Room,
            at: c,
        });
    }
    let end = at + 16;
    put_record(journal, at, 1, width as u8, place as u32, old);
    words::put_width(table, place, width, value);
    let scalars = c.scalars;
    Ok(Flow { scalars, at: end })
}

// ---- undoing

// "Kind 0: memory store (width 1, 2, 4; address)."
#[tactic(auto, unfolding(rules::specs::Carry::legal))]
pub fn is_memory_width(width: usize) -> bool
    ensures { result ≡ legal in_window width }
{
    matches!(width, 1 | 2 | 4)
}

// "Kind 1: descriptor store (1, 2, 4, 8; table offset)."
#[tactic(auto, unfolding(rules::specs::Carry::legal))]
pub fn is_table_width(width: usize) -> bool
    ensures { result ≡ legal in_table width }
{
    matches!(width, 1 | 2 | 4 | 8)
}

// The record of a memory store: its old value is laid over the window again, if its width and place fit it.
fn undo_memory(base: u32, window: &mut [u8], place: u32, width: usize, old: u64)
    ensures { (t : List ℕ) → (Undone (undo_as base 0 width place old) ⇒ window) t t }
{
    if !is_memory_width(width) {
        return;
    }
    let Some(i) = memory::where_is(base, window, place, width) else {
        return;
    };
    words::put_width(window, i, width, old);
}

// The record of a descriptor store, the same with the table.
fn undo_table(table: &mut [u8], place: u32, width: usize, old: u64)
    ensures { (base : ℕ) (w : List ℕ) → (Undone (undo_as base 1 width place old) w w ⇒ table) }
{
    if !is_table_width(width) {
        return;
    }
    let at = place as usize;
    if table.len() < at + width {
        return;
    }
    words::put_width(table, at, width, old);
}

// The record of a store at `p` undone. A record of another kind, and one whose width or place does not fit, is passed over.
pub fn undo_store(base: u32, window: &mut [u8], table: &mut [u8; 2048], journal: &[u8], p: usize)
    requires { p + 16 ≤ length journal.now }
    ensures { Undone (undo_line base (part journal.now p 16)) ⇒ window ⇒ table }
{
    let kind = words::get::<u8>(journal, p + 2);
    let width = words::get::<u8>(journal, p + 3) as usize;
    let place = words::get::<u32>(journal, p + 4);
    let old = words::get::<u64>(journal, p + 8);
    match kind {
        0 => undo_memory(base, window, place, width, old),
        1 => undo_table(table, place, width, old),
        _ => (),
    }
}

// How far it is from `from` to `to`: 0 where that is before.
pub fn span(from: usize, to: usize) -> usize
    ensures { result ≡ to - from }
{
    to.saturating_sub(from)
}

// Undoes the records of stores from `from` up to `to`: none where that is before. "Undoing goes last to first."
fn undo_stores(
    base: u32,
    window: &mut [u8],
    table: &mut [u8; 2048],
    journal: &[u8],
    from: usize,
    to: usize,
)
    requires { to ≤ length journal.now }
    ensures { Undone (undo_lines base ((to - from) / 16) (drop from journal.now)) ⇒ window ⇒ table }
{
    let count = span(from, to) / 16;
    for k in (0..count).rev() {
        undo_store(base, window, table, journal, from + k * 16);
    }
}

// Takes back the stores in window and table since the journal ended at `used`, where it ends at `at` now. "Journal bytes past the used length: zero
// to the end." An `at` past the journal's end counts as the end: both stand for the same world, so no contract of a caller can rule it out.
pub fn roll_back(
    base: u32,
    window: &mut [u8],
    table: &mut [u8; 2048],
    journal: &mut [u8],
    used: usize,
    at: usize,
)
    requires { used ≤ length journal.old }
    ensures { RolledBack base used at ⇒ window ⇒ table ⇒ journal }
{
    let len = journal.len();
    let end = words::least(at, len);
    undo_stores(base, window, table, journal, used, end);
    words::clear(journal, used, len);
}
