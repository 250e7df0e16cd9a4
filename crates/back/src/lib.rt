// Take back: "undoes the last standing act". Document 01, "The calls" and "Journal records"; quoted words are its.
// `stands` is the used part of the journal.
#![tactic(auto)]

ghost use Rattle.std.specs.Prelude.{◌≡◌, true, [], ◌+◌, ◌*◌, ◌≤◌, length, drop, ltb};
ghost use Rattle.rules.specs.View.{view};
ghost use Rattle.rules.specs.Bytes.{part};
ghost use Rattle.rules.specs.Calls.{Spared, after_back, told_acted};
ghost use Rattle.rules.specs.Carry.{undo};
ghost use Rattle.rules.specs.Fields.{field_at, fits_some, with_number};
ghost use Rattle.rules.specs.TakeBack.{ends, kind, place, value, all_sound, decode_all};
ghost use Rattle.scan.specs.Heads.{scanning};
ghost use Rattle.back.specs.Standing.{Finds, machine};

use rules::{Acted, Device, Refusal, Verdict};

// The group that stands last in the used journal, a sound one: where it starts, and how many records it has before its end.
#[derive(Clone, Copy)]
struct Group {
    from: usize,
    count: usize,
}

// ---- finding the last group

// "Kind 3: end (width 0, place 0, value = records in the group before it)."
fn is_end(stands: &[u8], at: usize) -> bool
    requires { at + 16 ≤ length stands.now }
    ensures { result ≡ ends (part stands.now at 16) }
{
    scan::is_marked(stands, at)
        & (words::get::<u8>(stands, at + 2) == 3)
        & (words::get::<u8>(stands, at + 3) == 0)
        & (words::get::<u32>(stands, at + 4) == 0)
}

// That group; or none, since it is damaged: "no valid end, .. a group longer than the used part", and what the scan finds.
fn last_group(chip: bool, base: u32, window: &[u8], stands: &[u8]) -> Option<Group>
    requires { 16 ≤ length stands.now }
    ensures { Finds chip base window.now stands.now result }
{
    let end = stands.len() - 16;
    if !is_end(stands, end) {
        return None;
    }
    let told = words::get::<u64>(stands, end + 8);
    let room = (end / 16) as u64;
    if room < told {
        return None;
    }
    let count = told as usize;
    let from = end - count * 16;
    if !scan::all_sound(chip, base, window, stands, from, count) {
        return None;
    }
    Some(Group { from, count })
}

// ---- undoing it

// "Kind 2: field": a sound record that is no store's.
fn is_field(stands: &[u8], at: usize) -> bool
    requires { at + 16 ≤ length stands.now }
    ensures { result ≡ ltb 1 (kind (part stands.now at 16)) }
{
    1 < words::get::<u8>(stands, at + 2)
}

// The record of a field undone.
fn undo_field(d: Device, stands: &[u8], at: usize) -> Device
    requires { (at + 16 ≤ length stands.now) × (fits_some d.chip (field_at d.chip (place (part stands.now at 16))) (value (part stands.now at 16)) ≡ true) }
    ensures { view result ≡ with_number (place (part stands.now at 16)) (value (part stands.now at 16)) (view d) }
{
    let n = words::get::<u32>(stands, at + 4) as usize;
    device::with_number(d, n, words::get::<u64>(stands, at + 8))
}

// "Undoing goes last to first": the `count` records from `from` on. The table is taken out once and put back once, and the device is touched
// only where a field's record is undone: the records of stores, which may be a million, don't copy it.
fn undo_group(
    d: Device,
    base: u32,
    window: &mut [u8],
    stands: &[u8],
    from: usize,
    count: usize,
) -> Device
    requires { (from + count * 16 ≤ length stands.now) × (all_sound base (scanning d.chip window.old) count (drop from stands.now) ≡ true) }
    ensures { machine window.new (view result) ≡ undo base (decode_all count (drop from stands.now)) (machine window.old (view d)) }
{
    let mut table = d.table;
    let mut e = d;
    for k in (0..count).rev() {
        let at = from + k * 16;
        journal::undo_store(base, window, &mut table, stands, at);
        if is_field(stands, at) {
            e = undo_field(e, stands, at);
        }
    }
    e.table = table;
    e
}

// ---- the call

// "Each gives its number and leaves window, device and used journal as at entry"; "after a refusal the one given".
fn refused(d: Device, why: Refusal, used: usize) -> Acted
    ensures { result ≡ record { verdict = Err why; used = used; device = d } }
{
    Acted {
        verdict: Err(why),
        used,
        device: d,
    }
}

// The used length that an accepted take-back answers is where the removed group began.
fn accepted(e: Device, from: usize) -> Acted
    ensures { result ≡ record { verdict = (Ok tt); used = from; device = e } }
{
    Acted {
        verdict: Ok(()),
        used: from,
        device: e,
    }
}

// "Take back: base address, window, journal; undoes the last standing act." Checks 5 and 6 "go in number order", then 12 and 13. "After a
// take-back the removed group's bytes are zero and the rest unchanged."
pub fn take_back(d: Device, base: u32, window: &mut [u8], journal: &mut [u8], used: usize) -> Acted
    ensures { (told_acted result window.new [] journal.new ≡ after_back base (view d) window.old journal.old used) × Spared result.verdict d.priorities result.device.priorities }
{
    if asking::bad_window(base, window.len()) {
        return refused(d, Refusal::Window, used);
    }
    if asking::bad_journal(journal.len(), used) {
        return refused(d, Refusal::Journal, used);
    }
    if used == 0 {
        return refused(d, Refusal::NothingStands, used);
    }
    let stands = &journal[..used];
    let Some(group) = last_group(d.chip, base, window, stands) else {
        return refused(d, Refusal::Damaged, used);
    };
    let from = group.from;
    let e = undo_group(d, base, window, stands, from, group.count);
    words::clear(journal, from, used);
    accepted(e, from)
}
