// The end of an act: "At the end each field that differs from entry gets one record in number order, then the end record."
// A function that adds records is given where the next one goes, or that one did not fit already, and answers the same: so callers have no
// branches, and a chain of calls is one list of records. Which parts a call looks at is its own business: those that it could not have changed
// are the same. Only the end of the chain tells whether the act is made or refused.
#![tactic(auto)]

ghost use Rattle.std.specs.Prelude.{Some, true, false, ◌∷◌, [], ◌≡◌, ◌<◌, ℕ, length, map};
ghost use Rattle.std.specs.Int.Bits.{bit_or, bit_xor};
ghost use Rattle.rules.specs.View.{view_controller};
ghost use Rattle.rules.specs.Carry.{line};
ghost use Rattle.rules.specs.Scalars.{view_scalars};
ghost use Rattle.rules.specs.Fields.{masks_of};
ghost use Rattle.rules.proofs.Proper.{Proper};
ghost use Rattle.act.specs.Lent.{◌⇒◌};
ghost use Rattle.act.specs.Parts.{Arrays, whole, SameLevels};
ghost use Rattle.closing.specs.Closes.{noting, add, add_end, Notes, NotesOne, Part, Noteworthy, core_in, levels_in};

use act::Core;
use rules::{Controller, Scalars};
use std::ops::{BitOr, BitXor};

// Where the next record goes; or nowhere, since one did not fit: then nothing more happens.
pub type Noted = Option<usize>;

// ---- one record

// "11 | the next record doesn't fit": then the journal stays as it is.
fn note(at: usize, kind: u8, width: u8, place: u32, value: u64, journal: &mut [u8]) -> Noted
    ensures { noting result journal.new ≡ add (line kind width place value) (noting (Some at) journal.old) }
{
    if !journal::has_room(journal, at) {
        return None;
    }
    journal::put_record(journal, at, kind, width, place, value);
    Some(at + 16)
}

// "Kind 2: field (8; number)", with the old value: of field `n`, if it differs.
fn note_one(at: usize, n: u32, before: u64, after: u64, journal: &mut [u8]) -> Noted
    ensures { Notes n (before ∷ []) (after ∷ []) (Some at) result ⇒ journal }
{
    if before == after {
        return Some(at);
    }
    note(at, 2, 8, n, before, journal)
}

// The same after other records. (The place is taken out and comes in again: handing on `s` whole copies its padding too, which is slow.)
fn note_field(s: Noted, n: u32, before: u64, after: u64, journal: &mut [u8]) -> Noted
    ensures { Notes n (before ∷ []) (after ∷ []) s result ⇒ journal }
{
    let at = s?;
    note_one(at, n, before, after, journal)
}

// "Kind 3: end (width 0, place 0, value = records in the group before it)": of the group that began at `used`.
pub fn note_end(s: Noted, used: usize, journal: &mut [u8]) -> Noted
    ensures { noting result journal.new ≡ add_end used (noting s journal.old) }
{
    let at = s?;
    let records = journal::span(used, at) / 16;
    note(at, 3, 0, 0, records as u64, journal)
}

// ---- the fields of an array that differ: `first` is the number of its first element.
// Most are the same at the end of an act, so an array is gone through in blocks, and only a block that differs goes element by element.

// What an array's elements are: numbers of some width. (Of them this crate needs XOR and OR, and neither bytes nor a way back.)
trait Element: Copy + Default + Into<u64> + BitXor<Output = Self> + BitOr<Output = Self> {
    // The number that an element is.
    ghost number: { Self → ℕ };

    ghost converted: { (x : Self) (n : ℕ) → Self.converts x n → n ≡ number x };

    ghost can_xor: { (x y : Self) → Self.can_bitxor x y };

    ghost can_or: { (x y : Self) → Self.can_bitor x y };

    ghost xored: { (x y z : Self) → Self.bitxor_gives x y z → number z ≡ bit_xor (number x) (number y) };

    ghost ored: { (x y z : Self) → Self.bitor_gives x y z → number z ≡ bit_or (number x) (number y) };
}

impl Element for u64 {
    ghost number = { λ x. x };

    ghost converted = { λ x n e. e };

    ghost can_xor = { λ x y. tt };

    ghost can_or = { λ x y. tt };

    ghost xored = { λ x y z e. e };

    ghost ored = { λ x y z e. e };
}

impl Element for u32 {
    ghost number = { λ x. x };

    ghost converted = { λ x n e. e };

    ghost can_xor = { λ x y. tt };

    ghost can_or = { λ x y. tt };

    ghost xored = { λ x y z e. e };

    ghost ored = { λ x y z e. e };
}

impl Element for u8 {
    ghost number = { λ x. x };

    ghost converted = { λ x n e. e };

    ghost can_xor = { λ x y. tt };

    ghost can_or = { λ x y. tt };

    ghost xored = { λ x y z e. e };

    ghost ored = { λ x y z e. e };
}

// How many elements a block has.
const BLOCK: usize = 16;

fn note_each<T: Element>(
    at: usize,
    before: &[T],
    after: &[T],
    first: u32,
    journal: &mut [u8],
) -> Noted
    requires { Noteworthy first (map T.number before.now) (map T.number after.now) }
    ensures { Notes first (map T.number before.now) (map T.number after.now) (Some at) result ⇒ journal }
{
    let mut end = at;
    for i in 0..before.len() {
        end = note_one(
            end,
            first + i as u32,
            before[i].into(),
            after[i].into(),
            journal,
        )?;
    }
    Some(end)
}

// Whether elements are the same is asked once, of all XORs together: a test for each costs more, and so do XORs of 64 bits for narrower elements.
fn same<T: Element>(before: &[T], after: &[T]) -> bool
    requires { length before.now ≡ length after.now }
    ensures { result ≡ true → map T.number before.now ≡ map T.number after.now }
{
    let mut other = T::default();
    for (b, a) in before.iter().zip(after) {
        other = other | (*b ^ *a);
    }
    let number: u64 = other.into();
    number == 0
}

fn note_block<T: Element>(
    at: usize,
    before: &[T],
    after: &[T],
    first: u32,
    journal: &mut [u8],
) -> Noted
    requires { Noteworthy first (map T.number before.now) (map T.number after.now) }
    ensures { Notes first (map T.number before.now) (map T.number after.now) (Some at) result ⇒ journal }
{
    if same(before, after) {
        return Some(at);
    }
    note_each(at, before, after, first, journal)
}

// (By numbers of blocks and elements: with `chunks_exact` each block takes four instructions more, with `chunks` twice as many in all.)
fn note_all<T: Element>(
    s: Noted,
    before: &[T],
    after: &[T],
    first: u32,
    journal: &mut [u8],
) -> Noted
    requires { Noteworthy first (map T.number before.now) (map T.number after.now) }
    ensures { Notes first (map T.number before.now) (map T.number after.now) s result ⇒ journal }
{
    let mut at = s?;
    let blocks = before.len() / BLOCK;
    for k in 0..blocks {
        let i = k * BLOCK;
        let b = &before[i..i + BLOCK];
        let a = &after[i..i + BLOCK];
        at = note_block(at, b, a, first + i as u32, journal)?;
    }
    let i = blocks * BLOCK;
    note_each(at, &before[i..], &after[i..], first + i as u32, journal)
}

// (Each array has a function of its own: it has its number, its length and its type, and callers name what they note.)

// "64+ch busy". Few runs change any, so all are looked at together first.
pub fn note_busy(s: Noted, before: &[u64; 64], after: &[u64; 64], journal: &mut [u8]) -> Noted
    ensures { Part 64 64 before.now after.now s result ⇒ journal }
{
    if same(before, after) {
        return s;
    }
    note_all(s, before, after, 64, journal)
}

// "128+ch majors".
pub fn note_majors(s: Noted, before: &[u64; 64], after: &[u64; 64], journal: &mut [u8]) -> Noted
    ensures { Part 64 128 before.now after.now s result ⇒ journal }
{
    note_all(s, before, after, 128, journal)
}

// "192+ch pending": as busy times.
pub fn note_pending(s: Noted, before: &[u32; 64], after: &[u32; 64], journal: &mut [u8]) -> Noted
    ensures { Part 64 192 before.now after.now s result ⇒ journal }
{
    if same(before, after) {
        return s;
    }
    note_all(s, before, after, 192, journal)
}

// The same of an act that can have changed the count of one channel alone.
pub fn note_count(s: Noted, channel: u32, before: u32, after: u32, journal: &mut [u8]) -> Noted
    requires { channel < 64 }
    ensures { NotesOne 64 192 channel before after s result ⇒ journal }
{
    note_field(
        s,
        192 + channel,
        u64::from(before),
        u64::from(after),
        journal,
    )
}

// "Six-bit fields 768 + channel": of an act that can have changed the priority of one channel alone.
pub fn note_priority(s: Noted, channel: u32, before: u8, after: u8, journal: &mut [u8]) -> Noted
    requires { channel < 64 }
    ensures { NotesOne 64 768 channel before after s result ⇒ journal }
{
    note_field(
        s,
        768 + channel,
        u64::from(before),
        u64::from(after),
        journal,
    )
}

// "512+v taken (v 64..255)".
pub fn note_taken(s: Noted, before: &[u64; 192], after: &[u64; 192], journal: &mut [u8]) -> Noted
    ensures { Part 192 576 before.now after.now s result ⇒ journal }
{
    note_all(s, before, after, 576, journal)
}

// ---- the fields that are not in arrays

// "0 CR, 1 ERQ, 2 EEI, 3 INT, 4 ERR, 5 KICK, 6 DEFERRED, 7 deadline, 8 level, 9 standing requests".
fn note_scalars(s: Noted, before: Scalars, after: Scalars, journal: &mut [u8]) -> Noted
    ensures { Notes 0 (view_scalars before) (view_scalars after) s result ⇒ journal }
{
    let at = s?;
    let b = device::listed(before);
    let a = device::listed(after);
    note_each(at, &b, &a, 0, journal)
}

// "16+4c IMR, then FRC, lines, ICONFIG": of the controller whose first number is `first`.
fn note_own(
    s: Noted,
    first: u32,
    before: Controller,
    after: Controller,
    journal: &mut [u8],
) -> Noted
    requires { first < 64 }
    ensures { Notes first (masks_of (view_controller before) []) (masks_of (view_controller after) []) s result ⇒ journal }
{
    let masks = note_field(s, first, before.masks, after.masks, journal);
    let forced = note_field(masks, first + 1, before.forced, after.forced, journal);
    let lines = note_field(forced, first + 2, before.lines, after.lines, journal);
    note_field(
        lines,
        first + 3,
        u64::from(before.config),
        u64::from(after.config),
        journal,
    )
}

// Fields 0 to 63: between these there are none. (Three calls stay: a loop is no plainer, for each has numbers of its own, and `core_in` names all three.)
pub fn note_core(s: Noted, before: Core, after: Core, journal: &mut [u8]) -> Noted
    ensures { Notes 0 (core_in before) (core_in after) s result ⇒ journal }
{
    let b = &before.controllers;
    let a = &after.controllers;
    let scalars = note_scalars(s, before.scalars, after.scalars, journal);
    let first = note_own(scalars, 16, b[0], a[0], journal);
    let second = note_own(first, 20, b[1], a[1], journal);
    note_own(second, 24, b[2], a[2], journal)
}

// ---- level bytes

// "256+64c+s source level": of the controller whose first number is `first`.
fn note_level(
    s: Noted,
    first: u32,
    before: Controller,
    after: Controller,
    journal: &mut [u8],
) -> Noted
    requires { first < 512 }
    ensures { Part 64 first before.levels after.levels s result ⇒ journal }
{
    note_all(s, &before.levels, &after.levels, first, journal)
}

// Those of all three. (Three calls, as in `note_core`; of copies, since with references they take 25 instructions more.)
fn note_levels(s: Noted, before: Core, after: Core, journal: &mut [u8]) -> Noted
    ensures { Part 192 256 (levels_in before) (levels_in after) s result ⇒ journal }
{
    let b = before.controllers;
    let a = after.controllers;
    let first = note_level(s, 256, b[0], a[0], journal);
    let second = note_level(first, 320, b[1], a[1], journal);
    note_level(second, 384, b[2], a[2], journal)
}

// The same where the act could have changed them (`touched`): else they are not looked at.
pub fn note_sources(s: Noted, touched: bool, before: Core, after: Core, journal: &mut [u8]) -> Noted
    ensures { (x : Arrays) → Proper (whole before x) → (touched ≡ false → SameLevels before after) → Part 192 256 (levels_in before) (levels_in after) s result ⇒ journal }
{
    if !touched {
        return s;
    }
    note_levels(s, before, after, journal)
}
