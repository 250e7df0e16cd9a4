// Answers as numbers: document 01's number for each case of an answer; and an entry's whole answer in one number (docs/ABI.md). What is a number here is
// so for C: 0 where there is none, 22 for a malformed record, and 255, the entries' own. Refusals go arm by arm, as the documents list them: an edit turns one.
#![tactic(auto)]

ghost use Rattle.std.specs.Prelude.{◌≡◌};
ghost use Rattle.rules.specs.Calls.{refusal_number, verdict_number, heard_level, heard_vector, told_reading};
ghost use Rattle.answers.specs.Answers.{packed, read_by, judged_by, captured_by};

use captures::{Captured, Judged};
use rules::{Heard, Reading, Refusal, Verdict};

// ---- numbers

pub fn refusal_number(r: Refusal) -> u8
    ensures { result ≡ refusal_number r }
{
    match r {
        Refusal::Size => 1,
        Refusal::Address => 2,
        Refusal::Register => 3,
        Refusal::Crossing => 4,
        Refusal::Window => 5,
        Refusal::Journal => 6,
        Refusal::Time => 7,
        Refusal::Channel => 8,
        Refusal::Outside => 9,
        Refusal::Staging => 10,
        Refusal::Room => 11,
        Refusal::NothingStands => 12,
        Refusal::Damaged => 13,
        Refusal::Count => 14,
    }
}

// 0: accepted.
pub fn verdict_number(v: Verdict) -> u8
    ensures { result ≡ verdict_number v }
{
    match v {
        Ok(()) => 0,
        Err(r) => refusal_number(r),
    }
}

fn level_of(h: Heard) -> u8
    ensures { result ≡ heard_level h }
{
    match h {
        None => 0,
        Some(source) => source.level,
    }
}

fn vector_of(h: Heard) -> u8
    ensures { result ≡ heard_vector h }
{
    match h {
        None => 0,
        Some(source) => source.vector,
    }
}

// ---- answers in one number

pub fn packed(status: u8, level: u8, vector: u8, low: u64) -> u64
    ensures { result ≡ packed status level vector low }
{
    let high = status as u64 * 0x0100000000000000;
    let heard = level as u64 * 0x010000000000 + vector as u64 * 0x0100000000;
    high + heard + low % 0x0100000000
}

// Of an act or a take-back.
pub fn answer_of(v: Verdict, used: usize) -> u64
    ensures { result ≡ packed (verdict_number v) 0 0 used }
{
    packed(verdict_number(v), 0, 0, used as u64)
}

// Of an acknowledge.
pub fn heard_answer(v: Verdict, h: Heard, used: usize) -> u64
    ensures { result ≡ packed (verdict_number v) (heard_level h) (heard_vector h) used }
{
    packed(verdict_number(v), level_of(h), vector_of(h), used as u64)
}

// Of a register read.
pub fn reading_of(r: Reading) -> u64
    ensures { result ≡ read_by (told_reading r) }
{
    match r {
        Ok(v) => packed(0, 0, 0, v as u64),
        Err(why) => packed(refusal_number(why), 0, 0, 0),
    }
}

// Of a capture.
fn judged_answer(j: Judged) -> u64
    ensures { result ≡ judged_by j }
{
    match j {
        None => packed(0, 0, 0, 0),
        Some(departure) => packed(0, 0, 1, departure.at),
    }
}

pub fn captured_answer(c: Captured) -> u64
    ensures { result ≡ captured_by c }
{
    match c {
        Ok(j) => judged_answer(j),
        Err(malformed) => packed(22, 0, 0, malformed.place),
    }
}
