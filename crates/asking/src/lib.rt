// What a call tests before it does anything: refusals 1, 5, 6 and 7 of document 01 and 14 of document 02, quoted from them.
// Each contract is an equation with a definition of crate `rules` (specs/Calls.antt). (They answer a bool and no refusal: a read, an act and a take-back each
// have an answer of their own to put it into, and each its order.)
#![tactic(auto)]

ghost use Rattle.std.specs.Prelude.{◌≡◌};
ghost use Rattle.rules.specs.Calls.{bad_size, bad_window, bad_journal, bad_time, bad_sum};

// 1: "size is not 1, 2 or 4".
#[tactic(auto, unfolding(rules::specs::Calls::bad_size))]
pub fn bad_size(size: u32) -> bool
    ensures { result ≡ bad_size size }
{
    !matches!(size, 1 | 2 | 4)
}

// 5: "window empty, longer than 2^24 bytes, or base + length above 2^32".
#[tactic(auto, unfolding(rules::specs::Calls::bad_window))]
pub fn bad_window(base: u32, len: usize) -> bool
    ensures { result ≡ bad_window base len }
{
    len == 0 || 0x1000000 < len || 0x100000000 < (base as usize) + len
}

// 6: "journal longer than 2^28 bytes, or used length no multiple of 16 or above the length".
#[tactic(auto, unfolding(rules::specs::Calls::bad_journal))]
pub fn bad_journal(len: usize, used: usize) -> bool
    ensures { result ≡ bad_journal len used }
{
    0x10000000 < len || used % 16 != 0 || len < used
}

// 7: "`now` above 2^62 or pace above 1,000,000".
#[tactic(auto, unfolding(rules::specs::Calls::bad_time))]
pub fn bad_time(now: u64, pace: u64) -> bool
    ensures { result ≡ bad_time now pace }
{
    0x4000000000000000 < now || 1000000 < pace
}

// 14: "the sum would pass 2^32 - 1".
#[tactic(auto, unfolding(rules::specs::Calls::bad_sum))]
pub fn bad_sum(standing: u32, count: u32) -> bool
    ensures { result ≡ bad_sum standing count }
{
    0xFFFFFFFF - standing < count
}
