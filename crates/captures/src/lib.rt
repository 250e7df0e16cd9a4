// Document 02, [2]: what the judge of a capture answers. The rules of judging are in specs/Capture.antt, their theorems in proofs/; the code that
// judges is crate `judge`.
#![tactic(auto)]

// What the rules ask for next: a read (address, width), or a write (address, width, value).
#[derive(Clone, Copy)]
pub enum Due {
    Read(u32, u32),
    Write(u32, u32, u32),
}

// The access, counted from 0, at which a list first departs from the rules, and what is due there: nothing, where they ask for no more accesses.
#[derive(Clone, Copy)]
pub struct Departure {
    pub at: u64,
    pub due: Option<Due>,
}

// "Whether our rules allow it, or at which access it first departs."
pub type Judged = Option<Departure>;

// Why a record is malformed, or "cut".
#[derive(Clone, Copy)]
pub enum Flaw {
    Mark,
    Kind,
    Width,
    Value,
    Cut,
}

// "A malformed or cut record, with its place."
#[derive(Clone, Copy)]
pub struct Malformed {
    pub place: u64,
    pub why: Flaw,
}

// "22, a malformed or cut record, with its place and no verdict"; else the verdict.
pub type Captured = Result<Judged, Malformed>;
