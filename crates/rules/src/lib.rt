// The types of the engine, by value: descriptors, controllers, the device, and what the calls answer.
// What they mean is defined in specs/, by document 01.
#![tactic(auto)]

// A descriptor: 32 big-endian bytes of the table, in this order. The names are those of the Rust.
#[derive(Clone, Copy)]
pub struct Tcd {
    pub saddr: u32,
    pub attr: u16,
    pub soff: u16,
    pub nbytes: u32,
    pub slast: u32,
    pub daddr: u32,
    pub citer: u16,
    pub doff: u16,
    pub dlast: u32,
    pub biter: u16,
    pub csr: u16,
}

// The bits of `csr`.
pub const START: usize = 0;

pub const INTMAJOR: usize = 1;

pub const INTHALF: usize = 2;

pub const DREQ: usize = 3;

pub const ESG: usize = 4;

pub const MAJORELINK: usize = 5;

pub const ACTIVE: usize = 6;

pub const DONE: usize = 7;

// (A channel is a number below 64 and a controller one below 3, and neither is a type of its own: they are what masks, tables and records are indexed by,
// so that a type would be opened at nearly every use.)

// The channel that is paced: its passes are a line's.
pub const LINE: usize = 35;

// One interrupt controller: its masks (IMR), forced sources (FRC), lines, ICONFIG and its 64 level bytes.
#[repr(C)]
#[derive(Clone, Copy)]
pub struct Controller {
    pub masks: u64,
    pub forced: u64,
    pub lines: u64,
    pub levels: [u8; 64],
    pub config: u16,
}

// The numbers of a device that stand alone: wide ones first, then narrow ones.
#[repr(C)]
#[derive(Clone, Copy)]
pub struct Scalars {
    pub erq: u64,
    pub eei: u64,
    pub int: u64,
    pub err: u64,
    pub kick: u64,
    pub deferred: u64,
    pub deadline: u64,
    pub standing: u64,
    pub cr: u32,
    pub level: u8,
}

// The whole device. Its numbers stand first, then arrays: the order that copies best.
#[repr(C)]
#[derive(Clone, Copy)]
pub struct Device {
    pub scalars: Scalars,
    pub table: [u8; 2048],
    pub busy: [u64; 64],
    pub majors: [u64; 64],
    pub taken: [u64; 192],
    pub pending: [u32; 64],
    pub priorities: [u8; 64],
    pub controllers: [Controller; 3],
    pub ignore_masks: bool,
    pub chip: bool,
}

// Why a call is refused, in the order of the documents' numbers: 1 to 13 of document 01, 14 of document 02.
#[derive(Clone, Copy)]
pub enum Refusal {
    Size,
    Address,
    Register,
    Crossing,
    Window,
    Journal,
    Time,
    Channel,
    Outside,
    Staging,
    Room,
    NothingStands,
    Damaged,
    Count,
}

// How a call ends: accepted, or refused.
pub type Verdict = Result<(), Refusal>;

// What an act answers: how it ended, the journal's used length, the device.
#[derive(Clone, Copy)]
pub struct Acted {
    pub verdict: Verdict,
    pub used: usize,
    pub device: Device,
}

// What a register read answers: the value, or why it is refused.
pub type Reading = Result<u32, Refusal>;

// A source that an acknowledge finds, with its level and vector.
#[derive(Clone, Copy)]
pub struct Source {
    pub level: u8,
    pub vector: u8,
}

// What an acknowledge finds: a source, or nothing.
pub type Heard = Option<Source>;

// What an acknowledge answers.
#[derive(Clone, Copy)]
pub struct Acknowledged {
    pub verdict: Verdict,
    pub heard: Heard,
    pub used: usize,
    pub device: Device,
}
