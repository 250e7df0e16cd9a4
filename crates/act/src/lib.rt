// How far an act has come, as the engine's functions hand it on; and a device in parts.
#![tactic(auto)]

ghost use Rattle.std.specs.Prelude.{◌≡◌};
ghost use Rattle.act.specs.Parts.{core_of};
ghost use Rattle.act.specs.Worlds.{flow_of};

use rules::{Controller, Device, Refusal, Scalars, Verdict};

// ---- steps

// The numbers that stand alone, and the journal's end.
#[derive(Clone, Copy)]
pub struct Flow {
    pub scalars: Scalars,
    pub at: usize,
}

// Why an act is refused, and how far it had come: once refused, nothing more happens.
#[derive(Clone, Copy)]
pub struct Stopped<T> {
    pub why: Refusal,
    pub at: T,
}

// Still going, or refused.
pub type Step = Result<Flow, Stopped<Flow>>;

// Where the journal ends then.
pub fn end_of(s: Step) -> usize
    ensures { result ≡ (flow_of s).at }
{
    match s {
        Ok(c) => c.at,
        Err(stopped) => stopped.at.at,
    }
}

// The same of a function that touches only window and journal: the journal's end.
pub type Walk = Result<usize, Stopped<usize>>;

// ---- a device in parts

// What of a device is short: its numbers, its controllers and whether masks are ignored. A call hands it on by value; the long arrays are lent to whom they
// concern. (One by one, and not in a struct of references: that was tried, and each contract has to say of each part, besides what it says now, that the
// loan in it is still the one that was lent.)
#[derive(Clone, Copy)]
pub struct Core {
    pub scalars: Scalars,
    pub controllers: [Controller; 3],
    pub ignore_masks: bool,
}

// What a call came to besides arrays.
#[derive(Clone, Copy)]
pub struct Done {
    pub verdict: Verdict,
    pub used: usize,
    pub core: Core,
}

pub fn core_of(d: Device) -> Core
    ensures { result ≡ core_of d }
{
    let scalars = d.scalars;
    let controllers = d.controllers;
    Core {
        scalars,
        controllers,
        ignore_masks: d.ignore_masks,
    }
}
