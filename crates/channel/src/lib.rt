// The passes of one channel: document 01, "Run, service, controllers". By START, by request, and on the line of channel 35.
// Each contract says that the function does the steps of its tree (crate `rules`, specs/Run.antt), whatever the rest of the device is.
// The numbers of passes are those of the trees. Those of START and of channel 35 never decide, by a theorem there (proofs/Ends); that of a channel that
// requests, 1,048,577, is document 01's own and does.
#![tactic(auto)]

ghost use Rattle.std.specs.Prelude.{◌≡◌, ◌-◌, ◌*◌, ◌^◌, ◌<◌, length, get_or, set};
ghost use Rattle.rules.specs.Bytes.{part};
ghost use Rattle.rules.specs.Minor.{tcd_of};
ghost use Rattle.rules.specs.Run.{start_loop, start_passes, line_loop, line_passes, request_loop, request_passes};
ghost use Rattle.act.specs.Lent.{◌⇒◌, by};
ghost use Rattle.channel.specs.Offers.{offered_in};
ghost use Rattle.channel.specs.Goes.{Goes, Asks, Sums};

use act::{Flow, Step, Stopped};
use rules::{DONE, LINE, Refusal};

// How many passes there are at most: by START, on the line of channel 35, and by request.
const START_PASSES: u32 = 0x8000;

const LINE_PASSES: u32 = 0x400001;

const REQUEST_PASSES: u32 = 1048577;

// ---- requests

// "A channel requests if its standing bit is set or its pending count is above 0"; it is offered if its ERQ bit is set too.
pub fn offered(erq: u64, standing: u64, pending: &[u32; 64], ch: usize) -> bool
    requires { ch < 64 }
    ensures { result ≡ offered_in erq standing pending.now ch }
{
    if !words::has_bit(erq, ch) {
        return false;
    }
    if words::has_bit(standing, ch) {
        return true;
    }
    pending[ch] != 0
}

// "Spend one pending count if there is one".
pub fn spend(pending: &mut [u32; 64], ch: usize)
    requires { ch < 64 }
    ensures { (pending.new ≡ set pending.old ch (get_or pending.old ch 0 - 1)) × (get_or pending.old ch 0 < 2 ^ 32) }
{
    pending[ch] = pending[ch].saturating_sub(1);
}

// ---- what a turn reads of a descriptor. The table's length is told too: its type alone does not tell it in a loop.

pub fn nbytes_of(table: &[u8; 2048], ch: usize) -> u64
    requires { ch < 64 }
    ensures { (result ≡ (tcd_of (part table.now (32 * ch) 32)).nbytes) × (result < 2 ^ 32) × (length table.now ≡ 2048) }
{
    words::get::<u32>(table, 32 * ch + 0x08) as u64
}

pub fn csr_of(table: &[u8; 2048], ch: usize) -> u64
    requires { ch < 64 }
    ensures { (result ≡ (tcd_of (part table.now (32 * ch) 32)).csr) × (length table.now ≡ 2048) }
{
    words::get::<u16>(table, 32 * ch + 0x1E) as u64
}

// ---- the passes of one channel

// "START runs minor loops until majors changes or a pass answers no."
pub fn start_loop(
    c: Flow,
    base: u32,
    window: &mut [u8],
    table: &mut [u8; 2048],
    majors: &mut [u64; 64],
    ch: usize,
    before: u64,
    staging: &mut [u8],
    journal: &mut [u8],
) -> Step
    requires { ch < 64 }
    ensures { Goes (start_loop start_passes ch before) base (by staging) c result ⇒ window ⇒ journal ⇒ table ⇒ majors }
{
    let mut f = c;
    for _ in 0..START_PASSES {
        let Some(s) = minor::dma_minor(f, base, window, table, majors, ch, staging, journal) else {
            return Ok(f);
        };
        f = s?;
        if majors[ch] != before {
            return Ok(f);
        }
    }
    Ok(f)
}

// The bytes that the passes of channel 35 summed to, and where the act stands then.
#[derive(Clone, Copy)]
pub struct Line {
    pub sum: u64,
    pub flow: Flow,
}

// "Channel 35 runs until a pass answers no, DONE shows, or the sum of raw `nbytes` (read before each pass, added if the pass answers yes) is
// above 2^20." Where a ring never ends, "refusal 11 ends it".
pub fn line_loop(
    c: Flow,
    base: u32,
    window: &mut [u8],
    table: &mut [u8; 2048],
    majors: &mut [u64; 64],
    staging: &mut [u8],
    journal: &mut [u8],
) -> Result<Line, Stopped<Flow>>
    ensures { Sums (line_loop line_passes 0) base (by staging) c result ⇒ window ⇒ journal ⇒ table ⇒ majors }
{
    let mut f = c;
    let mut sum: u64 = 0;
    for _ in 0..LINE_PASSES {
        let bytes = nbytes_of(table, LINE);
        let r = minor::dma_minor(f, base, window, table, majors, LINE, staging, journal);
        let csr = csr_of(table, LINE);
        let Some(s) = r else {
            return Ok(Line { sum, flow: f });
        };
        f = s?;
        sum += bytes;
        if words::has_bit(csr, DONE) {
            return Ok(Line { sum, flow: f });
        }
        if 0x100000 < sum {
            return Ok(Line { sum, flow: f });
        }
    }
    Err(Stopped {
        why: Refusal::Room,
        at: f,
    })
}

// "Other channels, while ERQ and a request hold, spend one pending count if there is one, then run a pass, at most 1,048,577 passes." A pass
// that answers no ends the channel's turn, and what was spent for it stays spent.
pub fn request_loop(
    c: Flow,
    base: u32,
    window: &mut [u8],
    table: &mut [u8; 2048],
    majors: &mut [u64; 64],
    pending: &mut [u32; 64],
    ch: usize,
    staging: &mut [u8],
    journal: &mut [u8],
) -> Step
    requires { ch < 64 }
    ensures { Asks (request_loop request_passes ch) base (by staging) c result ⇒ window ⇒ journal ⇒ table ⇒ majors ⇒ pending }
{
    let mut f = c;
    for _ in 0..REQUEST_PASSES {
        if !offered(f.scalars.erq, f.scalars.standing, pending, ch) {
            return Ok(f);
        }
        spend(pending, ch);
        let Some(s) = minor::dma_minor(f, base, window, table, majors, ch, staging, journal) else {
            return Ok(f);
        };
        f = s?;
    }
    Ok(f)
}
