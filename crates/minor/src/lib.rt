// One minor loop of a channel: document 01, "Descriptors and one minor loop". Its transfer is in crates `equal_sizes` and `unequal_sizes`, what follows it in
// crate `major_end`. Each contract says that the function does the steps of its tree (crate `rules`, specs/Minor.antt).
#![tactic(auto)]

ghost use Rattle.std.specs.Prelude.{◌≡◌, ◌≤◌, ◌<◌, ◌^◌};
ghost use Rattle.rules.specs.Minor.{transfer, pass};
ghost use Rattle.act.specs.Lent.{◌⇒◌, by};
ghost use Rattle.unequal_sizes.specs.Stages.{Stages};
ghost use Rattle.minor.specs.Passes.{Passes};
ghost use Rattle.minor.specs.Stepping.{StepsOf};

use act::{Flow, Step, Stopped};
use equal_sizes::{Moved, Steps};
use rules::Tcd;

// "Offsets `soff` and `doff` are signed 16-bit"; the modulos are 5 bits of `attr` each.
fn steps_of(t: Tcd) -> Steps
    ensures { StepsOf t result }
{
    Steps {
        soff: words::signed16(t.soff),
        smod: (t.attr / 0x800 % 32) as u32,
        doff: words::signed16(t.doff),
        dmod: (t.attr / 8 % 32) as u32,
    }
}

// "Equal sizes: read and write unit by unit"; "unequal: read all first". The bytes are rounded up to whole source sizes.
fn transfer(
    base: u32,
    window: &mut [u8],
    t: Tcd,
    n: u32,
    staging: &mut [u8],
    journal: &mut [u8],
    at: usize,
) -> Result<Moved, Stopped<usize>>
    requires { n ≤ 2 ^ 22 }
    ensures { Stages (transfer t n) base (by staging) at result ⇒ window ⇒ journal }
{
    let ssize = words::size_of(t.attr / 0x100);
    let dsize = words::size_of(t.attr);
    let step = steps_of(t);
    let reads = words::whole_sizes(n, ssize);
    let from = t.saddr;
    let to = t.daddr;
    if ssize == dsize {
        return equal_sizes::move_sizes(base, window, ssize, reads, step, from, to, journal, at);
    }
    unequal_sizes::move_unequal(
        base, window, ssize, dsize, reads, step, from, to, staging, journal, at,
    )
}

// The scalars, with another end of the journal.
fn with_end(c: Flow, e: usize) -> Flow
    ensures { result ≡ record { scalars = c.scalars; at = e } }
{
    let scalars = c.scalars;
    Flow { scalars, at: e }
}

// One minor loop: the step that it left; or none, at "count 0: nothing happens and the pass answers no".
pub fn dma_minor(
    c: Flow,
    base: u32,
    window: &mut [u8],
    table: &mut [u8; 2048],
    majors: &mut [u64; 64],
    ch: usize,
    staging: &mut [u8],
    journal: &mut [u8],
) -> Option<Step>
    requires { ch < 64 }
    ensures { Passes (pass ch) base (by staging) c result ⇒ window ⇒ journal ⇒ table ⇒ majors }
{
    let t = major_end::read_tcd(table, ch);
    if words::count_of(t.citer) == 0 {
        return None;
    }
    let cr = c.scalars.cr;
    let n = sums::minor_bytes(cr, t);
    match transfer(base, window, t, n, staging, journal, c.at) {
        Err(stopped) => Some(Err(Stopped {
            why: stopped.why,
            at: with_end(c, stopped.at),
        })),
        Ok(moved) => {
            let s1 = sums::moved_on(sums::sources(cr, t), t, moved.from);
            let d1 = sums::moved_on(sums::dests(cr, t), t, moved.to);
            let next = Ok(with_end(c, moved.at));
            Some(major_end::dma_minor_done(
                next, base, window, table, majors, ch, t, s1, d1, journal,
            ))
        }
    }
}
