// The command bytes of the DMA registers, 0x18 to 0x1F: what each does to the device's numbers and table, and to the journal.
#![tactic(auto)]

ghost use Rattle.std.specs.Prelude.{Ok, ◌≡◌, ◌<◌, ◌≤◌, ℕ};
ghost use Rattle.std.specs.Int.Bits.{bit_or};
ghost use Rattle.rules.specs.Act.{change, when};
ghost use Rattle.rules.specs.Scalars.{KICK};
ghost use Rattle.rules.specs.Registers.{flag_one, flag_each, set_requests, set_starts, clear_dones, command, commands};
ghost use Rattle.act.specs.Lent.{◌⇒◌};
ghost use Rattle.act.specs.Worlds.{OnTable, OnScalars};
ghost use Rattle.dma_commands.specs.Commands.{Makes, OnNumbers, Commands};

use act::{Flow, Step};
use rules::{DONE, START, Scalars};

// ---- commands that change scalar registers

// SERQ: the named channels get their ERQ bit, and KICK gains those of them that request.
fn set_requests(n: Scalars, pending: &[u32; 64], v: u32) -> Scalars
    ensures { OnNumbers (set_requests v) pending.now n result }
{
    let m = masks::named(v);
    Scalars {
        erq: n.erq | m,
        kick: n.kick | (m & controllers::waiting(n.standing, pending)),
        ..n
    }
}

// SERQ, CERQ, SEEI, CEEI, CINT, CERR: a mask gains or loses the named channels.
fn scalar_command(n: Scalars, pending: &[u32; 64], k: u32, v: u32) -> Scalars
    requires { k < 6 }
    ensures { OnNumbers (command k v) pending.now n result }
{
    let m = masks::named(v);
    match k {
        0 => set_requests(n, pending, v),
        1 => Scalars {
            erq: words::without(n.erq, m),
            ..n
        },
        2 => Scalars {
            eei: n.eei | m,
            ..n
        },
        3 => Scalars {
            eei: words::without(n.eei, m),
            ..n
        },
        4 => Scalars {
            int: words::without(n.int, m),
            ..n
        },
        _ => Scalars {
            err: words::without(n.err, m),
            ..n
        },
    }
}

// KICK gains the channels in `m`, where `on`: a fact that the caller worked out, as are those of crate `major_end`.
pub fn with_kick(s: Step, on: bool, m: u64) -> Step
    ensures { OnScalars (when on (change KICK (λ k. bit_or k m))) s result }
{
    let mut c = s?;
    if on {
        c.scalars.kick |= m;
    }
    Ok(c)
}

// ---- commands that change flags of descriptors

// "A START or DONE bit is one of width 1 at 0x1F": of channel `ch`, whose last byte becomes what `flagged` makes of it.
fn flag_one<F: Fn(u64) -> u64>(
    c: Flow,
    table: &mut [u8; 2048],
    flagged: &F,
    ch: usize,
    journal: &mut [u8],
) -> Step
    requires { (ch < 64) × F.IsAlwaysCallable flagged.now }
    ensures { (g : ℕ → ℕ) → Makes (F.post flagged.now) g → OnTable (flag_one g ch) (Ok c) result ⇒ journal ⇒ table }
{
    let place = 32 * ch + 0x1F;
    let b = u64::from(words::get::<u8>(table, place));
    journal::store_table(Ok(c), table, place, 1, flagged(b), journal)
}

// "Channels rising": of those in `m`. (What each does is left at once where one is refused: a step handed on whole takes twice the time.)
fn flag_each<F: Fn(u64) -> u64>(
    s: Step,
    table: &mut [u8; 2048],
    flagged: F,
    m: u64,
    journal: &mut [u8],
) -> Step
    requires { F.IsAlwaysCallable flagged }
    ensures { (g : ℕ → ℕ) → Makes (F.post flagged) g → OnTable (flag_each g m 64 0) s result ⇒ journal ⇒ table }
{
    let mut c = s?;
    for ch in 0..64 {
        if words::has_bit(m, ch) {
            c = flag_one(c, table, &flagged, ch, journal)?;
        }
    }
    Ok(c)
}

// SSRT: the named channels get START, one record each, and then their KICK bits.
fn set_starts(s: Step, table: &mut [u8; 2048], v: u32, journal: &mut [u8]) -> Step
    ensures { OnTable (set_starts v) s result ⇒ journal ⇒ table }
{
    let m = masks::named(v);
    let started = flag_each(s, table, |b| words::gain_bit(b, START), m, journal);
    with_kick(started, true, m)
}

// CDNE: the named channels lose DONE.
fn clear_dones(s: Step, table: &mut [u8; 2048], v: u32, journal: &mut [u8]) -> Step
    ensures { OnTable (clear_dones v) s result ⇒ journal ⇒ table }
{
    flag_each(
        s,
        table,
        |b| words::lose_bit(b, DONE),
        masks::named(v),
        journal,
    )
}

// ---- any command

// The command byte at 0x18 + `k`, after what came before. (`k` stays the offset that the rules' `command` takes: four bytes of a word are k to k + 3.)
pub fn command(
    s: Step,
    table: &mut [u8; 2048],
    pending: &[u32; 64],
    k: u32,
    v: u32,
    journal: &mut [u8],
) -> Step
    requires { k < 8 }
    ensures { Commands (command k v) pending.now s result ⇒ journal ⇒ table }
{
    match k {
        6 => set_starts(s, table, v, journal),
        7 => clear_dones(s, table, v, journal),
        _ => {
            let mut c = s?;
            c.scalars = scalar_command(c.scalars, pending, k, v);
            Ok(c)
        }
    }
}

// Four of them as one word, the top byte first.
pub fn commands(
    s: Step,
    table: &mut [u8; 2048],
    pending: &[u32; 64],
    k: u32,
    v: u32,
    journal: &mut [u8],
) -> Step
    requires { k ≤ 4 }
    ensures { Commands (commands k v) pending.now s result ⇒ journal ⇒ table }
{
    let a = command(s, table, pending, k, v / 0x1000000 % 256, journal);
    let b = command(a, table, pending, k + 1, v / 0x10000 % 256, journal);
    let c = command(b, table, pending, k + 2, v / 0x100 % 256, journal);
    command(c, table, pending, k + 3, v % 256, journal)
}
