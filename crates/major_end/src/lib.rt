// What follows the transfer of a minor loop: the descriptor's new addresses, count and `csr`, the flags, the links, and the major end.
// Each contract says that the function does the steps of its tree (crate `rules`, specs/Minor.antt), whatever the rest of the world is.
// Quoted words are document 01's; names are those of the Rust, where it has them.
#![tactic(auto)]

ghost use Rattle.std.specs.Prelude.{◌≡◌, ◌+◌, ◌*◌, ◌%◌, ◌^◌, ◌<◌, [], ◌++◌, length};
ghost use Rattle.rules.specs.Act.{change, when, MAJORS};
ghost use Rattle.rules.specs.Scalars.{INT, ERQ, KICK};
ghost use Rattle.rules.specs.Bytes.{bytes, number, part};
ghost use Rattle.rules.specs.Minor.{tcd_of, tcd_bytes, store_words, store_whole, link, link_to, gather, replaced, load_next, wound, reload, flags, major_end, minor_stores, minor_end};
ghost use Rattle.rules.specs.Words.{has, gain, lose, count_of};
ghost use Rattle.act.specs.Lent.{◌⇒◌};
ghost use Rattle.act.specs.Worlds.{OnTable, OnScalars, OnMajors, OnWindow, OnRest, Gives};

use act::{Step, Stopped};
use rules::{ACTIVE, DONE, DREQ, ESG, INTHALF, INTMAJOR, MAJORELINK, Refusal, START, Tcd};

// ---- the bits of `csr`

fn csr_has(csr: u16, bit: usize) -> bool
    requires { bit < 16 }
    ensures { result ≡ has csr bit }
{
    words::has_bit(csr as u64, bit)
}

fn csr_gains(csr: u16, bit: usize) -> u16
    requires { bit < 16 }
    ensures { result ≡ gain csr bit }
{
    words::gain_bit(csr as u64, bit) as u16
}

fn csr_loses(csr: u16, bit: usize) -> u16
    requires { bit < 16 }
    ensures { result ≡ lose csr bit }
{
    words::lose_bit(csr as u64, bit) as u16
}

// ---- a bit of one scalar register, where `on`. (A function for each: a field has no name that could be passed, and a closure for it would say the line again.)

pub fn raise_int(s: Step, on: bool, ch: usize) -> Step
    requires { ch < 64 }
    ensures { OnScalars (when on (change INT (λ m. gain m ch))) s result }
{
    let mut c = s?;
    if !on {
        return Ok(c);
    }
    c.scalars.int = words::gain_bit(c.scalars.int, ch);
    Ok(c)
}

pub fn raise_kick(s: Step, on: bool, ch: usize) -> Step
    requires { ch < 64 }
    ensures { OnScalars (when on (change KICK (λ m. gain m ch))) s result }
{
    let mut c = s?;
    if !on {
        return Ok(c);
    }
    c.scalars.kick = words::gain_bit(c.scalars.kick, ch);
    Ok(c)
}

pub fn lower_erq(s: Step, on: bool, ch: usize) -> Step
    requires { ch < 64 }
    ensures { OnScalars (when on (change ERQ (λ m. lose m ch))) s result }
{
    let mut c = s?;
    if !on {
        return Ok(c);
    }
    c.scalars.erq = words::lose_bit(c.scalars.erq, ch);
    Ok(c)
}

// "Majors + 1"; "majors and taken counts wrap at 2^64".
pub fn count_major(s: Step, majors: &mut [u64; 64], ch: usize) -> Step
    requires { ch < 64 }
    ensures { OnMajors (change (MAJORS ch) (λ n. (n + 1) % 2 ^ 64)) s result ⇒ majors }
{
    s?;
    majors[ch] = majors[ch].wrapping_add(1);
    s
}

// ---- descriptors

// "A descriptor is 32 big-endian bytes in the order of `Tcd`; channel c is at 32c." The table's length is told too: its type alone does not
// tell it to callers' proofs.
pub fn read_tcd(table: &[u8; 2048], ch: usize) -> Tcd
    requires { ch < 64 }
    ensures { (result ≡ tcd_of (part table.now (32 * ch) 32)) × (length table.now ≡ 2048) }
{
    sums::tcd_at(table, 32 * ch)
}

// A word of 8 bytes from two fields of a descriptor, and one from three.
fn word44(a: u32, b: u32) -> u64
    ensures { result ≡ number (bytes 4 a ++ bytes 4 b) }
{
    (a as u64) * 0x100000000 + (b as u64)
}

fn word422(a: u32, b: u16, c: u16) -> u64
    ensures { result ≡ number (bytes 4 a ++ (bytes 2 b ++ bytes 2 c)) }
{
    (a as u64) * 0x100000000 + ((b as u64) * 0x10000 + (c as u64))
}

// "A whole descriptor is four records of 8 in rising order."
fn store_words(
    s: Step,
    table: &mut [u8; 2048],
    ch: usize,
    w0: u64,
    w1: u64,
    w2: u64,
    w3: u64,
    journal: &mut [u8],
) -> Step
    requires { ch < 64 }
    ensures { OnTable (store_words ch w0 w1 w2 w3) s result ⇒ journal ⇒ table }
{
    let place = 32 * ch;
    let s1 = journal::store_table(s, table, place, 8, w0, journal);
    let s2 = journal::store_table(s1, table, place + 8, 8, w1, journal);
    let s3 = journal::store_table(s2, table, place + 16, 8, w2, journal);
    journal::store_table(s3, table, place + 24, 8, w3, journal)
}

// ---- links

// "A START or DONE bit is one of width 1 at 0x1F": START of the linked channel, then its KICK bit.
pub fn dma_start_linked(s: Step, table: &mut [u8; 2048], ch: usize, journal: &mut [u8]) -> Step
    requires { ch < 64 }
    ensures { OnTable (link ch) s result ⇒ journal ⇒ table }
{
    let place = 32 * ch + 0x1F;
    let b = words::get::<u8>(table, place);
    let v = words::gain_bit(b as u64, START);
    let s1 = journal::store_table(s, table, place, 1, v, journal);
    raise_kick(s1, true, ch)
}

// "A link to itself is ignored."
fn link_to(
    s: Step,
    table: &mut [u8; 2048],
    ch: usize,
    on: bool,
    to: usize,
    journal: &mut [u8],
) -> Step
    requires { to < 64 }
    ensures { OnTable (link_to ch on to) s result ⇒ journal ⇒ table }
{
    if !on {
        return s;
    }
    if to == ch {
        return s;
    }
    dma_start_linked(s, table, to, journal)
}

// ---- the major end

// "32 bytes from `dlast`": "every address sum wraps at 2^32".
fn gather(s: Step, base: u32, window: &[u8], from: u32, next: &mut [u8]) -> Step
    requires { length next.old ≡ 32 }
    ensures { Gives (gather 32 from []) base s result next.new window.now }
{
    let c = s?;
    for i in 0..32 {
        let a = from.wrapping_add(i as u32);
        let o = memory::where_is(base, window, a, 1).ok_or(Stopped {
            why: Refusal::Outside,
            at: c,
        })?;
        next[i] = window[o];
    }
    s
}

// They "replace the descriptor, and START in them sets KICK".
fn replace(s: Step, table: &mut [u8; 2048], ch: usize, next: &[u8; 32], journal: &mut [u8]) -> Step
    requires { ch < 64 }
    ensures { OnTable (replaced ch next.now) s result ⇒ journal ⇒ table }
{
    let w0 = words::get::<u64>(next, 0);
    let w1 = words::get::<u64>(next, 8);
    let w2 = words::get::<u64>(next, 16);
    let w3 = words::get::<u64>(next, 24);
    let on = csr_has(words::get::<u16>(next, 0x1E), START);
    let s1 = store_words(s, table, ch, w0, w1, w2, w3, journal);
    raise_kick(s1, on, ch)
}

fn load_next(
    s: Step,
    base: u32,
    window: &[u8],
    table: &mut [u8; 2048],
    ch: usize,
    from: u32,
    journal: &mut [u8],
) -> Step
    requires { ch < 64 }
    ensures { OnWindow (load_next ch from) base s result window.now ⇒ journal ⇒ table }
{
    let mut next = [0u8; 32];
    let s1 = gather(s, base, window, from, &mut next);
    replace(s1, table, ch, &next, journal)
}

// "ACTIVE and START go, DONE comes."
fn ended(csr: u16) -> u16
    ensures { result ≡ gain (lose (lose csr 6) 0) 7 }
{
    csr_gains(csr_loses(csr_loses(csr, ACTIVE), START), DONE)
}

// "Without, `slast` and `dlast` are added with modulo, count = `biter`."
fn wind(s: Step, table: &mut [u8; 2048], ch: usize, t: Tcd, journal: &mut [u8]) -> Step
    requires { ch < 64 }
    ensures { OnTable (store_whole ch (tcd_bytes (wound t))) s result ⇒ journal ⇒ table }
{
    let saddr = words::modulo_add(t.saddr, t.slast, (t.attr / 0x800 % 32) as u32);
    let daddr = words::modulo_add(t.daddr, t.dlast, (t.attr / 8 % 32) as u32);
    let w0 = word422(saddr, t.attr, t.soff);
    let w1 = word44(t.nbytes, t.slast);
    let w2 = word422(daddr, t.biter, t.doff);
    let w3 = word422(t.dlast, t.biter, ended(t.csr));
    store_words(s, table, ch, w0, w1, w2, w3, journal)
}

// "With ESG, 32 bytes from `dlast` replace the descriptor"; without, it is wound back: `slast` is never added after ESG.
fn reload(
    s: Step,
    base: u32,
    window: &[u8],
    table: &mut [u8; 2048],
    ch: usize,
    t: Tcd,
    journal: &mut [u8],
) -> Step
    requires { ch < 64 }
    ensures { OnWindow (reload ch t) base s result window.now ⇒ journal ⇒ table }
{
    if csr_has(t.csr, ESG) {
        return load_next(s, base, window, table, ch, t.dlast, journal);
    }
    wind(s, table, ch, t, journal)
}

// INTMAJOR, DREQ.
fn flags(s: Step, ch: usize, csr: u16) -> Step
    requires { ch < 64 }
    ensures { OnScalars (flags ch csr) s result }
{
    let s1 = raise_int(s, csr_has(csr, INTMAJOR), ch);
    lower_erq(s1, csr_has(csr, DREQ), ch)
}

// "Major end: majors + 1", the descriptor, then "INTMAJOR, DREQ and the major link follow, all from the old `csr`".
pub fn dma_major_done(
    s: Step,
    base: u32,
    window: &[u8],
    table: &mut [u8; 2048],
    majors: &mut [u64; 64],
    ch: usize,
    journal: &mut [u8],
) -> Step
    requires { ch < 64 }
    ensures { OnRest (major_end ch) base s result window.now ⇒ journal ⇒ table ⇒ majors }
{
    let t = read_tcd(table, ch);
    let csr = t.csr;
    let s1 = count_major(s, majors, ch);
    let s2 = reload(s1, base, window, table, ch, t, journal);
    let s3 = flags(s2, ch, csr);
    link_to(
        s3,
        table,
        ch,
        csr_has(csr, MAJORELINK),
        (csr / 0x100 % 64) as usize,
        journal,
    )
}

// ---- the minor end

// "`csr` loses START and DONE, gains ACTIVE."
fn started(csr: u16) -> u16
    ensures { result ≡ Rattle.rules.specs.Minor.started csr }
{
    csr_loses(csr_gains(csr_loses(csr, START), ACTIVE), DONE)
}

// "INTHALF sets the INT bit if the new count equals half of `biter`'s count, rounded down, and that is not 0."
fn halfway(t: Tcd, n: u16) -> bool
    ensures { result ≡ Rattle.rules.specs.Minor.halfway t n }
{
    if !csr_has(t.csr, INTHALF) {
        return false;
    }
    let half = words::count_of(t.biter) / 2;
    if n != half {
        return false;
    }
    half != 0
}

// "In order: `saddr`, `daddr`, count, `csr` are stored."
fn minor_stores(
    s: Step,
    table: &mut [u8; 2048],
    ch: usize,
    saddr: u32,
    daddr: u32,
    citer: u16,
    csr: u16,
    journal: &mut [u8],
) -> Step
    requires { ch < 64 }
    ensures { OnTable (minor_stores ch saddr daddr citer csr) s result ⇒ journal ⇒ table }
{
    let place = 32 * ch;
    let s1 = journal::store_table(s, table, place, 4, saddr as u64, journal);
    let s2 = journal::store_table(s1, table, place + 0x10, 4, daddr as u64, journal);
    let s3 = journal::store_table(s2, table, place + 0x14, 2, citer as u64, journal);
    journal::store_table(s3, table, place + 0x1E, 2, csr as u64, journal)
}

// "New count 0 leads to the major end; otherwise a count link to another channel sets that START and KICK bit."
pub fn dma_minor_done(
    s: Step,
    base: u32,
    window: &[u8],
    table: &mut [u8; 2048],
    majors: &mut [u64; 64],
    ch: usize,
    t: Tcd,
    saddr: u32,
    daddr: u32,
    journal: &mut [u8],
) -> Step
    requires { (ch < 64) × (0 < count_of t.citer) }
    ensures { OnRest (minor_end ch t saddr daddr) base s result window.now ⇒ journal ⇒ table ⇒ majors }
{
    let n = words::count_of(t.citer) - 1;
    let citer = words::recounted(t.citer, n);
    let csr = started(t.csr);
    let s1 = minor_stores(s, table, ch, saddr, daddr, citer, csr, journal);
    let s2 = raise_int(s1, halfway(t, n), ch);
    if n == 0 {
        return dma_major_done(s2, base, window, table, majors, ch, journal);
    }
    link_to(
        s2,
        table,
        ch,
        words::is_linked(citer),
        words::link_of(citer),
        journal,
    )
}
