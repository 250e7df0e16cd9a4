// A journal's records as text: "prints one record a line".
#![tactic(auto)]

mod print;

ghost use Rattle.std.specs.Prelude.{◌≡◌, ◌+◌, ◌*◌, ◌/◌, ◌%◌, ◌≤◌, ◌<◌, length, set};
ghost use Rattle.rules.specs.Bytes.{part, splice};
ghost use Rattle.rules.specs.TakeBack.{marked};
ghost use Rattle.listing.specs.Lines.{digit_of, digits, line_text, Listed};

pub use print::print_journal;

// ---- text. (By hand, and not by `{:02x}`: the contracts say each digit.)

// A lower-case digit: 87 is b'a' less 10.
fn digit(n: u8) -> u8
    requires { n < 16 }
    ensures { result ≡ digit_of n }
{
    if n < 10 { b'0' + n } else { 87 + n }
}

// The two digits of a byte. The later one is stored first, as the digits of a record are made from the last to the first.
fn put_byte(b: u8, out: &mut [u8], to: usize)
    requires { to + 2 ≤ length out.old }
    ensures { out.new ≡ set (set out.old (to + 1) (digit_of (b % 16))) to (digit_of (b / 16)) }
{
    out[to + 1] = digit(b % 16);
    out[to] = digit(b / 16);
}

// The 32 digits of the record at `at`.
fn put_digits(journal: &[u8], at: usize, out: &mut [u8], to: usize)
    requires { (at + 16 ≤ length journal.now) × (to + 32 ≤ length out.old) }
    ensures { out.new ≡ splice out.old to (digits (part journal.now at 16)) }
{
    for k in (0..16).rev() {
        put_byte(journal[at + k], out, to + 2 * k);
    }
}

// Its line.
fn put_line(journal: &[u8], at: usize, out: &mut [u8], to: usize)
    requires { (at + 16 ≤ length journal.now) × (to + 33 ≤ length out.old) }
    ensures { out.new ≡ splice out.old to (line_text (part journal.now at 16)) }
{
    put_digits(journal, at, out, to);
    out[to + 32] = b'\n';
}

// "Mark 4A 52". (Crate `scan` has the same test: the printer stands on `rules` and `pieces` alone, and is proved without the engine.)
#[tactic(auto, using(crate::proofs::Laws::mark_is))]
fn is_marked(journal: &[u8], at: usize) -> bool
    requires { at + 16 ≤ length journal.now }
    ensures { result ≡ marked (part journal.now at 16) }
{
    journal[at] == 0x4A && journal[at + 1] == 0x52
}

// The lines of the first `count` records, up to the first with a wrong mark; how many there are. (`count` stands beside the piece, since what is cut short
// of a record behind them is in the piece too.)
pub fn list(journal: &[u8], count: usize, out: &mut [u8]) -> usize
    requires { (count * 16 ≤ length journal.now) × (count * 33 ≤ length out.old) }
    ensures { Listed count result journal.now out.old out.new }
{
    for r in 0..count {
        if !is_marked(journal, r * 16) {
            return r;
        }
        put_line(journal, r * 16, out, r * 33);
    }
    count
}
