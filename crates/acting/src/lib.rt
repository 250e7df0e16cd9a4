// The end of a call that is an act, the same for every call: lines and level anew, the last records, and what the call answers. What an act
// changed besides the core, its call notes between `settle` and `done`; and where the call is refused, its call undoes its stores.
// (A journal and its used length stay two values here and above, since C lends them so and an act that is refused hands the length back as it was. What an act
// could have changed, as level bytes, is a bool that its call knows: whether they are looked at changes no answer.)
#![tactic(auto)]

ghost use Rattle.std.specs.Prelude.{◌≡◌, ◌≤◌, length};
ghost use Rattle.act.specs.Lent.{◌⇒◌};
ghost use Rattle.acting.specs.Ending.{begun_at, refused_by, done_by, cleared_from, Settles, EndsCore};

use act::{Core, Done, Step, Stopped, Walk};
use closing::Noted;
use rules::{Refusal, Verdict};

// How far an act came, and the device's core then: on, with the journal's end, or off, and then nothing more happens.
#[derive(Clone, Copy)]
pub struct Reached {
    pub walk: Walk,
    pub core: Core,
}

// "Each gives its number and leaves window, device and used journal as at entry."
pub fn refused(k: Core, why: Refusal, used: usize) -> Done
    ensures { result ≡ refused_by k (Err why) used }
{
    Done {
        verdict: Err(why),
        used,
        core: k,
    }
}

// "Each accepted act but acknowledge ends by working out lines and level anew": of an act whose steps came to `s` and left the controllers of `k`.
pub fn settle(k: Core, s: Step) -> Reached
    ensures { Settles k s result }
{
    match s {
        Ok(c) => {
            let mut e = k;
            e.scalars = c.scalars;
            Reached {
                walk: Ok(c.at),
                core: controllers::update_irq(e),
            }
        }
        Err(stopped) => Reached {
            walk: Err(Stopped {
                why: stopped.why,
                at: stopped.at.at,
            }),
            core: k,
        },
    }
}

// Where the act's last records begin.
pub fn begun(w: Walk) -> Noted
    ensures { result ≡ begun_at w }
{
    w.ok()
}

// What the act that began with `k` answers, once its last records are there or did not fit.
pub fn done(k: Core, s: Reached, n: Noted, used: usize) -> Done
    ensures { result ≡ done_by k s n used }
{
    let w = s.walk;
    match w {
        Err(stopped) => refused(k, stopped.why, used),
        Ok(_) => {
            let Some(end) = n else {
                return refused(k, Refusal::Room, used);
            };
            let core = s.core;
            Done {
                verdict: Ok(()),
                used: end,
                core,
            }
        }
    }
}

// "Journal bytes past the used length: zero to the end after [..] 11 elsewhere."
pub fn clear(journal: &mut [u8], used: usize)
    requires { used ≤ length journal.old }
    ensures { journal.new ≡ cleared_from used journal.old }
{
    let len = journal.len();
    words::clear(journal, used, len);
}

// The end of an act that changed the core alone, and perhaps the table; level bytes are looked at where it could have changed them (`levels`).
pub fn end_core(k: Core, s: Reached, levels: bool, journal: &mut [u8], used: usize) -> Done
    requires { used ≤ length journal.old }
    ensures { EndsCore k s levels used result ⇒ journal }
{
    let core = s.core;
    let walk = s.walk;
    let numbers = closing::note_core(begun(walk), k, core, journal);
    let sources = closing::note_sources(numbers, levels, k, core, journal);
    let r = done(k, s, closing::note_end(sources, used, journal), used);
    let verdict = r.verdict;
    let Ok(()) = verdict else {
        clear(journal, used);
        return r;
    };
    r
}
