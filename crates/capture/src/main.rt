// The judge of captures: takes a descriptor (64 hexadecimal digits), CR (up to 8) and the name of a file of records, and prints one line; docs/CAPTURE.md
// has all of them. Why a file could not be opened or read goes to standard error.
#![tactic(auto)]

ghost use Rattle.std.specs.Prelude.{◌≤◌, length};

use std::env::FillError;
use std::rt::Env;

fn is_given(rt: &HostRuntime, i: usize) -> bool {
    let mut none = [0u8; 0];
    match rt.arg(i, &mut none) {
        Ok(_) => true,
        Err(FillError::TooLong) => true,
        Err(FillError::NotPresent) => false,
    }
}

// An argument's bytes: none of one that is too long.
fn argument<'a>(rt: &HostRuntime, i: usize, text: &'a mut [u8]) -> &'a [u8]
    ensures { length result.now ≤ length text.old }
{
    match rt.arg(i, text) {
        Ok(n) => &text[..n],
        Err(_) => &[],
    }
}

fn main(rt: HostRuntime) {
    if !is_given(&rt, 3) || is_given(&rt, 4) {
        let _ = println!(rt; "unusable: three arguments are needed: descriptor, CR, file");
        return;
    }
    let mut descriptor = [0u8; 4096];
    let mut cr = [0u8; 4096];
    let mut path = [0u8; 4096];
    capture_file::judge_capture(
        &rt,
        argument(&rt, 1, &mut descriptor),
        argument(&rt, 2, &mut cr),
        argument(&rt, 3, &mut path),
        &mut rt.stdout(),
        &mut rt.stderr(),
    );
}
