// The journal printer: prints the journal file that its argument names, one record a line. Where it stops short of the file's end it says at
// which record and byte, on standard error.
#![tactic(auto)]

use std::env::FillError;
use std::io::Write;
use std::rt::Env;

fn print(rt: &HostRuntime, path: &[u8]) {
    listing::print_journal(
        rt,
        path,
        &mut rt.stdout(),
        &mut rt.stderr(),
        &mut rt.stderr(),
    );
}

// The argument is missing, or too long for a file's name.
fn refuse(rt: &HostRuntime, why: &str) {
    let _ = eprintln!(rt; "the journal file's name: {why}");
}

fn main(rt: HostRuntime) {
    let mut path = [0u8; 4096];
    match rt.arg(1, &mut path) {
        Ok(n) => print(&rt, &path[..n]),
        Err(FillError::NotPresent) => refuse(&rt, "Invalid argument"),
        Err(FillError::TooLong) => refuse(&rt, "File name too long"),
    }
}
