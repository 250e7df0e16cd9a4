// A test of the journal printer: journals that it cannot print to the end, and one that is longer than a piece. Here the line that says where it
// stopped goes to standard output too, so that it is compared.
#![tactic(auto)]

fn print(rt: &HostRuntime, path: &[u8]) {
    listing::print_journal(
        rt,
        path,
        &mut rt.stdout(),
        &mut rt.stdout(),
        &mut rt.stderr(),
    );
}

fn main(rt: HostRuntime) {
    print(&rt, b"empty");
    print(&rt, b"missing");
    print(&rt, b"folder");
    print(&rt, b"cut_short");
    print(&rt, b"wrong_mark");
    print(&rt, b"long");
    print(&rt, b"long_cut");
}
