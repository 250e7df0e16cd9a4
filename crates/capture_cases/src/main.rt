// A test of the judge's program: a line for each way that a capture can come out, and lists that are longer than a piece.
#![tactic(auto)]

// "Run only": one word.
const RUN_ONLY: [u8; 64] = *b"8000000002020004000000040000000080000004000100040000000000010001";
// The same with ESG, and `dlast` 80001000.
const GATHERED: [u8; 64] = *b"8000000002020004000000040000000080000004000100048000100000010011";
// Four bytes to a word.
const BYTES_TO_WORD: [u8; 64] =
    *b"8000000000020001000000040000000080000004000100040000000000010001";
// One byte, which fills no word.
const ONE_BYTE: [u8; 64] = *b"8000000000020001000000010000000080000004000100040000000000010001";
// 1,001 words to 4,004 bytes: longer than five pieces.
const WORDS_TO_BYTES: [u8; 64] =
    *b"800000000200000400000fa40000000080010000000100010000000000010001";
// Count 0.
const NO_COUNT: [u8; 64] = *b"8000000002020004000000040000000080000004000000040000000000010001";

// CR has no part in most of them.
fn judge(rt: &HostRuntime, descriptor: &[u8], path: &[u8]) {
    judge_with(rt, descriptor, b"0", path);
}

fn judge_with(rt: &HostRuntime, descriptor: &[u8], cr: &[u8], path: &[u8]) {
    capture_file::judge_capture(rt, descriptor, cr, path, &mut rt.stdout(), &mut rt.stderr());
}

fn run_only(rt: &HostRuntime, path: &[u8]) {
    judge(rt, &RUN_ONLY, path);
}

fn gathered(rt: &HostRuntime, path: &[u8]) {
    judge(rt, &GATHERED, path);
}

fn verdicts(rt: &HostRuntime) {
    run_only(rt, b"run_only");
    run_only(rt, b"empty");
    run_only(rt, b"wrong_value");
    run_only(rt, b"wrong_address");
    run_only(rt, b"written_first");
    run_only(rt, b"short");
    run_only(rt, b"long");
}

fn flaws(rt: &HostRuntime) {
    run_only(rt, b"mark");
    run_only(rt, b"kind");
    run_only(rt, b"width");
    run_only(rt, b"value");
    run_only(rt, b"cut");
    run_only(rt, b"departs_and_flawed");
}

fn fetches(rt: &HostRuntime) {
    gathered(rt, b"fetches");
    gathered(rt, b"run_only");
    gathered(rt, b"fetch_short");
    gathered(rt, b"fetch_wrong");
}

fn others(rt: &HostRuntime) {
    judge(rt, &BYTES_TO_WORD, b"bytes_to_word");
    judge(rt, &BYTES_TO_WORD, b"bytes_to_other");
    judge(rt, &ONE_BYTE, b"one_byte");
    judge(rt, &NO_COUNT, b"empty");
    judge(rt, &NO_COUNT, b"run_only");
    judge(rt, &WORDS_TO_BYTES, b"long_departs");
}

fn with_cr(rt: &HostRuntime, cr: &[u8]) {
    judge_with(rt, &RUN_ONLY, cr, b"run_only");
}

fn unusable(rt: &HostRuntime) {
    run_only(rt, b"missing");
    run_only(rt, b"folder");
    judge(rt, b"", b"run_only");
    judge(rt, b"8000", b"run_only");
    judge(
        rt,
        b"800000000202000400000004000000008000000400010004000000000001000g",
        b"run_only",
    );
    with_cr(rt, b"ffffFFFF");
    with_cr(rt, b"");
    with_cr(rt, b"123456789");
    with_cr(rt, b"0x80");
}

fn main(rt: HostRuntime) {
    verdicts(&rt);
    flaws(&rt);
    fetches(&rt);
    others(&rt);
    unusable(&rt);
}
