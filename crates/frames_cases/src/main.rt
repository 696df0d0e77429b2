// Further cases of Eight Frames: a title, then the eight lines.
#![tactic(auto)]

use arrayvec::ArrayVec;
use frames::Kept;
use limits::{EDGE_TRAY_LENGTH, FORMULA_TRAY_LENGTH, NODE_TRAY_LENGTH, RECORD_LENGTH};
use prover::prove;

// No branch here is longer.
const BRANCH_LENGTH: usize = RECORD_LENGTH * 256;

type Branch = ArrayVec<u8, BRANCH_LENGTH>;

// The title and the eight lines.
fn show<P: Print>(rt: &P, title: &str, branch: &[u8]) {
    let _ = rt.println(title);
    let _ = rt.write_all(&frames::lines(branch));
}

// One record more.
fn push(branch: &mut Branch, kind: u8, mark: u8, left: u16, right: u16) {
    let l = left.to_le_bytes();
    let r = right.to_le_bytes();
    frames::append(branch, &[kind, mark, l[0], l[1], r[0], r[1]]);
}

// So many marked atoms, all the same.
fn atoms(count: u16) -> Branch {
    let mut branch = Branch::new();
    for _ in 0..count {
        push(&mut branch, 0, 1, 0, 0);
    }
    branch
}

// Up to eight Ors of distinct atoms.
fn ors(count: u16) -> Branch {
    let mut branch = Branch::new();
    for i in 0..count.min(8) {
        let n = 3 * i;
        push(&mut branch, 0, 0, 2 * n, 0);
        push(&mut branch, 0, 0, 2 * n + 1, 0);
        push(&mut branch, 3, 1, n, n + 1);
    }
    branch
}

// After an atom a chain, so many records in all, each linked to the one before it; its second field
// is what is made of that link.
fn chain<F: Fn(u16) -> u16>(count: u16, kind: u8, second: F) -> Branch
    requires { F.IsAlwaysCallable second }
{
    let mut branch = Branch::new();
    push(&mut branch, 0, 0, 0, 0);
    for n in 1..count {
        push(&mut branch, kind, 0, n - 1, second(n - 1));
    }
    branch
}

// An input of so many zero bytes, read in parts of 4,096 and less.
fn show_long<P: Print>(rt: &P, title: &str, count: usize) {
    let part = io::buffer();
    let mut kept = Kept::new();
    for _ in 0..count / 4096 {
        kept.keep(&part);
    }
    kept.keep(&part[..count % 4096]);
    show(rt, title, kept.branch());
}

fn show_lengths<P: Print>(rt: &P) {
    show(rt, "blank", b"");
    show(rt, "torn: 7 bytes", &[0; 7]);
    show_long(rt, "torn: 1,537 bytes", 1537);
    show_long(rt, "torn before overlong: 1,000,001 bytes", 1000001);
    show_long(rt, "overlong: 1,542 bytes", 1542);
    show_long(rt, "overlong: 1,000,002 bytes", 1000002);
}

// One record after a marked atom, which is refused.
fn show_second<P: Print>(rt: &P, title: &str, kind: u8, mark: u8, left: u16, right: u16) {
    let mut branch = atoms(1);
    push(&mut branch, kind, mark, left, right);
    show(rt, title, &branch);
}

fn show_fields<P: Print>(rt: &P) {
    show_second(rt, "unknown stain", 9, 1, 0, 0);
    show_second(rt, "stray mark: 2", 1, 2, 0, 0);
    show_second(rt, "stray mark: a field", 8, 1, 0, 3);
    show_second(rt, "forward link: itself", 1, 1, 1, 0);
    show_second(rt, "forward link: later", 3, 1, 0, 2);
}

fn show_marks<P: Print>(rt: &P) {
    show(rt, "oversize", &chain(13, 2, |link| link));
    show(rt, "unmarked", &chain(1, 2, |link| link));
    show(rt, "crowded", &atoms(65));
    show(rt, "64 marked", &atoms(64));
    show(rt, "crowded: 256 records", &atoms(256));
}

fn show_ors<P: Print>(rt: &P) {
    show(rt, "full: eight Ors", &ors(8));
    show(rt, "seven Ors", &ors(7));
}

fn show_late<P: Print>(rt: &P) {
    let mut branch = chain(2, 7, |_| 0);
    push(&mut branch, 8, 1, 1, 0);
    push(&mut branch, 7, 1, 0, 0);
    show(rt, "late: Necessary Possible p, Possible p", &branch);
}

fn show_proved_at_limit<P: Print>(rt: &P) {
    let mut branch = chain(24, 7, |_| 0);
    push(&mut branch, 7, 1, 23, 0);
    push(&mut branch, 1, 1, 1, 0);
    show(
        rt,
        "proved at the limit: 24 Possibles of p, Non Possible p",
        &branch,
    );
}

// What Eight Frames never asks: flags above 15, and trays that are too short.
fn show_call<P: Print>(rt: &P, title: &str, flags: u8, nodes: &mut [u8]) {
    let mut formulas = [0u8; FORMULA_TRAY_LENGTH];
    let mut edges = [0u32; EDGE_TRAY_LENGTH];
    let answer = prove(&atoms(1), flags, nodes, &mut formulas, &mut edges);
    let _ = rt.println(title);
    let _ = rt.write_all(&frames::line(flags, answer));
}

fn main(rt: HostRuntime) {
    show_lengths(&rt);
    show_fields(&rt);
    show_marks(&rt);
    show_ors(&rt);
    show_late(&rt);
    show_proved_at_limit(&rt);
    show_call(&rt, "bad tick", 16, &mut [0; NODE_TRAY_LENGTH]);
    show_call(&rt, "short tray", 0, &mut [0; NODE_TRAY_LENGTH - 1]);
    show_call(&rt, "skipping", 8, &mut [0; NODE_TRAY_LENGTH]);
}
