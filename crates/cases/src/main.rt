// Replays the vectors in the files that the arguments name through the call, and compares verdict,
// counts, trees, worlds, formulas, edges and every tray byte that the papers fix (docs/ORACLE.md).
#![tactic(auto)]

ghost use Rattle.std.specs.Prelude.{◌≤◌, length};

mod bytes;
mod compare;
mod digest;
mod lent;
mod reading;

use reading::Tally;
use std::env::FillError;
use std::fs;
use std::rt::{Env, Files};

// Whether the program was started with fewer words.
fn is_absent<E: Env>(env: &E, i: usize) -> bool {
    matches!(env.arg(i, &mut []), Err(FillError::NotPresent))
}

// How many words the program was started with, its own name among them.
fn word_count<E: Env>(env: &E) -> usize {
    (0..usize::MAX)
        .position(|i| is_absent(env, i))
        .unwrap_or(usize::MAX)
}

// Puts argument i at the start of a name, and returns its length, 0 where it has no room.
fn put_argument<E: Env>(env: &E, i: usize, name: &mut [u8]) -> usize
    ensures { result ≤ length name.new }
{
    env.arg(i, name).unwrap_or(0)
}

// The file of a name, open for reading.
fn open<F: Files>(files: &F, name: &[u8]) -> Option<F::File> {
    let path = str::from_utf8(name).ok()?;
    fs::open(files, path).ok()
}

// The file that argument i names. A file that can't be read is a failure.
fn check_file<R: Print + Env + Files>(rt: &R, i: usize, tally: Tally) -> Tally {
    let mut name = [0u8; 256];
    let n = put_argument(rt, i, &mut name);
    match open(rt, &name[..n]) {
        Some(mut file) => reading::read_file(rt, &mut file, &name[..n], tally),
        None => reading::report(rt, &name[..n], tally.at_start(), "can't be opened"),
    }
}

fn main(rt: HostRuntime) {
    let mut tally = Tally::default();
    for i in 1..word_count(&rt) {
        tally = check_file(&rt, i, tally);
    }
    let _ = println!(rt; "{} cases, {} failed", tally.cases, tally.failed);
}
