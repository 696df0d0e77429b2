// What is kept of an input.
ghost use Rattle.std.specs.Prelude.{◌≡◌, ◌+◌, ◌≤◌, List, ℕ, ◌++◌, [], ◌<◌, length, take, OnOk, IfErr};
ghost use Rattle.std.specs.Io.KnownBytes.{Consumes, IsAtEnd};
ghost use Rattle.frames.specs.Window.{window, kept_with, Window, Reads};

use crate::RunError;
use limits::{MOST_RECORDS, RECORD_LENGTH};
use std::io::Read;

// The bytes of the longest branch.
const WINDOW_LENGTH: usize = RECORD_LENGTH * MOST_RECORDS;

// The least count that stands for a longer input.
const OVER_LENGTH: usize = WINDOW_LENGTH + RECORD_LENGTH;

// So many bytes are kept of an input: no count is greater.
pub const KEPT_LENGTH: usize = OVER_LENGTH + RECORD_LENGTH - 1;

// The count of bytes seen, with n more. It is exact up to WINDOW_LENGTH; beyond that it is the one
// from OVER_LENGTH to KEPT_LENGTH that has the same remainder by RECORD_LENGTH, and so the same answer.
#[tactic(auto, using(crate::proofs::Windows::window_exact, crate::proofs::Windows::window_sum))]
fn add(seen: usize, n: usize) -> usize
    ensures { result ≡ window (seen + n) }
{
    if seen <= WINDOW_LENGTH && n <= WINDOW_LENGTH - seen {
        return seen + n;
    }
    OVER_LENGTH + (seen % RECORD_LENGTH + n % RECORD_LENGTH) % RECORD_LENGTH
}

// A further part of the input, kept after the bytes seen as far as there is room; the count of bytes
// then seen.
#[tactic(auto, using(crate::proofs::Windows::kept_put))]
pub fn keep(kept: &mut [u8], seen: usize, part: &[u8]) -> usize
    ensures value { result ≡ window (seen + length part.now) }
    ensures kept_after { kept.new ≡ kept_with kept.old seen part.now }
{
    let from = seen.min(kept.len());
    let n = part.len().min(kept.len() - from);
    kept[from..from + n].copy_from_slice(&part[..n]);
    add(seen, part.len())
}

// Reads until `buf` is full, the input ends or a read fails: how many bytes are then at the start of
// `buf`, and whether a read failed.
pub fn read_full<R: Read>(input: &mut R, buf: &mut [u8]) -> (usize, Result<(), RunError>)
    ensures count { result.0 ≤ length buf.new }
    ensures error { IfErr result.1 (λ error. error ≡ RunError.ReadFailed) }
    ensures bytes { Consumes (R.remaining input.old) (R.remaining input.new) (take result.0 buf.new) }
    ensures end { OnOk result.1 (result.0 < length buf.new → IsAtEnd (R.remaining input.new)) }
{
    let mut done = 0;
    while done < buf.len() {
        match input.read(&mut buf[done..]) {
            Ok(0) => return (done, Ok(())),
            Ok(n) => done += n,
            Err(_) => return (done, Err(RunError::ReadFailed)),
        }
    }
    (done, Ok(()))
}

// What is kept of an input of any length: its bytes as far as there is room, and the count of them
// as the answer needs it.
#[derive(Clone, Copy, Debug, PartialEq, Eq)]
pub struct Kept {
    bytes: [u8; KEPT_LENGTH],
    seen: usize,
    ghost counted: { window seen ≡ seen },
}

impl Kept {
    // Nothing yet.
    #[tactic(auto, using(crate::proofs::Windows::window_exact))]
    pub fn new() -> Kept
        ensures { Window [] result.bytes result.seen }
    {
        Kept {
            bytes: [0; KEPT_LENGTH],
            seen: 0,
        }
    }

    // A further part of the input, kept after the bytes seen as far as there is room.
    #[tactic(auto, using(crate::proofs::Windows::counted_is))]
    pub fn keep(&mut self, part: &[u8])
        ensures seen { self.new.seen ≡ window (self.old.seen + length part.now) }
        ensures bytes { self.new.bytes ≡ kept_with self.old.bytes self.old.seen part.now }
        ensures window { (whole : List ℕ) → Window whole self.old.bytes self.old.seen → Window (whole ++ part.now) self.new.bytes self.new.seen }
    {
        self.seen = keep(&mut self.bytes, self.seen, part);
    }

    // The bytes that the answer is given for.
    #[tactic(auto, using(crate::proofs::Windows::counted_most))]
    pub fn branch(&self) -> &[u8]
        ensures value { result.now ≡ take self.now.seen self.now.bytes }
        ensures len { length result.now ≡ self.now.seen }
    {
        &self.bytes[..self.seen]
    }

    // Keeps an input in place of what was kept, read to its end. A proved loop has to end, and nothing
    // says that the input does: the reads are counted, and after 2^64 - 1 of them, which no input
    // reaches, it is a read error.
    #[tactic(auto, using(crate::proofs::Windows::window_exact))]
    pub fn read_all<R: Read>(&mut self, input: &mut R) -> Result<(), RunError>
        ensures error { IfErr result (λ error. error ≡ RunError.ReadFailed) }
        ensures kept { Reads (R.remaining input.old) (R.remaining input.new) self.new.bytes self.new.seen }
        ensures end { OnOk result (IsAtEnd (R.remaining input.new)) }
    {
        self.seen = 0;
        let mut part = io::large_buffer();
        for _ in 0..u64::MAX {
            match input.read(&mut part) {
                Ok(0) => return Ok(()),
                Ok(n) => self.keep(&part[..n]),
                Err(_) => return Err(RunError::ReadFailed),
            }
        }
        Err(RunError::ReadFailed)
    }
}
