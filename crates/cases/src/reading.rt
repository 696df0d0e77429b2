// A file of vectors, line by line.
ghost use Rattle.std.specs.Prelude.{◌≡◌, [], ◌∷◌};
ghost use Rattle.cases.specs.Tally.{one_more, one_line, one_case, one_failed, judged, finished, Since};
ghost use Rattle.cases.specs.File.{FileRead, file_start, Takes};

use crate::compare::{Difference, compare_line};
use arrayvec::ArrayVec;
use std::fmt::Display;
use std::io::Read;

// The longest line that is held whole.
const LONGEST_LINE: usize = 4096;

// So many parts are the most of a file.
const MOST_PARTS: u64 = 1 << 40;

// A line so far. What has no room is dropped, and the line is then not of the form.
type Line = ArrayVec<u8, LONGEST_LINE>;

// The line's number in its file, the cases so far and how many of them failed.
#[derive(Clone, Copy, Debug, Default, PartialEq, Eq)]
pub struct Tally {
    pub line: usize,
    pub cases: usize,
    pub failed: usize,
}

// One more; a count never gets so large.
#[tactic(auto, unfolding(crate::specs::Tally::one_more))]
fn next(n: usize) -> usize
    ensures { result ≡ one_more n }
{
    if n < 1_000_000_000 { n + 1 } else { n }
}

impl Tally {
    // Before the first line of a file.
    pub fn at_start(self) -> Tally
        ensures { result ≡ file_start self }
    {
        Tally { line: 0, ..self }
    }

    #[tactic(auto, unfolding(crate::specs::Tally::one_line))]
    fn with_line(self) -> Tally
        ensures { result ≡ one_line self }
    {
        Tally {
            line: next(self.line),
            ..self
        }
    }

    #[tactic(auto, unfolding(crate::specs::Tally::one_case))]
    fn with_case(self) -> Tally
        ensures { result ≡ one_case self }
    {
        Tally {
            cases: next(self.cases),
            ..self
        }
    }

    #[tactic(auto, unfolding(crate::specs::Tally::one_failed))]
    fn with_failure(self) -> Tally
        ensures { result ≡ one_failed self }
    {
        Tally {
            failed: next(self.failed),
            ..self
        }
    }
}

// A failing line: the file's name, the line's number and what differs.
pub fn report<P: Print, D: Display + Drop>(rt: &P, name: &[u8], tally: Tally, what: D) -> Tally
    ensures { result ≡ one_failed tally }
{
    let _ = rt.write_all(name);
    let _ = println!(rt; ":{} {what}", tally.line);
    tally.with_failure()
}

#[tactic(auto, unfolding(crate::specs::Tally::judged))]
fn judge<P: Print>(rt: &P, name: &[u8], tally: Tally, compared: Result<(), Difference>) -> Tally
    ensures { result ≡ judged compared tally }
{
    match compared {
        Ok(()) => tally,
        Err(difference) => report(rt, name, tally, difference),
    }
}

// A whole line; one that begins with # is a comment.
#[tactic(auto, using(crate::proofs::Tallied::finishing))]
fn finish<P: Print>(rt: &P, name: &[u8], line: &[u8], tally: Tally) -> Tally
    ensures { result ≡ finished line.now tally }
{
    let at = tally.with_line();
    if line.is_empty() || line[0] == b'#' {
        return at;
    }
    judge(rt, name, at.with_case(), compare_line(line))
}

// One byte more.
#[tactic(auto, using(crate::proofs::Filed::takes_newline))]
fn feed<P: Print>(rt: &P, name: &[u8], line: &mut Line, tally: Tally, b: u8) -> Tally
    ensures { Takes line.old.items tally (b ∷ []) line.new.items result }
{
    if b == b'\n' {
        let after = finish(rt, name, line.as_slice(), tally);
        line.clear();
        return after;
    }
    let _ = line.try_push(b);
    tally
}

#[tactic(auto, using(crate::proofs::Filed::takes_none))]
fn feed_all<P: Print>(rt: &P, name: &[u8], line: &mut Line, tally: Tally, part: &[u8]) -> Tally
    ensures { Takes line.old.items tally part.now line.new.items result }
{
    let mut after = tally;
    for b in part {
        after = feed(rt, name, line, after, *b);
    }
    after
}

// The file to its end, in at most 2^40 parts; each is judged as soon as it is read.
#[tactic(auto, using(crate::proofs::Filed::begun_start, crate::proofs::Filed::begun_next))]
pub fn read_file<P: Print, R: Read>(rt: &P, file: &mut R, name: &[u8], tally: Tally) -> Tally
    ensures file_read { FileRead tally result }
    ensures since { Since 1 tally result }
{
    let mut line = Line::new();
    let mut at = tally.at_start();
    let mut part = io::buffer();
    for _ in 0..MOST_PARTS {
        match file.read(&mut part) {
            Ok(0) => return at,
            Ok(n) => at = feed_all(rt, name, &mut line, at, &part[..n]),
            Err(_) => return report(rt, name, at, "can't be read"),
        }
    }
    report(rt, name, at, "is too long")
}
