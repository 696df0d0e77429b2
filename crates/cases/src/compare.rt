// A vector against the call's answer and trays.
ghost use Rattle.std.specs.Prelude.{◌≡◌, drop};
ghost use Rattle.prover.specs.Contract.{trays};
ghost use Rattle.prover.specs.Said.{said};
ghost use Rattle.refusal.specs.Number.{number_of as number_of_reason};
ghost use Rattle.cases.specs.Bytes.{hex_after};
ghost use Rattle.cases.specs.Compared.{expected_of, digest_in, verdict_letter, counts_differ, digest_differs, trays_differ, full_differs, verdict_differs, answer_differs, call_differs, difference_of};

use crate::bytes::{decode, end_of, hex_number, number_of, start_of};
use crate::digest::Digest;
use crate::lent::{Trays, are_zero, edges_agree, formulas_agree, nodes_agree};
use limits::{EDGE_TRAY_LENGTH, FORMULA_TRAY_LENGTH, NODE_TRAY_LENGTH};
use prover::{Verdict, prove};
use refusal::{Reason, Refusal};
use slices::byte_at;
use std::fmt;

// So many bytes are lent beyond a tray, and one number beyond the edges.
const MARGIN: usize = 6;

// What differs.
#[derive(Clone, Copy, Debug, PartialEq, Eq)]
pub enum Difference {
    Form,
    Verdict,
    Identifiers,
    Worlds,
    Steps,
    Digest,
    Trays,
}

impl fmt::Display for Difference {
    fn fmt<W: fmt::Write>(&self, f: &mut fmt::Formatter<W>) -> fmt::Result {
        f.write_str(match self {
            Difference::Form => "form",
            Difference::Verdict => "verdict",
            Difference::Identifiers => "identifiers",
            Difference::Worlds => "worlds",
            Difference::Steps => "steps",
            Difference::Digest => "digest",
            Difference::Trays => "trays",
        })
    }
}

// What a line expects, of the words that it has; the verdict by its first letter, which may be any byte.
#[derive(Clone, Copy, Default)]
struct Expected {
    letter: Option<u8>,
    identifiers: Option<usize>,
    worlds: Option<usize>,
    steps: Option<usize>,
    digest: Option<Digest>,
}

// The two numbers of a digest, eight digits each.
#[tactic(auto, using(crate::proofs::Hex::not_short), unfolding(crate::specs::Compared::digest_in))]
fn read_digest(digits: &[u8]) -> Option<Digest>
    ensures { result ≡ digest_in (hex_after 8 0 digits.now) (hex_after 8 0 (drop 8 digits.now)) }
{
    let first = hex_number(digits)?;
    let second = hex_number(digits.get(8..)?)?;
    Some(Digest { first, second })
}

#[tactic(auto, unfolding(crate::specs::Compared::expected_of))]
fn read_line(line: &[u8]) -> Expected
    ensures { result ≡ expected_of line.now }
{
    let at = start_of(line, 6);
    if line.len() <= at {
        return Expected::default();
    }
    Expected {
        letter: Some(byte_at(line, start_of(line, 2))),
        identifiers: number_of(line, 3),
        worlds: number_of(line, 4),
        steps: number_of(line, 5),
        digest: read_digest(&line[at..]),
    }
}

// The first letter of the verdict, as a line of the cases has it; none of one that would be proved and late.
#[tactic(auto, unfolding(crate::specs::Compared::verdict_letter))]
fn letter(verdict: Verdict) -> Option<u8>
    ensures { result ≡ verdict_letter verdict.proved verdict.late }
{
    match (verdict.proved, verdict.late) {
        (true, true) => None,
        (true, false) => Some(b'p'),
        (false, true) => Some(b'l'),
        (false, false) => Some(b'o'),
    }
}

#[tactic(auto, unfolding(crate::specs::Compared::counts_differ))]
fn compare_counts(expected: Expected, verdict: Verdict) -> Result<(), Difference>
    ensures { result ≡ counts_differ expected verdict.identifiers verdict.worlds verdict.steps }
{
    if expected.identifiers != Some(usize::from(verdict.identifiers)) {
        return Err(Difference::Identifiers);
    }
    if expected.worlds != Some(usize::from(verdict.worlds)) {
        return Err(Difference::Worlds);
    }
    if expected.steps != Some(usize::from(verdict.steps)) {
        return Err(Difference::Steps);
    }
    Ok(())
}

#[tactic(auto, unfolding(crate::specs::Compared::digest_differs))]
fn compare_digest(expected: Expected, identifiers: usize, left: Trays) -> Result<(), Difference>
    ensures { result ≡ digest_differs expected identifiers (trays left.entry.nodes.now left.entry.formulas.now left.entry.edges.now) }
{
    if expected.digest != Some(Digest::of_trays(left, identifiers)) {
        return Err(Difference::Digest);
    }
    Ok(())
}

// A run that was full.
#[tactic(auto, unfolding(crate::specs::Compared::full_differs))]
fn compare_full(expected: Expected, reason: Reason, left: Trays) -> Result<(), Difference>
    ensures { result ≡ full_differs expected (number_of_reason reason) (trays left.entry.nodes.now left.entry.formulas.now left.entry.edges.now) }
{
    if expected.letter != Some(b'f') || reason != Reason::TooManyIdentifiers {
        return Err(Difference::Verdict);
    }
    if !are_zero(left) {
        return Err(Difference::Trays);
    }
    Ok(())
}

// The bytes that no digest sees, then the digest.
#[tactic(auto, unfolding(crate::specs::Compared::trays_differ))]
fn compare_trays(
    expected: Expected,
    branch: &[u8],
    verdict: Verdict,
    left: Trays,
) -> Result<(), Difference>
    ensures { result ≡ trays_differ expected branch.now verdict.identifiers verdict.formulas verdict.worlds (trays left.entry.nodes.now left.entry.formulas.now left.entry.edges.now) }
{
    let identifiers = usize::from(verdict.identifiers);
    let agree = nodes_agree(left.nodes, identifiers)
        && formulas_agree(left.formulas, branch, usize::from(verdict.formulas))
        && edges_agree(left.edges, usize::from(verdict.worlds));
    if !agree {
        return Err(Difference::Trays);
    }
    compare_digest(expected, identifiers, left)
}

// The letter of the verdict, then its counts.
#[tactic(auto, unfolding(crate::specs::Compared::verdict_differs))]
fn compare_verdict(expected: Expected, verdict: Verdict) -> Result<(), Difference>
    ensures { result ≡ verdict_differs expected verdict.proved verdict.late verdict.identifiers verdict.worlds verdict.steps }
{
    if expected.letter != letter(verdict) {
        return Err(Difference::Verdict);
    }
    compare_counts(expected, verdict)
}

// The answer, and the trays that the call left.
#[tactic(auto, unfolding(crate::specs::Compared::answer_differs, prover::specs::Said::said, crate::specs::Compared::or_else))]
fn compare_answer(
    expected: Expected,
    branch: &[u8],
    answer: Result<Verdict, Refusal>,
    left: Trays,
) -> Result<(), Difference>
    ensures { result ≡ answer_differs expected branch.now (said answer) (trays left.entry.nodes.now left.entry.formulas.now left.entry.edges.now) }
{
    match answer {
        Err(refusal) => compare_full(expected, refusal.reason, left),
        Ok(verdict) => {
            compare_verdict(expected, verdict)?;
            compare_trays(expected, branch, verdict, left)
        }
    }
}

// The call with these flags, on trays that are longer than asked and filled with 255.
#[tactic(auto, unfolding(crate::specs::Compared::call_differs, crate::specs::Compared::lent_trays))]
fn compare_call(expected: Expected, branch: &[u8], flags: u8) -> Result<(), Difference>
    ensures { result ≡ call_differs expected branch.now flags }
{
    let mut nodes = [u8::MAX; NODE_TRAY_LENGTH + MARGIN];
    let mut formulas = [u8::MAX; FORMULA_TRAY_LENGTH + MARGIN];
    let mut edges = [u32::MAX; EDGE_TRAY_LENGTH + 1];
    let answer = prove(branch, flags, &mut nodes, &mut formulas, &mut edges);
    let left = Trays {
        nodes: &nodes,
        formulas: &formulas,
        edges: &edges,
    };
    compare_answer(expected, branch, answer, left)
}

// The line's branch and flags through the call.
#[tactic(auto, unfolding(crate::specs::Compared::difference_of, crate::specs::Compared::flagged_differs, crate::specs::Compared::branch_of))]
pub fn compare_line(line: &[u8]) -> Result<(), Difference>
    ensures { result ≡ difference_of line.now }
{
    let number = number_of(line, 0).ok_or(Difference::Form)?;
    let flags = u8::try_from(number).ok().ok_or(Difference::Form)?;
    let from = start_of(line, 1);
    let branch = decode(line, from, end_of(line, from));
    compare_call(read_line(line), branch.as_slice(), flags)
}
