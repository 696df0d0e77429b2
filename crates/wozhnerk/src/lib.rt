// The functions for C and Rust, and the number in which they answer. `wozhnerk_c` exports them.
#![tactic(auto)]

ghost use Rattle.std.specs.Prelude.{◌≡◌, ◌≤◌, Ok, Err};
ghost use Rattle.prover.specs.Contract.{trays, Contract};
ghost use Rattle.prover.specs.Said.{said};
ghost use Rattle.typed.specs.Contract.{TypedContract};
ghost use Rattle.wozhnerk.specs.Word.{read, worlds_of};

use prover::{Verdict, prove};
use refusal::Refusal;
use typed::prove_typed;

// The lowest bit of each part of the number.
const NUMBER: u64 = 1 << 16;

const FORMULAS: u64 = 1 << 16;

const STEPS: u64 = 1 << 32;

const WORLDS: u64 = 1 << 48;

const PROVED: u64 = 1 << 56;

const LATE: u64 = 1 << 57;

const REFUSED: u64 = 1 << 63;

// A refusal in one number.
fn refusal_word(refusal: Refusal) -> u64
    ensures { read result ≡ said (Err refusal) }
{
    let number = u16::from(refusal.reason);
    u64::from(refusal.place) + u64::from(number) * NUMBER + REFUSED
}

// A verdict in one number.
fn verdict_word(verdict: Verdict) -> u64
    ensures { verdict.worlds ≤ 255 → read result ≡ said (Ok verdict) }
{
    if 255 < verdict.worlds {
        return 0;
    }
    let identifiers = u64::from(verdict.identifiers);
    let formulas = u64::from(verdict.formulas) * FORMULAS;
    let steps = u64::from(verdict.steps) * STEPS;
    let worlds = u64::from(verdict.worlds) * WORLDS;
    let proved = u64::from(verdict.proved) * PROVED;
    let late = u64::from(verdict.late) * LATE;
    identifiers + formulas + steps + worlds + proved + late
}

// The answer in one number, which C reads by division.
fn word(answer: Result<Verdict, Refusal>) -> u64
    ensures { worlds_of (said answer) ≤ 255 → read result ≡ said answer }
{
    match answer {
        Ok(verdict) => verdict_word(verdict),
        Err(refusal) => refusal_word(refusal),
    }
}

// The call for C and Rust. The answer is the number itself, so nothing but the trays is written.
pub fn wozhnerk_prove(
    branch: &[u8],
    flags: u8,
    node_tray: &mut [u8],
    formula_tray: &mut [u8],
    edge_tray: &mut [u32],
) -> u64
    ensures { Contract branch.now flags (trays node_tray.old formula_tray.old edge_tray.old) (read result) (trays node_tray.new formula_tray.new edge_tray.new) }
{
    word(prove(branch, flags, node_tray, formula_tray, edge_tray))
}

// The typed call for C and Rust.
pub fn wozhnerk_prove_typed(
    text: &[u8],
    flags: u8,
    text_tray: &mut [u8],
    node_tray: &mut [u8],
    formula_tray: &mut [u8],
    edge_tray: &mut [u32],
) -> u64
    ensures { TypedContract text.now flags text_tray.old (trays node_tray.old formula_tray.old edge_tray.old) (read result) text_tray.new (trays node_tray.new formula_tray.new edge_tray.new) }
{
    let answer = prove_typed(text, flags, text_tray, node_tray, formula_tray, edge_tray);
    word(answer)
}
