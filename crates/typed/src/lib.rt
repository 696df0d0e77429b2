// The typed call: a text, a flag byte and four lent trays give a verdict or a refusal.
#![tactic(auto)]

ghost use Rattle.prover.specs.Contract.{trays};
ghost use Rattle.prover.specs.Said.{said};
ghost use Rattle.typed.specs.Contract.{TypedContract};

use limits::RECORD_LENGTH;
use prover::{Verdict, prove};
use reader::read_text;
use refusal::Refusal;

// The text is read into records, and these go the way of every branch.
pub fn prove_typed(
    text: &[u8],
    flags: u8,
    text_tray: &mut [u8],
    node_tray: &mut [u8],
    formula_tray: &mut [u8],
    edge_tray: &mut [u32],
) -> Result<Verdict, Refusal>
    ensures { TypedContract text.now flags text_tray.old (trays node_tray.old formula_tray.old edge_tray.old) (said result) text_tray.new (trays node_tray.new formula_tray.new edge_tray.new) }
{
    let count = read_text(text, text_tray)?;
    let end = RECORD_LENGTH * usize::from(count);
    prove(&text_tray[..end], flags, node_tray, formula_tray, edge_tray)
}
