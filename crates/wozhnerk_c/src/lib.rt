// The functions for C and Rust, exported: include/wozhnerk.h.
#![tactic(auto)]

ghost use Rattle.prover.specs.Contract.{trays, Contract};
ghost use Rattle.typed.specs.Contract.{TypedContract};
ghost use Rattle.wozhnerk.specs.Word.{read};

// The call on records.
#[unsafe(no_mangle)]
pub extern "C" fn wozhnerk_prove(
    branch: &[u8],
    flags: u8,
    node_tray: &mut [u8],
    formula_tray: &mut [u8],
    edge_tray: &mut [u32],
) -> u64
    ensures { Contract branch.now flags (trays node_tray.old formula_tray.old edge_tray.old) (read result) (trays node_tray.new formula_tray.new edge_tray.new) }
{
    wozhnerk::wozhnerk_prove(branch, flags, node_tray, formula_tray, edge_tray)
}

// The typed call.
#[unsafe(no_mangle)]
pub extern "C" fn wozhnerk_prove_typed(
    text: &[u8],
    flags: u8,
    text_tray: &mut [u8],
    node_tray: &mut [u8],
    formula_tray: &mut [u8],
    edge_tray: &mut [u32],
) -> u64
    ensures { TypedContract text.now flags text_tray.old (trays node_tray.old formula_tray.old edge_tray.old) (read result) text_tray.new (trays node_tray.new formula_tray.new edge_tray.new) }
{
    wozhnerk::wozhnerk_prove_typed(text, flags, text_tray, node_tray, formula_tray, edge_tray)
}
