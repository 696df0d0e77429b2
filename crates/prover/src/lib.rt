// The call: a branch, a flag byte and three lent trays give a verdict or a refusal.
#![tactic(auto)]

ghost use Rattle.std.specs.Prelude.{◌≡◌, false, List, [], ℕ, ◌≤◌, ◌/◌, length};
ghost use Rattle.std.proofs.Math.Option.{none};
ghost use Rattle.definition.specs.Limits.{record_length, most_records, most_marked};
ghost use Rattle.definition.specs.Lists.{empty};
ghost use Rattle.definition.specs.Records.{decode, marks};
ghost use Rattle.definition.specs.Setting as D;
ghost use Rattle.definition.specs.Run as R;
ghost use Rattle.definition.specs.Run.{start};
ghost use Rattle.definition.specs.Checks.{LongEnough, refused};
ghost use Rattle.definition.specs.Call.{outcome_of_run, late, answer_of, trays_after, lengths_of};
ghost use Rattle.setting.specs.Asked.{asked};
ghost use Rattle.proof.specs.StateHeld.{StateLaid, StateHeld};
ghost use Rattle.prover.specs.Contract.{trays, Contract};
ghost use Rattle.prover.specs.Said.{said};
ghost use Rattle.prover.specs.Parts.{Blank, Ends};

use arrays::Numbers;
use branch::{begin_queue, begin_tree, read_records};
use checks::{Lengths, check};
use formula::Formulas;
use graph::Graph;
use limits::{FORMULA_TRAY_LENGTH, MOST_IDENTIFIERS, NODE_TRAY_LENGTH, WORLD_LIMIT};
use logic::Tableau;
use necessities::Necessities;
use proof::State;
use queue::classify;
use refusal::{Reason, Refusal};
use setting::Setting;
use trays::{clear, clear_edges, write_edges, write_formulas, write_nodes};
use tree::ProofTree;

// What a run comes to: whether it proved, whether it was stopped with a node waiting, and its counts.
#[derive(Clone, Copy, Debug, PartialEq, Eq)]
pub struct Verdict {
    pub proved: bool,
    pub late: bool,
    pub identifiers: u16,
    pub formulas: u16,
    pub worlds: u16,
    pub steps: u16,
}

// The state before any step, where nothing is in it yet.
fn begin(branch: &[u8], setting: Setting, state: &mut State)
    ensures { length branch.now / record_length ≤ most_records → empty (marks (decode branch.now)) ≡ false → length (marks (decode branch.now)) ≤ most_marked
        → Blank state.old → StateHeld (asked setting) (start (asked setting) (decode branch.now)) state.new }
{
    read_records(branch, &mut state.formulas);
    begin_tree(&state.formulas, &mut state.tableau.tree);
    begin_queue(&state.tableau.tree, &mut state.tableau.waiting);
    classify(
        &state.formulas,
        &state.tableau.tree,
        &state.tableau.waiting,
        &mut state.classes,
    );
    state.begin(setting);
}

// A count as the answer has it: none is above 65,535.
fn narrow(n: usize) -> u16
    ensures { n ≤ 65535 → result ≡ n }
{
    u16::try_from(n).unwrap_or(u16::MAX)
}

// Unfinished: the world limit is reached, proved is false and a node still waits.
#[tactic(auto, using(crate::proofs::Ending::few_timely, crate::proofs::Ending::proved_timely, crate::proofs::Ending::waiting_late))]
fn is_late(state: &State) -> bool
    ensures { (F : D.Setting) (s : R.State) → StateLaid F s state.now → result ≡ late F s }
{
    WORLD_LIMIT <= state.tableau.graph.worlds && !state.proved && state.tableau.waiting.len != 0
}

// The answer of a run that has stopped, and its trays.
fn finish(
    state: &State,
    node_tray: &mut [u8],
    formula_tray: &mut [u8],
    edge_tray: &mut [u32],
) -> Result<Verdict, Refusal>
    ensures { (F : D.Setting) (s : R.State) → StateHeld F s state.now → Ends s
        → LongEnough (lengths_of (trays node_tray.old formula_tray.old edge_tray.old))
        → (said result ≡ answer_of F (outcome_of_run s))
        × (trays node_tray.new formula_tray.new edge_tray.new ≡ trays_after (outcome_of_run s) (trays node_tray.old formula_tray.old edge_tray.old)) }
{
    let tree = &state.tableau.tree;
    if MOST_IDENTIFIERS < tree.len {
        clear(node_tray, NODE_TRAY_LENGTH);
        clear(formula_tray, FORMULA_TRAY_LENGTH);
        clear_edges(edge_tray);
        return Err(Reason::TooManyIdentifiers.at(0));
    }
    write_nodes(node_tray, tree);
    write_formulas(formula_tray, &state.formulas);
    write_edges(edge_tray, &state.tableau.graph);
    Ok(Verdict {
        proved: state.proved,
        late: is_late(state),
        identifiers: narrow(tree.len),
        formulas: narrow(state.formulas.records.len),
        worlds: narrow(state.tableau.graph.worlds),
        steps: narrow(state.steps),
    })
}

// The run of an accepted branch.
fn run(
    branch: &[u8],
    flags: u8,
    node_tray: &mut [u8],
    formula_tray: &mut [u8],
    edge_tray: &mut [u32],
) -> Result<Verdict, Refusal>
    ensures { refused branch.now flags (lengths_of (trays node_tray.old formula_tray.old edge_tray.old)) ≡ none
        → Contract branch.now flags (trays node_tray.old formula_tray.old edge_tray.old) (said result) (trays node_tray.new formula_tray.new edge_tray.new) }
{
    let mut state = State {
        formulas: Formulas::new(),
        tableau: Tableau {
            tree: ProofTree::new(),
            graph: Graph::new(),
            necessities: Necessities::new(),
            waiting: Numbers::new(0),
        },
        classes: Numbers::new(0),
        steps: 0,
        proved: false,
    };
    let setting = Setting::from(flags);
    begin(branch, setting, &mut state);
    state.prove(setting);
    finish(&state, node_tray, formula_tray, edge_tray)
}

// The call. Nothing is written before the run has ended. The trays are three slices, as C lends them.
pub fn prove(
    branch: &[u8],
    flags: u8,
    node_tray: &mut [u8],
    formula_tray: &mut [u8],
    edge_tray: &mut [u32],
) -> Result<Verdict, Refusal>
    ensures { Contract branch.now flags (trays node_tray.old formula_tray.old edge_tray.old) (said result) (trays node_tray.new formula_tray.new edge_tray.new) }
{
    let lent = Lengths {
        nodes: node_tray.len(),
        formulas: formula_tray.len(),
        edges: edge_tray.len(),
    };
    check(branch, flags, lent)?;
    run(branch, flags, node_tray, formula_tray, edge_tray)
}
