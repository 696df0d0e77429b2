// The branch: its records as formulas, its marked records as the first nodes, queued.
#![tactic(auto)]

ghost use Rattle.std.specs.Prelude.{◌≡◌, List, [], ◌≤◌, length};
ghost use Rattle.definition.specs.Limits.{most_identifiers, most_formulas};
ghost use Rattle.arrays.specs.Listed.{HasList};
ghost use Rattle.definition.specs.Records.{Rec, decode};
ghost use Rattle.definition.specs.Run.{rooted, branch_nodes, begun};
ghost use Rattle.formula.specs.Recorded.{HasRecords};
ghost use Rattle.tree.specs.Chain.{DrawnFrom};
ghost use Rattle.tree.specs.Lay.{lay, HasNodes};

use arrays::Numbers;
use checks::read_record;
use formula::{FormulaNumber, Formulas};
use graph::PossibleWorld;
use limits::{MOST_FORMULAS, RECORD_LENGTH};
use queue::push_tree_node;
use tree::{Chain, Place, ProofTree, ProofTreeNodeID};

// The records, in order, where none is yet.
pub fn read_records(branch: &[u8], formulas: &mut Formulas)
    ensures { HasRecords [] formulas.old → HasRecords (decode branch.now) formulas.new }
{
    for bytes in branch.chunks_exact(RECORD_LENGTH) {
        formulas.push_input(read_record(bytes));
    }
}

// A node for each marked record, each below the last one.
fn branch_nodes(formulas: &Formulas, tree: &mut ProofTree) -> Chain
    ensures { (rs : List Rec) → HasRecords rs formulas.now → formulas.now.records.len ≤ most_formulas → HasNodes [] tree.old → DrawnFrom 0 result tree.new.len × HasNodes (branch_nodes rs) tree.new }
{
    let mut made = Chain::EMPTY;
    for i in 0..formulas.records.len {
        if MOST_FORMULAS <= i {
            return made;
        }
        let f = FormulaNumber(i as u16);
        let marked = formulas.mark_at(f) == 1;
        if marked {
            made = tree.extend(made, ProofTreeNodeID::NONE, f, PossibleWorld::ZERO);
        }
    }
    made
}

// The nodes of the branch, as many as are marked: the first is the root; each further one is the middle child of the one before.
pub fn begin_tree(formulas: &Formulas, tree: &mut ProofTree)
    ensures { (rs : List Rec) → HasRecords rs formulas.now → formulas.now.records.len ≤ most_formulas → HasNodes [] tree.old → HasNodes (rooted (branch_nodes rs)) tree.new }
{
    let chain = branch_nodes(formulas, tree);
    tree.link_chain(ProofTreeNodeID::NONE, Place::Root, chain);
}

// The nodes of the branch, queued from the root.
pub fn begin_queue(tree: &ProofTree, waiting: &mut Numbers)
    ensures { (rs : List Rec) → length (branch_nodes rs) ≡ tree.now.len → tree.now.len ≤ most_identifiers → tree.now.nodes ≡ lay (rooted (branch_nodes rs)) → HasList [] waiting.old
        → HasList (begun rs).waiting waiting.new }
{
    push_tree_node(tree, waiting, ProofTreeNodeID::ROOT, tree.len);
}
