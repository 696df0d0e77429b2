// The queue of waiting nodes: their identifiers in the order in which they were queued, and their classes in the same order.
// Two lists, since the rules queue nodes and know of no class.
#![tactic(auto)]

ghost use Rattle.std.specs.Prelude.{◌≡◌, List, ◌++◌, map, ℕ, ◌≤◌, length};
ghost use Rattle.definition.specs.Limits.{most_identifiers, most_formulas};
ghost use Rattle.arrays.specs.Listed.{HasList};
ghost use Rattle.definition.specs.Records.{Rec};
ghost use Rattle.definition.specs.Tree.{Node};
ghost use Rattle.definition.specs.Setting.{Setting};
ghost use Rattle.definition.specs.Queue.{get_node_priority, pop, push_tree_node};
ghost use Rattle.formula.specs.Recorded.{HasRecords};
ghost use Rattle.tree.specs.Lay.{Laid};
ghost use Rattle.queue.specs.Taking.{taken_at, answer, afterwards};

use arrays::Numbers;
use formula::Formulas;
use limits::CLASS_COUNT;
use tree::{ProofTree, ProofTreeNodeID};

// The class of a node: 0 is first, 1 in the middle, 2 last.
// A number, since the definition's classes are the numbers below `class_count`, which document 01 has searched one after the other.
#[tactic(auto, unfolding(definition::specs::Queue::get_node_priority))]
fn get_node_priority(formulas: &Formulas, tree: &ProofTree, x: ProofTreeNodeID) -> u16
    ensures { (F : Setting) (rs : List Rec) (ns : List Node) → HasRecords rs formulas.now → formulas.now.records.len ≤ most_formulas → Laid ns tree.now
        → result ≡ get_node_priority F rs ns x.0 }
{
    formulas.priority_of(tree.formula_of(x))
}

// The classes of the waiting nodes that have none yet.
pub fn classify(formulas: &Formulas, tree: &ProofTree, waiting: &Numbers, classes: &mut Numbers)
    ensures { (F : Setting) (rs : List Rec) (ns : List Node) (q more : List ℕ) → HasRecords rs formulas.now → formulas.now.records.len ≤ most_formulas → Laid ns tree.now
        → HasList (q ++ more) waiting.now → waiting.now.len ≤ most_identifiers → HasList (map (get_node_priority F rs ns) q) classes.old
        → HasList (map (get_node_priority F rs ns) (q ++ more)) classes.new }
{
    for i in classes.len..waiting.len {
        let x = ProofTreeNodeID(waiting.nth(i));
        classes.push(get_node_priority(formulas, tree, x));
    }
}

// The position of the first waiting node of the most urgent class; their count where none waits.
// Loops over classes and positions with a labelled break are the form that document 01 asks for.
#[tactic(auto, using(crate::proofs::Taking::class_start))]
fn first_urgent(classes: &Numbers) -> usize
    ensures { (F : Setting) (rs : List Rec) (ns : List Node) (q : List ℕ) → HasList (map (get_node_priority F rs ns) q) classes.now → classes.now.len ≤ most_identifiers → pop F rs ns q ≡ taken_at q result }
{
    let mut class: u16 = 0;
    'classes: loop {
        if class == CLASS_COUNT {
            break classes.len;
        }
        for i in 0..classes.len {
            if classes.nth(i) == class {
                break 'classes i;
            }
        }
        class += 1;
    }
}

// Takes the first waiting node of the most urgent class out, and its class; none where no node waits.
pub fn pop(waiting: &mut Numbers, classes: &mut Numbers) -> Option<ProofTreeNodeID>
    ensures { (F : Setting) (rs : List Rec) (ns : List Node) (q : List ℕ) → HasList q waiting.old → HasList (map (get_node_priority F rs ns) q) classes.old → waiting.old.len ≤ most_identifiers
        → (result ≡ answer (pop F rs ns q)) × HasList (afterwards q (pop F rs ns q)) waiting.new
        × HasList (map (get_node_priority F rs ns) (afterwards q (pop F rs ns q))) classes.new }
{
    let at = first_urgent(classes);
    if waiting.len <= at {
        return None;
    }
    let id = ProofTreeNodeID(waiting.nth(at));
    waiting.remove(at, 0);
    classes.remove(at, 0);
    Some(id)
}

// The nodes at and below x: left, middle and right, then x itself. A tree meets each node once, so that none is queued twice.
pub fn push_tree_node(tree: &ProofTree, waiting: &mut Numbers, x: ProofTreeNodeID, depth: usize)
    ensures { (ns : List Node) (q : List ℕ) → Laid ns tree.now → HasList q waiting.old
        → HasList (push_tree_node depth ns q x.0) waiting.new }
{
    if depth == 0 {
        return;
    }
    if x.is_none() {
        return;
    }
    push_tree_node(tree, waiting, tree.left_of(x), depth - 1);
    push_tree_node(tree, waiting, tree.middle_of(x), depth - 1);
    push_tree_node(tree, waiting, tree.right_of(x), depth - 1);
    waiting.push(x.0);
}
