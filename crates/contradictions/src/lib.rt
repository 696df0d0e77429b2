// Contradictions of the paths: path.rs's get_contradictory_node_ids and tree.rs's check_for_contradictions.
// A tree that was checked when it had fewer nodes is searched at the leaves that are new, and there from the new nodes alone.
#![tactic(auto)]

ghost use Rattle.std.specs.Prelude.{◌≡◌, ◌&&◌, cond, List, ℕ, ◌≤◌, ◌-◌, length};
ghost use Rattle.std.proofs.Math.Option.{map};
ghost use Rattle.definition.specs.Limits.{most_identifiers, most_formulas};
ghost use Rattle.definition.specs.Lists.{all, filter, empty, up_from};
ghost use Rattle.definition.specs.Records.{Rec, formula_of};
ghost use Rattle.definition.specs.Tree.{Node, node_at, leaves};
ghost use Rattle.definition.specs.Subtree.{takes};
ghost use Rattle.definition.specs.Contradiction.{pair, are_nodes_contradictory, is_pair, mark, mark_all, pairs};
ghost use Rattle.definition.specs.TreeShape.{spots, In, Treed};
ghost use Rattle.definition.specs.Shortcuts.{partner, pair_of, pair_at, closed_at, new_pairs, NoPairAbove, CheckedAt};
ghost use Rattle.formula.specs.Recorded.{HasRecords};
ghost use Rattle.semantics.specs.Literal.{Claims};
ghost use Rattle.tree.specs.Lay.{Laid, HasNodes};
ghost use Rattle.contradictions.specs.Found.{found};

use arrays::Numbers;
use formula::Formulas;
use graph::PossibleWorld;
use limits::MOST_IDENTIFIERS;
use semantics::{Claim, claim_of, contradicts, is_no_literal};
use tree::{ProofTree, ProofTreeNodeID, id_at};

// A node and an earlier one of its path that contradict one another.
#[derive(Clone, Copy, Debug, PartialEq, Eq)]
pub struct Contradiction {
    pub later: ProofTreeNodeID,
    pub earlier: ProofTreeNodeID,
}

// x, of whose formula the claim is given, and y contradict one another: one world, and formulas that do.
#[tactic(auto, using(crate::proofs::Search::same_world, crate::proofs::Search::other_world))]
fn are_nodes_contradictory(
    c: Claim,
    world: PossibleWorld,
    formulas: &Formulas,
    tree: &ProofTree,
    y: ProofTreeNodeID,
) -> bool
    ensures { (rs : List Rec) (ns : List Node) (x : ℕ) → Claims rs (formula_of rs (node_at ns x).formula) c → world.0 ≡ (node_at ns x).world
        → HasRecords rs formulas.now → formulas.now.records.len ≤ most_formulas → Laid ns tree.now → result ≡ are_nodes_contradictory rs ns x y.0 }
{
    world == tree.world_of(y) && contradicts(c, formulas, tree.formula_of(y))
}

// Of the nodes above x, the first from the root that contradicts it: the last that is met on the way up.
fn find_above(
    c: Claim,
    formulas: &Formulas,
    tree: &ProofTree,
    x: ProofTreeNodeID,
) -> Option<Contradiction>
    ensures { (rs : List Rec) (ns : List Node) → Claims rs (formula_of rs (node_at ns x.0).formula) c → HasRecords rs formulas.now → formulas.now.records.len ≤ most_formulas → length ns ≡ tree.now.len → Laid ns tree.now
        → found result ≡ map (pair x.0) (partner rs ns x.0) }
{
    let world = tree.world_of(x);
    let mut last = None;
    let mut cur = tree.parent_of(x);
    for _ in 1..tree.len {
        if cur.is_none() {
            return last;
        }
        if are_nodes_contradictory(c, world, formulas, tree, cur) {
            last = Some(Contradiction {
                later: x,
                earlier: cur,
            });
        }
        cur = tree.parent_of(cur);
    }
    last
}

// x and the first node from the root that contradicts it. A formula that says and denies nothing needs no search.
fn find_earlier(formulas: &Formulas, tree: &ProofTree, x: ProofTreeNodeID) -> Option<Contradiction>
    ensures { (rs : List Rec) (ns : List Node) → HasRecords rs formulas.now → formulas.now.records.len ≤ most_formulas → length ns ≡ tree.now.len → Laid ns tree.now
        → found result ≡ map (pair x.0) (partner rs ns x.0) }
{
    let c = claim_of(formulas, tree.formula_of(x));
    if is_no_literal(c) {
        return None;
    }
    find_above(c, formulas, tree, x)
}

// The pair of the path of a new leaf: from the leaf upward, as long as the nodes are new.
fn get_contradictory_node_ids(
    formulas: &Formulas,
    tree: &ProofTree,
    old: usize,
    leaf: ProofTreeNodeID,
) -> Option<Contradiction>
    ensures { (rs : List Rec) (ns : List Node) → HasRecords rs formulas.now → formulas.now.records.len ≤ most_formulas → length ns ≡ tree.now.len → Laid ns tree.now
        → NoPairAbove rs ns old → In (spots ns) leaf.0 → old ≤ leaf.0 → found result ≡ pair_of rs ns leaf.0 }
{
    let mut cur = leaf;
    for _ in 0..tree.len {
        if cur.is_none() {
            return None;
        }
        if (cur.0 as usize) < old {
            return None;
        }
        let found = find_earlier(formulas, tree, cur);
        if found.is_some() {
            return found;
        }
        cur = tree.parent_of(cur);
    }
    None
}

// The later node of a pair is marked against the earlier.
fn mark_pair(tree: &mut ProofTree, c: Option<Contradiction>)
    ensures { (tree.new.len ≡ tree.old.len) × ((ns : List Node) → HasNodes ns tree.old → HasNodes (mark ns (found c)) tree.new) }
{
    if let Some(pair) = c {
        tree.mark_child_node_as_contradictory(pair.later, pair.earlier);
    }
}

// Marks the pair of the path of x, if x is a leaf; whether it is none or has a pair.
fn mark_path(formulas: &Formulas, tree: &mut ProofTree, old: usize, x: ProofTreeNodeID) -> bool
    ensures { (tree.new.len ≡ tree.old.len)
        × ((rs : List Rec) (ns : List Node) → HasRecords rs formulas.now → formulas.now.records.len ≤ most_formulas → HasNodes ns tree.old → tree.old.len ≤ most_identifiers → NoPairAbove rs ns old → old ≤ x.0
        → HasNodes (mark ns (pair_at rs ns x.0)) tree.new × (result ≡ closed_at rs ns x.0)) }
{
    if !tree.is_placed(x) {
        return true;
    }
    if tree.is_leaf(x) {
        let c = get_contradictory_node_ids(formulas, tree, old, x);
        mark_pair(tree, c);
        return c.is_some();
    }
    true
}

// Marks path by path, by the new leaves; whether each has a pair.
fn mark_paths(formulas: &Formulas, tree: &mut ProofTree, old: usize) -> bool
    ensures { (tree.new.len ≡ tree.old.len)
        × ((rs : List Rec) (ns : List Node) → HasRecords rs formulas.now → formulas.now.records.len ≤ most_formulas → HasNodes ns tree.old → tree.old.len ≤ most_identifiers → NoPairAbove rs ns old
        → HasNodes (mark_all ns (new_pairs rs ns old (tree.old.len - old))) tree.new × (result ≡ all (closed_at rs ns) (up_from (tree.old.len - old) old))) }
{
    let mut every = true;
    for k in old..tree.len {
        if MOST_IDENTIFIERS <= k {
            return every;
        }
        every &= mark_path(formulas, tree, old, id_at(k));
    }
    every
}

// No path is without a contradictory node.
fn is_closed(tree: &ProofTree) -> bool
    ensures { (ns : List Node) → Treed ns → length ns ≡ tree.now.len → Laid ns tree.now → result ≡ empty (filter (takes ns 0) (leaves ns)) }
{
    let mut open = Numbers::new(0);
    tree.takers(ProofTreeNodeID::ROOT, &mut open);
    open.len == 0
}

// Marks the pair of each path; whether every path has one. Nothing is marked where there are too many nodes.
// The tree was checked when it had `old` nodes; it was not proved then, so without a new node it is not now.
pub fn check_for_contradictions(formulas: &Formulas, tree: &mut ProofTree, old: usize) -> bool
    ensures { (tree.new.len ≡ tree.old.len)
        × ((rs : List Rec) (ns : List Node) → HasRecords rs formulas.now → formulas.now.records.len ≤ most_formulas → HasNodes ns tree.old → (tree.old.len ≤ most_identifiers → CheckedAt rs ns old)
        → HasNodes (mark_all ns (pairs rs ns (leaves ns))) tree.new × (tree.old.len ≤ most_identifiers → result ≡ all is_pair (pairs rs ns (leaves ns)))) }
{
    if MOST_IDENTIFIERS < tree.len {
        return false;
    }
    let every = mark_paths(formulas, tree, old);
    old < tree.len && every && is_closed(tree)
}
