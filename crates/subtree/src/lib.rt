// Subtrees: copied, appended below the leaves that take them, and queued.
#![tactic(auto)]

ghost use Rattle.std.specs.Prelude.{◌≡◌, List, [], ◌∷◌, ◌++◌, map, reverse, ℕ, ◌≤◌, ◌+◌, length, drop};
ghost use Rattle.definition.specs.Limits.{most_identifiers};
ghost use Rattle.arrays.specs.Listed.{HasList};
ghost use Rattle.definition.specs.Lists.{up_from};
ghost use Rattle.definition.specs.Tree.{Node};
ghost use Rattle.definition.specs.Subtree.{Subtree, Targeted, with_middle, flat, copied, append_subtree_on_leaf, push_subtree, append_copies, append_on, append_subtree, append_logic_rule_result};
ghost use Rattle.definition.specs.TreeShape.{Treed, TreedThroughout};
ghost use Rattle.tree.specs.Lay.{HasNodes};
ghost use Rattle.tree.specs.Chain.{chain_of, empty_chain, ChainBelow, Spans, DrawnFrom};
ghost use Rattle.subtree.specs.Subtree.{subtree_of, Within, Chained, Attached, Left};
ghost use Rattle.subtree.specs.Items.{Listing};

use arrays::{Numbers, Table};
use limits::MOST_IDENTIFIERS;
use tree::{Chain, Place, ProofTree, ProofTreeNodeID};

#[derive(Clone, Copy)]
pub struct ProofSubtree {
    pub left: Chain,
    pub middle: Chain,
    pub right: Chain,
}

impl ProofSubtree {
    // One chain in the middle.
    pub fn with_middle(middle: Chain) -> Self
        ensures { (result.left ≡ empty_chain) × (result.middle ≡ middle) × (result.right ≡ empty_chain) }
    {
        ProofSubtree {
            left: Chain::EMPTY,
            middle,
            right: Chain::EMPTY,
        }
    }
}

// The same chain from the other end.
fn turned(c: Chain) -> Chain
    ensures { (chain_of result ≡ reverse (chain_of c)) × (result.start.0 ≡ c.start.0) × (result.count ≡ c.count) }
{
    Chain {
        start: c.start,
        count: c.count,
        rising: !c.rising,
    }
}

// How many nodes the subtree has.
fn size(s: ProofSubtree) -> usize
    ensures { result ≡ length (flat (subtree_of s)) }
{
    s.left.count as usize + s.middle.count as usize + s.right.count as usize
}

// A copy of each node of the chain, in its order: the chain of the copies.
fn copy_chain(tree: &mut ProofTree, c: Chain) -> Chain
    ensures { DrawnFrom tree.old.len result tree.new.len × ((ns : List Node) → HasNodes ns tree.old → ChainBelow c (length ns) → HasNodes (ns ++ map (copied ns) (chain_of c)) tree.new) }
{
    let mut copies = Chain::EMPTY;
    for k in 0..c.count as usize {
        let x = c.at(k);
        let s = tree.spawner_of(x);
        let f = tree.formula_of(x);
        let w = tree.world_of(x);
        copies = tree.extend(copies, s, f, w);
    }
    copies
}

// A copy of each node of the subtree, under identifiers drawn for it.
fn attach_new_ids(tree: &mut ProofTree, s: ProofSubtree) -> ProofSubtree
    ensures { (ns : List Node) → HasNodes ns tree.old → Within s (length ns) → Attached ns s result tree.new }
{
    let left = copy_chain(tree, s.left);
    let middle = copy_chain(tree, s.middle);
    let right = copy_chain(tree, s.right);
    ProofSubtree {
        left,
        middle,
        right,
    }
}

// The subtree becomes what stands below the leaf.
fn append_subtree_on_leaf(tree: &mut ProofTree, leaf: ProofTreeNodeID, s: ProofSubtree)
    ensures { (tree.new.len ≡ tree.old.len)
        × ((ns : List Node) → HasNodes ns tree.old → (length ns ≤ most_identifiers → Within s (length ns)) → HasNodes (append_subtree_on_leaf ns leaf.0 (subtree_of s)) tree.new) }
{
    tree.link_chain(leaf, Place::Left, s.left);
    tree.link_chain(leaf, Place::Middle, s.middle);
    tree.link_chain(leaf, Place::Right, s.right);
}

// The chain's identifiers, top first, at the end of a list.
fn push_chain(out: &mut Numbers, c: Chain)
    ensures { (q : List ℕ) → HasList q out.old → ChainBelow c most_identifiers → HasList (q ++ chain_of c) out.new }
{
    for k in 0..c.count as usize {
        out.push(c.at(k).0);
    }
}

// The subtree's identifiers at the end of the queue, each chain from the bottom up.
fn push_subtree(waiting: &mut Numbers, s: ProofSubtree)
    ensures { (q : List ℕ) → HasList q waiting.old → Within s most_identifiers → HasList (push_subtree q (subtree_of s)) waiting.new }
{
    push_chain(waiting, turned(s.left));
    push_chain(waiting, turned(s.middle));
    push_chain(waiting, turned(s.right));
}

// A copy of the subtree below one leaf.
fn append_copy(tree: &mut ProofTree, leaf: ProofTreeNodeID, s: ProofSubtree, waiting: &mut Numbers)
    ensures { (ns : List Node) (q : List ℕ) → HasNodes ns tree.old → (tree.old.len ≤ most_identifiers → HasList q waiting.old) → Within s (length ns)
        → Left (append_copies ns q (leaf.0 ∷ []) (subtree_of s)) tree.new waiting.new }
{
    let copy = attach_new_ids(tree, s);
    append_subtree_on_leaf(tree, leaf, copy);
    push_subtree(waiting, copy);
}

// A copy of the subtree below each of the leaves, from the given one on.
fn append_copies(
    tree: &mut ProofTree,
    leaves: &Numbers,
    from: usize,
    s: ProofSubtree,
    waiting: &mut Numbers,
)
    ensures { (ns : List Node) (q ls : List ℕ) → HasNodes ns tree.old → (tree.old.len ≤ most_identifiers → HasList q waiting.old) → Within s (length ns)
        → HasList ls leaves.now → leaves.now.len ≤ most_identifiers → Left (append_copies ns q (drop from ls) (subtree_of s)) tree.new waiting.new }
{
    for k in from..leaves.len {
        append_copy(tree, ProofTreeNodeID(leaves.nth(k)), s, waiting);
    }
}

// Below the first of the leaves the subtree, below each further one a copy.
fn append_on(tree: &mut ProofTree, leaves: &Numbers, s: ProofSubtree, waiting: &mut Numbers)
    ensures { (ns : List Node) (q ls : List ℕ) → HasNodes ns tree.old → (tree.old.len ≤ most_identifiers → HasList q waiting.old) → Within s (length ns)
        → HasList ls leaves.now → leaves.now.len ≤ most_identifiers → Left (append_on ns q ls (subtree_of s)) tree.new waiting.new }
{
    push_subtree(waiting, s);
    if leaves.len == 0 {
        return;
    }
    append_subtree_on_leaf(tree, ProofTreeNodeID(leaves.nth(0)), s);
    append_copies(tree, leaves, 1, s, waiting);
}

// The subtree, below each leaf whose path holds the target and has no contradictory node.
pub fn append_subtree(
    tree: &mut ProofTree,
    target: ProofTreeNodeID,
    s: ProofSubtree,
    waiting: &mut Numbers,
)
    ensures { (ns : List Node) (q : List ℕ) (t : Subtree) → HasNodes ns tree.old → (tree.old.len ≤ most_identifiers → HasList q waiting.old) → (length ns ≤ most_identifiers → Chained s t (length ns))
        → (length ns ≤ most_identifiers → Treed ns) → Left (append_subtree ns q target.0 t) tree.new waiting.new }
{
    if MOST_IDENTIFIERS < tree.len {
        return;
    }
    if size(s) == 0 {
        return;
    }
    let mut found = Numbers::new(0);
    tree.takers(target, &mut found);
    if MOST_IDENTIFIERS < found.len {
        tree.fill_up();
        return;
    }
    append_on(tree, &found, s, waiting);
}

// A chain of rising identifiers that is to be placed below a target, in the middle.
#[derive(Clone, Copy, Debug, PartialEq, Eq)]
pub struct TargetedChain {
    pub target: ProofTreeNodeID,
    pub start: ProofTreeNodeID,
    pub count: u16,
}

impl TargetedChain {
    // A chain without an identifier: it stands where there is none.
    const BLANK: TargetedChain = TargetedChain {
        target: ProofTreeNodeID(0),
        start: ProofTreeNodeID(0),
        count: 0,
    };

    // The chain as a subtree.
    fn with_middle_vertical_nodes(self) -> ProofSubtree
        ensures { (subtree_of result ≡ with_middle (up_from self.count self.start.0)) × ((m : ℕ) → self.start.0 + self.count ≤ m → Within result m) }
    {
        ProofSubtree::with_middle(Chain {
            start: self.start,
            count: self.count,
            rising: true,
        })
    }
}

// Subtrees that are to be placed. More than MOST_IDENTIFIERS of them have more identifiers than there are.
#[derive(Clone, Copy)]
pub struct Items {
    pub chains: Table<TargetedChain, MOST_IDENTIFIERS>,
}

impl Items {
    ghost use Rattle.subtree.specs.Items.{Item, HasItems};

    // No subtree.
    pub fn new() -> Self
        ensures { (m : ℕ) → HasItems [] result m }
    {
        Items {
            chains: Table::new(TargetedChain::BLANK),
        }
    }

    // One subtree more: a middle chain of identifiers above all that are there. None: nothing is stored. Too many where there is no room.
    pub fn push(&mut self, target: ProofTreeNodeID, c: Chain)
        ensures { (rs : List Item) (lo hi : ℕ) → HasItems rs self.old lo → Spans c lo hi
            → HasItems (rs ++ (record { target = target.0; start = lo; count = c.count } ∷ [])) self.new hi }
    {
        if c.count == 0 {
            return;
        }
        self.chains.push(TargetedChain {
            target,
            start: c.start,
            count: c.count,
        });
    }
}

// The subtrees of a joined result, placed and queued one after the other.
pub fn append_logic_rule_result(tree: &mut ProofTree, items: &Items, waiting: &mut Numbers)
    ensures { (ns : List Node) (q : List ℕ) (is : List Targeted) → HasNodes ns tree.old → (tree.old.len ≤ most_identifiers → HasList q waiting.old)
        → (tree.old.len ≤ most_identifiers → Listing [] is items.now (length ns)) → TreedThroughout ns q is
        → Left (append_logic_rule_result ns q is) tree.new waiting.new }
{
    if MOST_IDENTIFIERS < tree.len {
        return;
    }
    for k in 0..items.chains.len {
        let item = items.chains.get_or(k, TargetedChain::BLANK);
        append_subtree(
            tree,
            item.target,
            item.with_middle_vertical_nodes(),
            waiting,
        );
    }
}
