// Necessities: what is stored of them, on which paths they are given again, and what they give there.
#![tactic(auto)]

ghost use Rattle.std.specs.Prelude.{◌≡◌, Bool, false, ◌&&◌, ◌||◌, not, List, [], ◌++◌, map, ℕ, ◌≤◌, ◌<◌, ◌+◌, length, get_or, set, replicate};
ghost use Rattle.definition.specs.Limits.{most_identifiers};
ghost use Rattle.arrays.specs.Listed.{HasList};
ghost use Rattle.bits.specs.Bits.{bit_of};
ghost use Rattle.bits.specs.Worlds.{no_world, worlds_in, InWord};
ghost use Rattle.definition.specs.Lists.{Each, any, elem, filter};
ghost use Rattle.definition.specs.Graph as D;
ghost use Rattle.definition.specs.Graph.{edge};
ghost use Rattle.definition.specs.Tree.{Node, node_at, new_node, path, leaves};
ghost use Rattle.definition.specs.Modality.{Necessity, Fork, runs_through, occurs, unvisited, is_reapplied};
ghost use Rattle.definition.specs.TreeShape.{placed, Treed};
ghost use Rattle.definition.specs.Shortcuts.{ThroughSpawner};
ghost use Rattle.graph.specs.Drawn.{HasGraph};
ghost use Rattle.tree.specs.Chain.{DrawnFrom};
ghost use Rattle.tree.specs.Lay.{HasNodes};
ghost use Rattle.necessities.specs.Stored.{InRow};
ghost use Rattle.modality.specs.Earlier.{HasEarlier};
ghost use Rattle.modality.specs.Forking.{fork_of};
ghost use Rattle.modality.specs.Seen.{brings, Seen};

use arrays::Numbers;
use bits::WorldSet;
use formula::FormulaNumber;
use graph::vertices::vertex_at;
use graph::{Graph, PossibleWorld};
use limits::{GRAPH_WIDTH, MOST_IDENTIFIERS};
use necessities::Necessities;
use tree::{Chain, ProofTree, ProofTreeNodeID};

// A fork in progress: the forking node and the new world.
#[derive(Clone, Copy, Debug, PartialEq, Eq)]
pub struct Forking {
    pub node: ProofTreeNodeID,
    pub world: PossibleWorld,
}

// The worlds that occur on the path of each leaf, an entry for each node.
#[derive(Clone, Copy)]
pub struct PathWorlds {
    pub sets: [WorldSet; MOST_IDENTIFIERS],
}

impl PathWorlds {
    // No world on any path.
    pub fn new() -> Self
        ensures sets { result.sets ≡ replicate most_identifiers no_world }
        ensures len { length result.sets ≡ most_identifiers }
    {
        PathWorlds {
            sets: [WorldSet::EMPTY; MOST_IDENTIFIERS],
        }
    }

    // The worlds on the path of a leaf.
    pub fn on(&self, leaf: ProofTreeNodeID) -> WorldSet
        ensures { leaf.0 < most_identifiers → result ≡ get_or self.now.sets leaf.0 no_world }
    {
        let i = leaf.0 as usize;
        if MOST_IDENTIFIERS <= i {
            return WorldSet::EMPTY;
        }
        self.sets[i]
    }

    fn put(&mut self, leaf: ProofTreeNodeID, worlds: WorldSet)
        ensures { (leaf.0 < most_identifiers → self.new.sets ≡ set self.old.sets leaf.0 worlds) × (most_identifiers ≤ leaf.0 → self.new ≡ self.old) }
    {
        let i = leaf.0 as usize;
        if MOST_IDENTIFIERS <= i {
            return;
        }
        self.sets[i] = worlds;
    }
}

// The tree as it stood when it had `base` nodes, whatever nodes were made since.
#[derive(Clone, Copy)]
pub struct EarlierTree<'a> {
    pub tree: &'a ProofTree,
    pub base: usize,
}

impl<'a> EarlierTree<'a> {
    fn parent_of(self, x: ProofTreeNodeID) -> ProofTreeNodeID
        ensures { (t : List Node) → HasEarlier t self.entry → result.0 ≡ (node_at t x.0).parent }
    {
        if self.base <= x.0 as usize {
            return ProofTreeNodeID::NONE;
        }
        self.tree.parent_of(x)
    }

    fn world_of(self, x: ProofTreeNodeID) -> PossibleWorld
        ensures { (t : List Node) → HasEarlier t self.entry → result.0 ≡ (node_at t x.0).world }
    {
        if self.base <= x.0 as usize {
            return PossibleWorld::NONE;
        }
        self.tree.world_of(x)
    }

    fn is_placed(self, x: ProofTreeNodeID) -> bool
        ensures { (t : List Node) → HasEarlier t self.entry → result ≡ placed (node_at t x.0).place }
    {
        (x.0 as usize) < self.base && self.tree.is_placed(x)
    }

    // A node of the leaf's path passes the test.
    // A climb of its own, beside `tree`'s: what asks that its test can be called is public in no crate.
    fn any_on_path<F: Fn(ProofTreeNodeID) -> bool>(self, leaf: ProofTreeNodeID, test: F) -> bool
        requires { F.IsAlwaysCallable test }
        ensures { (t : List Node) (p : ℕ → Bool) → HasEarlier t self.entry → ((x : ProofTreeNodeID) (b : Bool) → F.post test x b → b ≡ p x.0) → result ≡ any p (path t leaf.0) }
    {
        let mut cur = leaf;
        for _ in 0..self.base {
            if self.base <= cur.0 as usize {
                // What is no node of that tree has no parent there.
                return !cur.is_none() && test(cur);
            }
            if test(cur) {
                return true;
            }
            cur = self.tree.parent_of(cur);
        }
        false
    }
}

// The path runs through a leaf stored in row k.
fn path_runs_through(
    earlier: EarlierTree,
    necessities: &Necessities,
    k: usize,
    leaf: ProofTreeNodeID,
) -> bool
    ensures { (t : List Node) (n : Necessity) → HasEarlier t earlier.entry → InRow k n.leaves necessities.now.leaves.words → result ≡ runs_through n (path t leaf.0) }
{
    earlier.any_on_path(leaf, |x| necessities.row_contains(k, x))
}

// The path goes through node x.
fn path_goes_through(earlier: EarlierTree, x: ProofTreeNodeID, leaf: ProofTreeNodeID) -> bool
    ensures { (t : List Node) → HasEarlier t earlier.entry → result ≡ elem x.0 (path t leaf.0) }
{
    earlier.any_on_path(leaf, |y| y == x)
}

// Of the listed leaves, those whose paths run through a leaf stored in row k.
pub fn leaves_of(
    earlier: EarlierTree,
    necessities: &Necessities,
    k: usize,
    list: &Numbers,
    out: &mut Numbers,
)
    ensures { (t : List Node) (n : Necessity) (ls l : List ℕ) → HasEarlier t earlier.entry → InRow k n.leaves necessities.now.leaves.words → HasList ls list.now → list.now.len ≤ most_identifiers
        → HasList l out.old → HasList (l ++ filter (λ leaf. runs_through n (path t leaf)) ls) out.new }
{
    for j in 0..list.len {
        let leaf = list.nth(j);
        if path_runs_through(earlier, necessities, k, ProofTreeNodeID(leaf)) {
            out.push(leaf);
        }
    }
}

// The leaves whose paths go through node x: those at and below it, if it is in the tree. The list is empty at first.
pub fn leaves_through(earlier: EarlierTree, x: ProofTreeNodeID, out: &mut Numbers)
    ensures { (t : List Node) → Treed t → HasEarlier t earlier.entry → HasList [] out.old → HasList (filter (λ leaf. elem x.0 (path t leaf)) (leaves t)) out.new }
{
    if earlier.is_placed(x) {
        earlier.tree.leaves_below(x, earlier.base, out);
    }
}

// A path of the necessity goes through the forking node: both are in the tree, and one stands above the other.
pub fn is_reapplied(earlier: EarlierTree, node: ProofTreeNodeID, spawner: ProofTreeNodeID) -> bool
    ensures { (t : List Node) (k : Fork) (n : Necessity) → Treed t → ThroughSpawner t n → k.node ≡ node.0 → n.spawner ≡ spawner.0 → HasEarlier t earlier.entry → result ≡ is_reapplied t k n }
{
    earlier.is_placed(node)
        && earlier.is_placed(spawner)
        && (path_goes_through(earlier, spawner, node) || path_goes_through(earlier, node, spawner))
}

// These worlds, and those that node x brings to its paths: its own, and the new world if it is the forking node.
fn with_worlds(
    earlier: EarlierTree,
    forking: Option<Forking>,
    worlds: WorldSet,
    x: ProofTreeNodeID,
) -> WorldSet
    ensures { (t : List Node) → HasEarlier t earlier.entry → (v : ℕ) → v < 32 → bit_of result.0 v ≡ (brings t (fork_of forking) v x.0 || bit_of worlds.0 v) }
{
    let here = worlds.with(earlier.world_of(x));
    match forking {
        Some(fork) if fork.node == x => here.with(fork.world),
        _ => here,
    }
}

// The worlds that occur on the path of a leaf; the new world of a fork does on the paths through the forking node.
fn worlds_on(earlier: EarlierTree, forking: Option<Forking>, leaf: ProofTreeNodeID) -> WorldSet
    ensures { (t : List Node) → HasEarlier t earlier.entry → (v : ℕ) → v < 32 → bit_of result.0 v ≡ occurs t (fork_of forking) (path t leaf.0) v }
{
    let mut worlds = WorldSet::EMPTY;
    let mut cur = leaf;
    for _ in 0..earlier.base {
        if cur.is_none() {
            return worlds;
        }
        worlds = with_worlds(earlier, forking, worlds, cur);
        cur = earlier.parent_of(cur);
    }
    worlds
}

// Stores the worlds that occur on the paths of the listed leaves, each at its leaf. The other entries stay.
pub fn worlds_on_paths(
    earlier: EarlierTree,
    forking: Option<Forking>,
    on: &Numbers,
    seen: &mut PathWorlds,
)
    ensures { ((t : List Node) (ls : List ℕ) → HasEarlier t earlier.entry → HasList ls on.now → on.now.len ≤ most_identifiers → Each (λ l. l < most_identifiers) ls → length seen.old.sets ≡ most_identifiers
        → Each (Seen t (fork_of forking) seen.new) ls)
        × ((ls : List ℕ) → HasList ls on.now → on.now.len ≤ most_identifiers → (x : ℕ) → elem x ls ≡ false → get_or seen.new.sets x no_world ≡ get_or seen.old.sets x no_world) }
{
    for j in 0..on.len {
        let leaf = ProofTreeNodeID(on.nth(j));
        let worlds = worlds_on(earlier, forking, leaf);
        seen.put(leaf, worlds);
    }
}

// u reaches v, and v is not one of the worlds visited.
fn is_unvisited(graph: &Graph, visited: WorldSet, u: PossibleWorld, v: PossibleWorld) -> bool
    ensures { (g : D.Graph) (l : List ℕ) → HasGraph g graph.now → InWord l visited.0 → result ≡ (edge g u.0 v.0 && not (elem v.0 l)) }
{
    graph.contains(u, v) && !visited.contains(v)
}

// The worlds that u reaches and that are not visited.
pub fn unvisited(graph: &Graph, visited: WorldSet, u: PossibleWorld) -> WorldSet
    ensures { (g : D.Graph) (n : Necessity) → n.world ≡ u.0 → HasGraph g graph.now → InWord n.visited visited.0 → worlds_in result.0 ≡ unvisited g n }
{
    let from = u.0 as usize;
    if GRAPH_WIDTH < graph.worlds {
        return WorldSet::EMPTY;
    }
    if graph.worlds <= from {
        return WorldSet::EMPTY;
    }
    let mut found = WorldSet::EMPTY;
    for v in 0..graph.worlds {
        let step = vertex_at(from * GRAPH_WIDTH + v);
        if is_unvisited(graph, visited, step.from, step.to) {
            found = found.with(step.to);
        }
    }
    found
}

// On one path: a node for each of the worlds that is among those that occur there, rising, each below the last one.
pub fn give_on_leaf(
    tree: &mut ProofTree,
    spawner: ProofTreeNodeID,
    formula: FormulaNumber,
    here: WorldSet,
    worlds: WorldSet,
) -> Chain
    ensures { DrawnFrom tree.old.len result tree.new.len × ((ns : List Node) (p : ℕ → Bool) → ((v : ℕ) → v < 32 → bit_of here.0 v ≡ p v)
        → HasNodes ns tree.old → HasNodes (ns ++ map (new_node spawner.0 formula.0) (filter p (worlds_in worlds.0))) tree.new) }
{
    let mut given = Chain::EMPTY;
    for v in worlds.intersection(here).iter() {
        given = tree.extend(given, spawner, formula, v);
    }
    given
}
