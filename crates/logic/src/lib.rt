// What necessities give, path by path, and the rules that act as Possible or Necessary.
#![tactic(auto)]

ghost use Rattle.std.specs.Prelude.{◌≡◌, cond, List, [], ◌∷◌, ◌++◌, ℕ, suc, ◌≤◌, ◌<◌, ◌+◌, length, get_or, set};
ghost use Rattle.std.proofs.Math.Option.{Option, some};
ghost use Rattle.definition.specs.Limits.{most_identifiers};
ghost use Rattle.arrays.specs.Listed.{HasList};
ghost use Rattle.bits.specs.Worlds.{worlds_in};
ghost use Rattle.definition.specs.Lists.{Each};
ghost use Rattle.definition.specs.Records.{Rec, nobody};
ghost use Rattle.definition.specs.Graph as D;
ghost use Rattle.definition.specs.Tree.{Node, new_node, leaves};
ghost use Rattle.definition.specs.Subtree.{Targeted, with_middle, append_logic_rule_result};
ghost use Rattle.definition.specs.Modality.{Necessity, Fork, unvisited, give_on, leaves_of, reapply_necessity, visiting, is_reapplied, reapply_if_on_path, reapply_necessity_after_possibility, necessities_after_possibility};
ghost use Rattle.definition.specs.Run.{State, apply_possibility, apply_necessity};
ghost use Rattle.graph.specs.Drawn.{HasGraph};
ghost use Rattle.setting.specs.Asked.{asked};
ghost use Rattle.definition.specs.TreeShape.{Treed, TreedThroughout};
ghost use Rattle.definition.specs.Shortcuts.{ThroughSpawner};
ghost use Rattle.tree.specs.Lay.{Laid, HasNodes};
ghost use Rattle.tree.specs.Sequence.{id_at};
ghost use Rattle.necessities.specs.Stack.{HasStack, HasRow};
ghost use Rattle.subtree.specs.Items as subtrees;
ghost use Rattle.subtree.specs.Items.{Listing};
ghost use Rattle.subtree.specs.Subtree.{subtree_of, Within, Left};
ghost use Rattle.modality.specs.Seen.{Seen};
ghost use Rattle.logic.specs.Gave.{Gave};
ghost use Rattle.logic.specs.Applied.{Before, After, necessity_of};

use arrays::Numbers;
use bits::WorldSet;
use formula::FormulaNumber;
use graph::{Graph, PossibleWorld};
use limits::MOST_IDENTIFIERS;
use modality::{
    EarlierTree, Forking, PathWorlds, give_on_leaf, is_reapplied, leaves_of, leaves_through,
    unvisited, worlds_on_paths,
};
use necessities::Necessities;
use setting::Setting;
use subtree::{Items, ProofSubtree, append_logic_rule_result, append_subtree};
use tree::{Chain, ProofTree, ProofTreeNodeID};

// What the rules work on: the tree, the world graph, the stored necessities, and the nodes that wait.
#[derive(Clone, Copy)]
pub struct Tableau {
    pub tree: ProofTree,
    pub graph: Graph,
    pub necessities: Necessities,
    pub waiting: Numbers,
}

// Path by path, a node for each of the worlds that occurs there.
fn give_on(
    tree: &mut ProofTree,
    spawner: ProofTreeNodeID,
    formula: FormulaNumber,
    seen: &PathWorlds,
    worlds: WorldSet,
    on: &Numbers,
    items: &mut Items,
)
    ensures { (t more : List Node) (fk : Option Fork) (n : Necessity) (ls : List ℕ) (rs : List subtrees.Item) → n.spawner ≡ spawner.0 → n.formula ≡ formula.0
        → HasList ls on.now → on.now.len ≤ most_identifiers → Each (Seen t fk seen.now) ls
        → HasNodes (t ++ more) tree.old → (tree.old.len ≤ most_identifiers → Listing rs [] items.old tree.old.len)
        → Gave (t ++ more) rs (give_on t fk n (worlds_in worlds.0) (length (t ++ more)) ls) tree.new items.new }
{
    for j in 0..on.len {
        let leaf = ProofTreeNodeID(on.nth(j));
        let given = give_on_leaf(tree, spawner, formula, seen.on(leaf), worlds);
        items.push(leaf, given);
    }
}

// The worlds that the necessity of row k has still to visit.
fn worlds_to_visit(graph: &Graph, necessities: &Necessities, k: usize) -> WorldSet
    ensures { (g : D.Graph) (n : Necessity) → HasRow n k necessities.now → HasGraph g graph.now → worlds_in result.0 ≡ unvisited g n }
{
    let necessity = necessities.at(k);
    unvisited(graph, necessity.visited, necessity.world)
}

// The necessity of row k, i below the top, is given on its paths for these worlds, which it has then visited if it has a path.
fn reapply_necessity(
    tree: &mut ProofTree,
    necessities: &mut Necessities,
    k: usize,
    seen: &PathWorlds,
    worlds: WorldSet,
    on: &Numbers,
    items: &mut Items,
)
    ensures kept { necessities.new.leaves ≡ necessities.old.leaves }
    ensures gave { (t more : List Node) (g : D.Graph) (fk : Option Fork) (ns : List Necessity) (none : Necessity) (rs : List subtrees.Item) (i : ℕ)
        → HasStack ns necessities.old → i + k + 1 ≡ necessities.old.count → worlds_in worlds.0 ≡ unvisited g (get_or ns i none)
        → HasList (leaves_of t (get_or ns i none)) on.now → on.now.len ≤ most_identifiers → Each (Seen t fk seen.now) (leaves_of t (get_or ns i none))
        → HasNodes (t ++ more) tree.old → (tree.old.len ≤ most_identifiers → Listing rs [] items.old tree.old.len)
        → Gave (t ++ more) rs (reapply_necessity t g fk (length (t ++ more)) (get_or ns i none)) tree.new items.new
        × HasStack (set ns i (visiting t g (get_or ns i none))) necessities.new }
{
    let necessity = necessities.at(k);
    let spawner = necessity.spawner;
    give_on(tree, spawner, necessity.formula, seen, worlds, on, items);
    if on.len == 0 {
        return;
    }
    necessities.visit(k, worlds);
}

// The necessity of row k, i below the top, is given again if it has a world to visit and one of its paths goes through the forking node.
// The tree had `base` nodes before the step; it is lent whole, since nodes are appended to it.
fn reapply_if_on_path(
    tree: &mut ProofTree,
    base: usize,
    graph: &Graph,
    necessities: &mut Necessities,
    k: usize,
    node: ProofTreeNodeID,
    seen: &PathWorlds,
    items: &mut Items,
)
    ensures kept { necessities.new.leaves ≡ necessities.old.leaves }
    ensures gave { (t more : List Node) (g : D.Graph) (ns : List Necessity) (none : Necessity) (rs : List subtrees.Item) (i : ℕ) (fk : Fork)
        → HasStack ns necessities.old → i + k + 1 ≡ necessities.old.count → fk.node ≡ node.0
        → HasGraph g graph.now → length t ≡ base → Treed t → ThroughSpawner t (get_or ns i none) → Each (Seen t (some fk) seen.now) (leaves t)
        → HasNodes (t ++ more) tree.old → (tree.old.len ≤ most_identifiers → Listing rs [] items.old tree.old.len)
        → Gave (t ++ more) rs (reapply_if_on_path t g fk (length (t ++ more)) (get_or ns i none)) tree.new items.new
        × (tree.new.len ≤ most_identifiers → HasStack (set ns i (cond (is_reapplied t fk (get_or ns i none)) (visiting t g (get_or ns i none)) (get_or ns i none))) necessities.new) }
{
    if MOST_IDENTIFIERS < tree.len {
        return;
    }
    let fresh = worlds_to_visit(graph, necessities, k);
    if fresh.is_empty() {
        return;
    }
    let spawner = necessities.at(k).spawner;
    let earlier = EarlierTree { tree, base };
    if !is_reapplied(earlier, node, spawner) {
        return;
    }
    let mut on = Numbers::new(0);
    leaves_through(earlier, spawner, &mut on);
    reapply_necessity(tree, necessities, k, seen, fresh, &on, items);
}

// Every stored necessity, from the top of the stack, is given again where one of its paths goes through the forking node; the stack is turned round.
fn reapply_necessity_after_possibility(
    tree: &mut ProofTree,
    base: usize,
    graph: &Graph,
    necessities: &mut Necessities,
    node: ProofTreeNodeID,
    seen: &PathWorlds,
    items: &mut Items,
)
    ensures kept { necessities.new.leaves ≡ necessities.old.leaves }
    ensures gave { (t more : List Node) (g : D.Graph) (ns : List Necessity) (rs : List subtrees.Item) (fk : Fork)
        → HasStack ns necessities.old → fk.node ≡ node.0
        → HasGraph g graph.now → length t ≡ base → Treed t → Each (ThroughSpawner t) ns → (0 < necessities.old.count → Each (Seen t (some fk) seen.now) (leaves t))
        → HasNodes (t ++ more) tree.old → (tree.old.len ≤ most_identifiers → Listing rs [] items.old tree.old.len)
        → Gave (t ++ more) rs (reapply_necessity_after_possibility t g fk (length (t ++ more)) ns) tree.new items.new
        × (tree.new.len ≤ most_identifiers → HasStack (necessities_after_possibility t g fk ns) necessities.new) }
{
    for k in (0..necessities.count).rev() {
        if MOST_IDENTIFIERS < tree.len {
            return;
        }
        reapply_if_on_path(tree, base, graph, necessities, k, node, seen, items);
    }
    necessities.turn();
}

// Stores the necessity of node x, with the leaves of its paths.
fn store_necessity(
    tree: &ProofTree,
    necessities: &mut Necessities,
    x: ProofTreeNodeID,
    f: FormulaNumber,
)
    ensures { (s : State) → Treed s.nodes → length s.nodes ≡ tree.now.len → Laid s.nodes tree.now → HasStack s.necessities necessities.old → necessities.old.count < most_identifiers
        → HasStack (necessity_of s x.0 f.0 ∷ s.necessities) necessities.new }
{
    let now = EarlierTree {
        tree,
        base: tree.len,
    };
    let mut stored = Numbers::new(0);
    leaves_through(now, x, &mut stored);
    necessities.store(f, tree.world_of(x), x, &stored);
}

// Gives a node for each world that is reached, path by path, and stores the necessity with the leaves of its paths.
pub fn apply_necessity(
    tableau: &mut Tableau,
    setting: Setting,
    x: ProofTreeNodeID,
    f: FormulaNumber,
)
    ensures { (s : State) (more : List Rec) (q : List ℕ) → Before tableau.old s q
        → After tableau.new s q (apply_necessity (asked setting) s x.0 more f.0) }
{
    tableau.graph.initialize_graph_if_needed(setting);
    let k = tableau.necessities.count;
    store_necessity(&tableau.tree, &mut tableau.necessities, x, f);
    let now = EarlierTree {
        tree: &tableau.tree,
        base: tableau.tree.len,
    };
    let mut below = Numbers::new(0);
    leaves_through(now, x, &mut below);
    let mut on = Numbers::new(0);
    let row = tableau.necessities.at(k).leaf_row as usize;
    leaves_of(now, &tableau.necessities, row, &below, &mut on);
    let mut seen = PathWorlds::new();
    worlds_on_paths(now, None, &on, &mut seen);
    let fresh = worlds_to_visit(&tableau.graph, &tableau.necessities, k);
    let mut items = Items::new();
    reapply_necessity(
        &mut tableau.tree,
        &mut tableau.necessities,
        k,
        &seen,
        fresh,
        &on,
        &mut items,
    );
    append_logic_rule_result(&mut tableau.tree, &items, &mut tableau.waiting);
}

// The new world's formula, under its identifier, and the comment above it, which is the next.
fn with_comment(id: ProofTreeNodeID) -> ProofSubtree
    ensures { (subtree_of result ≡ with_middle (suc id.0 ∷ id.0 ∷ [])) × ((m : ℕ) → id.0 + 2 ≤ m → Within result m) }
{
    ProofSubtree::with_middle(Chain {
        start: id,
        count: 2,
        rising: false,
    })
}

// The formula's node in the new world, and then its comment's: the formula's identifier.
fn fork_nodes(
    tree: &mut ProofTree,
    x: ProofTreeNodeID,
    f: FormulaNumber,
    v: PossibleWorld,
) -> ProofTreeNodeID
    ensures { (result.0 ≡ id_at tree.old.len) × ((ns : List Node) → HasNodes ns tree.old → HasNodes (ns ++ (new_node x.0 f.0 v.0 ∷ new_node x.0 nobody 0 ∷ [])) tree.new) }
{
    let id = tree.new_node(x, f, v);
    tree.new_node(x, FormulaNumber::COMMENT, PossibleWorld::ZERO);
    id
}

// The fork's two nodes, the first under `id`, and then the subtrees that necessities gave.
fn place_fork(
    tree: &mut ProofTree,
    id: ProofTreeNodeID,
    x: ProofTreeNodeID,
    items: &Items,
    waiting: &mut Numbers,
)
    ensures { (ns : List Node) (q : List ℕ) (more : List Targeted) (base : ℕ) → HasNodes ns tree.old → HasList q waiting.old → (tree.old.len ≤ most_identifiers → id.0 ≡ base) → base + 2 ≤ length ns
        → (tree.old.len ≤ most_identifiers → Listing [] more items.now tree.old.len) → TreedThroughout ns q (record { target = x.0; subtree = with_middle (suc base ∷ base ∷ []) } ∷ more)
        → Left (append_logic_rule_result ns q (record { target = x.0; subtree = with_middle (suc base ∷ base ∷ []) } ∷ more)) tree.new waiting.new }
{
    append_subtree(tree, x, with_comment(id), waiting);
    append_logic_rule_result(tree, items, waiting);
}

// Stores the worlds that occur on each leaf's path while x forks to world v.
fn worlds_at_fork(tree: &ProofTree, x: ProofTreeNodeID, v: PossibleWorld, seen: &mut PathWorlds)
    ensures { (t : List Node) → Treed t → length t ≡ tree.now.len → Laid t tree.now → length seen.old.sets ≡ most_identifiers
        → Each (Seen t (some (record { node = x.0; world = v.0 })) seen.new) (leaves t) }
{
    let now = EarlierTree {
        tree,
        base: tree.len,
    };
    let forking = Some(Forking { node: x, world: v });
    let mut all = Numbers::new(0);
    tree.leaves_below(ProofTreeNodeID::ROOT, tree.len, &mut all);
    worlds_on_paths(now, forking, &all, seen);
}

// A new world, with the formula and its comment; then the stored necessities whose paths go through the node.
pub fn apply_possibility(
    tableau: &mut Tableau,
    setting: Setting,
    x: ProofTreeNodeID,
    f: FormulaNumber,
)
    ensures kept { tableau.new.necessities.leaves ≡ tableau.old.necessities.leaves }
    ensures after { (s : State) (more : List Rec) (q : List ℕ) → Before tableau.old s q
        → After tableau.new s q (apply_possibility (asked setting) s x.0 more f.0) }
{
    tableau.graph.initialize_graph_if_needed(setting);
    let v = tableau.graph.forked_world();
    let u = tableau.tree.world_of(x);
    tableau.graph.fork_world(u, setting);
    let mut seen = PathWorlds::new();
    // Where no necessity is stored, none asks what occurs on a path.
    if 0 < tableau.necessities.count {
        worlds_at_fork(&tableau.tree, x, v, &mut seen);
    }
    let base = tableau.tree.len;
    let id = fork_nodes(&mut tableau.tree, x, f, v);
    let mut items = Items::new();
    reapply_necessity_after_possibility(
        &mut tableau.tree,
        base,
        &tableau.graph,
        &mut tableau.necessities,
        x,
        &seen,
        &mut items,
    );
    place_fork(&mut tableau.tree, id, x, &items, &mut tableau.waiting);
}
