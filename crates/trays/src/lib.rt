// The trays that a run leaves: nodes, formulas, edges.
#![tactic(auto)]

ghost use Rattle.std.specs.Prelude.{◌≡◌, Bool, cond, List, [], map, ◌⊎◌, ◌≤◌, ◌<◌, length, get_or, replicate};
ghost use Rattle.definition.specs.Limits.{most_identifiers, most_formulas, graph_width, node_tray_length, formula_tray_length, edge_tray_length};
ghost use Rattle.definition.specs.Lists.{Each, concat_map, padded};
ghost use Rattle.definition.specs.Records.{Rec, rec_at};
ghost use Rattle.definition.specs.Tree.{Node, node_at};
ghost use Rattle.definition.specs.Graph as D;
ghost use Rattle.definition.specs.Trays.{node_bytes, record_bytes, row_number, over};
ghost use Rattle.tree.specs.Lay.{Laid};
ghost use Rattle.formula.specs.Recorded.{HasRecords};
ghost use Rattle.graph.specs.Drawn.{HasGraph};
ghost use Rattle.slices.specs.Written.{Puts};

use formula::{FormulaNumber, Formulas};
use graph::{Graph, PossibleWorld};
use limits::{
    EDGE_TRAY_LENGTH, FORMULA_TRAY_LENGTH, GRAPH_WIDTH, MOST_FORMULAS, MOST_IDENTIFIERS,
    NODE_TRAY_LENGTH,
};
use slices::{put, put_two, put_zeros};
use tree::{ProofTree, ProofTreeNodeID, id_at};

// The record of node x, 12 bytes.
fn put_node(tray: &mut [u8], at: usize, tree: &ProofTree, x: ProofTreeNodeID) -> usize
    ensures { (ns : List Node) → Laid ns tree.now → (node_at ns x.0).world < 256
        → Puts (node_bytes (node_at ns x.0)) at tray.old result tray.new }
{
    let parent = tree.parent_of(x);
    let place = tree.place_of(x).number();
    let [world, _] = tree.world_of(x).0.to_le_bytes();
    let formula = tree.formula_of(x);
    let spawner = tree.spawner_of(x);
    let contrarian = tree.contrarian_of(x);
    let contradictory = tree.is_contradictory(x);
    let a = put_two(tray, at, parent.0);
    let b = put(tray, a, place);
    let c = put(tray, b, world);
    let d = put_two(tray, c, formula.0);
    let e = put_two(tray, d, spawner.0);
    let f = put_two(tray, e, contrarian.0);
    let g = put(tray, f, u8::from(contradictory));
    put(tray, g, 0)
}

// The node tray that is lent, and the position of the next record.
#[derive(Drop)]
struct NodeWriter<'a> {
    tray: &'a mut [u8],
    at: usize,
}

impl<'a> NodeWriter<'a> {
    ghost use Rattle.trays.specs.Appended.{Appends};

    // A writer at the tray's start.
    fn new(tray: &'a mut [u8]) -> NodeWriter<'a>
        ensures same_tray { result.tray ≡ tray.entry }
        ensures at { result.at ≡ 0 }
    {
        NodeWriter { tray, at: 0 }
    }

    // The record of node x is appended, and the position moves on to the one after it.
    fn append(&mut self, tree: &ProofTree, x: ProofTreeNodeID)
        ensures same_tray { self.new.tray.ghost_name ≡ self.old.tray.ghost_name }
        ensures appends { (ns : List Node) → Laid ns tree.now → (node_at ns x.0).world < 256
            → Appends (node_bytes (node_at ns x.0)) self.old self.new }
    {
        self.at = put_node(&mut *self.tray, self.at, tree, x);
    }

    // The records of all nodes, in order of identifier.
    fn append_all(&mut self, tree: &ProofTree)
        ensures same_tray { self.new.tray.ghost_name ≡ self.old.tray.ghost_name }
        ensures appends { (ns : List Node) → length ns ≡ tree.now.len → Laid ns tree.now → Each (λ (x : Node). x.world < 256) ns
            → Appends (concat_map node_bytes ns) self.old self.new }
    {
        for i in 0..tree.len {
            self.append(tree, id_at(i));
        }
    }
}

// The node tray: the records in order of identifier, then zeros.
// In a short tray, or of more nodes than the limit, nothing is written.
pub fn write_nodes(tray: &mut [u8], tree: &ProofTree)
    ensures { ((ns : List Node) → length ns ≡ tree.now.len → Laid ns tree.now → Each (λ (x : Node). x.world < 256) ns
        → node_tray_length ≤ length tray.old → tray.new ≡ over (padded node_tray_length (concat_map node_bytes ns)) tray.old)
        × ((length tray.old < node_tray_length) ⊎ (most_identifiers < tree.now.len) → tray.new ≡ tray.old) }
{
    if tray.len() < NODE_TRAY_LENGTH {
        return;
    }
    if MOST_IDENTIFIERS < tree.len {
        return;
    }
    let mut w = NodeWriter::new(tray);
    w.append_all(tree);
    let at = w.at;
    put_zeros(tray, at, NODE_TRAY_LENGTH);
}

// The record of formula f, 6 bytes.
fn put_formula(tray: &mut [u8], at: usize, formulas: &Formulas, f: FormulaNumber) -> usize
    ensures { (rs : List Rec) → HasRecords rs formulas.now → formulas.now.records.len ≤ most_formulas → (rec_at rs f.0).mark < 256
        → Puts (record_bytes (rec_at rs f.0)) at tray.old result tray.new }
{
    let record = formulas.record_at(f);
    let [kind, _] = record.kind.to_le_bytes();
    let [mark, _] = record.mark.to_le_bytes();
    let a = put(tray, at, kind);
    let b = put(tray, a, mark);
    let c = put_two(tray, b, record.left.0);
    put_two(tray, c, record.right.0)
}

// The formula tray: the records, then zeros.
// In a short tray, or of more records than the limit, nothing is written.
pub fn write_formulas(tray: &mut [u8], formulas: &Formulas)
    ensures { ((rs : List Rec) → HasRecords rs formulas.now → formulas.now.records.len ≤ most_formulas → Each (λ (r : Rec). r.mark < 256) rs
        → formula_tray_length ≤ length tray.old → tray.new ≡ over (padded formula_tray_length (concat_map record_bytes rs)) tray.old)
        × ((length tray.old < formula_tray_length) ⊎ (most_formulas < formulas.now.records.len) → tray.new ≡ tray.old) }
{
    if tray.len() < FORMULA_TRAY_LENGTH {
        return;
    }
    if MOST_FORMULAS < formulas.records.len {
        return;
    }
    let mut at: usize = 0;
    for i in 0..formulas.records.len {
        at = put_formula(tray, at, formulas, FormulaNumber(i as u16));
    }
    put_zeros(tray, at, FORMULA_TRAY_LENGTH);
}

// The edge number of world u: bit v says that u reaches v. Zero of a number that is no world.
fn edge_number(graph: &Graph, u: PossibleWorld) -> u32
    ensures { (g : D.Graph) → HasGraph g graph.now → length g.rows ≡ g.worlds → length (get_or g.rows u.0 []) ≤ graph_width → result ≡ row_number (get_or g.rows u.0 []) }
{
    if graph.worlds <= u.0 as usize {
        return 0;
    }
    let mut n: u32 = 0;
    for v in (0..GRAPH_WIDTH).rev() {
        n = n * 2 + u32::from(graph.contains(u, PossibleWorld(v as u16)));
    }
    n
}

// The edge tray: a number for each world, then zeros, since no edge starts at a number that is no world.
// In a short tray, or of more worlds than the limit, nothing is written.
pub fn write_edges(tray: &mut [u32], graph: &Graph)
    ensures { ((g : D.Graph) → HasGraph g graph.now → length g.rows ≡ g.worlds → Each (λ (row : List Bool). length row ≡ g.worlds) g.rows
        → edge_tray_length ≤ length tray.old → tray.new ≡ over (padded edge_tray_length (map row_number g.rows)) tray.old)
        × ((length tray.old < edge_tray_length) ⊎ (graph_width < graph.now.worlds) → tray.new ≡ tray.old) }
{
    if tray.len() < EDGE_TRAY_LENGTH {
        return;
    }
    if GRAPH_WIDTH < graph.worlds {
        return;
    }
    for u in 0..EDGE_TRAY_LENGTH {
        tray[u] = edge_number(graph, PossibleWorld(u as u16));
    }
}

// The node and formula trays zeroed, to a length; a tray that is shorter is left.
pub fn clear(tray: &mut [u8], end: usize)
    ensures { (end ≤ length tray.old → tray.new ≡ over (replicate end 0) tray.old)
        × (length tray.old < end → tray.new ≡ tray.old) }
{
    put_zeros(tray, 0, end);
}

// The edge tray zeroed; a short tray is left.
pub fn clear_edges(tray: &mut [u32])
    ensures { (edge_tray_length ≤ length tray.old → tray.new ≡ over (replicate edge_tray_length 0) tray.old)
        × (length tray.old < edge_tray_length → tray.new ≡ tray.old) }
{
    if tray.len() < EDGE_TRAY_LENGTH {
        return;
    }
    tray[..EDGE_TRAY_LENGTH].fill(0);
}
