// The missing edges, each by one scan over the edges as they stood.
ghost use Rattle.std.specs.Prelude.{◌≡◌, Bool, false, ◌&&◌, ◌||◌, ℕ, ltb, eqb, ◌≤◌, ◌<◌};
ghost use Rattle.definition.specs.Lists.{any, below};
ghost use Rattle.definition.specs.Graph as D;
ghost use Rattle.definition.specs.Graph.{edge, paired, add_missing_reflexive_vertices, add_missing_symmetric_vertices, add_missing_transitive_vertices};

use crate::vertices::vertex_at;
use crate::{Graph, GraphVertex, PossibleWorld};
use limits::GRAPH_WIDTH;

impl Graph {
    ghost use Rattle.graph.specs.Drawn.{grid, with_vertex, looked, HasGraph};
    ghost use Rattle.limits.specs.Arrays.{edge_cells};

    // Adds each edge that the test finds missing from the graph as it stood.
    fn add_missing<F: Fn(&Graph, GraphVertex) -> bool>(&mut self, is_missing: F)
        requires { F.IsAlwaysCallable is_missing }
        ensures worlds { self.new.worlds ≡ self.old.worlds }
        ensures edges { (g : D.Graph) (missing : ℕ → ℕ → Bool) → HasGraph g self.old
            → ((stood : _) (vertex : _) (r : _) → stood.now ≡ self.old → F.post is_missing stood vertex r → r ≡ missing vertex.from.0 vertex.to.0)
            → ((u v : ℕ) → self.old.worlds ≤ u → missing u v ≡ false)
            → self.new.edges ≡ grid (λ u v. edge g u v || missing u v) }
    {
        if GRAPH_WIDTH < self.worlds {
            return;
        }
        let stood = *self;
        for n in 0..stood.worlds * GRAPH_WIDTH {
            let vertex = vertex_at(n);
            if is_missing(&stood, vertex) {
                self.add_vertex(vertex);
            }
        }
    }

    // Whether the edge runs from one of the worlds to itself.
    fn is_reflexive_vertex(&self, vertex: GraphVertex) -> bool
        ensures { result ≡ (ltb vertex.from.0 self.now.worlds && eqb vertex.from.0 vertex.to.0) }
    {
        (vertex.from.0 as usize) < self.worlds && vertex.from == vertex.to
    }

    // Each world reaches itself.
    pub fn add_missing_reflexive_vertices(&mut self)
        ensures worlds { self.new.worlds ≡ self.old.worlds }
        ensures added { (g : D.Graph) → HasGraph g self.old → HasGraph (add_missing_reflexive_vertices g) self.new }
    {
        self.add_missing(|stood, vertex| stood.is_reflexive_vertex(vertex));
    }

    // Where u reaches v, v reaches u.
    pub fn add_missing_symmetric_vertices(&mut self)
        ensures worlds { self.new.worlds ≡ self.old.worlds }
        ensures added { (g : D.Graph) → HasGraph g self.old → HasGraph (add_missing_symmetric_vertices g) self.new }
    {
        self.add_missing(|stood, vertex| stood.contains(vertex.to, vertex.from));
    }

    // Whether one edge leads to v, and an unequal one from v on.
    #[tactic(auto, unfolding(definition::specs::Graph::paired))]
    fn is_paired(&self, vertex: GraphVertex, v: PossibleWorld) -> bool
        ensures { (g : D.Graph) → HasGraph g self.now → result ≡ paired g vertex.from.0 vertex.to.0 v.0 }
    {
        if !self.contains(vertex.from, v) {
            return false;
        }
        if !self.contains(v, vertex.to) {
            return false;
        }
        vertex.from != v || v != vertex.to
    }

    // The second world of pair v of the row of `from`.
    fn world_in_row(from: PossibleWorld, v: usize) -> PossibleWorld
        requires { v < edge_cells }
        ensures { result.0 ≡ looked from.0 v }
    {
        vertex_at(from.0 as usize * GRAPH_WIDTH + v).to
    }

    // Whether the edge is there, or two unequal edges lead from its first world to its last.
    fn is_transitive_vertex(&self, vertex: GraphVertex) -> bool
        ensures { (g : D.Graph) → HasGraph g self.now → result ≡ (edge g vertex.from.0 vertex.to.0 || any (paired g vertex.from.0 vertex.to.0) (below g.worlds)) }
    {
        if GRAPH_WIDTH < self.worlds {
            return false;
        }
        if self.worlds <= vertex.from.0 as usize {
            return false;
        }
        if self.worlds <= vertex.to.0 as usize {
            return false;
        }
        if self.contains(vertex.from, vertex.to) {
            return true;
        }
        (0..self.worlds).any(|v| self.is_paired(vertex, Graph::world_in_row(vertex.from, v)))
    }

    // Where u reaches v and v reaches w by unequal edges, u reaches w.
    pub fn add_missing_transitive_vertices(&mut self)
        ensures worlds { self.new.worlds ≡ self.old.worlds }
        ensures added { (g : D.Graph) → HasGraph g self.old → HasGraph (add_missing_transitive_vertices g) self.new }
    {
        self.add_missing(|stood, vertex| stood.is_transitive_vertex(vertex));
    }
}
