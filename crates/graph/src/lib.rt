// The world graph.
#![tactic(auto)]

mod missing_vertices;
pub mod vertices;

ghost use Rattle.std.specs.Prelude.{◌≡◌, Bool, ℕ, suc, min, ◌<◌, ◌≤◌, eqb};
ghost use Rattle.definition.specs.Limits.{graph_width};
ghost use Rattle.definition.specs.Graph as D;
ghost use Rattle.definition.specs.Graph.{edge, add_missing_graph_vertices, initialize_graph_if_needed, fork, empty_graph};
ghost use Rattle.setting.specs.Asked.{asked};

use limits::{EDGE_CELLS, GRAPH_WIDTH};
use setting::Setting;

#[derive(Clone, Copy, Debug, PartialEq, Eq)]
pub struct PossibleWorld(pub u16);

impl PossibleWorld {
    pub const ZERO: PossibleWorld = PossibleWorld(0);

    // No world: what a node that is not there has; also the last index, which no graph has room for.
    // A number and no Option: it is the definition's, and an Option would double an entry's field.
    pub const NONE: PossibleWorld = PossibleWorld(65535);

    // The next world. The last index stays.
    fn fork(self) -> PossibleWorld
        ensures { result.0 ≡ min (suc self.0) 65535 }
    {
        PossibleWorld(self.0.saturating_add(1))
    }
}

// An edge; the name is the Rust's.
#[derive(Clone, Copy, Debug, PartialEq, Eq)]
pub struct GraphVertex {
    pub from: PossibleWorld,
    pub to: PossibleWorld,
}

// The edges, a row of GRAPH_WIDTH flags for each world, and how many worlds there are.
#[derive(Clone, Copy)]
pub struct Graph {
    pub edges: [bool; EDGE_CELLS],
    pub worlds: usize,
}

impl Graph {
    ghost use Rattle.graph.specs.Drawn.{grid, with_vertex, HasGraph};

    // No world.
    #[tactic(auto, using(crate::proofs::Drawn::drawn_none))]
    pub fn new() -> Self
        ensures { HasGraph empty_graph result }
    {
        Graph {
            edges: [false; EDGE_CELLS],
            worlds: 0,
        }
    }

    // Whether u reaches v.
    #[tactic(auto, using(crate::proofs::Drawn::drawn_cell))]
    pub fn contains(&self, u: PossibleWorld, v: PossibleWorld) -> bool
        ensures { (g : D.Graph) → HasGraph g self.now → result ≡ edge g u.0 v.0 }
    {
        let from = u.0 as usize;
        let to = v.0 as usize;
        if GRAPH_WIDTH <= from {
            return false;
        }
        if GRAPH_WIDTH <= to {
            return false;
        }
        self.edges[from * GRAPH_WIDTH + to]
    }

    // One edge more, where both worlds have a place.
    #[tactic(auto, using(crate::proofs::Grid::grid_set, crate::proofs::Grid::grid_out))]
    fn add_vertex(&mut self, vertex: GraphVertex)
        ensures { ((e : ℕ → ℕ → Bool) → self.old.edges ≡ grid e → self.new.edges ≡ grid (with_vertex e vertex.from.0 vertex.to.0)) × (self.new.worlds ≡ self.old.worlds) }
    {
        let from = vertex.from.0 as usize;
        let to = vertex.to.0 as usize;
        if GRAPH_WIDTH <= from {
            return;
        }
        if GRAPH_WIDTH <= to {
            return;
        }
        self.edges[from * GRAPH_WIDTH + to] = true;
    }

    // The missing edges: reflexive, symmetric, transitive, each if flagged.
    fn add_missing_graph_vertices(&mut self, setting: Setting)
        ensures { (g : D.Graph) → HasGraph g self.old → HasGraph (add_missing_graph_vertices (asked setting) g) self.new }
    {
        if setting.is_reflexive {
            self.add_missing_reflexive_vertices();
        }
        if setting.is_symmetric {
            self.add_missing_symmetric_vertices();
        }
        if setting.is_transitive {
            self.add_missing_transitive_vertices();
        }
    }

    // Puts world 0 in an empty graph.
    #[tactic(auto, using(crate::proofs::Forks::init_kept))]
    pub fn initialize_graph_if_needed(&mut self, setting: Setting)
        ensures { (g : D.Graph) → HasGraph g self.old → HasGraph (initialize_graph_if_needed (asked setting) g) self.new }
    {
        if self.worlds != 0 {
            return;
        }
        self.worlds = 1;
        self.add_missing_graph_vertices(setting);
    }

    // The world after the largest of these; world zero where there is none.
    pub fn forked_world(&self) -> PossibleWorld
        ensures { result.0 ≡ min self.now.worlds 65535 }
    {
        if self.worlds == 0 {
            return PossibleWorld::ZERO;
        }
        if 65535 < self.worlds {
            return PossibleWorld::NONE;
        }
        PossibleWorld((self.worlds - 1) as u16).fork()
    }

    // A new world, which u reaches, while there is room for one.
    pub fn fork_world(&mut self, u: PossibleWorld, setting: Setting)
        ensures { ((g : D.Graph) → self.old.worlds < graph_width → HasGraph g self.old → HasGraph (fork (asked setting) g u.0) self.new)
            × (graph_width ≤ self.old.worlds → self.new ≡ self.old) }
    {
        if GRAPH_WIDTH <= self.worlds {
            return;
        }
        let forked = self.forked_world();
        // An edge runs between worlds of the graph.
        if u.0 <= forked.0 {
            self.add_vertex(GraphVertex {
                from: u,
                to: forked,
            });
        }
        self.worlds += 1;
        self.add_missing_graph_vertices(setting);
    }
}
