// The pairs of worlds by their number, in rising order.
ghost use Rattle.std.specs.Prelude.{◌≡◌, ◌/◌, ◌%◌, ◌<◌, ◌≤◌};
ghost use Rattle.definition.specs.Limits.{graph_width};
ghost use Rattle.limits.specs.Arrays.{edge_cells};

use crate::{GraphVertex, PossibleWorld};
use limits::{EDGE_CELLS, GRAPH_WIDTH};

// The n-th pair of worlds in rising order; past the last, the first.
pub fn vertex_at(n: usize) -> GraphVertex
    ensures { (n < edge_cells → (result.from.0 ≡ n / graph_width) × (result.to.0 ≡ n % graph_width)) × (edge_cells ≤ n → (result.from.0 ≡ 0) × (result.to.0 ≡ 0)) }
{
    if EDGE_CELLS <= n {
        return GraphVertex {
            from: PossibleWorld::ZERO,
            to: PossibleWorld::ZERO,
        };
    }
    GraphVertex {
        from: PossibleWorld((n / GRAPH_WIDTH) as u16),
        to: PossibleWorld((n % GRAPH_WIDTH) as u16),
    }
}
