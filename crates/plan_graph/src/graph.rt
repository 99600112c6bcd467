ghost use Rattle.std.specs.Prelude.{◌≡◌, ◌<◌, ◌^◌, ◌&&◌, true, length, IfSome, IsTrue, nat_lt};
ghost use Rattle.std.specs.List.{list_all};
ghost use Rattle.std.specs.Option.{is_some};
ghost use Rattle.plan_graph.specs.Graphs.{ends_within};

use crate::node::Edge;
use sqlite_items::Items;

/// Nodes with their costs, and edges between them. There are fewer than 2^32 nodes, and the ends of each edge are
/// among them.
#[derive(Drop)]
pub struct Graph {
    /// What each node costs to run, by its number.
    pub costs: Items<u32>,
    pub edges: Items<Edge>,
    ghost few: { length costs < 2 ^ 32 },
    ghost ends: { list_all (ends_within (length costs)) edges ≡ true },
}

impl Graph {
    /// The graph of these costs and edges. `None` comes exactly where there are 2^32 costs or more, or an edge has an
    /// end that is no node.
    pub fn new(costs: Items<u32>, edges: Items<Edge>) -> Option<Graph>
        ensures exactly { is_some result ≡ (nat_lt (length costs) (2 ^ 32) && list_all (ends_within (length costs)) edges) }
        ensures costs { IfSome result (λ g. g.costs ≡ costs) }
        ensures edges { IfSome result (λ g. g.edges ≡ edges) }
    {
        if costs.len() >= 1 << 32 {
            return None;
        }
        if !all_within(costs.len(), edges.as_slice()) {
            return None;
        }
        Some(Graph { costs, edges })
    }

    /// How many nodes it has.
    pub fn nodes(&self) -> u32
        ensures { result ≡ length self.now.costs }
    {
        self.costs.len() as u32
    }
}

// Whether both ends of each edge are below the number of nodes.
fn all_within(nodes: usize, edges: &[Edge]) -> bool
    ensures { result ≡ list_all (ends_within nodes) edges.now }
{
    edges.iter().all(|e| is_within(nodes, *e))
}

fn is_within(nodes: usize, edge: Edge) -> bool
    ensures { result ≡ ends_within nodes edge }
{
    (edge.from as usize) < nodes && (edge.to as usize) < nodes
}
