//! The edges of a graph by the point where they begin.
ghost use Rattle.std.specs.Prelude.{◌<◌, All, IfOk};
ghost use Rattle.own_flow.specs.Chains.{AreChains};

use crate::flow::Edge;
use cake_base::NoMemory;
use std::alloc::Global;

/// A chain of edges for each point: the first edge that begins there, and after each edge the next
/// one that begins at the same point, or the number of edges where there is none.
#[derive(Drop)]
pub struct Chains {
    pub first: Vec<usize>,
    pub next: Vec<usize>,
}

impl Chains {
    /// The chains of the edges over so many points.
    pub fn new(alloc: Global, edges: &[Edge], points: usize) -> Result<Chains, NoMemory>
        requires { All (λ e. e.from < points) edges.now }
        ensures { IfOk result (λ chains. AreChains edges.now points chains) }
    {
        let none = edges.len();
        let mut first = vec![in alloc; none; points]?;
        let mut next = vec![in alloc; none; none]?;
        let mut at = none;
        while at > 0 {
            at -= 1;
            let from = edges[at].from;
            next[at] = first[from];
            first[from] = at;
        }
        Ok(Chains { first, next })
    }
}
