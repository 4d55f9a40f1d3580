//! A graph of the ownership check that is drawn edge by edge, with the number of its points at hand.
ghost use Rattle.std.specs.Bool.{OnTrue};
ghost use Rattle.std.specs.Prelude.{◌≡◌};
ghost use Rattle.own_flow.specs.FlowGraph.{InPlaces};

use cake_base::NoMemory;
use own_flow::{Action, FlowGraph};
use std::alloc::Global;
use std::process::Abort;

/// A graph over three places.
#[derive(Drop)]
pub struct Drawn {
    graph: FlowGraph,
    points: usize,
    ghost counted: { (graph.points ≡ points) × (graph.places ≡ 3) },
}

/// Whether the places of an action are the first three.
fn is_in_places(action: Action) -> bool
    ensures { OnTrue result (InPlaces 3 action) }
{
    match action {
        Action::Pass => true,
        Action::Set(p, _) => p < 3,
        Action::Copy(p, q) => p < 3 && q < 3,
        Action::Give(p, _) => p < 3,
        Action::Test(p, _) => p < 3,
        Action::Need(p, _, _, _) => p < 3,
    }
}

impl Drawn {
    /// The start alone.
    pub fn new(alloc: Global) -> Result<Drawn, NoMemory> {
        let graph = FlowGraph::new(alloc, 3)?;
        Ok(Drawn { graph, points: 1 })
    }

    /// Adds a point.
    pub fn point(&mut self) -> Result<(), NoMemory> {
        match self.points.checked_add(1) {
            Some(points) => {
                self.graph.point()?;
                self.points = points;
                Ok(())
            }
            None => Err(NoMemory),
        }
    }

    /// Adds an edge between points that are there.
    pub fn edge(
        &mut self,
        rt: &impl Abort,
        from: usize,
        action: Action,
        to: usize,
    ) -> Result<(), NoMemory> {
        assert!(rt; from < self.points, "the start of an edge");
        assert!(rt; to < self.points, "the end of an edge");
        assert!(rt; is_in_places(action), "the places of an edge");
        self.graph.edge(from, action, to)
    }

    /// The graph.
    pub fn graph(&self) -> &FlowGraph {
        &self.graph
    }
}
