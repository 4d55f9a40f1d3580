//! The graph that a caller builds, point by point and edge by edge.
ghost use Rattle.std.specs.Prelude.{◌≡◌, ◌+◌, ◌<◌, ◌≤◌, [], ◌∷◌, ◌++◌, All, IfOk, OnOk, OnErr};
ghost use Rattle.own_flow.specs.FlowGraph.{Fits};

use crate::flow::{Action, Edge};
use cake_base::NoMemory;
use std::alloc::Global;
use std::marker::Model;

/// A graph over so many tracked places. Its points are counted from 0, the start.
#[derive(Drop)]
pub struct FlowGraph {
    places: u32,
    points: usize,
    edges: Vec<Edge>,
}

impl Model for FlowGraph {
    ghost use Rattle.std.specs.Prelude.{◌<◌, All};
    ghost use Rattle.own_flow.specs.FlowGraph.{Graph, Fits};

    ghost Value = { Graph };

    ghost view = { λ g. record { places = g.places; points = g.points; edges = g.edges.items } };

    ghost invariant = { λ g. (0 < g.points) × All (Fits g.places g.points) g.edges.items };
}

impl FlowGraph {
    /// A graph over `places` tracked places that has the start alone, and no edge.
    pub fn new(alloc: Global, places: u32) -> Result<FlowGraph, NoMemory>
        ensures { IfOk result (λ g. g ≡ record { places = places; points = 1; edges = [] }) }
    {
        Ok(FlowGraph {
            places,
            points: 1,
            edges: Vec::new(alloc),
        })
    }

    /// Adds a point, and gives its number. It is refused only where no machine word counts one point
    /// more; unchanged then.
    pub fn point(&mut self) -> Result<usize, NoMemory>
        ensures number { IfOk result (λ n. n ≡ self.old.points) }
        ensures ok { OnOk result (self.new ≡ record self.old { points = self.old.points + 1 }) }
        ensures err { OnErr result (self.new ≡ self.old) }
        ensures full { OnErr result (usize.MAX ≤ self.old.points) }
    {
        let number = self.points;
        match number.checked_add(1) {
            Some(points) => {
                self.points = points;
                Ok(number)
            }
            None => Err(NoMemory),
        }
    }

    /// Adds an edge between points that are there, about places that are there. Unchanged on
    /// refusal.
    pub fn edge(&mut self, from: usize, action: Action, to: usize) -> Result<(), NoMemory>
        requires { Fits self.old.places self.old.points (record { from = from; action = action; to = to }) }
        ensures ok { OnOk result (self.new ≡ record self.old { edges = self.old.edges ++ record { from = from; action = action; to = to } ∷ [] }) }
        ensures err { OnErr result (self.new ≡ self.old) }
    {
        self.edges.push(Edge { from, action, to })?;
        Ok(())
    }

    /// The number of places.
    pub(crate) fn places(&self) -> u32
        ensures { result ≡ self.now.places }
    {
        self.places
    }

    /// The number of points.
    pub(crate) fn points(&self) -> usize
        ensures is { result ≡ self.now.points }
        ensures some { 0 < result }
    {
        self.points
    }

    /// The edges, in the order in which they were added.
    pub(crate) fn edges(&self) -> &[Edge]
        ensures are { result.now ≡ self.now.edges }
        ensures fit { All (Fits self.now.places self.now.points) self.now.edges }
    {
        self.edges.as_slice()
    }
}
