//! The worklist: what is possible at each point, each fact followed once.
ghost use Rattle.std.specs.Prelude.{◌≡◌, ◌+◌, ◌*◌, ◌<◌, ◌≤◌, [], ◌∷◌, ◌++◌, length, false, replicate, All, IfOk, OnOk, IfSome, IfNone, Some, slice_get};
ghost use Rattle.own_flow.specs.FlowGraph.{Fits, InPlaces};
ghost use Rattle.own_flow.specs.declared.flow.Fact.TheVariants.{Reached, Has};
ghost use Rattle.own_flow.specs.Chains.{AreChains};
ghost use Rattle.own_flow.specs.Nodes.{NodeFits, FactFits, row_width, node_number};
ghost use Rattle.own_flow.specs.Exploration.{Grew, Just, Maybe, OneState, EachState, SetBy, Made, MadeOf, IsExplored, degree, step_cost};

use crate::counter::Steps;
use crate::flow::{Action, Edge, Fact, State, States};
use crate::graph::FlowGraph;
use crate::nodes::{Node, copied, kept};
use crate::rows::Chains;
use crate::table::BitTable;
use cake_base::NoMemory;
use std::alloc::Global;
use std::marker::Model;
use std::sync::ledger::Ledger;

/// What was found to be possible, and the nodes whose edges are still to be followed. Each node is
/// put among them once, when it is marked.
#[derive(Drop)]
pub struct Search {
    places: u32,
    points: usize,
    marks: BitTable,
    waiting: Vec<Node>,
}

impl Model for Search {
    ghost use Rattle.own_flow.specs.Exploration.{Search, IsSearch};

    ghost Value = { Search };

    ghost view = { λ s. record { places = s.places; points = s.points; marks = s.marks; waiting = s.waiting.items } };

    ghost invariant = { λ s. IsSearch (record { places = s.places; points = s.points; marks = s.marks; waiting = s.waiting.items }) };
}

impl Search {
    /// A search in which nothing is marked yet. A table that no machine word counts is want of
    /// memory.
    pub fn new(alloc: Global, places: u32, points: usize) -> Result<Search, NoMemory>
        ensures { IfOk result (λ s. s ≡ record { places = places; points = points; marks = replicate (points * row_width places) false; waiting = [] }) }
    {
        let width = 5 * places as usize + 1;
        match points.checked_mul(width) {
            Some(count) => Ok(Search {
                places,
                points,
                marks: BitTable::new(alloc, count)?,
                waiting: Vec::new(alloc),
            }),
            None => Err(NoMemory),
        }
    }

    /// Whether the node is marked.
    pub fn has(&self, node: Node) -> bool
        requires { NodeFits self.now.places self.now.points node }
        ensures { slice_get self.now.marks (node_number self.now.places node) ≡ Some result }
    {
        self.marks.has(node.number(self.places, self.points))
    }

    /// Marks the node, which waits then, unless it is marked.
    pub fn mark(&mut self, node: Node) -> Result<(), NoMemory>
        requires { NodeFits self.old.places self.old.points node }
        ensures { OnOk result (Grew (Just self.old.places node) self.old self.new) }
    {
        let at = node.number(self.places, self.points);
        if self.marks.has(at) {
            return Ok(());
        }
        self.waiting.push(node)?;
        self.marks.set(at);
        Ok(())
    }

    /// Takes a node that waits.
    pub fn next(&mut self) -> Option<Node>
        ensures fits { IfSome result (λ node. NodeFits self.old.places self.old.points node) }
        ensures taken { IfSome result (λ node. self.old ≡ record self.new { waiting = self.new.waiting ++ node ∷ [] }) }
        ensures none { IfNone result (self.old ≡ self.new) }
        ensures empty { IfNone result (self.new.waiting ≡ []) }
    {
        self.waiting.pop()
    }

    /// Marks the place with the state, if the state is in the set.
    fn mark_state(
        &mut self,
        point: usize,
        place: u32,
        states: States,
        state: State,
    ) -> Result<(), NoMemory>
        requires point { point < self.old.points }
        requires place { place < self.old.places }
        ensures { OnOk result (Grew (OneState self.old.places point place states state) self.old self.new) }
    {
        if states.has(state) {
            self.mark(Node {
                point,
                fact: Fact::Has(place, state),
            })?;
        }
        Ok(())
    }

    /// Marks the place with each state of the set.
    fn mark_states(&mut self, point: usize, place: u32, states: States) -> Result<(), NoMemory>
        requires point { point < self.old.points }
        requires place { place < self.old.places }
        ensures { OnOk result (Grew (EachState self.old.places point place states) self.old self.new) }
    {
        self.mark_state(point, place, states, State::Uninitialised)?;
        self.mark_state(point, place, states, State::Null)?;
        self.mark_state(point, place, states, State::Live)?;
        self.mark_state(point, place, states, State::Moved)?;
        self.mark_state(point, place, states, State::Deleted)
    }

    /// Marks the fact at the point, if there is one.
    fn mark_maybe(&mut self, point: usize, fact: Option<Fact>) -> Result<(), NoMemory>
        requires point { point < self.old.points }
        requires fact { IfSome fact (λ f. FactFits self.old.places f) }
        ensures { OnOk result (Grew (Maybe self.old.places point fact) self.old self.new) }
    {
        match fact {
            Some(fact) => self.mark(Node { point, fact }),
            None => Ok(()),
        }
    }

    /// Marks what an action that sets a place makes where its edge begins at a reached point.
    fn mark_set(&mut self, point: usize, action: Action) -> Result<(), NoMemory>
        requires point { point < self.old.points }
        requires action { InPlaces self.old.places action }
        ensures { OnOk result (Grew (SetBy self.old.places point action) self.old self.new) }
    {
        match action {
            Action::Set(place, states) => self.mark_states(point, place, states),
            Action::Pass => Ok(()),
            Action::Copy(_, _) => Ok(()),
            Action::Give(_, _) => Ok(()),
            Action::Test(_, _) => Ok(()),
            Action::Need(_, _, _, _) => Ok(()),
        }
    }

    /// Marks what the edge makes of a reached point.
    fn cross_reached(&mut self, edge: Edge) -> Result<(), NoMemory>
        requires { Fits self.old.places self.old.points edge }
        ensures { OnOk result (Grew (Made self.old.places edge Reached) self.old self.new) }
    {
        self.mark(Node {
            point: edge.to,
            fact: Fact::Reached,
        })?;
        self.mark_set(edge.to, edge.action)
    }

    /// Marks what the edge makes of a state of a place.
    fn cross_state(&mut self, edge: Edge, place: u32, state: State) -> Result<(), NoMemory>
        requires edge { Fits self.old.places self.old.points edge }
        requires place { place < self.old.places }
        ensures { OnOk result (Grew (Made self.old.places edge (Has place state)) self.old self.new) }
    {
        self.mark_maybe(edge.to, kept(edge.action, place, state))?;
        self.mark_maybe(edge.to, copied(edge.action, place, state))
    }

    /// Marks what the edge makes of the fact.
    fn cross(&mut self, edge: Edge, fact: Fact) -> Result<(), NoMemory>
        requires edge { Fits self.old.places self.old.points edge }
        requires fact { FactFits self.old.places fact }
        ensures { OnOk result (Grew (Made self.old.places edge fact) self.old self.new) }
    {
        match fact {
            Fact::Reached => self.cross_reached(edge),
            Fact::Has(place, state) => self.cross_state(edge, place, state),
        }
    }

    /// Marks what follows from the node, one step an edge that begins at its point where the node
    /// is a state.
    fn follow<L: Ledger>(
        &mut self,
        edges: &[Edge],
        chains: &Chains,
        node: Node,
        steps: &mut Steps<L>,
    ) -> Result<(), NoMemory>
        requires chains { AreChains edges.now self.old.points chains.now }
        requires edges { All (Fits self.old.places self.old.points) edges.now }
        requires node { NodeFits self.old.places self.old.points node }
        ensures grew { OnOk result (Grew (MadeOf self.old.places edges.now node) self.old self.new) }
        ensures cost { steps.new ≤ steps.old + step_cost node.fact (degree edges.now node.point (length edges.now)) }
    {
        let mut at = chains.first[node.point];
        while at < edges.len() {
            count(node.fact, steps);
            self.cross(edges[at], node.fact)?;
            at = chains.next[at];
        }
        Ok(())
    }
}

/// A step, if it is a state that is followed.
fn count<L: Ledger>(fact: Fact, steps: &mut Steps<L>)
    ensures { steps.new ≡ steps.old + step_cost fact 1 }
{
    match fact {
        Fact::Reached => {}
        Fact::Has(_, _) => steps.tick(),
    }
}

/// All that is possible in the graph, in at most five steps for each place and edge.
pub fn explore<L: Ledger>(
    alloc: Global,
    graph: &FlowGraph,
    steps: &mut Steps<L>,
) -> Result<Search, NoMemory>
    ensures explored { IfOk result (λ s. IsExplored graph.now.places graph.now.points graph.now.edges s) }
    ensures cost { steps.new ≤ steps.old + 5 * graph.now.places * length graph.now.edges }
{
    let edges = graph.edges();
    let points = graph.points();
    let chains = Chains::new(alloc, edges, points)?;
    let mut search = Search::new(alloc, graph.places(), points)?;
    search.mark(Node {
        point: 0,
        fact: Fact::Reached,
    })?;
    while let Some(node) = search.next() {
        search.follow(edges, &chains, node, steps)?;
    }
    Ok(search)
}
