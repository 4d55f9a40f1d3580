//! The findings of a graph.
ghost use Rattle.std.specs.Prelude.{◌≡◌, ◌+◌, ◌*◌, ◌<◌, ◌≤◌, ◌⊎◌, ◌↔◌, length, map, All, Contains, IfOk, IfSome, OnOk, IsTrue, Some};
ghost use Rattle.cake_base.specs.declared.rules.Fault.{Fault};
ghost use Rattle.own_flow.specs.FlowGraph.{Fits};
ghost use Rattle.own_flow.specs.Findings.{AreFindings};
ghost use Rattle.own_flow.specs.declared.flow.State.{State};
ghost use Rattle.own_flow.specs.declared.flow.Fact.TheVariants.{Has};
ghost use Rattle.own_flow.specs.declared.ranks.Ranked.{Ranked};
ghost use Rattle.own_flow.specs.Ranks.{fault_of};
ghost use Rattle.own_flow.specs.Exploration.{HasState, Breaks, BreaksBelow};

use crate::counter::Steps;
use crate::flow::{Action, Edge, Fact, State, States};
use crate::graph::FlowGraph;
use crate::list::Findings;
use crate::nodes::Node;
use crate::ranks::{Ranked, put_in_order};
use crate::search::{Search, explore};
use cake_base::{Fault, NoMemory};
use std::alloc::Global;
use std::sync::ledger::Ledger;

/// Whether the state is in the set and possible for the place at the point.
fn has_state(search: &Search, point: usize, place: u32, states: States, state: State) -> bool
    requires point { point < search.now.points }
    requires place { place < search.now.places }
    ensures { IsTrue result ↔ HasState search.now point place states state }
{
    states.has(state)
        && search.has(Node {
            point,
            fact: Fact::Has(place, state),
        })
}

/// Whether a state of the set is possible for the place at the point.
fn has_any(search: &Search, point: usize, place: u32, states: States) -> bool
    requires point { point < search.now.points }
    requires place { place < search.now.places }
    ensures { IsTrue result ↔ ((state : State) × HasState search.now point place states state) }
{
    has_state(search, point, place, states, State::Uninitialised)
        || has_state(search, point, place, states, State::Null)
        || has_state(search, point, place, states, State::Live)
        || has_state(search, point, place, states, State::Moved)
        || has_state(search, point, place, states, State::Deleted)
}

/// What the edge breaks, if it does.
fn broken(search: &Search, edge: Edge) -> Option<Fault>
    requires { Fits search.now.places search.now.points edge }
    ensures sound { IfSome result (λ fault. Breaks search.now edge fault) }
    ensures complete { (fault : Fault) → Breaks search.now edge fault → result ≡ Some fault }
{
    match edge.action {
        Action::Need(p, states, place, rule) => {
            if has_any(search, edge.from, p, states) {
                Some(Fault { place, rule })
            } else {
                None
            }
        }
        Action::Pass => None,
        Action::Set(_, _) => None,
        Action::Copy(_, _) => None,
        Action::Give(_, _) => None,
        Action::Test(_, _) => None,
    }
}

/// Adds the finding, if there is one.
fn add_maybe(list: &mut Vec<Ranked>, fault: Option<Fault>) -> Result<(), NoMemory>
    ensures { OnOk result ((r : Ranked) → Contains list.new.items r ↔ (Contains list.old.items r ⊎ (fault ≡ Some (fault_of r)))) }
{
    if let Some(fault) = fault {
        list.push(Ranked::of(fault))?;
    }
    Ok(())
}

/// What the edges break, in their order.
fn collect(alloc: Global, search: &Search, edges: &[Edge]) -> Result<Vec<Ranked>, NoMemory>
    requires { All (Fits search.now.places search.now.points) edges.now }
    ensures { IfOk result (λ list. (r : Ranked) → Contains list.items r ↔ BreaksBelow search.now edges.now (length edges.now) (fault_of r)) }
{
    let mut list = vec![in alloc]?;
    for edge in edges {
        add_maybe(&mut list, broken(search, *edge))?;
    }
    Ok(list)
}

/// The findings of a list.
fn faults(alloc: Global, list: &[Ranked]) -> Result<Findings, NoMemory>
    ensures { IfOk result (λ findings. findings ≡ map fault_of list.now) }
{
    let mut findings = Findings::new(alloc);
    for ranked in list {
        findings.push(ranked.fault())?;
    }
    Ok(findings)
}

/// The findings of the graph, in the order of their places and then of their rules, each once: each
/// place and rule of a Need at whose start one of its states is possible for its place. The steps
/// are at most five for each place and edge, also where memory is wanted.
pub fn solve<L: Ledger>(
    alloc: Global,
    graph: &FlowGraph,
    steps: &mut Steps<L>,
) -> Result<Findings, NoMemory>
    ensures findings { IfOk result (λ list. AreFindings graph.now.edges list) }
    ensures cost { steps.new ≤ steps.old + 5 * graph.now.places * length graph.now.edges }
{
    let search = explore(alloc, graph, steps)?;
    let mut list = collect(alloc, &search, graph.edges())?;
    put_in_order(&mut list);
    faults(alloc, &list)
}
