//! The findings of graphs that are drawn by hand: each action, joins, loops, what nothing reaches, the order of
//! findings, and long chains.
ghost use Rattle.std.specs.Prelude.{◌≡◌, ◌<◌};

use crate::drawn::Drawn;
use cake_base::{Family, NoMemory, Place, Rule};
use own_flow::{Action, Findings, FlowGraph, State, States, Steps, solve};
use std::alloc::Global;
use std::marker::Brand;
use std::process::Abort;
use std::sync::ledger::{Blank, Ledger};
use std::test::Fail;

/// An action, as a table says it.
#[derive(Clone, Copy)]
enum Does {
    Nothing,
    Sets(u32, &'static [State]),
    /// The first place gets the states of the second.
    Copies(u32, u32),
    Gives(u32, State),
    Tests(u32, &'static [State]),
    /// The place and the state that breaks the rule, then the order of the source's place and the number of the rule.
    Needs(u32, State, u32, u32),
}

/// The order of a finding's place, and the number of its rule.
type Found = (u32, u32);

const LIVE: Does = Does::Sets(0, &[State::Live]);

const NULL: Does = Does::Sets(0, &[State::Null]);

const EITHER: Does = Does::Sets(0, &[State::Null, State::Live]);

const FREE: Does = Does::Gives(0, State::Deleted);

const MOVE: Does = Does::Gives(0, State::Moved);

const LEFT: Does = Does::Needs(0, State::Live, 1, 1);

/// Actions that lead from the start on, each to the next point, and their findings.
const LINES: [(&str, &[Does], &[Found]); 33] = [
    ("no edge", &[], &[]),
    ("no state", &[LEFT], &[]),
    ("set", &[LIVE, LEFT], &[(1, 1)]),
    (
        "set to another state",
        &[LIVE, Does::Needs(0, State::Deleted, 1, 4)],
        &[],
    ),
    (
        "set at another place",
        &[LIVE, Does::Needs(1, State::Live, 1, 1)],
        &[],
    ),
    (
        "set to two states",
        &[
            EITHER,
            Does::Needs(0, State::Live, 2, 1),
            Does::Needs(0, State::Null, 1, 6),
        ],
        &[(1, 6), (2, 1)],
    ),
    (
        "set again",
        &[LIVE, NULL, LEFT, Does::Needs(0, State::Null, 2, 6)],
        &[(2, 6)],
    ),
    ("set to no state", &[LIVE, Does::Sets(0, &[]), LEFT], &[]),
    (
        "no value yet",
        &[
            Does::Sets(0, &[State::Uninitialised]),
            Does::Needs(0, State::Uninitialised, 1, 5),
        ],
        &[(1, 5)],
    ),
    ("nothing is done", &[LIVE, Does::Nothing, LEFT], &[(1, 1)]),
    (
        "a need stops its state",
        &[LIVE, LEFT, Does::Needs(0, State::Live, 2, 1)],
        &[(1, 1)],
    ),
    (
        "a need lets others pass",
        &[
            EITHER,
            Does::Needs(0, State::Null, 1, 6),
            Does::Needs(0, State::Live, 2, 1),
        ],
        &[(1, 6), (2, 1)],
    ),
    (
        "a need of another place",
        &[
            LIVE,
            Does::Needs(1, State::Live, 1, 1),
            Does::Needs(0, State::Live, 2, 1),
        ],
        &[(2, 1)],
    ),
    (
        "copy",
        &[LIVE, Does::Copies(1, 0), Does::Needs(1, State::Live, 1, 1)],
        &[(1, 1)],
    ),
    (
        "a copy keeps its source",
        &[LIVE, Does::Copies(1, 0), LEFT],
        &[(1, 1)],
    ),
    (
        "a copy loses what was there",
        &[
            LIVE,
            Does::Sets(1, &[State::Deleted]),
            Does::Copies(1, 0),
            Does::Needs(1, State::Deleted, 1, 4),
        ],
        &[],
    ),
    (
        "a copy of no state",
        &[
            Does::Sets(1, &[State::Live]),
            Does::Copies(1, 0),
            Does::Needs(1, State::Live, 1, 1),
        ],
        &[],
    ),
    (
        "a copy to itself",
        &[LIVE, Does::Copies(0, 0), LEFT],
        &[(1, 1)],
    ),
    (
        "a copy of a copy",
        &[
            LIVE,
            Does::Copies(1, 0),
            Does::Copies(2, 1),
            Does::Needs(2, State::Live, 1, 1),
        ],
        &[(1, 1)],
    ),
    (
        "give",
        &[LIVE, MOVE, Does::Needs(0, State::Moved, 1, 3)],
        &[(1, 3)],
    ),
    ("what is given isn't live", &[LIVE, MOVE, LEFT], &[]),
    (
        "null is not given",
        &[
            NULL,
            MOVE,
            Does::Needs(0, State::Moved, 1, 3),
            Does::Needs(0, State::Null, 2, 6),
        ],
        &[(2, 6)],
    ),
    (
        "what is freed stays so",
        &[
            LIVE,
            FREE,
            MOVE,
            Does::Needs(0, State::Moved, 1, 3),
            Does::Needs(0, State::Deleted, 2, 4),
        ],
        &[(2, 4)],
    ),
    (
        "another place is given",
        &[LIVE, Does::Gives(1, State::Moved), LEFT],
        &[(1, 1)],
    ),
    (
        "test",
        &[
            EITHER,
            Does::Tests(0, &[State::Live]),
            Does::Needs(0, State::Null, 1, 6),
            Does::Needs(0, State::Live, 2, 1),
        ],
        &[(2, 1)],
    ),
    (
        "another place is tested",
        &[
            EITHER,
            Does::Tests(1, &[State::Live]),
            Does::Needs(0, State::Null, 1, 6),
        ],
        &[(1, 6)],
    ),
    (
        "behind a test of no state",
        &[Does::Tests(0, &[]), LIVE, LEFT],
        &[(1, 1)],
    ),
    (
        "rules of one place",
        &[
            EITHER,
            Does::Needs(0, State::Null, 3, 6),
            Does::Needs(0, State::Live, 3, 1),
        ],
        &[(3, 1), (3, 6)],
    ),
    (
        "the place comes before the rule",
        &[
            EITHER,
            Does::Needs(0, State::Live, 4, 1),
            Does::Needs(0, State::Null, 3, 6),
        ],
        &[(3, 6), (4, 1)],
    ),
    (
        "freed twice",
        &[
            LIVE,
            FREE,
            Does::Needs(0, State::Deleted, 8, 4),
            FREE,
            Does::Needs(0, State::Live, 9, 1),
        ],
        &[(8, 4)],
    ),
    (
        "moved and then freed",
        &[LIVE, MOVE, Does::Needs(0, State::Moved, 5, 3), FREE],
        &[(5, 3)],
    ),
    (
        "left at the end",
        &[EITHER, Does::Needs(0, State::Live, 5, 1)],
        &[(5, 1)],
    ),
    (
        "null is followed",
        &[EITHER, Does::Needs(0, State::Null, 1, 6), LEFT],
        &[(1, 1), (1, 6)],
    ),
];

/// The number of points besides the start, the edges, and the findings.
type Drawing = (
    &'static str,
    usize,
    &'static [(usize, Does, usize)],
    &'static [Found],
);

const DRAWINGS: [Drawing; 17] = [
    (
        "a join, by its first way",
        4,
        &[
            (0, LIVE, 1),
            (0, NULL, 2),
            (1, Does::Nothing, 3),
            (2, Does::Nothing, 3),
            (3, LEFT, 4),
        ],
        &[(1, 1)],
    ),
    (
        "a join, by its second way",
        4,
        &[
            (0, NULL, 1),
            (0, LIVE, 2),
            (1, Does::Nothing, 3),
            (2, Does::Nothing, 3),
            (3, LEFT, 4),
        ],
        &[(1, 1)],
    ),
    (
        "a set on one way",
        3,
        &[
            (0, LIVE, 1),
            (1, Does::Nothing, 2),
            (1, NULL, 2),
            (2, LEFT, 3),
            (2, Does::Needs(0, State::Null, 1, 6), 3),
        ],
        &[(1, 1), (1, 6)],
    ),
    (
        "each edge of a point",
        2,
        &[
            (0, LIVE, 1),
            (1, Does::Needs(0, State::Live, 3, 1), 2),
            (1, Does::Needs(0, State::Live, 1, 1), 2),
            (1, Does::Needs(0, State::Live, 2, 1), 2),
        ],
        &[(1, 1), (2, 1), (3, 1)],
    ),
    (
        "one finding of two edges",
        2,
        &[(0, LIVE, 1), (1, LEFT, 2), (1, LEFT, 2)],
        &[(1, 1)],
    ),
    (
        "nothing reaches it",
        3,
        &[(0, Does::Nothing, 1), (2, LIVE, 3), (3, LEFT, 3)],
        &[],
    ),
    (
        "nothing reaches one way in",
        3,
        &[(0, Does::Nothing, 1), (2, LIVE, 1), (1, LEFT, 3)],
        &[],
    ),
    (
        "a loop frees twice",
        2,
        &[
            (0, LIVE, 1),
            (1, FREE, 2),
            (2, Does::Nothing, 1),
            (1, Does::Needs(0, State::Deleted, 7, 4), 2),
        ],
        &[(7, 4)],
    ),
    (
        "no way back",
        2,
        &[
            (0, LIVE, 1),
            (1, FREE, 2),
            (1, Does::Needs(0, State::Deleted, 7, 4), 2),
        ],
        &[],
    ),
    (
        "a loop that sets again",
        3,
        &[
            (0, LIVE, 1),
            (1, Does::Needs(0, State::Deleted, 1, 4), 2),
            (2, FREE, 3),
            (3, LIVE, 1),
        ],
        &[],
    ),
    (
        "a loop from the start",
        1,
        &[(0, LEFT, 1), (1, LIVE, 0)],
        &[(1, 1)],
    ),
    (
        "an edge to its own point",
        1,
        &[
            (0, LIVE, 1),
            (1, FREE, 1),
            (1, Does::Needs(0, State::Deleted, 2, 4), 1),
        ],
        &[(2, 4)],
    ),
    (
        "copies round a loop",
        1,
        &[
            (0, LIVE, 1),
            (1, Does::Copies(1, 0), 1),
            (1, Does::Copies(2, 1), 1),
            (1, Does::Needs(2, State::Live, 1, 1), 1),
        ],
        &[(1, 1)],
    ),
    (
        "an if that frees twice",
        7,
        &[
            (0, EITHER, 1),
            (1, Does::Tests(0, &[State::Live]), 2),
            (1, Does::Tests(0, &[State::Null]), 6),
            (2, FREE, 3),
            (3, Does::Needs(0, State::Deleted, 8, 4), 4),
            (4, FREE, 5),
            (5, Does::Nothing, 6),
            (6, Does::Needs(0, State::Live, 10, 1), 7),
        ],
        &[(8, 4)],
    ),
    (
        "an if that frees",
        5,
        &[
            (0, EITHER, 1),
            (1, Does::Tests(0, &[State::Live]), 2),
            (1, Does::Tests(0, &[State::Null]), 4),
            (2, FREE, 3),
            (3, Does::Nothing, 4),
            (4, Does::Needs(0, State::Live, 10, 1), 5),
        ],
        &[],
    ),
    (
        "a for that frees in its body",
        9,
        &[
            (0, EITHER, 1),
            (1, Does::Tests(0, &[State::Null]), 2),
            (2, Does::Needs(0, State::Live, 5, 1), 9),
            (1, Does::Tests(0, &[State::Live]), 3),
            (3, Does::Nothing, 4),
            (4, Does::Nothing, 5),
            (4, Does::Nothing, 6),
            (5, Does::Needs(0, State::Deleted, 7, 4), 7),
            (7, FREE, 8),
            (8, Does::Nothing, 4),
            (6, Does::Needs(0, State::Live, 10, 1), 9),
        ],
        &[(7, 4), (10, 1)],
    ),
    (
        "a body that is left at once",
        9,
        &[
            (0, EITHER, 1),
            (1, Does::Tests(0, &[State::Null]), 2),
            (2, Does::Needs(0, State::Live, 5, 1), 9),
            (1, Does::Tests(0, &[State::Live]), 3),
            (3, Does::Nothing, 4),
            (4, Does::Nothing, 5),
            (4, Does::Nothing, 6),
            (5, Does::Needs(0, State::Deleted, 7, 4), 7),
            (7, FREE, 8),
            (8, Does::Nothing, 6),
            (6, Does::Needs(0, State::Live, 10, 1), 9),
        ],
        &[(10, 1)],
    ),
];

fn run<L: Ledger>(alloc: Global, graph: &FlowGraph, blank: Blank) -> Result<Findings, NoMemory>
    requires name { blank.name ≡ L.name }
    requires parts { blank.parts ≡ L.parts }
    requires some { 0 < L.parts }
{
    let mut steps = Steps::<L>::new(blank);
    solve(alloc, graph, &mut steps)
}

fn findings_of(alloc: Global, graph: &FlowGraph) -> Result<Findings, NoMemory> {
    run::<Brand>(alloc, graph, Blank::new(1))
}

/// The findings of a graph are at these places, of these rules, in this order.
fn gives(
    rt: &impl Abort,
    alloc: Global,
    name: &str,
    graph: &FlowGraph,
    want: &[Found],
) -> Result<(), NoMemory> {
    let findings = findings_of(alloc, graph)?;
    assert_eq!(rt; findings.count(), want.len(), "{name}");
    for (at, (order, number)) in want.iter().enumerate() {
        match findings.get(at) {
            Some(fault) => {
                assert_eq!(rt; fault.place.order, *order, "{name}");
                assert_eq!(rt; fault.rule.number, *number, "{name}");
            }
            None => assert!(rt; false, "{name}"),
        }
    }
    Ok(())
}

fn states_of(list: &[State]) -> States {
    let mut states = States::none();
    for state in list {
        states = states.plus(*state);
    }
    states
}

/// The need of a state at a place of that order.
fn need(place: u32, state: State, order: u32, number: u32) -> Action {
    let at = Place {
        file: 0,
        line: 1,
        column: 1,
        order,
    };
    let rule = Rule {
        family: Family::F,
        number,
    };
    Action::Need(place, States::none().plus(state), at, rule)
}

fn action_of(does: Does) -> Action {
    match does {
        Does::Nothing => Action::Pass,
        Does::Sets(place, states) => Action::Set(place, states_of(states)),
        Does::Copies(to, from) => Action::Copy(to, from),
        Does::Gives(place, state) => Action::Give(place, state),
        Does::Tests(place, states) => Action::Test(place, states_of(states)),
        Does::Needs(place, state, order, number) => need(place, state, order, number),
    }
}

/// A graph that has so many points besides the start, and no edge.
fn points(alloc: Global, count: usize) -> Result<Drawn, NoMemory> {
    let mut drawn = Drawn::new(alloc)?;
    for _ in 0..count {
        drawn.point()?;
    }
    Ok(drawn)
}

/// The graph in which each action leads from a point to the next one.
fn line(rt: &impl Abort, alloc: Global, actions: &[Does]) -> Result<Drawn, NoMemory> {
    let mut drawn = points(alloc, actions.len())?;
    for (at, does) in actions.iter().enumerate() {
        drawn.edge(rt, at, action_of(*does), at + 1)?;
    }
    Ok(drawn)
}

fn drawing(
    rt: &impl Abort,
    alloc: Global,
    count: usize,
    edges: &[(usize, Does, usize)],
) -> Result<Drawn, NoMemory> {
    let mut drawn = points(alloc, count)?;
    for (from, does, to) in edges {
        drawn.edge(rt, *from, action_of(*does), *to)?;
    }
    Ok(drawn)
}

#[test]
fn findings_along_a_line(rt: HostRuntime) -> Result<(), Fail> {
    for (name, actions, want) in LINES {
        let drawn = line(&rt, rt.alloc(), actions)?;
        gives(&rt, rt.alloc(), name, drawn.graph(), want)?;
    }
    Ok(())
}

#[test]
fn findings_of_drawings(rt: HostRuntime) -> Result<(), Fail> {
    for (name, count, edges, want) in DRAWINGS {
        let drawn = drawing(&rt, rt.alloc(), count, edges)?;
        gives(&rt, rt.alloc(), name, drawn.graph(), want)?;
    }
    Ok(())
}

/// The number of edges of a long chain.
const LONG: usize = 400_001;

/// The action of the edge that begins at a point of a long chain.
fn chain_action(from: usize) -> Action {
    match from {
        0 => Action::Set(0, States::none().plus(State::Deleted)),
        400_000 => need(0, State::Deleted, 9, 4),
        _ => Action::Pass,
    }
}

/// A chain whose edges are added from the start on, or towards it.
fn long_chain(rt: &impl Abort, alloc: Global, backwards: bool) -> Result<Drawn, NoMemory> {
    let mut drawn = points(alloc, LONG)?;
    for k in 0..LONG {
        let from = if backwards { 400_000 - k } else { k };
        drawn.edge(rt, from, chain_action(from), from + 1)?;
    }
    Ok(drawn)
}

#[test]
fn findings_of_long_chains(rt: HostRuntime) -> Result<(), Fail> {
    for backwards in [false, true] {
        let drawn = long_chain(&rt, rt.alloc(), backwards)?;
        gives(&rt, rt.alloc(), "a long chain", drawn.graph(), &[(9, 4)])?;
    }
    Ok(())
}
