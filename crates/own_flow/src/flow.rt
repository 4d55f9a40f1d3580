//! The ownership graph of a function: states of tracked places, actions and edges.
ghost use Rattle.std.specs.Prelude.{◌≡◌, ◌||◌, false, List};
ghost use Rattle.cake_base.specs.declared.rules.Fault.{Fault};
ghost use Rattle.own_flow.specs.FlowGraph.{is_in, same_state};
ghost use Rattle.own_flow.specs.Findings.{AreFindings};

use cake_base::{Place, Rule};

/// A state that a tracked place may have: no value yet (ISO/IEC 9899:2024, 6.7.11), a null pointer
/// (6.3.2.3), a value that it answers for, one that it gave away, or one that `free` took (7.24.3.3).
#[derive(Clone, Copy, Debug, PartialEq, Eq)]
pub enum State {
    Uninitialised,
    Null,
    Live,
    Moved,
    Deleted,
}

/// A set of states.
#[derive(Clone, Copy, Debug, PartialEq, Eq)]
pub struct States {
    uninitialised: bool,
    null: bool,
    live: bool,
    moved: bool,
    deleted: bool,
}

impl States {
    /// The empty set.
    pub fn none() -> States
        ensures { (s : State) → is_in s result ≡ false }
    {
        States {
            uninitialised: false,
            null: false,
            live: false,
            moved: false,
            deleted: false,
        }
    }

    /// The set with `one` besides.
    pub fn plus(self, one: State) -> States
        ensures { (s : State) → is_in s result ≡ (is_in s self || same_state s one) }
    {
        match one {
            State::Uninitialised => States {
                uninitialised: true,
                ..self
            },
            State::Null => States { null: true, ..self },
            State::Live => States { live: true, ..self },
            State::Moved => States {
                moved: true,
                ..self
            },
            State::Deleted => States {
                deleted: true,
                ..self
            },
        }
    }

    /// Whether the state is in the set.
    pub fn has(self, state: State) -> bool
        ensures { result ≡ is_in state self }
    {
        match state {
            State::Uninitialised => self.uninitialised,
            State::Null => self.null,
            State::Live => self.live,
            State::Moved => self.moved,
            State::Deleted => self.deleted,
        }
    }
}

/// What an edge does. The numbers are those of tracked places of one function, counted from 0.
#[derive(Clone, Copy, Debug, PartialEq, Eq)]
pub enum Action {
    /// Nothing.
    Pass,
    /// The place gets each of the states.
    Set(u32, States),
    /// The first place gets the states of the second.
    Copy(u32, u32),
    /// A live place gets the state; other states stay.
    Give(u32, State),
    /// Only these states of the place pass.
    Test(u32, States),
    /// These states of the place break the rule at the source's place; the others pass.
    Need(u32, States, Place, Rule),
}

/// An edge from a point to a point, points being counted from 0, the start of the function.
#[derive(Clone, Copy, Debug, PartialEq, Eq)]
pub struct Edge {
    pub from: usize,
    pub action: Action,
    pub to: usize,
}

/// What may hold at a point: that it is reached, or that a place has a state.
#[derive(Clone, Copy, Debug, PartialEq, Eq)]
pub enum Fact {
    Reached,
    Has(u32, State),
}

/// A law: a graph has one list of findings, so what is told of the list tells it whole.
pub fn one_list_of_findings()
    ensures { (edges : List Edge) (first second : List Fault) → AreFindings edges first → AreFindings edges second → first ≡ second }
{}
