//! Facts at points, and what an action makes of a fact.
ghost use Rattle.std.specs.Prelude.{◌≡◌, ◌+◌, ◌*◌, ◌^◌, ◌<◌};
ghost use Rattle.own_flow.specs.FlowGraph.{same_state};
ghost use Rattle.own_flow.specs.declared.flow.State.TheVariants.{Live};
ghost use Rattle.own_flow.specs.Nodes.{state_number, fact_number, node_number, row_width, NodeFits};
ghost use Rattle.own_flow.specs.Effects.{kept_of, copied_of};

use crate::flow::{Action, Fact, State};

/// A fact at a point.
#[derive(Clone, Copy)]
pub struct Node {
    pub point: usize,
    pub fact: Fact,
}

fn state_rank(state: State) -> usize
    ensures { result ≡ state_number state }
{
    match state {
        State::Uninitialised => 0,
        State::Null => 1,
        State::Live => 2,
        State::Moved => 3,
        State::Deleted => 4,
    }
}

fn fact_rank(fact: Fact) -> usize
    ensures { result ≡ fact_number fact }
{
    match fact {
        Fact::Reached => 0,
        Fact::Has(place, state) => 1 + 5 * place as usize + state_rank(state),
    }
}

impl Node {
    /// The bit of the node in a table that has a row for each point, of one bit for the point and
    /// five for each place.
    pub fn number(self, places: u32, points: usize) -> usize
        requires fits { NodeFits places points self }
        requires small { points * row_width places < 2 ^ 64 }
        ensures is { result ≡ node_number places self }
        ensures bound { result < points * row_width places }
    {
        self.point * (5 * places as usize + 1) + fact_rank(self.fact)
    }
}

fn is_live(state: State) -> bool
    ensures { result ≡ same_state state Live }
{
    matches!(state, State::Live)
}

/// The fact with which a place goes on, over an edge with the action, if it had the state.
pub fn kept(action: Action, place: u32, state: State) -> Option<Fact>
    ensures { result ≡ kept_of action place state }
{
    let same = Some(Fact::Has(place, state));
    match action {
        Action::Pass => same,
        Action::Set(p, _) => if place == p { None } else { same },
        Action::Copy(p, _) => if place == p { None } else { same },
        Action::Give(p, to) => {
            if place == p && is_live(state) {
                Some(Fact::Has(p, to))
            } else {
                same
            }
        }
        Action::Test(p, states) => if place == p && !states.has(state) {
            None
        } else {
            same
        },
        Action::Need(p, states, _, _) => if place == p && states.has(state) {
            None
        } else {
            same
        },
    }
}

/// The fact of another place that a copy makes, if this place had the state.
pub fn copied(action: Action, place: u32, state: State) -> Option<Fact>
    ensures { result ≡ copied_of action place state }
{
    match action {
        Action::Copy(p, q) => if place == q {
            Some(Fact::Has(p, state))
        } else {
            None
        },
        Action::Pass => None,
        Action::Set(_, _) => None,
        Action::Give(_, _) => None,
        Action::Test(_, _) => None,
        Action::Need(_, _, _, _) => None,
    }
}
