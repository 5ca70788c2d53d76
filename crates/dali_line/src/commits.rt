use std::marker::Model;

/// How far a controller's worker is with a commit.
#[derive(Clone, Copy, PartialEq, Eq)]
pub(crate) enum CommitState {
    /// The controller knows what its store has.
    Settled,
    /// The worker has begun a commit, and has not ended it.
    Begun,
    /// The worker has ended it, and could not tell that the store has the record.
    Made,
}

/// How far the workers of the four controllers are.
///
/// Contracts see a state for each controller.
#[derive(Drop)]
pub(crate) struct Commits {
    states: [CommitState; 4],
}

impl Model for Commits {
    ghost use Rattle.std.specs.Prelude.{List, ◌≡◌, length};
    ghost use Rattle.dali_line.specs.declared.commits.CommitState.{CommitState};

    ghost Value = { List CommitState };

    ghost view = { λ c. c.states };

    ghost invariant = { λ c. length c.states ≡ 4 };
}

impl Commits {
    ghost use Rattle.std.specs.Prelude.{◌≡◌, slice_set};
    ghost use Rattle.dali_line.specs.Commits.{state_of, all_settled};

    /// Each controller knows what its store has.
    pub(crate) fn settled() -> Commits
        ensures { result ≡ all_settled }
    {
        Commits {
            states: [CommitState::Settled; 4],
        }
    }

    /// How far the worker of a controller is. Of a number above 3 it is Settled.
    #[tactic(auto, using(crate::proofs::Counts::no_state))]
    pub(crate) fn state(&self, c: u8) -> CommitState
        ensures { result ≡ state_of self.now c }
    {
        if c < 4 {
            self.states[c as usize]
        } else {
            CommitState::Settled
        }
    }

    /// The worker of this controller is so far now. Of a number above 3 nothing changes.
    #[tactic(auto, using(crate::proofs::Counts::no_place))]
    pub(crate) fn set(&mut self, c: u8, state: CommitState)
        ensures { self.new ≡ slice_set self.old c state }
    {
        if c < 4 {
            self.states[c as usize] = state;
        }
    }
}
