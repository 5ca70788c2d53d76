//! The runs of a controller, one machine after the other, as plain bytes.

ghost use Rattle.std.specs.Prelude.{◌≡◌, ◌<◌};
ghost use Rattle.dali_c.specs.Passes.{quiet_after, has_heard_with, once_quiet, passes_after, next_after};

use dali_script::{End, Order};

/// So many runs in a row find all gear and commit nothing, before a controller is ready.
pub(crate) const QUIET_RUNS: u8 = 3;

/// What a machine was told of a byte that was heard.
const HEARD_BYTE: u8 = 2;

/// Which runs came before this one: how many in a row, up to the last, found all gear and committed nothing; and of
/// this one whether it has ordered a commit, and whether a byte was heard in it.
#[repr(C)]
#[derive(Clone, Copy)]
pub struct PlainPasses {
    pub quiet: u8,
    pub has_committed: u8,
    pub has_heard: u8,
}

/// How many runs in a row have committed nothing, with one more.
fn quiet_after(quiet: u8, has_committed: bool) -> u8
    requires { quiet < 255 }
    ensures { result ≡ quiet_after quiet has_committed }
{
    if has_committed { 0 } else { quiet + 1 }
}

/// What is to be done once a run has found all gear.
fn once_quiet(quiet: u8, has_heard: u8) -> u8
    ensures { result ≡ once_quiet quiet has_heard }
{
    if quiet < QUIET_RUNS {
        1
    } else if has_heard != 0 {
        2
    } else {
        3
    }
}

impl PlainPasses {
    /// Before the first run.
    pub(crate) const NONE: PlainPasses = PlainPasses {
        quiet: 0,
        has_committed: 0,
        has_heard: 0,
    };

    /// Whether a byte was heard in this run, with what the machine was told now.
    fn heard_with(&self, input: u8) -> u8
        ensures { result ≡ has_heard_with self.now input }
    {
        if input == HEARD_BYTE {
            1
        } else {
            self.has_heard
        }
    }

    /// A machine was told this, and has ordered that. What is to be done then.
    pub(crate) fn step(&mut self, input: u8, ordered: Order) -> u8
        requires { self.old.quiet < 255 }
        ensures after { self.new ≡ passes_after self.old input ordered }
        ensures next { result ≡ next_after self.old input ordered }
    {
        let has_heard = self.heard_with(input);
        match ordered {
            Order::Put(_, _) => {
                self.has_heard = has_heard;
                0
            }
            Order::Commit(_) => {
                self.has_heard = has_heard;
                self.has_committed = 1;
                0
            }
            Order::Done(End::AllFound) => {
                let quiet = quiet_after(self.quiet, self.has_committed != 0);
                *self = PlainPasses {
                    quiet,
                    ..PlainPasses::NONE
                };
                once_quiet(quiet, has_heard)
            }
            Order::Done(_) | Order::Halt(_) => {
                self.has_heard = has_heard;
                4
            }
        }
    }
}
