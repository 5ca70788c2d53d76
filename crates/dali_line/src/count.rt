//! Counts of a log's events: the steps of a controller, and the events that are no controller's steps. A line counts
//! once, when it is made.

ghost use Rattle.std.specs.Prelude.{◌≡◌};
ghost use Rattle.dali_world.specs.Site.{share_of};
ghost use Rattle.dali_line.specs.Counts.{others_of};

use dali_world::Event;

/// How many events of a log are steps of this controller.
pub(crate) fn steps(controller: u8, log: &[Event]) -> u64
    ensures { result ≡ share_of controller log.now }
{
    let mut count = 0;
    for event in log {
        if event.whose_step() == Some(controller) {
            count += 1;
        }
    }
    count
}

/// How many events of a log are no controller's steps.
pub(crate) fn others(log: &[Event]) -> u64
    ensures { result ≡ others_of log.now }
{
    let mut count = 0;
    for event in log {
        if event.whose_step().is_none() {
            count += 1;
        }
    }
    count
}
