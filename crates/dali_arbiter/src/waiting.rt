ghost use Rattle.std.specs.Prelude.{◌≡◌, Some, IsSome};
ghost use Rattle.dali_arbiter.specs.declared.request.Request.{Request};
ghost use Rattle.dali_arbiter.specs.Arbiter.{first_waiting, without_first, first_emptied, collision};
ghost use Rattle.dali_arbiter.specs.Held.{without_collision};

use crate::request::Request;
use dali_frame::Priority;
use dali_ring::Ring;

/// The oldest request of the highest priority that waits.
pub(crate) fn first(waiting: &Ring<Request>) -> Option<Request>
    ensures { result ≡ first_waiting waiting.now.lists }
{
    let priority = waiting.best()?;
    waiting.front(priority)
}

/// Takes the oldest request of the highest priority out.
#[inline(always)]
pub(crate) fn take_first(waiting: &mut Ring<Request>) -> Request
    requires { IsSome (first_waiting waiting.old.lists) }
    ensures value { first_waiting waiting.old.lists ≡ Some result }
    ensures rest { waiting.new.lists ≡ without_first waiting.old.lists }
    ensures capacity { waiting.new.capacity ≡ waiting.old.capacity }
{
    let priority = waiting.best().unwrap();
    waiting.pop(priority).unwrap()
}

/// Takes the oldest request of the highest priority out, and the one behind it in its list too if another sender
/// has put it there: that one is answered.
pub(crate) fn take_collision(waiting: &mut Ring<Request>) -> Option<Request>
    requires { IsSome (first_waiting waiting.old.lists) }
    ensures other { result ≡ collision waiting.old.lists }
    ensures rest { waiting.new.lists ≡ without_collision waiting.old.lists }
    ensures capacity { waiting.new.capacity ≡ waiting.old.capacity }
{
    let priority = waiting.best().unwrap();
    let first = waiting.pop(priority).unwrap();
    let second = waiting.front(priority)?;
    if second.sender == first.sender {
        return None;
    }
    waiting.pop(priority);
    Some(second)
}

/// Takes the requests of priority 1 out.
pub(crate) fn empty_first(waiting: &mut Ring<Request>)
    ensures lists { waiting.new.lists ≡ first_emptied waiting.old.lists }
    ensures capacity { waiting.new.capacity ≡ waiting.old.capacity }
{
    while waiting.pop(Priority::LATER).is_some() {}
}
