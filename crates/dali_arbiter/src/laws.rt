//! Laws of the requests that wait, which a site stands on. Programs don't call them.

ghost use Rattle.std.specs.Prelude.{◌≡◌, List, Some};
ghost use Rattle.dali_arbiter.specs.declared.request.Request.{Request};
ghost use Rattle.dali_arbiter.specs.Arbiter.{Arbiter, next, first_waiting, without_first, collision};

/// The other request of a collision has another sender, and is the next one once the first is taken.
pub fn collisions_are_of_two_senders()
    ensures senders { (b : Arbiter) (r q : Request) → next b ≡ Some r → collision b.lists ≡ Some q → r.sender ≡ q.sender
        → ⊥ }
    ensures then_next { (lists : List (List Request)) (q : Request) → collision lists ≡ Some q
        → first_waiting (without_first lists) ≡ Some q }
{}
