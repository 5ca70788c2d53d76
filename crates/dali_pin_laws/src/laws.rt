//! From the pins to the promise: laws over the definitions of ports, receivers and the page. Programs don't call them.

ghost use Rattle.std.specs.Prelude.{◌≡◌, true, List, map};
ghost use Rattle.dali_statement.specs.Page.{Plan, IsPlan, IsHistory, start, after};
ghost use Rattle.dali_pin_laws.specs.Runs.{Event, moment_of, row_all, IsRun, all_keep, at_first, KeepsAtPins};

/// THE PROMISE HOLDS FROM THE PINS. Controllers over ports, on a bus by the table of `dali_bus_laws`, keep the rules of
/// the page, each by what its port told it, and gear take what their receivers read. What happens is then a history of
/// the page (`history`) with the gear at the pins (`gear`), and they keep the promise (`promise`).
pub fn the_promise_holds_from_the_pins()
    ensures history { (p : Plan) (es : List Event) → IsPlan p → IsRun p.gear es
        → all_keep p (start p) at_first es ≡ true → IsHistory p (map moment_of es) }
    ensures gear { (p : Plan) (es : List Event) → IsRun p.gear es
        → row_all p.gear es ≡ (after (start p) (map moment_of es)).gear }
    ensures promise { (p : Plan) (es : List Event) → IsPlan p → IsRun p.gear es
        → all_keep p (start p) at_first es ≡ true → KeepsAtPins p es }
{}
