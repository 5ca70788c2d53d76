//! What several parties on one bus make of a frame: laws over the definitions of ports and receivers. Programs don't
//! call them.

ghost use Rattle.std.specs.Prelude.{◌≡◌, ℕ, ◌+◌, ◌≤◌, ◌⊎◌, Bool, true, false, Some, List, [], ◌++◌, length};
ghost use Rattle.dali_frame.specs.declared.frames.Forward.{Forward as Sent};
ghost use Rattle.dali_wire.specs.Levels.{sent_levels, forward_bits};
ghost use Rattle.dali_wire.specs.declared.receiver.Reading.TheVariants.{Idle};
ghost use Rattle.dali_wire.specs.declared.receiver.Frame.TheVariants.{Forward};
ghost use Rattle.dali_wire.specs.declared.receiver.Receiver.{Receiver};
ghost use Rattle.dali_port.specs.declared.orders.Order.{Order};
ghost use Rattle.dali_port.specs.State.{Port, Sent as Sending};
ghost use Rattle.dali_port.specs.State as phase;
ghost use Rattle.dali_port.specs.Frames.{begun_at};
ghost use Rattle.dali_port.specs.Runs.{Call, Turns, after_all};
ghost use Rattle.dali_port.specs.Orders.{is_later, is_second};
ghost use Rattle.dali_port.specs.Times.{frame_time, pair_time};
ghost use Rattle.dali_port.specs.Calls.{timer_after};
ghost use Rattle.dali_port.specs.Laws.{is_sending};
ghost use Rattle.dali_port.specs.Stretches.{IsWhole};
ghost use Rattle.dali_bus_laws.specs.Table.{table};
ghost use Rattle.dali_bus_laws.specs.Bus.{Edges, SeesFrom, first_read};
ghost use Rattle.dali_bus_laws.specs.Pins.{edges_in, InOrder, AreEdgesOf, HasBegun, SendsWhole};
ghost use Rattle.dali_bus_laws.specs.Pins.{seen_at, over_at};
ghost use Rattle.dali_bus_laws.specs.Breaks.{is_breaking, BreaksOff};
ghost use Rattle.dali_bus_laws.specs.Pairs.{first_after_all};
ghost use Rattle.dali_bus_laws.specs.Transactions.{is_own, alone_after_all};
ghost use Rattle.dali_bus_laws.specs.Words.{first_word, IsCalled, IsSentWhole, IsBrokenOff};
ghost use Rattle.dali_frame.specs.declared.frames.Answer.{Answer};
ghost use Rattle.dali_port.specs.declared.orders.Word.TheVariants.{Heard, Destroyed};

/// A frame begins at rest: whatever the port did before, if its timer begins one, the bus is high, and no edge came for
/// the settling time of its priority.
pub fn a_frame_begins_at_rest()
    ensures { (p : Port) (now : ℕ) (s : Sending) → is_sending p.phase ≡ false
        → (timer_after p now).phase ≡ phase.Sending s → HasBegun (timer_after p now) s.order }
{}

/// If a port sends a frame whole, the edges that it sees are those of the frame's levels, each in its time, and none
/// beside them until the stop condition is over.
pub fn a_whole_frame_was_seen()
    ensures { (p : Port) (order : Order) (calls more : List Call)
        → p.phase ≡ phase.Sending (begun_at order p.called) → p.is_low ≡ false
        → IsWhole p calls → InOrder p.called (calls ++ more)
        → AreEdgesOf false p.called (sent_levels (forward_bits order.frame)) (edges_in (calls ++ more)) }
{}

/// The word that a port tells of a frame says what became of it. If it tells silence, a byte or damaged, it sent the
/// frame whole (`heard`). If it tells destroyed, it broke it off, or sent it whole and heard something though it had
/// asked nothing (`destroyed`).
pub fn a_word_says_what_became_of_the_frame()
    ensures heard { (p : Port) (order : Order) (calls : List Call) (heard : Answer)
        → p.phase ≡ phase.Sending (begun_at order p.called) → IsCalled table p calls
        → first_word p calls ≡ Some (Heard heard) → IsSentWhole p calls }
    ensures destroyed { (p : Port) (order : Order) (calls : List Call)
        → p.phase ≡ phase.Sending (begun_at order p.called) → IsCalled table p calls
        → first_word p calls ≡ Some Destroyed → IsSentWhole p calls ⊎ IsBrokenOff table p calls }
{}

/// What a port sent whole, each receiver on the bus that was at rest reads as exactly that frame.
pub fn what_was_whole_was_taken()
    ensures { (bus seen : Edges) (frame : Sent) (r : Receiver) (rest : ℕ)
        → SendsWhole table bus frame → SeesFrom table bus seen
        → r.reading ≡ Idle → r.is_low ≡ false → 2400 ≤ rest
        → first_read r seen rest ≡ Some (Forward frame) }
{}

/// Two frames that overlap are not both sent whole, unless both ports sent one frame, from one edge of the bus on: else
/// the first one's stop condition is over before its port sees the first edge of the other.
pub fn two_do_not_both_succeed()
    ensures { (lead bus : Edges) (f g : Sent) (a : SendsWhole table (lead ++ bus) f) (b : SendsWhole table bus g)
        → ((lead ≡ []) × (f ≡ g)) ⊎ (over_at a ≤ seen_at a (length lead)) }
{}

/// What a port began and broke off, each receiver that was at rest reads as that frame, or as no forward frame.
pub fn what_was_destroyed_was_taken_as_sent_or_not()
    ensures { (bus seen : Edges) (frame read : Sent) (r : Receiver) (rest : ℕ)
        → BreaksOff table bus frame → SeesFrom table bus seen
        → r.reading ≡ Idle → r.is_low ≡ false → 2400 ≤ rest
        → first_read r seen rest ≡ Some (Forward read) → read ≡ frame }
{}

/// A port begins the second frame of a pair only if the last frame that it began is the first one, and only if the
/// second ends, by its clock, within 100 ms of the beginning of the first.
pub fn a_pair_is_in_time()
    ensures { (p : Port) (calls : List Call) (now : ℕ) (s : Sending) → is_sending (after_all p calls).phase ≡ false
        → (timer_after (after_all p calls) now).phase ≡ phase.Sending s → is_second s.order.half ≡ true
        → (first : ℕ) × (first_after_all p p.first calls ≡ Some first) × (now + frame_time ≤ first + pair_time) }
{}

/// From power-up on a port begins a later frame of a transaction only if it was alone since its last frame: each edge
/// came while that frame was on the bus, with its break or its window, and none was lost (`known`). An edge that comes
/// when the bus was high for 12,401 µs is none of these (`noticed`): others begin a frame after 13,500 µs or more.
pub fn a_broken_transaction_is_known()
    ensures known { (p : Port) (calls : List Call) (now : ℕ) (s : Sending) → p.is_over ≡ true → p.phase ≡ phase.Free
        → is_sending (after_all p calls).phase ≡ false → (timer_after (after_all p calls) now).phase ≡ phase.Sending s
        → is_later s.order ≡ true → alone_after_all p false calls ≡ true }
    ensures noticed { (p : Port) (low : Bool) (now : ℕ) → is_sending p.phase ≡ false → is_breaking p.phase ≡ false
        → p.receiver.is_low ≡ false → p.called ≤ now → p.edge + 12401 ≤ now → is_own p (Turns low now) ≡ false }
{}
