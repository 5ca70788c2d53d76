//! What the receiver tells of a bus at the resolution of half bits, each of one length that its times take: frames are
//! read back, what is told was on the bus, and if several answers drive it together a byte is told only if each
//! of them sent that byte. Noise is not told, and an answer alone is.
//!
//! These are laws over the definitions that the contracts of this crate cite. Programs don't call them.

ghost use Rattle.std.specs.Prelude.{◌≡◌, ℕ, ◌+◌, ◌*◌, ◌^◌, ◌<◌, ◌≤◌, ◌⊎◌, Bool, true, false, Some, None};
ghost use Rattle.std.specs.Prelude.{List, ◌∷◌, ◌++◌, length};
ghost use Rattle.std.specs.List.{AllByRecursion};
ghost use Rattle.dali_frame.specs.declared.frames.Answer.{Answer};
ghost use Rattle.dali_frame.specs.declared.frames.Answer.TheVariants.{Silence, Byte, Damaged as Garbled};
ghost use Rattle.dali_frame.specs.declared.frames.Forward.{Forward as Sent};
ghost use Rattle.dali_wire.specs.declared.receiver.Reading.TheVariants.{Idle, First};
ghost use Rattle.dali_wire.specs.declared.receiver.Frame.{Frame};
ghost use Rattle.dali_wire.specs.declared.receiver.Frame.TheVariants.{Forward, Backward, Damaged};
ghost use Rattle.dali_wire.specs.Reception.{ended, reading_at};
ghost use Rattle.dali_wire.specs.Levels.{bits_of, levels_of, forward_bits, backward_bits, highs};
ghost use Rattle.dali_wire.specs.Grid.{Tells, IsHeard, IsPassedOver, begun_at, Within, bus_of, first_low};
ghost use Rattle.dali_wire.specs.Times.{IsHalf, AreTimes, HasRead};
ghost use Rattle.dali_wire.specs.declared.window.Window.{Window};
ghost use Rattle.dali_wire.specs.Windows.{window_after, window_at, window_at_first, passed, told_after};
ghost use Rattle.dali_wire.specs.Edges.{window_after_all, by_turns, time_of, IsBeforeLow, IsAtRest, IsOneAnswer};

/// Every frame is read back from its levels, once the bus was high for a stop condition.
pub fn frames_are_read_back()
    ensures backward { (t since rest byte : ℕ) → 334 ≤ t → t ≤ 500 → 2400 ≤ rest * t → byte < 256
        → Tells t Idle false since (levels_of (backward_bits byte) ++ highs rest) (Backward byte) }
    ensures forward { (t since rest : ℕ) (f : Sent) → 334 ≤ t → t ≤ 500 → 2400 ≤ rest * t
        → f.address_byte < 256 → f.opcode_byte < 256
        → Tells t Idle false since (levels_of (forward_bits f) ++ highs rest) (Forward f) }

    // The same if each time between two edges is within the tolerance on its own.
    ensures backward_each { (since first byte : ℕ) (times : List ℕ) → byte < 256
        → IsHalf first → AreTimes false (bits_of 8 byte) times
        → HasRead Idle false (since ∷ first ∷ times) (Backward byte) }
    ensures forward_each { (since first : ℕ) (times : List ℕ) (f : Sent) → f.address_byte < 256 → f.opcode_byte < 256
        → IsHalf first → AreTimes false (bits_of 16 (256 * f.address_byte + f.opcode_byte)) times
        → HasRead Idle false (since ∷ first ∷ times) (Forward f) }
{}

/// A frame that is not damaged is told of these levels alone: highs, a start bit, the bits of the frame, each with a
/// change in its middle, and then highs alone.
pub fn what_is_told_was_on_the_bus()
    ensures { (t since : ℕ) (bus : List Bool) (frame : Frame) → 334 ≤ t → t ≤ 500
        → Tells t Idle false since bus frame → (frame ≡ Damaged) ⊎ IsHeard bus frame }
{}

/// If any number of answers drive the bus together, each begun before the stop condition is over, a byte is told
/// only if each of them sent that byte; they then began together.
///
/// The law of one answer takes no more than that the bus is low wherever that answer is, whatever else is on the bus.
pub fn joint_answers_are_one_byte()
    ensures all { (t since n byte : ℕ) (answers : List (ℕ × ℕ)) → 334 ≤ t → t ≤ 500
        → Tells t Idle false since (bus_of n answers) (Backward byte)
        → AllByRecursion (λ a. (a.0 < n) × (a.1 < 256)) answers
        → AllByRecursion (λ a. (a.0 ≡ first_low (bus_of n answers)) × (a.1 ≡ byte)) answers }
    ensures one { (t since : ℕ) (bus : List Bool) (byte : ℕ) → 334 ≤ t → t ≤ 500
        → Tells t Idle false since bus (Backward byte) → (begin sent : ℕ) → sent < 256 → begin < length bus
        → Within (begun_at begin (levels_of (backward_bits sent))) bus
        → (sent ≡ byte) × (begin ≡ first_low bus) }
{}

/// Whatever edges a window was told, it tells silence only of a bus at rest, with at most one low shorter than 100 µs,
/// and with echoes before it.
/// So of two lows or more, or of one that is longer, it never tells silence.
pub fn silence_is_a_bus_at_rest()
    ensures { (edges : List (Bool × ℕ)) (rest : ℕ)
        → told_after (window_after_all window_at_first edges) rest ≡ Some Silence → IsAtRest edges }
{}

/// Whatever edges a window was told, it tells a byte only of one backward frame of that byte, which began in its time,
/// and besides of at most one low shorter than 100 µs.
pub fn a_byte_is_heard_of_one_frame()
    ensures { (edges : List (Bool × ℕ)) (rest byte : ℕ) → time_of edges + rest < 2 ^ 32
        → told_after (window_after_all window_at_first edges) rest ≡ Some (Byte byte) → IsOneAnswer edges rest byte }
{}

/// An answer alone that begins in its time is told as its byte, once the window is over, if each time between two
/// edges is within the tolerance on its own.
pub fn answers_are_heard()
    ensures { (begin first rest byte : ℕ) (times : List ℕ) → byte < 256 → 2400 ≤ begin → begin ≤ 12400
        → IsHalf first → AreTimes false (bits_of 8 byte) times → 2400 ≤ rest → rest < 2 ^ 31
        → 12400 < passed (window_after_all window_at_first (by_turns true (begin ∷ first ∷ times))) rest
        → told_after (window_after_all window_at_first (by_turns true (begin ∷ first ∷ times))) rest
        ≡ Some (Byte byte) }
{}

/// A window may be asked at any time, and as often as one likes: each later edge and time leaves the same window as if
/// it had not been asked.
pub fn asking_changes_nothing()
    ensures edge { (w : Window) (before since : ℕ) (low : Bool) → before ≤ since → w.elapsed + since < 2 ^ 32
        → window_after (window_at w before) low since ≡ window_after w low since }
    ensures time { (w : Window) (before since : ℕ) → before ≤ since → w.elapsed + since < 2 ^ 32
        → window_at (window_at w before) since ≡ window_at w since }
{}

/// An edge to high before any low, and before a backward frame may begin, changes nothing but the time of the next one:
/// it is an echo of the last edge of the forward frame. After any other edge to high of a high bus, of which edges were
/// missed, damage is told.
pub fn only_echoes_are_passed_over()
    ensures edge { (w : Window) (echo since : ℕ) (low : Bool) → IsBeforeLow w → w.elapsed + echo < 2400
        → window_after (window_after w false echo) low since ≡ window_after w low (echo + since) }
    ensures time { (w : Window) (echo rest : ℕ) → IsBeforeLow w → w.elapsed + echo < 2400
        → told_after (window_after w false echo) rest ≡ told_after w (echo + rest) }
    ensures missed { (w : Window) (since rest : ℕ) (edges : List (Bool × ℕ)) (told : Answer)
        → w.receiver.is_low ≡ false → (IsBeforeLow w → 2400 ≤ w.elapsed + since)
        → told_after (window_after_all (window_after w false since) edges) rest ≡ Some told → told ≡ Garbled }
{}

/// Lows that are shorter than a half bit, on a bus at rest, are not told, however many come and whenever, and the bus
/// is at rest again.
pub fn noise_is_not_told()
    ensures edges { (noise : List (ℕ × ℕ)) → AllByRecursion (λ n. n.1 < 334) noise → IsPassedOver Idle noise }
    ensures time { (since : ℕ) (low : Bool) → (ended Idle low since ≡ None) × (ended First true since ≡ None) }
    ensures rests { (since : ℕ) (low : Bool) → reading_at Idle low since ≡ Idle }
{}
