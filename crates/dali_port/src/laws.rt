//! What holds of each call of a port, whatever its fields are, and over any run of calls.
//!
//! These are laws over the definitions that the contracts of this crate cite. Programs don't call them.

ghost use Rattle.std.specs.Prelude.{◌≡◌, ℕ, ◌+◌, ◌<◌, true, false, List};
ghost use Rattle.dali_port.specs.declared.orders.Order.{Order};
ghost use Rattle.dali_port.specs.State.{Port, Sent, Waiting, Sending};
ghost use Rattle.dali_port.specs.Frames.{begun_at};
ghost use Rattle.dali_port.specs.Calls.{timer_after, drive_of, is_drawn};
ghost use Rattle.dali_port.specs.Laws.{IsDrivenLow, is_sending, GoesOn};
ghost use Rattle.dali_port.specs.Runs.{Call, Times, time_of, after, after_all, told_by, words, frames, under_way};
ghost use Rattle.dali_port.specs.Runs.{HasOneWord, BeginsBy, marks_of, marks_after, marks_after_all};
ghost use Rattle.dali_port.specs.Stretches.{seen_by_all, Follows, IsWhole, TellsHeard, is_listening};
ghost use Rattle.dali_port.specs.Bounds.{IsAtRest, AreInTime, ends_by};

/// Each frame ends with exactly one word, and no word comes of no frame: in each call, and over any run.
pub fn each_frame_has_one_word()
    ensures call { (p : Port) (c : Call) → HasOneWord p c }
    ensures run { (p : Port) (calls : List Call)
        → words p calls + under_way (after_all p calls) ≡ frames p calls + under_way p }
{}

/// From rest on a frame that waits has one word once its bound in µs is past, if the timer is called in time, no edge
/// comes before the frame begins, and none is lost. Others may send at any time after it began.
pub fn each_frame_ends_in_time()
    ensures { (p : Port) (order : Order) (late : ℕ) (calls : List Call) → p.phase ≡ Waiting order → IsAtRest p
        → AreInTime late p calls → frames p calls ≡ 0 → ends_by p order late < (after_all p calls).called
        → words p calls ≡ 1 }
{}

/// What was heard is told of frames alone that were sent whole: from the first edge to the end of the stop condition
/// the bus never differed for longer than the bound from the level that was driven.
pub fn what_is_whole_was_compared()
    ensures heard { (p : Port) (c : Call) → TellsHeard (told_by p c) → is_listening p.phase ≡ true }
    ensures whole { (p : Port) (order : Order) (calls : List Call) → p.phase ≡ Sending (begun_at order p.called)
        → IsWhole p calls → Follows 0 (seen_by_all p calls) }
{}

/// A port drives low only within its frame or a break.
pub fn low_is_a_frame_or_a_break()
    ensures { (p : Port) → (drive_of p).is_low ≡ true → IsDrivenLow p.phase }
{}

/// The timer alone begins a frame, at rest, in the time of its priority, and not within 100 ms after a pair of
/// RANDOMISE.
pub fn frames_begin_at_rest()
    ensures { (p : Port) (c : Call) (s : Sent) → is_sending p.phase ≡ false → (after p c).phase ≡ Sending s
        → BeginsBy p s c }
{}

/// A frame that is being sent goes on half bit by half bit, each when the one before it is over.
pub fn half_bits_are_in_time()
    ensures { (p : Port) (c : Call) (s t : Sent) → p.phase ≡ Sending s → (after p c).phase ≡ Sending t
        → GoesOn s t (time_of c) }
{}

/// Over any run a port knows when the last pair of RANDOMISE ended that it sent or read, and begins no frame within
/// 100 ms after it.
pub fn nothing_is_sent_while_gear_draw()
    ensures known { (p : Port) (calls : List Call)
        → marks_of (after_all p calls) ≡ marks_after_all p (marks_of p) calls }
    ensures begins { (p : Port) (calls : List Call) (now : ℕ) (s : Sent) → is_sending (after_all p calls).phase ≡ false
        → (timer_after (after_all p calls) now).phase ≡ Sending s
        → is_drawn (marks_after (after_all p calls) (marks_after_all p (marks_of p) calls) (Times now)).1 now ≡ true }
{}
