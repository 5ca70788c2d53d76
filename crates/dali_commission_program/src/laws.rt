//! What follows from the contracts of this crate, in its words. Programs don't call these.

ghost use Rattle.std.specs.Prelude.{◌≡◌, ℕ, ◌<◌, false};
ghost use Rattle.dali_statement.specs.Page.{Gear, IsPlan, Plan};
ghost use Rattle.dali_commissioning.specs.Drivers.{Talk};
ghost use Rattle.dali_commissioning.specs.Rules.{AsksByRules};
ghost use Rattle.dali_commission_program.specs.Accepted.{IsAccepted};
ghost use Rattle.dali_commission_program.specs.Nothing.{PutsSomething, PutsOrLooks, RefusedPutsSomething};
ghost use Rattle.dali_commission_program.specs.Ruled.{PutsSo, FailsSo, PutsOver, AsksOnBus};
ghost use Rattle.dali_commission_replaced.specs.Ruled.{ReplacesByRules, FailsByRules};
ghost use Rattle.dali_commission_program.specs.Ruled.{WhatWasPutKeepsPromise, WhatASurveyLeavesKeepsRules};
ghost use Rattle.dali_commission_program.specs.Ruled.{WhatAStartLeavesKeepsRules};
ghost use Rattle.dali_commission_said.specs.Tables.{only};
ghost use Rattle.dali_commission_stores.specs.Lent.{IsOpened};
ghost use Rattle.dali_commission_tasks.specs.declared.tasks.Mend.{Mend};
ghost use Rattle.dali_commission_tasks.specs.declared.tasks.Replacement.{Replacement};
ghost use Rattle.dali_commission_tasks.specs.declared.tasks.Setup.{Setup};
ghost use Rattle.dali_commission_tasks.specs.declared.tasks.Task.TheVariants as task;

use crate::writing::Writes;
use dali_commission_said::Voice;
use dali_commission_stores::Stores;
use dali_statement::laws::programs_keep_the_promise;
use std::io::{Read, Write};

/// A task that ended well has put something: no call of it ends well that wrote nothing to its driver. One case is left
/// open: of a replacement that looks for the new gear (`Nowhere`), `HasLooked` does not tell what was put until the
/// random address of that gear is known. So has one that is refused because the others are not all there.
pub fn tasks_that_end_well_put_something<S, F, R, W>(_system: &S)
where
    S: Voice + Writes,
    F: Stores,
    R: Read,
    W: Write,
    ensures identify { (a : ℕ) → PutsSomething F.Open.is_up F.Open.is_sound F.Open.holds F.Open.kept F.Open.block F.made
        F.began F.saw F.opens R.remaining W.contents (S.told _system.now) (S.wrote _system.now) (task.Identify a) }
    ensures check { PutsSomething F.Open.is_up F.Open.is_sound F.Open.holds F.Open.kept F.Open.block F.made F.began
        F.saw F.opens R.remaining W.contents (S.told _system.now) (S.wrote _system.now) task.Check }
    ensures clear { PutsSomething F.Open.is_up F.Open.is_sound F.Open.holds F.Open.kept F.Open.block F.made F.began
        F.saw F.opens R.remaining W.contents (S.told _system.now) (S.wrote _system.now) task.Clear }
    ensures run { (setup : Setup) → PutsSomething F.Open.is_up F.Open.is_sound F.Open.holds
        F.Open.kept F.Open.block F.made F.began F.saw F.opens R.remaining W.contents (S.told _system.now)
        (S.wrote _system.now) (task.Run setup) }
    ensures accept { (wanted : Replacement) → PutsSomething F.Open.is_up F.Open.is_sound F.Open.holds F.Open.kept
        F.Open.block F.made F.began F.saw F.opens R.remaining W.contents (S.told _system.now) (S.wrote _system.now)
        (task.Accept wanted) }
    ensures mend { (wanted : Mend) → PutsSomething F.Open.is_up F.Open.is_sound F.Open.holds F.Open.kept F.Open.block
        F.made F.began F.saw F.opens R.remaining W.contents (S.told _system.now) (S.wrote _system.now) (task.Mend
        wanted) }
    ensures refused { RefusedPutsSomething }
    ensures replace { (wanted : Replacement) → PutsOrLooks F.Open.is_up F.Open.is_sound F.Open.holds F.Open.kept
        F.Open.block F.made F.began F.saw F.opens R.remaining W.contents (S.told _system.now) (S.wrote _system.now)
        wanted }
{}

/// WHAT A TASK PUTS KEEPS THE RULES OF THE PAGE of `dali_statement`, if it ended well: each line is that of an act of
/// a sender that keeps to its scripts, by the records of its store, and none is of another. A check, `identify` and
/// `replace --accept` need no records: these are questions. A run does that mends nothing, over the store that was
/// opened for it. A replacement does over the store for the one short address, and over records in memory while it
/// looks for the new gear. What a run put that did not begin, or was left while its machines ran, keeps the rules too
/// (`survey_left`, `start_left`). So does what a replacement put that failed, unless the talk shows a fault or a lost
/// question (`replace_failed`).
///
/// To mend and to clear need what the rules forbid.
pub fn tasks_keep_the_rules_of_the_page<S, F, R, W>(_system: &S)
where
    S: Voice + Writes,
    F: Stores,
    R: Read,
    W: Write,
    ensures identify { (a : ℕ) → a < 64 → PutsSo F.Open.is_up F.Open.is_sound F.Open.holds F.Open.kept F.Open.block
        F.made F.began F.saw F.opens R.remaining W.contents (S.told _system.now) (S.wrote _system.now) (task.Identify a)
        (λ was records x y. AsksByRules x y) }
    ensures check { PutsSo F.Open.is_up F.Open.is_sound F.Open.holds F.Open.kept F.Open.block F.made F.began F.saw
        F.opens R.remaining W.contents (S.told _system.now) (S.wrote _system.now) task.Check
        (λ was records x y. AsksByRules x y) }
    ensures run { (setup : Setup) → setup.mends ≡ false → PutsSo F.Open.is_up F.Open.is_sound F.Open.holds F.Open.kept
        F.Open.block F.made F.began F.saw F.opens R.remaining W.contents (S.told _system.now) (S.wrote _system.now)
        (task.Run setup) (λ was records x y. PutsOver F.Open.is_up F.Open.is_sound F.Open.holds F.Open.block
        (IsOpened F.Open.block F.saw F.opens was (only records) setup.block) x y) }
    ensures replace { (wanted : Replacement) → wanted.short < 64 → PutsSo F.Open.is_up F.Open.is_sound F.Open.holds
        F.Open.kept F.Open.block F.made F.began F.saw F.opens R.remaining W.contents (S.told _system.now)
        (S.wrote _system.now) (task.Replace wanted)
        (λ was records x y. ReplacesByRules F.Open.is_up F.Open.is_sound F.Open.holds wanted.short x y) }
    ensures replace_failed { (wanted : Replacement) → wanted.short < 64 → FailsSo F.Open.is_up F.Open.is_sound
        F.Open.holds F.Open.kept F.Open.block F.made F.began F.saw F.opens R.remaining W.contents (S.told _system.now)
        (S.wrote _system.now) (task.Replace wanted)
        (λ x y. FailsByRules F.Open.is_up F.Open.is_sound F.Open.holds wanted.short x y) }
    ensures accept { (wanted : Replacement) → wanted.short < 64 → PutsSo F.Open.is_up F.Open.is_sound F.Open.holds
        F.Open.kept F.Open.block F.made F.began F.saw F.opens R.remaining W.contents (S.told _system.now)
        (S.wrote _system.now) (task.Accept wanted) (λ was records x y. AsksByRules x y) }
    ensures survey_left { WhatASurveyLeavesKeepsRules F.Open.is_up F.Open.is_sound F.Open.holds }
    ensures start_left { WhatAStartLeavesKeepsRules F.Open.is_up F.Open.is_sound F.Open.holds }
{}

/// WHAT KEEPS THE RULES KEEPS THE PROMISE on a bus that is true, beside any number of other programs and of senders
/// that keep the rules: what was asked, whatever the records are (`asked`), and what was put by those of a store, if it
/// is sound and up (`put`).
pub fn what_tasks_put_keeps_the_promise<F: Stores>()
    ensures asked { (x y : Talk) → AsksByRules x y → AsksOnBus x y }
    ensures put { WhatWasPutKeepsPromise F.Open.is_up F.Open.is_sound F.Open.holds }
{
    programs_keep_the_promise();
}

/// A GEAR THAT WAS ACCEPTED, and all others, are those of a plan of the page of `dali_statement`, with the records that
/// are there then: histories may begin there. All others keep both addresses, and all other entries stay true. The old
/// gear must never come back.
pub fn accepted_gear_are_a_plan()
    ensures { (p q : Plan) (g a : ℕ) (old new : Gear) → IsPlan p → IsAccepted p g a old new q → IsPlan q }
{}
