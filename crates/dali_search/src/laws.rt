//! Who answers truly at each probe has a set that agrees with all the answers, and a search that is answered as long as
//! it goes on ends.
//!
//! These are laws over the definitions that the contracts of this crate cite. Programs don't call them.

ghost use Rattle.std.specs.Prelude.{◌≡◌, ℕ, ◌+◌, ◌*◌, ◌<◌, ◌≤◌, Bool, false, List, [], ◌∷◌, ◌++◌, length};
ghost use Rattle.dali_search.specs.declared.step.Step.TheVariants.{Again, Nobody};
ghost use Rattle.dali_search.specs.Least.{Search, at_first, answered, IsBelow, Agrees, Gives, Says, NumberOf};
ghost use Rattle.dali_search.specs.Narrowing.{IsNarrowing};
ghost use Rattle.dali_search.specs.Ascending.{Ascent, IsAscent, ascent_at_first, above, leads_to, asked_next, ascended};
ghost use Rattle.dali_search.specs.Questions.{Asking, HasBegun, IsUnderWay, frames_asked, frames_to_ask, asking_next};
ghost use Rattle.dali_search.specs.Questions.{thirds_left};

/// A set agrees with answers and one more exactly if it agrees with the answers and gives the one more.
pub fn answers_agree_one_by_one()
    ensures none { (has : ℕ → Bool) → Agrees has [] }
    ensures more { (has : ℕ → Bool) (answers : List (ℕ × Bool)) (probe : ℕ) (said : Bool)
        → Agrees has answers → Gives has probe said → Agrees has (answers ++ (probe, said) ∷ []) }
    ensures before { (has : ℕ → Bool) (answers : List (ℕ × Bool)) (probe : ℕ) (said : Bool)
        → Agrees has (answers ++ (probe, said) ∷ []) → Agrees has answers × Gives has probe said }
{}

/// A search narrows from its start, with each answer while it goes on. One that narrows goes on for fewer than 25
/// answers; its end is true of each set that agrees with its answers; and no gear is left only by a no at `FFFFFE`.
pub fn searches_narrow_to_an_end()
    ensures begins { IsNarrowing at_first }
    ensures goes_on { (s : Search) (said : Bool) → IsNarrowing s → s.step ≡ Again → IsNarrowing (answered s said) }
    ensures ends { (s : Search) → IsNarrowing s → s.step ≡ Again → length s.answers < 25 }
    ensures count { (s : Search) → IsNarrowing s → length s.answers ≤ 25 }
    ensures least { (s : Search) → IsNarrowing s → (has : ℕ → Bool) → IsBelow has 0xFFFFFF → Agrees has s.answers
        → Says has s.step }
    ensures asked { (s : Search) → IsNarrowing s → s.probe < 0xFFFFFF }
    ensures found { (s : Search) → IsNarrowing s → NumberOf s.step (λ r. r < 0xFFFFFF) }
    ensures nobody { (s : Search) (said : Bool) → IsNarrowing s → s.step ≡ Again → (answered s said).step ≡ Nobody
        → (said ≡ false) × (s.probe ≡ 0xFFFFFE) }
{}

/// What the questions of an ascent cost in frames, in transactions that have room for eight, begin with all three bytes
/// of the search address, and then send only those that changed: from its start, or from the member that it found last,
/// at most 99 until it ends, whatever it is answered. Each question takes no more than what it leaves fewer.
pub fn ascents_cost_few_frames()
    ensures first { HasBegun ascent_at_first }
    ensures next { (a : Ascent) (r : ℕ) → IsAscent a → r < 0xFFFFFF → HasBegun (above a r) }
    ensures begins { (a : Ascent) (q : Asking) → HasBegun a → q.room ≡ 0 → IsUnderWay a q × (thirds_left a q ≡ 299) }
    ensures each { (a : Ascent) (q : Asking) (answer : Bool) → IsUnderWay a q → leads_to a ≡ Again
        → (3 * frames_to_ask q (asked_next a) + thirds_left (ascended a answer) (asking_next q (asked_next a))
        ≤ thirds_left a q)
        × IsUnderWay (ascended a answer) (asking_next q (asked_next a)) }
    ensures all { (a : Ascent) (q : Asking) (answers : List Bool) → HasBegun a → q.room ≡ 0
        → frames_asked a q answers ≤ 99 }
{}
