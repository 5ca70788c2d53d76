//! What follows from the contracts of this crate, in its words. Programs don't call these.

ghost use Rattle.std.specs.Prelude.{◌≡◌, ℕ, ◌<◌, ◌≤◌, true, None, Some, List, [], ◌++◌, length};
ghost use Rattle.dali_frame.specs.declared.frames.Forward.{Forward};
ghost use Rattle.dali_script.specs.Due.{accepts};
ghost use Rattle.dali_script.specs.declared.orders.Due.TheVariants as due;
ghost use Rattle.dali_script.specs.declared.block.Block.{Block};
ghost use Rattle.dali_script.specs.declared.orders.Input.{Input};
ghost use Rattle.dali_script.specs.declared.records.Record.{Record};
ghost use Rattle.dali_script.specs.Records.{Assignment, Kept};
ghost use Rattle.dali_script.specs.Scripts.{Lawful};
ghost use Rattle.dali_reserve.specs.Store.{IsReplay};
ghost use Rattle.dali_script.specs.declared.sending.Half.{Half};
ghost use Rattle.dali_commissioning.specs.Lines.{put_text, Says, told_text, told_of, IsByte};
ghost use Rattle.dali_commissioning.specs.Census.{AreHeard, entries_of, query_at};
ghost use Rattle.dali_commissioning.specs.Unaddressed.{waking, withdrawing, comparing, ending, AreLawful};
ghost use Rattle.dali_frame.specs.declared.frames.Answer.{Answer};
ghost use Rattle.dali_controller.specs.Machine.{Machine};
ghost use Rattle.dali_commissioning.specs.Steps.{Step, AreSteps, committed_by, last_order};
ghost use Rattle.dali_commissioning.specs.Giving.{ReserveNothing, Gives};
ghost use Rattle.dali_statement.specs.Own.{AreOwn};
ghost use Rattle.dali_controller.specs.Acts.{own_of};
ghost use Rattle.dali_commissioning.specs.Acts.{acts_by, outstanding, records_of};
ghost use Rattle.std.specs.Prelude.{Bool};
ghost use Rattle.dali_special.specs.Command.{command_of};
ghost use Rattle.dali_special.specs.declared.command.Command.TheVariants.{Arc};
ghost use Rattle.dali_commissioning.specs.Drivers.{Talk};
ghost use Rattle.dali_commissioning.specs.Census.{IsPut, IsAnswered, IsCleared, AreCounted};
ghost use Rattle.dali_commissioning.specs.Unaddressed.{asking, asking_beside, AreLeftOver};
ghost use Rattle.dali_commissioning.specs.Rules.{AsksByRules};
ghost use Rattle.dali_commissioning.specs.declared.census.Reply.{Reply};

use dali_frame::laws::frames_are_spelled;

/// The frames of a question are transactions that every controller may send, whatever its block and its reservations
/// are, and whatever was heard: so a census gives no address, and what is promised of a site stands over it.
#[tactic(auto, using(crate::proofs::Lawfully::lawful))]
pub fn questions_are_lawful()
    ensures { (b : Block) (reserved : List Assignment) (a : ℕ) (told : List Input) → a < 64 → AreHeard told
        → length told < 3 → Lawful b reserved (entries_of a told) (query_at a (length told)) }
{}

/// The frames by which gear without short address are asked are three transactions that every controller may send,
/// whatever was heard, and so is a fourth one, by which those with one random address are withdrawn: none of them gives
/// an address or draws a number.
#[tactic(auto, using(crate::proofs::Lawfully::ended))]
pub fn asking_for_the_unaddressed_is_lawful()
    ensures woken { (b : Block) (reserved : List Assignment) (heard : List Answer)
        → AreLawful b reserved [] waking heard }
    ensures withdrawn { (b : Block) (reserved : List Assignment) (r : ℕ) (heard : List Answer)
        → AreLawful b reserved [] (withdrawing r) heard }
    ensures compared { (b : Block) (reserved : List Assignment) (heard : List Answer)
        → AreLawful b reserved [] comparing heard }
    ensures ended { (b : Block) (reserved : List Assignment) (heard : List Answer)
        → AreLawful b reserved [] ending heard }
{}

/// A machine without reservations gives no address as long as it is told of none that was kept: whatever else it is
/// told, it orders no PROGRAM SHORT ADDRESS.
pub fn who_reserves_nothing_gives_nothing()
    ensures { (m n : Machine) (steps : List Step) → m.kept.reserved ≡ [] → m.last ≡ None → AreSteps m steps n
        → ReserveNothing (committed_by steps) → Gives steps → ⊥ }
{}

/// The records of a controller are records of every larger block: whatever it committed with the smaller one, it might
/// have committed with the larger one. So a store may be opened with a larger block.
pub fn records_are_those_of_a_larger_block()
    ensures { (b wide : Block) (xs : List Record) (k : Kept) → wide.first ≤ b.first → b.last ≤ wide.last
        → IsReplay b xs k → IsReplay wide xs (record k { block = wide }) }
{}

/// What a driver may tell is read back from the line that tells it, so two lines of a driver tell different things.
pub fn answers_are_read_back()
    ensures { (told : Input) → accepts due.Bus told ≡ true → IsByte told → told_of (told_text told) ≡ Some told }
{
    frames_are_spelled();
}

/// Priority, frame and half are read back from the line that puts a frame, so two lines of the program put different
/// frames.
pub fn frames_are_read_back()
    ensures { (p : ℕ) (f : Forward) (half : Half) → p ≤ 5 → f.address_byte < 256 → f.opcode_byte < 256
        → Says (put_text p f half) p f half }
{
    frames_are_spelled();
}

/// WHAT IS CONDUCTED KEEPS TO ITS SCRIPTS, whatever a driver answers. The steps that a machine took from its start
/// (`AreSteps`) are acts of a program on the page of `dali_statement`: each frame is lawful by the records that the
/// store took before (`own`), and so is an order that is not done yet (`last`). The records that they keep are those
/// that the store took, in their order (`records`).
pub fn what_is_conducted_keeps_to_scripts()
    ensures own { (m n : Machine) (steps : List Step) → m.last ≡ None → m.trace ≡ [] → AreSteps m steps n
        → AreOwn (own_of m) (acts_by steps) }
    ensures last { (m n : Machine) (steps : List Step) → m.last ≡ None → m.trace ≡ [] → AreSteps m steps n
        → AreOwn (own_of m) (acts_by steps ++ outstanding (last_order steps)) }
    ensures records { (steps : List Step) → records_of (acts_by steps) ≡ committed_by steps }
{}

/// QUESTIONS KEEP THE RULES OF THE PAGE, whoever asks and whatever is heard: what was put while a short address was
/// asked (`answered`), or asked until it was clear (`cleared`), while all were asked (`census`), and while gear without
/// short address were, all of them (`unaddressed`) or those beside one (`beside`). So does direct arc power (`lit`).
pub fn questions_keep_the_rules_of_the_page()
    ensures answered { (a : ℕ) (r : Reply) (x y : Talk) → a < 64 → IsAnswered a r x y → AsksByRules x y }
    ensures cleared { (a : ℕ) (r : Reply) (x y : Talk) → a < 64 → IsCleared a r x y → AsksByRules x y }
    ensures census { (k : Kept) (others : List Block) (replies : List Reply) (x y : Talk) → length replies ≤ 64
        → AreCounted k others 0 replies x y → AsksByRules x y }
    ensures unaddressed { (found : Bool) (x y : Talk) → AreLeftOver asking found x y → AsksByRules x y }
    ensures beside { (r : ℕ) (found : Bool) (x y : Talk) → AreLeftOver (asking_beside r) found x y → AsksByRules x y }
    ensures lit { (p : ℕ) (f : Forward) (half : Half) (told : Input) (x y : Talk) → command_of f ≡ Arc f
        → IsPut p f half told x y → AsksByRules x y }
{}
