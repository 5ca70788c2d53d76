//! A capture is read by its lines and their words; logs of items and dumps of levels are read back from their texts.
//!
//! These are laws over the definitions that the contracts of this crate cite. Programs don't call them.

ghost use Rattle.std.specs.Prelude.{◌≡◌, ℕ, Bool, List, Ok, Option, None};
ghost use Rattle.dali_capture.specs.declared.item.Item.{Item};
ghost use Rattle.dali_capture.specs.Captures.{capture_of};
ghost use Rattle.dali_capture.specs.Lines.{capture_by_lines};
ghost use Rattle.dali_capture.specs.Spelled.{log_text, AreLogged, dump_text, AreTimes, heard_of_levels};

/// A capture is its lines, each of which ends at a line feed, and their words, which stand between blanks: what the
/// words tell, one after the other, and the ends of the lines.
pub fn captures_are_lines_of_words()
    ensures { (wanted : Option (List ℕ)) (inverted : Bool) (text : List ℕ)
        → capture_of wanted inverted text ≡ capture_by_lines wanted inverted text }
{}

/// The items of a log are read back from their lines, whatever wire is wanted.
pub fn logs_are_read_back()
    ensures { (wanted : Option (List ℕ)) (inverted : Bool) (items : List Item) → AreLogged 0 items
        → capture_of wanted inverted (log_text items) ≡ Ok items }
{}

/// A dump of levels is read as what is heard of these levels, each at its time.
pub fn dumps_are_read_back()
    ensures { (inverted : Bool) (levels : List (ℕ × Bool)) → AreTimes 0 levels
        → capture_of None inverted (dump_text levels) ≡ Ok (heard_of_levels None inverted 0 levels) }
{}
