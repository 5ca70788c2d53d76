//! What a crash leaves of files that are written, renamed or removed.
//!
//! These are laws over what events do to folders. Programs don't call them.

ghost use Rattle.std.specs.Prelude.{◌≡◌, ◌≢◌, ◌++◌, ℕ, Bool, List, Some, None, true, false};
ghost use Rattle.dali_folder.specs.Events.{Event, AreBegun, SyncsFolder, writing, removing, renaming};
ghost use Rattle.dali_folder.specs.Folder.{Folders, Happens, Happen, IsSettled, IsPending, IsLeft, AreSame};
ghost use Rattle.dali_folder.specs.Folder.{put, moved, folder_of, has_slash};

/// A stop while a text is written leaves the text that was there, or the new one, whatever it leaves of the file that
/// is written first, which passes. Once it is written, it is on the disk.
pub fn a_text_is_written_or_not()
    ensures stops { (passing : List ℕ → Bool) (part name text : List ℕ) (begun : List Event) (was now : Folders)
        → passing part ≡ true → IsSettled passing was → AreBegun begun (writing part name text)
        → Happen begun was now → IsLeft passing name was.holds (put name (Some text) was.holds) now }
    ensures ends { (passing : List ℕ → Bool) (part name text : List ℕ) (was now : Folders) → passing part ≡ true
        → IsSettled passing was → Happen (writing part name text) was now
        → IsSettled passing now × AreSame passing now.holds (put name (Some text) was.holds) }
{}

/// A stop while a file is removed leaves it or not. Once it is removed, it stays so.
pub fn a_file_is_removed_or_not()
    ensures stops { (passing : List ℕ → Bool) (name : List ℕ) (begun : List Event) (was now : Folders)
        → IsSettled passing was → AreBegun begun (removing name) → Happen begun was now
        → IsLeft passing name was.holds (put name None was.holds) now }
    ensures ends { (passing : List ℕ → Bool) (name : List ℕ) (was now : Folders) → IsSettled passing was
        → Happen (removing name) was now
        → IsSettled passing now × AreSame passing now.holds (put name None was.holds) }
{}

/// A stop while a file is renamed leaves it under one of the two names, whatever it leaves of a log that lay there,
/// which passes. Once it is renamed, it stays so.
pub fn a_file_is_renamed_or_not()
    ensures stops { (passing : List ℕ → Bool) (log from to : List ℕ) (begun : List Event) (was now : Folders)
        → passing log ≡ true → passing from ≡ false → folder_of from ≡ folder_of to → IsSettled passing was
        → AreBegun begun (renaming log from to) → Happen begun was now
        → IsLeft passing to was.holds (moved from to was.holds) now }
    ensures ends { (passing : List ℕ → Bool) (log from to : List ℕ) (was now : Folders) → passing log ≡ true
        → passing from ≡ false → folder_of from ≡ folder_of to → IsSettled passing was
        → Happen (renaming log from to) was now
        → IsSettled passing now × AreSame passing now.holds (moved from to was.holds) }
{}

/// What a program has left that was killed is on the disk once its folder is synced. Until then another folder that is
/// synced changes nothing of it.
pub fn a_folder_is_synced_or_not()
    ensures here { (passing : List ℕ → Bool) (place name : List ℕ) (was now : Folders) → IsPending passing place was
        → folder_of place ≡ folder_of name → Happens (SyncsFolder name) was now
        → IsSettled passing now × AreSame passing now.holds was.holds }
    ensures elsewhere { (passing : List ℕ → Bool) (place name : List ℕ) (was now : Folders)
        → IsPending passing place was → folder_of place ≢ folder_of name → Happens (SyncsFolder name) was now
        → IsPending passing place now × AreSame passing now.holds was.holds × AreSame passing now.disk was.disk }
{}

/// What a name without a `/` is added to lies in the same folder.
pub fn what_is_beside_a_file_lies_in_its_folder()
    ensures { (name end : List ℕ) → has_slash end ≡ false → folder_of (name ++ end) ≡ folder_of name }
{}
