//! What is asked of the system.

ghost use Rattle.std.specs.Prelude.{[], ◌∷◌};

use std::alloc::Global;
use std::io;

/// Folders, with what is done in them, each a call of the system. Nothing else is known of them: what a call does, and
/// what a crash leaves, is assumed.
pub trait Folder {
    ghost use Rattle.std.specs.Prelude.{[], ◌∷◌, ℕ, List, IfOk, option_map, string_bytes};
    ghost use Rattle.dali_folder.specs.Events.{Event, Creates, Writes, Syncs, Renames, Removes, SyncsFolder, Likens};
    ghost use Rattle.dali_folder.specs.Events.{AreTried, Sight, Has, Reads};

    /// A file that is open to be written.
    type File: Drop;

    /// What was done, from one moment of the folders to another one.
    ghost did: { Self → Self → Event → Type 0 };

    /// What a look has shown.
    ghost saw: { Self → Sight → Type 0 };

    /// The name by which a file was opened.
    ghost is_of: { Self.File → List ℕ → Type 0 };

    /// Makes a file with nothing in it.
    fn create(&mut self, name: &str) -> io::Result<Self::File>
        ensures done { AreTried did (Creates name.now ∷ []) self.old self.new result }
        ensures named { IfOk result (λ file. is_of file name.now) };

    /// Writes a text behind what a file has.
    fn write(&mut self, file: &mut Self::File, text: &str) -> io::Result<()>
        ensures done { (name : List ℕ) → is_of file.old name
            → AreTried did (Writes name text.now ∷ []) self.old self.new result }
        ensures named { (name : List ℕ) → is_of file.old name → is_of file.new name };

    /// What a file has is on the disk then.
    fn sync(&mut self, file: &Self::File) -> io::Result<()>
        ensures { (name : List ℕ) → is_of file.now name
            → AreTried did (Syncs name ∷ []) self.old self.new result };

    /// Gives a file another name.
    fn rename(&mut self, from: &str, to: &str) -> io::Result<()>
        ensures { AreTried did (Renames from.now to.now ∷ []) self.old self.new result };

    /// Removes a file, if it is there.
    fn remove(&mut self, name: &str) -> io::Result<()>
        ensures { AreTried did (Removes name.now ∷ []) self.old self.new result };

    /// What was done in the folder of a name is on the disk then.
    fn sync_folder(&mut self, name: &str) -> io::Result<()>
        ensures { AreTried did (SyncsFolder name.now ∷ []) self.old self.new result };

    /// Lets those read and write one file that may do so to another one, as far as the system allows that.
    fn liken(&mut self, name: &str, to: &str)
        ensures { did self.old self.new (Likens name.now to.now) };

    /// Whether something has this name, or that cannot be told.
    fn has(&self, name: &str) -> bool
        ensures { saw self.now (Has name.now result) };

    /// The text that a file has. None if it is not there.
    fn text(&self, alloc: Global, name: &str) -> io::Result<Option<String>>
        ensures { IfOk result (λ text. saw self.now (Reads name.now (option_map (λ it. string_bytes it) text))) };
}
