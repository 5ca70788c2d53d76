//! What a crash leaves whole: a text that is written, a file that is renamed or removed.

ghost use Rattle.std.specs.Prelude.{[], ◌∷◌};
ghost use Rattle.dali_folder.specs.Events.{Creates, Writes, Syncs, AreTried, writing, removing, renaming};

use crate::folder::Folder;
use std::io;

/// Writes a text to a new file, which is on the disk then.
fn write_new<D: Folder>(folder: &mut D, name: &str, text: &str) -> io::Result<()>
    ensures { AreTried D.did (Creates name.now ∷ Writes name.now text.now ∷ Syncs name.now ∷ []) folder.old folder.new
        result }
{
    let mut file = folder.create(name)?;
    folder.write(&mut file, text)?;
    folder.sync(&file)
}

/// Writes a text under a name. `part` is the name of a file that is written first.
pub fn write_whole<D: Folder>(folder: &mut D, part: &str, name: &str, text: &str) -> io::Result<()>
    ensures { AreTried D.did (writing part.now name.now text.now) folder.old folder.new result }
{
    write_new(folder, part, text)?;
    folder.rename(part, name)?;
    folder.sync_folder(name)
}

/// Removes a file, if it is there.
pub fn remove_whole<D: Folder>(folder: &mut D, at: &str) -> io::Result<()>
    ensures { AreTried D.did (removing at.now) folder.old folder.new result }
{
    folder.remove(at)?;
    folder.sync_folder(at)
}

/// Gives a file another name in its folder. `log` is the name of what would be taken for the log of a file with that
/// name: what was left there is removed.
pub fn rename_whole<D: Folder>(folder: &mut D, log: &str, from: &str, to: &str) -> io::Result<()>
    ensures { AreTried D.did (renaming log.now from.now to.now) folder.old folder.new result }
{
    remove_whole(folder, log)?;
    folder.rename(from, to)?;
    folder.sync_folder(to)
}
