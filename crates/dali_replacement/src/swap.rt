//! How new files of records take the places of old ones: moment by moment, so that a stop at any of them leaves files
//! that can be used, or a swap that goes on.

ghost use Rattle.std.specs.Prelude.{◌≡◌, ℕ, ◌+◌, ◌*◌, ◌<◌, ◌≤◌, ◌↔◌, length, IsTrue, MatchOption};
ghost use Rattle.dali_replacement.specs.Swap.{lies_at, step_after, AreAt};

/// What lies at the place of a file of records, and beside it.
#[derive(Clone, Copy, Default, PartialEq)]
pub struct Lies {
    /// The journal of a swap.
    pub journal: bool,
    /// The new file.
    pub new: bool,
    /// A file at the place itself.
    pub at: bool,
    /// The old file, under the name by which it is kept.
    pub kept: bool,
}

/// A step of a swap, of the file with this number.
#[derive(Clone, Copy)]
pub enum Step {
    /// Its journal is written.
    Announce(u32),
    /// The old file is renamed to the name by which it is kept.
    SetAside(u32),
    /// The new file is renamed to the place of the old one.
    Place(u32),
    /// Its journal is removed.
    Forget(u32),
}

/// The most files of a site: a controller has one at least of the 64 short addresses.
pub const MOST_FILES: usize = 64;

/// What lies at the place of the file with this number, of so many, at a moment of a swap.
pub fn lies_at(count: u32, moment: u32, number: u32) -> Lies
    requires count { count ≤ 64 }
    requires number { number < count }
    ensures value { result ≡ lies_at count moment number }
{
    let place = count + 2 * number;
    Lies {
        journal: number < moment && moment <= 3 * count + number,
        new: moment < place + 2,
        at: moment <= place || place + 2 <= moment,
        kept: place < moment,
    }
}

/// The step that leads from a moment of a swap of so many files to the next one. None at its end.
pub fn step_after(count: u32, moment: u32) -> Option<Step>
    requires { count ≤ 64 }
    ensures { result ≡ step_after count moment }
{
    if moment < count {
        Some(Step::Announce(moment))
    } else if moment < 3 * count {
        let moved = moment - count;
        if moved % 2 == 0 {
            Some(Step::SetAside(moved / 2))
        } else {
            Some(Step::Place(moved / 2))
        }
    } else if moment < 4 * count {
        Some(Step::Forget(moment - 3 * count))
    } else {
        None
    }
}

/// Whether this lies at the places of files, from this number on, at a moment.
fn are_at(count: u32, moment: u32, number: u32, files: &[Lies]) -> bool
    requires count { count ≤ 64 }
    requires files { number + length files.now ≡ count }
    ensures { IsTrue result ↔ AreAt count moment number files.now }
{
    match files {
        [] => true,
        [lies, more @ ..] => {
            *lies == lies_at(count, moment, number) && are_at(count, moment, number + 1, more)
        }
    }
}

/// The moment of a swap at which this lies at the places of its files. None if it is none that a stop leaves.
pub fn moment_of(files: &[Lies]) -> Option<u32>
    requires { length files.now ≤ 64 }
    ensures { MatchOption result
        ((m : ℕ) → m ≤ 4 * length files.now → AreAt (length files.now) m 0 files.now → ⊥)
        (λ m. (m ≤ 4 * length files.now) × AreAt (length files.now) m 0 files.now) }
{
    let count = files.len() as u32;
    for moment in 0..4 * count + 1 {
        if are_at(count, moment, 0, files) {
            return Some(moment);
        }
    }
    None
}
