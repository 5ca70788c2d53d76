//! What the command line may ask for.

ghost use Rattle.std.specs.Prelude.{◌<◌};

use dali_frame::Short;
use dali_script::Block;

/// How a table is spelled.
#[derive(Clone, Copy)]
pub enum TableForm {
    /// A line for each gear: its short address, a space, and its random address.
    Text,
    /// Comma-separated values, with a heading.
    Csv,
    /// An array with an object for each gear.
    Json,
}

/// How a run begins.
#[derive(Clone, Copy, PartialEq, Eq)]
pub enum Start {
    /// It asks which gear has which short address, and enrols each that tells its random address.
    Survey,
    /// All gear are new: if any has a short address that no record names, nothing is begun.
    Fresh,
}

/// What a command line asks for.
#[derive(Drop)]
pub struct Asked {
    pub task: Task,
    /// The names of the records: one of a run or a table, one or none of a check, one at least of a replacement or a
    /// mend, any of a clear.
    pub records: Vec<String>,
    /// The blocks of other controllers.
    pub others: Vec<Block>,
    /// Whether nothing is said of how far it is.
    pub is_quiet: bool,
    /// Whether what it came to is written as an object of JSON, too.
    pub as_json: bool,
}

/// What is to be done.
#[derive(Drop)]
pub enum Task {
    /// The gear are to be given short addresses.
    Run(Setup),
    /// What is heard of each short address is to be said beside the records.
    Check,
    /// The gear with a short address is to show itself.
    Identify(Short),
    /// The table of the records is to be written.
    Table(TableForm),
    /// A new luminaire is to have the short address of one that is gone.
    Replace(Replacement),
    /// The luminaire that answers at a short address is to take the place of the one that the tables have there.
    Accept(Replacement),
    /// Gear that share a short address are to be told apart.
    Mend(Mend),
    /// All gear are to lose their short addresses, and the files of records are put aside.
    Clear,
}

/// How gear are to be given short addresses.
#[derive(Drop)]
pub struct Setup {
    pub block: Block,
    pub start: Start,
    /// How many passes in a row, each of one machine, are to have committed nothing, at least 1.
    pub idle_passes: u8,
    /// Whether short addresses that gear share are mended then.
    pub mends: bool,
    ghost some: { 0 < idle_passes },
}

/// Which luminaire is replaced.
#[derive(Drop)]
pub struct Replacement {
    /// Its short address.
    pub short: Short,
    /// The short addresses of other luminaires that are known to be gone.
    pub missing: Vec<Short>,
    /// The block of the records, if they are of one name.
    pub block: Block,
    /// Whether the new files of an earlier call are put aside, and it begins anew.
    pub is_again: bool,
}

/// Which short addresses are mended.
#[derive(Drop)]
pub struct Mend {
    /// These; or, if there are none, each one that gear share.
    pub named: Vec<Short>,
    /// The short addresses of luminaires that are known to be gone.
    pub missing: Vec<Short>,
    /// The block of the first records.
    pub block: Block,
}
