//! The folders of the system.

use crate::folder::Folder;
use crate::places::folder_of;
use std::alloc::Global;
use std::fs::{Files, OpenFile};
use std::io::{ErrorKind, Write};
use std::{fs, io};

/// The folders of the system, each method one call of it.
#[derive(Drop)]
pub struct System<'a, R> {
    rt: &'a R,
}

impl<'a, R> System<'a, R> {
    /// Its folders.
    pub fn of(rt: &'a R) -> System<'a, R> {
        System { rt }
    }

    /// The system.
    pub fn runtime(&self) -> &'a R {
        self.rt
    }
}

#[tactic(auto, using(crate::proofs::Tried::any))]
impl<R: Files> Folder for System<'_, R> {
    type File = R::File;

    ghost did = { λ _ _ _. Unit {0} };

    ghost saw = { λ _ _. Unit {0} };

    ghost is_of = { λ _ _. Unit {0} };

    fn create(&mut self, name: &str) -> io::Result<R::File> {
        fs::File::create(self.rt, name)
    }

    fn write(&mut self, file: &mut R::File, text: &str) -> io::Result<()> {
        file.write_all(text.as_bytes())
    }

    fn sync(&mut self, file: &R::File) -> io::Result<()> {
        file.sync_all()
    }

    fn rename(&mut self, from: &str, to: &str) -> io::Result<()> {
        fs::rename(self.rt, from, to)
    }

    fn remove(&mut self, name: &str) -> io::Result<()> {
        match fs::remove_file(self.rt, name) {
            Err(error) if error.kind() != ErrorKind::NotFound => Err(error),
            _ => Ok(()),
        }
    }

    fn sync_folder(&mut self, name: &str) -> io::Result<()> {
        fs::File::open(self.rt, folder_of(name))?.sync_all()
    }

    fn liken(&mut self, name: &str, to: &str) {
        if let Ok(about) = fs::metadata(self.rt, to) {
            let _ = fs::set_permissions(self.rt, name, about.permissions());
        }
    }

    fn has(&self, name: &str) -> bool {
        // Whoever opens it is told what it is.
        fs::exists(self.rt, name).unwrap_or(true)
    }

    fn text(&self, alloc: Global, name: &str) -> io::Result<Option<String>> {
        match fs::File::open(self.rt, name) {
            Ok(file) => io::read_to_string(alloc, file).map(Some),
            Err(error) if error.kind() == ErrorKind::NotFound => Ok(None),
            Err(error) => Err(error),
        }
    }
}
