//! Files of records and journals in memory, for the program.

use dali_commission_program::{Actor, Failure, Holder, Seen, StoreFault, Stores};
use dali_frame::{Random24, Short};
use dali_reserve::{Keep, KeepError, MemoryKeep};
use dali_script::{Block, Kept, Record};
use std::alloc::{AllocError, Global};
use std::cell::RefCell;

const REFUSED: Failure = Failure::Store(StoreFault::CannotOpen);

/// What lies under a name: records, each as the code of its kind, its short and its random address; or a text.
#[derive(Drop)]
enum Lying {
    Records(Vec<(u8, u8, u32)>),
    Text(String),
}

/// Files in memory, of which so many more may be written, renamed or removed; all if nothing is said.
#[derive(Drop)]
pub struct Cabinet {
    alloc: Global,
    files: RefCell<Vec<(String, Lying)>>,
    left: RefCell<Option<u32>>,
}

fn record(kind: u8, address: u8, random: u32) -> Option<Record> {
    Record::of_code(kind, Short::of(address)?, Random24::of(random)?)
}

/// Commits records that fit.
fn fill(store: &mut MemoryKeep, records: &[(u8, u8, u32)]) -> Option<()> {
    for (kind, address, random) in records {
        let added = record(*kind, *address, *random)?;
        match store.read() {
            Ok(kept) if kept.fits(&added) => store.commit(added).ok()?,
            _ => return None,
        }
    }
    Some(())
}

/// What is kept, as records.
fn records_of(alloc: Global, kept: &Kept) -> Result<Vec<(u8, u8, u32)>, AllocError> {
    let mut records = Vec::new(alloc);
    for pair in kept.reserved() {
        records.push((1, pair.address(), pair.random().value()))?;
    }
    for pair in kept.enrolled() {
        records.push((2, pair.address(), pair.random().value()))?;
    }
    Ok(records)
}

fn copy_of(alloc: Global, records: &[(u8, u8, u32)]) -> Result<Vec<(u8, u8, u32)>, AllocError> {
    let mut copy = Vec::new(alloc);
    for it in records {
        copy.push(*it)?;
    }
    Ok(copy)
}

impl Cabinet {
    /// With no files.
    pub fn new(alloc: Global) -> Cabinet {
        Cabinet {
            alloc,
            files: RefCell::new(Vec::new(alloc)),
            left: RefCell::new(None),
        }
    }

    /// From now on so many files may be written, renamed or removed; all if nothing is said.
    pub fn limit(&self, left: Option<u32>) {
        if let Ok(mut now) = self.left.try_borrow_mut() {
            *now = left;
        }
    }

    /// Where a name stands.
    fn place(&self, name: &str) -> Option<usize> {
        let files = self.files.try_borrow().ok()?;
        files.iter().position(|(other, _)| other.as_str() == name)
    }

    fn put(&self, name: &str, lying: Lying) -> Option<()> {
        let name = String::from_str(self.alloc, name).ok()?;
        self.take(name.as_str());
        self.files.try_borrow_mut().ok()?.push((name, lying)).ok()
    }

    /// Takes what lies under a name.
    fn take(&self, name: &str) -> Option<Lying> {
        let at = self.place(name)?;
        let mut files = self.files.try_borrow_mut().ok()?;
        if at < files.len() {
            let (_, lying) = files.swap_remove(at);
            Some(lying)
        } else {
            None
        }
    }

    /// Puts records under a name. Whether they are there.
    pub fn has_put(&self, name: &str, records: &[(u8, u8, u32)]) -> bool {
        match copy_of(self.alloc, records) {
            Ok(records) => self.put(name, Lying::Records(records)).is_some(),
            Err(_) => false,
        }
    }

    /// Puts a text under a name. Whether it is there.
    pub fn has_written(&self, name: &str, text: &str) -> bool {
        match String::from_str(self.alloc, text) {
            Ok(text) => self.put(name, Lying::Text(text)).is_some(),
            Err(_) => false,
        }
    }

    /// The records of a name, none if it has none.
    fn records(&self, name: &str) -> Result<Vec<(u8, u8, u32)>, Failure> {
        let Ok(files) = self.files.try_borrow() else {
            return Err(REFUSED);
        };
        for (other, lying) in files.iter() {
            if let (true, Lying::Records(records)) = (other.as_str() == name, lying) {
                return copy_of(self.alloc, records).map_err(|_| REFUSED);
            }
        }
        Ok(Vec::new(self.alloc))
    }

    /// Whether exactly these records lie under a name.
    pub fn is(&self, name: &str, wanted: &[(u8, u8, u32)]) -> bool {
        match self.records(name) {
            Ok(records) => self.place(name).is_some() && records.as_slice() == wanted,
            Err(_) => false,
        }
    }

    /// How many files there are.
    pub fn count(&self) -> usize {
        match self.files.try_borrow() {
            Ok(files) => files.len(),
            Err(_) => 0,
        }
    }

    fn opened(&self, name: &str, block: Block) -> Result<MemoryKeep, Failure> {
        let mut store = MemoryKeep::new(block);
        match fill(&mut store, &self.records(name)?) {
            Some(()) => Ok(store),
            None => Err(Failure::Store(StoreFault::Store(KeepError::BadStore))),
        }
    }

    /// One file more is written, renamed or removed.
    fn spend(&self) -> Result<(), Failure> {
        let Ok(mut left) = self.left.try_borrow_mut() else {
            return Err(REFUSED);
        };
        match *left {
            None => Ok(()),
            Some(0) => Err(REFUSED),
            Some(count) => {
                *left = Some(count.saturating_sub(1));
                Ok(())
            }
        }
    }
}

impl Stores for &Cabinet {
    type Open = MemoryKeep;

    type Copy = MemoryKeep;

    ghost made = { λ _ _ _. Unit {0} };

    ghost began = { λ _ _ _. Unit {0} };

    ghost saw = { λ _ _. Unit {0} };

    ghost opens = { λ _ _ _. Unit {0} };

    fn has(&self, name: &str) -> bool {
        self.place(name).is_some()
    }

    fn open(&mut self, seen: &Seen<'_>) -> Result<MemoryKeep, Failure> {
        self.opened(seen.name(), seen.block())
    }

    fn close(&mut self, seen: &Seen<'_>, mut open: MemoryKeep) -> Result<(), Failure> {
        if let Ok(kept) = open.read() {
            if let Ok(records) = records_of(self.alloc, &kept) {
                self.put(seen.name(), Lying::Records(records));
            }
        }
        Ok(())
    }

    fn why(&self, _: &Seen<'_>, failure: Failure) -> Failure {
        failure
    }

    fn copy(&self, name: &str, _: &str) -> Result<MemoryKeep, Failure> {
        self.opened(name, Block::ALL)
    }

    fn place_of(&self, alloc: Global, name: &str) -> Result<String, Failure> {
        String::from_str(alloc, name).map_err(|_| REFUSED)
    }

    fn hold<D, H: Holder<Self, D>>(
        &mut self,
        alloc: Global,
        names: &[String],
        mut holder: H,
        beside: &mut D,
    ) -> Result<H::Out, Failure> {
        let mut all = Vec::new(alloc);
        for name in names {
            let kept = match self.opened(name, Block::ALL)?.read() {
                Ok(kept) => kept,
                Err(_) => return Err(REFUSED),
            };
            if all.push(kept).is_err() {
                return Err(REFUSED);
            }
        }
        let due = holder.take(self, &all, beside)?;
        holder.then(self, due)
    }

    fn alone<A: Actor<Self>>(&mut self, _name: &str, actor: A) -> Result<A::Out, Failure> {
        actor.act(self)
    }

    fn text(&self, alloc: Global, name: &str) -> Result<Option<String>, Failure> {
        let Ok(files) = self.files.try_borrow() else {
            return Err(REFUSED);
        };
        for (other, lying) in files.iter() {
            if let (true, Lying::Text(text)) = (other.as_str() == name, lying) {
                return match String::from_str(alloc, text) {
                    Ok(text) => Ok(Some(text)),
                    Err(_) => Err(REFUSED),
                };
            }
        }
        Ok(None)
    }

    fn write(&mut self, _alloc: Global, name: &str, text: &str) -> Result<(), Failure> {
        self.spend()?;
        if self.has_written(name, text) {
            Ok(())
        } else {
            Err(REFUSED)
        }
    }

    fn rename(&mut self, _alloc: Global, from: &str, to: &str) -> Result<(), Failure> {
        self.spend()?;
        match self.take(from) {
            Some(lying) => self.put(to, lying).ok_or(REFUSED),
            None => Err(REFUSED),
        }
    }

    fn liken(&mut self, _name: &str, _to: &str) {}

    fn remove(&mut self, _alloc: Global, name: &str) -> Result<(), Failure> {
        self.spend()?;
        self.take(name);
        Ok(())
    }

    fn sync(&mut self, _name: &str) -> Result<(), Failure> {
        Ok(())
    }
}
