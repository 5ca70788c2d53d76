//! Records in memory under a name, for the program.

use dali_commission_program::{Actor, Failure, Holder, Seen, StoreFault, Stores};
use dali_frame::{Random24, Short};
use dali_reserve::{Keep, KeepError, MemoryKeep};
use dali_script::{Block, Record};
use std::alloc::Global;
use std::cell::RefCell;

/// The records `site.db`, which hold these when they are opened; or why they cannot be opened. How many gear were
/// enrolled when they were closed or copied last.
#[derive(Drop)]
pub struct Shelf<'a> {
    pub records: &'a [(u8, u8, u32)],
    pub fault: Option<StoreFault>,
    pub enrolled: RefCell<usize>,
}

impl<'a> Shelf<'a> {
    /// With these records, each as the code of its kind, its short and its random address.
    pub fn of(records: &'a [(u8, u8, u32)]) -> Shelf<'a> {
        Shelf {
            records,
            fault: None,
            enrolled: RefCell::new(0),
        }
    }

    /// That cannot be opened.
    pub fn refused(fault: StoreFault) -> Shelf<'a> {
        Shelf {
            records: &[],
            fault: Some(fault),
            enrolled: RefCell::new(0),
        }
    }

    /// How many gear were enrolled when it was closed or copied.
    pub fn enrolled(&self) -> Option<usize> {
        match self.enrolled.try_borrow() {
            Ok(enrolled) => Some(*enrolled),
            Err(_) => None,
        }
    }
}

const NONE: Failure = Failure::Store(StoreFault::CannotOpen);

fn record(kind: u8, address: u8, random: u32) -> Option<Record> {
    Record::of_code(kind, Short::of(address)?, Random24::of(random)?)
}

fn is_kept(store: &mut MemoryKeep, block: &Block, record: &Record) -> bool {
    match store.read() {
        Ok(kept) => { store.is_of(*block) && kept.fits(record) && store.commit(*record).is_ok() }
        Err(_) => false,
    }
}

/// These records, for a controller with this block.
fn store_of(records: &[(u8, u8, u32)], block: Block) -> Option<MemoryKeep> {
    let mut store = MemoryKeep::new(block);
    for (kind, address, random) in records {
        if !is_kept(&mut store, &block, &record(*kind, *address, *random)?) {
            return None;
        }
    }
    Some(store)
}

impl Shelf<'_> {
    /// Opens them for a controller with this block.
    fn opened(&self, block: Block) -> Result<MemoryKeep, Failure> {
        match (self.fault, store_of(self.records, block)) {
            (Some(fault), _) => Err(Failure::Store(fault)),
            (None, Some(store)) => Ok(store),
            (None, None) => Err(Failure::Store(StoreFault::Store(KeepError::BadStore))),
        }
    }

    /// Notes how many gear are enrolled.
    fn note(&self, store: &mut MemoryKeep) {
        if let (Ok(kept), Ok(mut enrolled)) = (store.read(), self.enrolled.try_borrow_mut()) {
            *enrolled = kept.enrolled().len();
        }
    }
}

impl Stores for &Shelf<'_> {
    type Open = MemoryKeep;

    type Copy = MemoryKeep;

    ghost made = { λ _ _ _. Unit {0} };

    ghost began = { λ _ _ _. Unit {0} };

    ghost saw = { λ _ _. Unit {0} };

    ghost opens = { λ _ _ _. Unit {0} };

    fn has(&self, name: &str) -> bool {
        name == "site.db"
    }

    fn open(&mut self, seen: &Seen<'_>) -> Result<MemoryKeep, Failure> {
        self.opened(seen.block())
    }

    fn close(&mut self, _: &Seen<'_>, mut open: MemoryKeep) -> Result<(), Failure> {
        self.note(&mut open);
        Ok(())
    }

    fn why(&self, _: &Seen<'_>, failure: Failure) -> Failure {
        failure
    }

    fn copy(&self, _: &str, _: &str) -> Result<MemoryKeep, Failure> {
        let mut store = self.opened(Block::ALL)?;
        self.note(&mut store);
        Ok(store)
    }

    fn place_of(&self, alloc: Global, name: &str) -> Result<String, Failure> {
        String::from_str(alloc, name).map_err(|_| NONE)
    }

    // Nothing is replaced here.

    fn hold<D, H: Holder<Self, D>>(
        &mut self,
        _: Global,
        _: &[String],
        _: H,
        _: &mut D,
    ) -> Result<H::Out, Failure> {
        Err(NONE)
    }

    fn alone<A: Actor<Self>>(&mut self, _: &str, _: A) -> Result<A::Out, Failure> {
        Err(NONE)
    }

    fn text(&self, _: Global, _: &str) -> Result<Option<String>, Failure> {
        Ok(None)
    }

    fn write(&mut self, _: Global, _: &str, _: &str) -> Result<(), Failure> {
        Err(NONE)
    }

    fn rename(&mut self, _: Global, _: &str, _: &str) -> Result<(), Failure> {
        Err(NONE)
    }

    fn liken(&mut self, _: &str, _: &str) {}

    fn remove(&mut self, _: Global, _: &str) -> Result<(), Failure> {
        Err(NONE)
    }

    fn sync(&mut self, _: &str) -> Result<(), Failure> {
        Err(NONE)
    }
}
