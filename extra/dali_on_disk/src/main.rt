//! One controller commissions four gear, and keeps its records in the file `records.db`. After each commit, before it
//! is told, its store is dropped as it is, as at a power cut, and it goes down; then the file is opened again, and it
//! comes up with what the store reads. It writes each record that it committed, and the table in the end.
#![tactic(auto)]

ghost use Rattle.std.specs.Prelude.{◌<◌};

use dali_reserve::Keep;
use dali_script::{Block, Due, Input, Order, Record};
use dali_sqlite::SqliteKeep;
use dali_world::{Plan, SiteState, Trouble};
use sqlite::{Connection, File, FileStore};
use std::process::ExitCode;

const DRAWS: [u32; 12] = [
    0x00F00D, 0x123456, 0x654321, 0x0ABCDE, 0x111111, 0x222222, 0x333333, 0x444444, 0x555555,
    0x666666, 0x777777, 0x888888,
];

/// How often the controller and the bus have a turn in a session at most, and how many sessions there are at most.
const TURNS: u32 = 10_000;

const SESSIONS: u32 = 20;

type OnDisk = SqliteKeep<FileStore<File>>;

/// Why the story ended early.
struct Stuck;

/// The store in the file.
fn opened(rt: &HostRuntime, block: Block) -> Result<OnDisk, Stuck> {
    let Ok(conn) = Connection::open(rt, "records.db") else {
        return Err(Stuck);
    };
    match SqliteKeep::over(conn, block) {
        Ok(keep) => Ok(keep),
        Err(_) => Err(Stuck),
    }
}

fn told(rt: &HostRuntime, added: &Record) -> Result<(), Stuck> {
    let line = match *added {
        Record::Reserve(address, number) => {
            let (address, number) = (address.number(), number.value());
            println!(rt; "1 {address} {number}")
        }
        Record::Enrol(address, number) => {
            let (address, number) = (address.number(), number.value());
            println!(rt; "2 {address} {number}")
        }
        Record::Release(address, number) => {
            let (address, number) = (address.number(), number.value());
            println!(rt; "3 {address} {number}")
        }
    };
    match line {
        Ok(()) => Ok(()),
        Err(_) => Err(Stuck),
    }
}

/// Commits a record, if it is one that the store may take.
fn commits(keep: &mut OnDisk, added: &Record) -> Result<(), Stuck> {
    let Ok(kept) = keep.read() else {
        return Err(Stuck);
    };
    if !kept.fits(added) {
        return Err(Stuck);
    }
    match keep.commit(*added) {
        Ok(()) => Ok(()),
        Err(_) => Err(Stuck),
    }
}

/// The controller comes up with what its store holds.
fn comes_up(site: &mut SiteState, keep: &mut OnDisk) -> Result<(), Stuck> {
    let Ok(kept) = keep.read() else {
        return Err(Stuck);
    };
    match site.up(0, &kept) {
        Ok(()) => Ok(()),
        Err(_) => Err(Stuck),
    }
}

/// The controller acts on an input. The record that it orders, if it orders one.
fn acts(site: &mut SiteState, input: Input) -> Result<Option<Record>, Stuck> {
    let Ok(receipt) = site.act(0, input) else {
        return Err(Stuck);
    };
    match receipt.order() {
        Order::Commit(added) => Ok(Some(added)),
        Order::Put(..) | Order::Done(_) => Ok(None),
        Order::Halt(_) => Err(Stuck),
    }
}

/// The bus has its turn.
fn pumps(site: &mut SiteState) -> Result<(), Stuck> {
    match site.pump(Trouble::None) {
        Ok(_) => Ok(()),
        Err(_) => Err(Stuck),
    }
}

/// Plays until a record is ordered, which is answered, or nothing is due.
fn plays(site: &mut SiteState) -> Result<Option<Record>, Stuck> {
    for _ in 0..TURNS {
        if site.plan().blocks().is_empty() {
            return Err(Stuck);
        }
        if site.due(0) == Due::Nothing {
            return Ok(None);
        }
        match site.next(0) {
            Some(input) => {
                let ordered = acts(site, input)?;
                if ordered.is_some() {
                    return Ok(ordered);
                }
            }
            None => pumps(site)?,
        }
    }
    Err(Stuck)
}

/// The controller comes up and goes on to its next record, which is committed. Whether there was one.
fn session(rt: &HostRuntime, site: &mut SiteState, keep: &mut OnDisk) -> Result<bool, Stuck> {
    comes_up(site, keep)?;
    let Some(added) = plays(site)? else {
        return Ok(false);
    };
    commits(keep, &added)?;
    told(rt, &added)?;
    Ok(true)
}

/// The table of the controller, an entry a line.
fn shown(rt: &HostRuntime, site: &SiteState) -> Result<(), Stuck> {
    if site.plan().blocks().is_empty() {
        return Err(Stuck);
    }
    for pair in site.kept(0).enrolled() {
        let (address, number) = (pair.address(), pair.random().value());
        if println!(rt; "table {address} {number}").is_err() {
            return Err(Stuck);
        }
    }
    Ok(())
}

fn closed(keep: OnDisk) -> Result<(), Stuck> {
    match keep.into_connection().close() {
        Ok(()) => Ok(()),
        Err(_) => Err(Stuck),
    }
}

/// The sessions of a site, with a power cut behind each but the last.
fn sessions(rt: &HostRuntime, site: &mut SiteState, block: Block) -> Result<(), Stuck> {
    for _ in 0..SESSIONS {
        if site.down(0).is_err() {
            return Err(Stuck);
        }
        let mut keep = opened(rt, block)?;
        if !session(rt, site, &mut keep)? {
            shown(rt, site)?;
            return closed(keep);
        }
    }
    Err(Stuck)
}

fn story(rt: &HostRuntime) -> Result<(), Stuck> {
    let alloc = rt.alloc();
    let Ok(plan) = Plan::new(alloc, 4, &[(0, 7)], &DRAWS) else {
        return Err(Stuck);
    };
    let Ok(mut site) = SiteState::new(alloc, plan, 4096, 8) else {
        return Err(Stuck);
    };
    let Some(block) = site.plan().blocks().first().copied() else {
        return Err(Stuck);
    };
    sessions(rt, &mut site, block)
}

fn main(rt: HostRuntime) -> ExitCode {
    match story(&rt) {
        Ok(()) => ExitCode::SUCCESS,
        Err(Stuck) => ExitCode::FAILURE,
    }
}
