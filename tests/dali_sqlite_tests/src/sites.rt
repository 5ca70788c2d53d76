//! A site whose only controller goes down at a commit, and comes up with what its store reads.

use dali_script::{Due, Input, Kept, Order, Record};
use dali_world::{Plan, SiteState, Trouble};
use std::alloc::Global;

/// How many rounds are enough for a commissioning of 64 gear.
const ROUNDS: u32 = 16_384;

/// A site of 64 gear, which draw the numbers from 400000 on in the order of their own numbers, and one controller.
fn begun(alloc: Global) -> Option<SiteState> {
    let mut draws = [0u32; 64];
    for (number, draw) in draws.iter_mut().enumerate() {
        *draw = 0x400000 + number as u32;
    }
    match Plan::new(alloc, 64, &[(0, 63)], &draws) {
        Ok(plan) => SiteState::new(alloc, plan, 65_536, 4).ok(),
        Err(_) => None,
    }
}

/// What the controller may act on. A record that it ordered is committed.
fn due_of(site: &SiteState) -> Option<Input> {
    if site.plan().blocks().is_empty() {
        return None;
    }
    if site.due(0) == Due::Store {
        Some(Input::Committed)
    } else {
        site.next(0)
    }
}

/// The controller acts, and the bus has its turn. What was ordered.
fn ordered(site: &mut SiteState) -> Option<Order> {
    let input = due_of(site)?;
    let order = site.act(0, input).ok()?.order();
    let _ = site.pump(Trouble::None);
    Some(order)
}

/// The site goes on until this record is ordered. Whether it was.
fn orders(site: &mut SiteState, added: &Record) -> bool {
    for _ in 0..ROUNDS {
        match ordered(site) {
            Some(Order::Commit(record)) if record == *added => return true,
            Some(_) => {}
            None => return false,
        }
    }
    false
}

/// Whether a controller that goes down when it has ordered this record comes up with what was read.
fn takes(site: &mut SiteState, added: &Record, read: &Kept) -> bool {
    orders(site, added) && site.down(0).is_ok() && site.up(0, read).is_ok()
}

/// Whether a controller that goes down at the commit of a reservation or an enrolment comes up with these records. Of a
/// release there is no such site: it takes two controllers.
pub fn comes_up(alloc: Global, added: &Record, read: &Kept) -> bool {
    if let Record::Release(..) = added {
        return true;
    }
    match begun(alloc) {
        Some(site) => {
            let mut site = site;
            takes(&mut site, added, read)
        }
        None => false,
    }
}
