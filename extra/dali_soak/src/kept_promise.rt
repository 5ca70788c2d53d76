//! What must be so of a site after a session.

use dali_script::{Kept, Pair};
use dali_world::SiteState;

/// Whether a gear has this short and this random address.
fn is_named(site: &SiteState, entry: &Pair) -> bool {
    for number in 0..site.plan().gear() {
        let gear = site.gear(number);
        if gear.short().map(|it| it.number()) == Some(entry.address()) {
            return gear.random() == entry.random();
        }
    }
    false
}

/// No two gear have one short address.
pub fn are_apart(site: &SiteState) -> bool {
    for one in 0..site.plan().gear() {
        for other in 0..one {
            let short = site.gear(one).short();
            if short.is_some() && site.gear(other).short() == short {
                return false;
            }
        }
    }
    true
}

/// Each enrolment of a controller names a gear, and its store has what the site keeps, or one record more.
pub fn is_true(site: &SiteState, c: u8, stored: &Kept) -> bool {
    if usize::from(c) >= site.plan().blocks().len() {
        return false;
    }
    let kept = site.kept(c);
    // A release is one record more, and leaves one reservation fewer.
    let more = stored.reserved().len() != kept.reserved().len()
        || stored.enrolled().len() > kept.enrolled().len();
    if !more && !stored.same(kept) {
        return false;
    }
    for entry in kept.enrolled() {
        if !is_named(site, entry) {
            return false;
        }
    }
    true
}
