//! If there is memory, nothing is refused for want of it, whatever the size. No contract says so.

use dali_arbiter::Arbiter;
use dali_world::{Plan, SiteState};
use std::alloc::Global;
use std::test::Fail;

#[test]
fn buses_of_every_length_are_made(rt: HostRuntime) {
    for capacity in [1, 2, 3, 64, 500, 1023, 1024] {
        assert!(rt; Arbiter::new(rt.alloc(), capacity).is_ok());
    }
}

/// A site of so many gear, with room for so many events and requests.
fn site_is_made(alloc: Global, gear: u32, events: usize, requests: usize) -> Result<(), Fail> {
    let plan = Plan::new(alloc, gear, &[(0, 3), (8, 15)], &[0x123456])?;
    if events < 1 || 65536 < events || requests < 1 || 1024 < requests {
        return Err(Fail::from("room"));
    }
    SiteState::new(alloc, plan, events, requests)?;
    Ok(())
}

#[test]
fn sites_of_every_size_are_made(rt: HostRuntime) -> Result<(), Fail> {
    for (gear, events, requests) in [
        (1, 1, 1),
        (1, 65536, 1024),
        (128, 1, 1024),
        (64, 300, 7),
        (128, 65536, 64),
    ] {
        site_is_made(rt.alloc(), gear, events, requests)?;
    }
    Ok(())
}
