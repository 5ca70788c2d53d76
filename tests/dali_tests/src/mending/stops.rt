//! A mending that is stopped at each of its frames, and called again.

use super::site::{Addresses, ENOUGH, SHARED, Site, mended, mending_of, random};
use dali_mending::Outcome;
use std::process::Abort;
use std::test::Fail;

const AT: Option<u8> = Some(SHARED);

/// Gear are mended up to a frame, and then by a second call: one has the address in the end, the gear of the table if
/// there is one, and each other gear has none.
fn goes_on<R: Abort>(rt: &R, gear: &[Addresses], table: Option<u32>) -> Result<(), Fail> {
    let number = match table {
        Some(number) => Some(random(number)?),
        None => None,
    };
    let mut whole = Site::of(gear)?;
    let _ = mended(&mut whole, table)?;
    for stop in 0..whole.frames {
        let mut site = Site::of(gear)?;
        let mut mending = mending_of(number)?;
        assert_eq!(rt; site.mend(&mut mending, stop), None);
        assert!(rt; site.sharing() >= 1, "stopped at {stop}");
        let mut again = mending_of(number)?;
        let outcome = site.mend(&mut again, ENOUGH);
        assert!(rt;
            matches!(outcome, Some(Outcome::Kept(_))),
            "stopped at {stop}"
        );
        assert_eq!(rt; site.sharing(), 1, "stopped at {stop}");
        for (place, addresses) in gear.iter().enumerate() {
            if Some(addresses.1) == table {
                assert_eq!(rt; site.gear(place), *addresses, "stopped at {stop}");
            }
        }
    }
    Ok(())
}

#[test]
fn two_numbers(rt: HostRuntime) -> Result<(), Fail> {
    goes_on(&rt, &[(AT, 0x765432), (AT, 0x100000)], None)
}

#[test]
fn two_without_number(rt: HostRuntime) -> Result<(), Fail> {
    goes_on(&rt, &[(AT, 0xFFFFFF), (AT, 0xFFFFFF)], None)
}

#[test]
fn three_and_a_table(rt: HostRuntime) -> Result<(), Fail> {
    goes_on(
        &rt,
        &[(AT, 0x765432), (AT, 0x300000), (AT, 0xFFFFFF)],
        Some(0x300000),
    )
}
