ghost use Rattle.std.specs.Prelude.{◌≡◌, ◌==◌, ◌<◌, nat_lt, nat_le, All};
ghost use Rattle.std.specs.List.{list_any};
ghost use Rattle.dali_events.specs.Used.{mark_of};
ghost use Rattle.dali_events.specs.Plan.{any_pair};

use dali_frame::{Random24, Short};

/// A gear that comes with a short address, and with the random address that it drew when it got it: as on a site that
/// was addressed before.
#[derive(Clone, Copy, Debug, PartialEq, Eq)]
pub struct Used {
    /// Its number on the site.
    pub gear: u32,
    pub short: Short,
    pub random: Random24,
}

/// What tells used gear apart.
#[derive(Clone, Copy)]
pub(crate) enum Mark {
    Gear,
    Short,
    Random,
}

impl Used {
    /// One of its three numbers.
    fn mark(&self, mark: Mark) -> u32
        ensures { result ≡ mark_of mark self.now }
    {
        match mark {
            Mark::Gear => self.gear,
            Mark::Short => u32::from(self.short.number()),
            Mark::Random => self.random.value(),
        }
    }
}

/// Whether a gear has this number in common with one of the others.
fn is_shared(one: &Used, others: &[Used], mark: Mark) -> bool
    ensures { result ≡ list_any (λ other. mark_of mark one.now == mark_of mark other) others.now }
{
    others
        .iter()
        .any(|other| one.mark(mark) == other.mark(mark))
}

/// Whether two of them have this number in common.
pub(crate) fn some_share(used: &[Used], mark: Mark) -> bool
    ensures { result ≡ any_pair (λ u v. mark_of mark u == mark_of mark v) used.now }
{
    for (i, one) in used.iter().enumerate() {
        if is_shared(one, &used[i + 1..], mark) {
            return true;
        }
    }
    false
}

/// Whether one of them is no gear of a site that has so many.
pub(crate) fn some_unknown(used: &[Used], gear: u32) -> bool
    ensures { result ≡ list_any (λ u. nat_le gear u.gear) used.now }
{
    used.iter().any(|one| gear <= one.gear)
}

/// Whether one of them has no random address below `FFFFFF`.
pub(crate) fn some_too_large(used: &[Used]) -> bool
    ensures { result ≡ list_any (λ u. nat_lt 0xFFFFFE u.random) used.now }
{
    used.iter().any(|one| one.random.value() > 0xFFFFFE)
}

/// Each has a short address below 64: its type says so, and nothing is tested.
pub(crate) fn all_short(used: &[Used])
    ensures { All (λ u. u.short < 64) used.now }
{
    for at in 0..used.len() {
        // For the prover: a short address is below 64.
        let _number = used[at].short.number();
    }
}

/// Whether a random address is one of those that will be drawn.
fn is_drawn(random: Random24, draws: &[Random24]) -> bool
    ensures { result ≡ list_any (λ draw. random == draw) draws.now }
{
    draws.iter().any(|draw| random.value() == draw.value())
}

/// Whether the random address of one of them will be drawn.
pub(crate) fn some_drawn(used: &[Used], draws: &[Random24]) -> bool
    ensures { result ≡ list_any (λ u. list_any (λ draw. u.random == draw) draws.now) used.now }
{
    for one in used {
        if is_drawn(one.random, draws) {
            return true;
        }
    }
    false
}
