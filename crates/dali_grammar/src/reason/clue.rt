//! Which words the refusal of a plan speaks of.

ghost use Rattle.std.specs.Prelude.{◌≡◌, ◌==◌, ◌<◌, ◌||◌, Some, None, ℕ, true, is_some, nat_lt, slice_get};
ghost use Rattle.std.specs.Prelude.{IsSome, IfSome};
ghost use Rattle.std.specs.List.{list_any};
ghost use Rattle.dali_events.specs.Plan.{Plan, any_pair, is_misordered, overlap, refusal_of, used_refusal_of};
ghost use Rattle.dali_grammar.specs.Clues.{block_spot, draw_spot, number_of, used_spot};

use super::mistake::Mistake;
use dali_events::{CONTROLLER_LIMIT, PlanError, Used};

/// Where a word stands: in which line of those that are not skipped, from 0, and its number there, from 1.
#[derive(Clone, Copy)]
pub struct Spot {
    pub line: usize,
    pub word: usize,
}

/// The word that a plan is refused for, and another one that does not go with it.
#[derive(Clone, Copy)]
pub struct Clue {
    /// What is wrong, said more exactly than by the refusal.
    pub mistake: Option<Mistake>,
    pub at: Spot,
    pub beside: Option<Spot>,
}

/// How many gear there are.
const GEAR: Spot = Spot { line: 0, word: 2 };

/// What tells used gear apart.
#[derive(Clone, Copy)]
enum Mark {
    Gear,
    Short,
    Random,
}

impl Mark {
    /// This number of a used gear.
    fn of(self, used: &Used) -> u32
        ensures { result ≡ number_of self used.now }
    {
        match self {
            Mark::Gear => used.gear,
            Mark::Short => u32::from(used.short.number()),
            Mark::Random => used.random.value(),
        }
    }

    /// This number of the used gear at this place.
    fn spot(self, index: usize) -> Spot
        ensures { index < 4294967296 → result ≡ used_spot self index }
    {
        let word = match self {
            Mark::Gear => 2,
            Mark::Short => 3,
            Mark::Random => 4,
        };
        Spot {
            line: index.saturating_add(2),
            word,
        }
    }
}

fn block_spot(index: usize) -> Spot
    ensures { index < 4294967296 → result ≡ block_spot index }
{
    Spot {
        line: 0,
        word: index.saturating_add(3),
    }
}

fn draw_spot(index: usize) -> Spot
    ensures { index < 4294967296 → result ≡ draw_spot index }
{
    Spot {
        line: 1,
        word: index.saturating_add(2),
    }
}

/// The block that is none.
fn misordered(blocks: &[(u8, u8)]) -> Option<Clue>
    ensures { is_some result ≡ list_any is_misordered blocks.now }
{
    for (index, block) in blocks.iter().enumerate() {
        if block.0 > 63 || block.1 > 63 {
            return Some(Clue {
                mistake: Some(Mistake::AddressTooLarge),
                ..Clue::alone(block_spot(index))
            });
        }
        if block.1 < block.0 {
            return Some(Clue {
                mistake: Some(Mistake::BlockBackwards),
                ..Clue::alone(block_spot(index))
            });
        }
    }
    None
}

/// The first of these blocks that shares an address with this one.
fn meeting(block: (u8, u8), blocks: &[(u8, u8)]) -> Option<usize>
    ensures there { is_some result ≡ list_any (λ other. overlap other block) blocks.now }
    ensures found { IfSome result (λ index. IfSome (slice_get blocks.now index) (λ other. overlap other block ≡ true)) }
{
    for (index, other) in blocks.iter().enumerate() {
        if other.0 <= block.1 && block.0 <= other.1 {
            return Some(index);
        }
    }
    None
}

/// The first block that shares an address with one before it, and that one.
fn overlapping(blocks: &[(u8, u8)]) -> Option<Clue>
    ensures { is_some result ≡ any_pair overlap blocks.now }
{
    for (index, block) in blocks.iter().enumerate() {
        if let Some(other) = meeting(*block, &blocks[..index]) {
            return Some(Clue::beside(block_spot(index), block_spot(other)));
        }
    }
    None
}

/// The first number to draw that no gear draws.
fn too_large(draws: &[u32]) -> Option<Clue>
    ensures { is_some result ≡ list_any (λ draw. nat_lt 0xFFFFFE draw) draws.now }
{
    for (index, draw) in draws.iter().enumerate() {
        if *draw > 0xFF_FFFE {
            return Some(Clue::alone(draw_spot(index)));
        }
    }
    None
}

/// The first place of a number among these.
fn place_of(number: u32, numbers: &[u32]) -> Option<usize>
    ensures there { is_some result ≡ list_any (λ other. other == number) numbers.now }
    ensures same { is_some result ≡ list_any (λ other. number == other) numbers.now }
    ensures found { IfSome result (λ index. slice_get numbers.now index ≡ Some number) }
{
    for (index, other) in numbers.iter().enumerate() {
        if *other == number {
            return Some(index);
        }
    }
    None
}

/// The first number that is drawn twice.
fn drawn_twice(draws: &[u32]) -> Option<Clue>
    ensures { is_some result ≡ any_pair (λ draw other. draw == other) draws.now }
{
    for (index, draw) in draws.iter().enumerate() {
        if let Some(other) = place_of(*draw, &draws[..index]) {
            return Some(Clue::beside(draw_spot(index), draw_spot(other)));
        }
    }
    None
}

/// The first of used gear of which this number is too large.
fn above(used: &[Used], mark: Mark, most: u32) -> Option<Spot>
    ensures { is_some result ≡ list_any (λ u. nat_lt most (number_of mark u)) used.now }
{
    for (index, one) in used.iter().enumerate() {
        if mark.of(one) > most {
            return Some(mark.spot(index));
        }
    }
    None
}

/// The first of used gear that has this number.
fn place_in(mark: Mark, number: u32, used: &[Used]) -> Option<usize>
    ensures there { is_some result ≡ list_any (λ u. number_of mark u == number) used.now }
    ensures found { IfSome result (λ index. IfSome (slice_get used.now index) (λ u. number_of mark u ≡ number)) }
{
    for (index, one) in used.iter().enumerate() {
        if mark.of(one) == number {
            return Some(index);
        }
    }
    None
}

/// The first of used gear that has this number in common with one before it, or with one of these that are drawn.
fn shared(used: &[Used], mark: Mark, draws: &[u32]) -> Option<Clue>
    ensures { is_some result ≡ (any_pair (λ u v. number_of mark u == number_of mark v) used.now
        || list_any (λ u. list_any (λ draw. number_of mark u == draw) draws.now) used.now) }
{
    for (index, one) in used.iter().enumerate() {
        let number = mark.of(one);
        if let Some(other) = place_of(number, draws) {
            return Some(Clue::beside(mark.spot(index), draw_spot(other)));
        }
        if let Some(other) = place_in(mark, number, &used[..index]) {
            return Some(Clue::beside(mark.spot(index), mark.spot(other)));
        }
    }
    None
}

impl Clue {
    /// Of one word.
    fn alone(at: Spot) -> Clue
        ensures { result ≡ record { mistake = None; at = at; beside = None } }
    {
        Clue {
            mistake: None,
            at,
            beside: None,
        }
    }

    /// Of two words that do not go together.
    fn beside(at: Spot, other: Spot) -> Clue
        ensures { result ≡ record { mistake = None; at = at; beside = Some other } }
    {
        Clue {
            mistake: None,
            at,
            beside: Some(other),
        }
    }

    /// Of a plan of these.
    pub fn of(error: PlanError, blocks: &[(u8, u8)], draws: &[u32]) -> Option<Clue>
        ensures { (gear : ℕ) → refusal_of gear blocks.now draws.now ≡ Some error → IsSome result }
    {
        match error {
            PlanError::GearCount => Some(Clue::alone(GEAR)),
            PlanError::ControllerCount if blocks.is_empty() => {
                Some(Clue::alone(Spot { line: 0, word: 1 }))
            }
            PlanError::ControllerCount => Some(Clue::alone(block_spot(CONTROLLER_LIMIT))),
            PlanError::BlockOrder => misordered(blocks),
            PlanError::BlockOverlap => overlapping(blocks),
            PlanError::DrawTooLarge => too_large(draws),
            PlanError::DrawTwice => drawn_twice(draws),
            PlanError::NoMemory
            | PlanError::UnknownGear
            | PlanError::GearTwice
            | PlanError::ShortTwice
            | PlanError::RandomTooLarge
            | PlanError::RandomTwice => None,
        }
    }

    /// Of used gear that a plan of so many gear refuses, in which these numbers are drawn.
    pub fn of_used(error: PlanError, used: &[Used], gear: u32, draws: &[u32]) -> Option<Clue>
        ensures { (plan : Plan) → plan.gear ≡ gear → plan.draws ≡ draws.now → 0 < gear
            → used_refusal_of plan used.now ≡ Some error → IsSome result }
    {
        match error {
            PlanError::UnknownGear => {
                let at = above(used, Mark::Gear, gear.saturating_sub(1))?;
                Some(Clue::beside(at, GEAR))
            }
            PlanError::GearTwice => shared(used, Mark::Gear, &[]),
            PlanError::ShortTwice => shared(used, Mark::Short, &[]),
            PlanError::RandomTooLarge => {
                let at = above(used, Mark::Random, 0xFF_FFFE)?;
                Some(Clue::alone(at))
            }
            PlanError::RandomTwice => shared(used, Mark::Random, draws),
            PlanError::NoMemory
            | PlanError::GearCount
            | PlanError::ControllerCount
            | PlanError::BlockOrder
            | PlanError::BlockOverlap
            | PlanError::DrawTooLarge
            | PlanError::DrawTwice => None,
        }
    }
}
