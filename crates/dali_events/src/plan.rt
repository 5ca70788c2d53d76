ghost use Rattle.std.specs.Prelude.{◌≡◌, ◌==◌, ◌≤◌, length, map, nat_lt, false, Some, None, IfOk, IfErr, replicate};
ghost use Rattle.std.specs.List.{list_any};
ghost use Rattle.dali_gear.specs.Gear.{fresh};
ghost use Rattle.dali_events.specs.Used.{with_used};
ghost use Rattle.dali_events.specs.Plan.{Plan, any_pair, is_misordered, overlap, refusal_of, refusal_number, block_of};
ghost use Rattle.dali_events.specs.Plan.{used_refusal_of};

use crate::used::{Mark, Used, all_short, some_drawn, some_share, some_too_large, some_unknown};
use dali_frame::{Random24, Short};
use dali_gear::Row;
use dali_script::Block;
use std::alloc::{AllocError, Global};
use std::marker::Model;
use thiserror::Error;

/// How many gear a bus has at the most.
pub const GEAR_LIMIT: u32 = 128;

/// How many controllers share a bus at the most.
pub const CONTROLLER_LIMIT: usize = 4;

/// How many numbers a plan may give to be drawn.
pub const DRAW_LIMIT: usize = 1024;

/// Why a plan is refused. The numbers never change. The first cause that holds is answered, in the order of the
/// variants, but want of memory comes last.
#[derive(Clone, Copy, Debug, PartialEq, Eq, Error)]
pub enum PlanError {
    /// 1: there is too little memory.
    #[error("NoMemory")]
    NoMemory,
    /// 2: the number of gear is not 1 to 128.
    #[error("GearCount")]
    GearCount,
    /// 3: the number of controllers is not 1 to 4.
    #[error("ControllerCount")]
    ControllerCount,
    /// 4: a block ends before it begins, or past 63.
    #[error("BlockOrder")]
    BlockOrder,
    /// 5: two blocks share an address.
    #[error("BlockOverlap")]
    BlockOverlap,
    /// 6: a number to be drawn is above `FFFFFE`.
    #[error("DrawTooLarge")]
    DrawTooLarge,
    /// 7: a number to be drawn stands twice.
    #[error("DrawTwice")]
    DrawTwice,
    /// 8: a used gear is none of the site's.
    #[error("UnknownGear")]
    UnknownGear,
    /// 9: a gear stands twice among the used ones.
    #[error("GearTwice")]
    GearTwice,
    /// 10: two used gear have one short address.
    #[error("ShortTwice")]
    ShortTwice,
    /// 11: the random address of a used gear is above `FFFFFE`.
    #[error("RandomTooLarge")]
    RandomTooLarge,
    /// 12: the random address of a used gear is that of another one, or will be drawn.
    #[error("RandomTwice")]
    RandomTwice,
}

impl PlanError {
    /// The refusal's number.
    pub fn number(self) -> u8
        ensures { result ≡ refusal_number self }
    {
        match self {
            PlanError::NoMemory => 1,
            PlanError::GearCount => 2,
            PlanError::ControllerCount => 3,
            PlanError::BlockOrder => 4,
            PlanError::BlockOverlap => 5,
            PlanError::DrawTooLarge => 6,
            PlanError::DrawTwice => 7,
            PlanError::UnknownGear => 8,
            PlanError::GearTwice => 9,
            PlanError::ShortTwice => 10,
            PlanError::RandomTooLarge => 11,
            PlanError::RandomTwice => 12,
        }
    }
}

impl From<AllocError> for PlanError {
    ghost use Rattle.dali_events.specs.declared.plan.PlanError.TheVariants.{NoMemory};

    ghost from_gives = { λ _ e. e ≡ NoMemory };

    fn from(_error: AllocError) -> PlanError {
        PlanError::NoMemory
    }
}

fn is_misordered(blocks: &[(u8, u8)]) -> bool
    ensures { result ≡ list_any is_misordered blocks.now }
{
    blocks.iter().any(|block| block.1 < block.0 || block.1 > 63)
}

fn overlaps(block: (u8, u8), others: &[(u8, u8)]) -> bool
    ensures { result ≡ list_any (overlap block) others.now }
{
    others
        .iter()
        .any(|other| block.0 <= other.1 && other.0 <= block.1)
}

fn some_overlap(blocks: &[(u8, u8)]) -> bool
    ensures { result ≡ any_pair overlap blocks.now }
{
    for (i, block) in blocks.iter().enumerate() {
        if overlaps(*block, &blocks[i + 1..]) {
            return true;
        }
    }
    false
}

fn is_too_large(draws: &[u32]) -> bool
    ensures { result ≡ list_any (λ draw. nat_lt 0xFFFFFE draw) draws.now }
{
    draws.iter().any(|draw| *draw > 0xFFFFFE)
}

/// Looks at all of them, also past the first that is the same: so the compiler takes several at a time.
fn is_among(draw: u32, others: &[u32]) -> bool
    ensures { result ≡ list_any (λ other. draw == other) others.now }
{
    let mut found = false;
    for other in others {
        found |= draw == *other;
    }
    found
}

fn some_twice(draws: &[u32]) -> bool
    ensures { result ≡ any_pair (λ draw other. draw == other) draws.now }
{
    for (i, draw) in draws.iter().enumerate() {
        if is_among(*draw, &draws[i + 1..]) {
            return true;
        }
    }
    false
}

/// Why a plan is refused: the first cause that holds.
fn refusal(gear: u32, blocks: &[(u8, u8)], draws: &[u32]) -> Option<PlanError>
    ensures { result ≡ refusal_of gear blocks.now draws.now }
{
    if gear < 1 || gear > GEAR_LIMIT {
        return Some(PlanError::GearCount);
    }
    if blocks.len() < 1 || blocks.len() > CONTROLLER_LIMIT {
        return Some(PlanError::ControllerCount);
    }
    if is_misordered(blocks) {
        return Some(PlanError::BlockOrder);
    }
    if some_overlap(blocks) {
        return Some(PlanError::BlockOverlap);
    }
    if is_too_large(draws) {
        return Some(PlanError::DrawTooLarge);
    }
    if some_twice(draws) {
        return Some(PlanError::DrawTwice);
    }
    None
}

/// Why used gear are refused to a plan: the first cause that holds.
fn used_refusal(plan: &Plan, used: &[Used]) -> Option<PlanError>
    ensures { result ≡ used_refusal_of plan.now used.now }
{
    if some_unknown(used, plan.gear()) {
        return Some(PlanError::UnknownGear);
    }
    if some_share(used, Mark::Gear) {
        return Some(PlanError::GearTwice);
    }
    if some_share(used, Mark::Short) {
        return Some(PlanError::ShortTwice);
    }
    if some_too_large(used) {
        return Some(PlanError::RandomTooLarge);
    }
    if some_share(used, Mark::Random) {
        return Some(PlanError::RandomTwice);
    }
    if some_drawn(used, plan.draws()) {
        return Some(PlanError::RandomTwice);
    }
    None
}

/// The blocks of short addresses, which end by 63.
fn blocks_of(alloc: Global, blocks: &[(u8, u8)]) -> Result<Vec<Block>, AllocError>
    requires { list_any is_misordered blocks.now ≡ false }
    ensures { IfOk result (λ made. made.items ≡ map block_of blocks.now) }
{
    let mut made = Vec::new(alloc);
    for (first, last) in blocks {
        if let (Some(first), Some(last)) = (Short::of(*first), Short::of(*last)) {
            made.push(Block { first, last })?;
        }
    }
    Ok(made)
}

/// The numbers to be drawn, which have 24 bits.
fn draws_of(alloc: Global, draws: &[u32]) -> Result<Vec<Random24>, AllocError>
    requires { list_any (λ draw. nat_lt 0xFFFFFE draw) draws.now ≡ false }
    ensures { IfOk result (λ made. made.items ≡ draws.now) }
{
    let mut made = Vec::new(alloc);
    for draw in draws {
        if let Some(draw) = Random24::of(*draw) {
            made.push(draw)?;
        }
    }
    Ok(made)
}

/// A site as it is planned: its gear, a block of short addresses for each controller, and the numbers that the gear
/// will draw, in this order.
#[derive(Drop)]
pub struct Plan {
    gear: u32,
    blocks: Vec<Block>,
    draws: Vec<Random24>,
    used: Vec<Used>,
}

impl Model for Plan {
    ghost use Rattle.std.specs.Prelude.{◌≤◌, length};
    ghost use Rattle.dali_events.specs.Plan.{Plan, IsPlan};

    ghost Value = { Plan };

    ghost view = { λ p. record {
      gear = p.gear;
      blocks = p.blocks.items;
      draws = p.draws.items;
      used = p.used.items;
    } };

    ghost invariant = { λ p. IsPlan (record {
      gear = p.gear;
      blocks = p.blocks.items;
      draws = p.draws.items;
      used = p.used.items;
    }) × (1 ≤ p.gear) × (p.gear ≤ 128) × (1 ≤ length p.blocks.items) × (length p.blocks.items ≤ 4)
        × (length p.draws.items ≤ 1024) };
}

impl Plan {
    ghost use Rattle.dali_events.specs.Plan.{Plan, IsPlan, AreUsed, plan_of, refusal_of, IsRefusal};
    ghost use Rattle.dali_events.specs.Plan.{plan_with, used_refusal_of, IsUsedRefusal};

    /// A plan of so many gear, with the first and the last address of each controller's block, and at most 1,024
    /// numbers to be drawn. The first cause of a refusal is answered.
    pub fn new(
        alloc: Global,
        gear: u32,
        blocks: &[(u8, u8)],
        draws: &[u32],
    ) -> Result<Plan, PlanError>
        requires { length draws.now ≤ 1024 }
        ensures ok { IfOk result (λ plan. (refusal_of gear blocks.now draws.now ≡ None)
            × (plan ≡ plan_of gear blocks.now draws.now)) }
        ensures refused { IfErr result (IsRefusal gear blocks.now draws.now) }
    {
        if let Some(error) = refusal(gear, blocks, draws) {
            return Err(error);
        }
        let blocks = blocks_of(alloc, blocks)?;
        let draws = draws_of(alloc, draws)?;
        Ok(Plan {
            gear,
            blocks,
            draws,
            used: Vec::new(alloc),
        })
    }

    /// The plan with these used gear, in place of those that it had. The first cause of a refusal is answered; a
    /// refusal drops the plan.
    pub fn with_used(self, alloc: Global, used: &[Used]) -> Result<Plan, PlanError>
        ensures ok { IfOk result (λ plan. (used_refusal_of self used.now ≡ None) × (plan ≡ plan_with self used.now)) }
        ensures refused { IfErr result (IsUsedRefusal self used.now) }
    {
        if let Some(error) = used_refusal(&self, used) {
            return Err(error);
        }
        all_short(used);
        let used = Vec::from_slice(alloc, used)?;
        let Plan {
            gear,
            blocks,
            draws,
            used: _,
        } = self;
        Ok(Plan {
            gear,
            blocks,
            draws,
            used,
        })
    }

    /// The number of gear, 1 to 128.
    pub fn gear(&self) -> u32
        ensures value { result ≡ self.now.gear }
        ensures least { 1 ≤ self.now.gear }
        ensures most { self.now.gear ≤ 128 }
    {
        self.gear
    }

    /// The block of each controller, 1 to 4 of them.
    pub fn blocks(&self) -> &[Block]
        ensures value { result.now ≡ self.now.blocks }
        ensures least { 1 ≤ length self.now.blocks }
        ensures most { length self.now.blocks ≤ 4 }
    {
        self.blocks.as_slice()
    }

    /// The numbers that will be drawn, in order.
    pub fn draws(&self) -> &[Random24]
        ensures value { result.now ≡ self.now.draws }
        ensures plan { IsPlan self.now }
        ensures few { length self.now.draws ≤ 1024 }
    {
        self.draws.as_slice()
    }

    /// The gear as they are at the start.
    pub fn row(&self) -> Row
        ensures { result ≡ with_used (replicate self.now.gear fresh) self.now.used }
    {
        let mut row = Row::new(self.gear as usize);
        for used in self.used() {
            row.place(used.gear as usize, used.random, used.short);
        }
        row
    }

    /// The used gear: those that come with a short address.
    pub fn used(&self) -> &[Used]
        ensures value { result.now ≡ self.now.used }
        ensures used { AreUsed self.now }
        ensures few { length self.now.used ≤ self.now.gear }
    {
        self.used.as_slice()
    }
}
