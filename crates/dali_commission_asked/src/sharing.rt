//! Short addresses that gear share: which they are, which of them are mended, and what came of it.

ghost use Rattle.std.specs.Prelude.{◌≡◌, ◌++◌, ◌+◌, ◌≤◌, ◌==◌, if◌then◌else◌, Some, length};
ghost use Rattle.dali_script.specs.Stages.{in_block};
ghost use Rattle.std.specs.List.{list_any};
ghost use Rattle.dali_commission_asked.specs.Sharing.{is_shared, is_open, has_any, why_open, or_open, left_open};
ghost use Rattle.dali_commission_asked.specs.Sharing.{is_named, is_meant, meant_from, is_left_shared};
ghost use Rattle.dali_commission_asked.specs.Sharing.{is_any_left_shared, why_not_meant, is_away, is_of_others};
ghost use Rattle.dali_commission_asked.specs.Sharing.{why_not, refused_from, is_apart, is_any_left, is_bare};
ghost use Rattle.dali_commission_asked.specs.Sharing.{is_any_bare, with_left, why_not_beside, inside, or_else};
ghost use Rattle.dali_commission_asked.specs.Sharing.{reserved_in};
ghost use Rattle.dali_commission_said.specs.Reports.{heard_if};

use arrayvec::ArrayVec;
use dali_commission_said::{Failure, MendRefusal};
use dali_commission_tasks::Mend;
use dali_commissioning::{Reply, has_block, random_at};
use dali_controller::Shorts;
use dali_frame::{Random24, Short};
use dali_mending::{Mending, Outcome};
use dali_script::{Block, Kept, Pair};

/// Whether gear were heard to share a short address, or one to have it and no random address.
pub(crate) fn is_shared(reply: Reply) -> bool
    ensures { result ≡ is_shared reply }
{
    match reply {
        Reply::Silence | Reply::Noise | Reply::Unclear => false,
        Reply::Several => true,
        Reply::Random(random) => random == Random24::MASK,
    }
}

/// Whether they share it, or that is not clear.
fn is_open(reply: Reply) -> bool
    ensures { result ≡ is_open reply }
{
    match reply {
        Reply::Silence => false,
        Reply::Noise | Reply::Unclear | Reply::Several => true,
        Reply::Random(random) => random == Random24::MASK,
    }
}

/// Whether it is so of any short address, or not clear.
pub(crate) fn is_any_open(replies: &[Reply]) -> bool
    ensures { result ≡ list_any (λ reply. is_open reply) replies.now }
{
    replies.iter().any(|reply| is_open(*reply))
}

/// Whether gear share any short address.
pub(crate) fn is_any_shared(replies: &[Reply]) -> bool
    ensures { result ≡ list_any (λ reply. is_shared reply) replies.now }
{
    replies.iter().any(|reply| is_shared(*reply))
}

/// Whether a survey left a short address alone.
pub fn has_any(heard: Shorts) -> bool
    ensures { result ≡ has_any heard }
{
    heard.bits != 0
}

/// Why a task does not end well if gear share a short address, or that is not clear.
pub fn why_open(is_shared: bool) -> Failure
    ensures { result ≡ why_open is_shared }
{
    if is_shared {
        Failure::Shared
    } else {
        Failure::NotClear
    }
}

/// How a task ends if gear share a short address, or that is not clear.
pub fn or_open(ended: Result<(), Failure>, is_open: bool, is_shared: bool) -> Result<(), Failure>
    ensures { result ≡ or_open ended is_open is_shared }
{
    match ended {
        Ok(()) | Err(Failure::NotAsRecorded) if is_open => Err(why_open(is_shared)),
        // It ended otherwise.
        _ => ended,
    }
}

/// What a survey left alone, once that was asked again.
#[derive(Clone, Copy)]
pub struct Left {
    /// The short addresses at which something was heard.
    pub heard: Shorts,
    /// Whether gear were heard to share one of them.
    pub shared: bool,
}

impl Left {
    /// How a task ends with that.
    pub fn ended(&self, ended: Result<(), Failure>) -> Result<(), Failure>
        ensures { result ≡ left_open ended self.now }
    {
        or_open(ended, has_any(self.heard), self.shared)
    }
}

fn is_named(named: &[Short], short: Short) -> bool
    ensures { result ≡ is_named named.now short }
{
    named.iter().any(|other| *other == short)
}

/// Whether a short address is to be mended, by what was heard of it.
fn is_meant(named: &[Short], short: Short, reply: Reply) -> bool
    ensures { result ≡ is_meant named.now short reply }
{
    match named {
        [] => is_open(reply),
        [..] => is_named(named, short),
    }
}

fn push_if(meant: &mut ArrayVec<Short, 64>, short: Short, is_meant: bool)
    requires { length meant.old.items + 1 ≤ 64 }
    ensures meant { meant.new.items ≡ meant.old.items ++ heard_if short is_meant }
    ensures room { length meant.new.items ≤ length meant.old.items + 1 }
{
    if is_meant {
        meant.push(short);
    }
}

/// The short addresses that are to be mended, from this one on.
#[tactic(auto, using(std::proofs::lemmas::List::append_assoc))]
fn push_meant(meant: &mut ArrayVec<Short, 64>, number: u8, named: &[Short], replies: &[Reply])
    requires number { number + length replies.now ≤ 64 }
    requires room { length meant.old.items + length replies.now ≤ 64 }
    ensures { meant.new.items ≡ meant.old.items ++ meant_from named.now number replies.now }
{
    if let [reply, more @ ..] = replies {
        let Some(short) = Short::of(number) else {
            // A reply is left, so the number is below 64.
            unreachable!();
        };
        push_if(meant, short, is_meant(named, short, *reply));
        push_meant(meant, number + 1, named, more);
    }
}

/// The short addresses that are to be mended, by what was heard of each.
pub fn meant_of(named: &[Short], replies: &[Reply]) -> ArrayVec<Short, 64>
    requires { length replies.now ≤ 64 }
    ensures { result.items ≡ meant_from named.now 0 replies.now }
{
    let mut meant = ArrayVec::new();
    push_meant(&mut meant, 0, named, replies);
    meant
}

/// Why a short address is not mended, by whether it is another controller's.
fn why_not_meant(is_of_others: bool, reply: Reply) -> Option<MendRefusal>
    ensures { result ≡ why_not_meant is_of_others reply }
{
    if is_of_others {
        return Some(MendRefusal::OfOthers);
    }
    match reply {
        Reply::Silence => Some(MendRefusal::NobodyAnswers),
        Reply::Noise | Reply::Unclear | Reply::Random(_) | Reply::Several => None,
    }
}

/// Whether the gear that a table has is away, by what was heard.
fn is_away(table: Option<Random24>, reply: Reply) -> bool
    ensures { result ≡ is_away table reply }
{
    match (table, reply) {
        (None, _) | (Some(_), Reply::Noise | Reply::Unclear | Reply::Several) => false,
        (Some(_), Reply::Silence) => true,
        (Some(random), Reply::Random(heard)) => heard != random,
    }
}

/// Why none is mended beside a short address, by whether its gear is known to be gone or elsewhere, or was not asked,
/// and whether it is away.
fn why_not_beside(is_known: bool, is_away: bool) -> Option<MendRefusal>
    ensures { result ≡ why_not_beside is_known is_away }
{
    if is_away && !is_known {
        Some(MendRefusal::NotThere)
    } else {
        None
    }
}

/// What is mended: the gear of all tables, the first one before, the blocks of other controllers, and what is wanted.
#[derive(Drop)]
pub struct Site<'a> {
    pub table: &'a Kept,
    pub before: &'a Kept,
    pub others: &'a [Block],
    pub wanted: &'a Mend,
}

fn has_address(pairs: &[Pair], short: Short) -> bool
    ensures { result ≡ list_any (λ p. p.0 == short) pairs.now }
{
    pairs.iter().any(|pair| pair.address() == short.number())
}

/// Why what was heard of a short address lets none be mended, if these gear of the tables hang at others.
pub fn why_not(
    table: &Kept,
    others: &[Block],
    wanted: &Mend,
    hanging: &[Pair],
    short: Short,
    reply: Reply,
) -> Option<MendRefusal>
    ensures { result ≡ why_not table.now others.now wanted.now hanging.now short reply }
{
    let is_of_others = has_block(others, short);
    let is_known = is_named(&wanted.missing, short) || has_address(hanging, short);
    if is_meant(&wanted.named, short, reply) {
        why_not_meant(is_of_others, reply)
    } else {
        why_not_beside(
            is_known || is_of_others,
            is_away(random_at(table.enrolled(), short), reply),
        )
    }
}

/// The first reason for which none is mended, from this short address on.
pub fn refused_from(
    site: &Site<'_>,
    hanging: &[Pair],
    number: u8,
    replies: &[Reply],
) -> Option<Failure>
    requires { number + length replies.now ≤ 64 }
    ensures { result ≡ refused_from site.now.table.now site.now.others.now site.now.wanted.now hanging.now number
        replies.now }
{
    let [reply, more @ ..] = replies else {
        return None;
    };
    let Some(short) = Short::of(number) else {
        // A reply is left, so the number is below 64.
        unreachable!();
    };
    let (table, others, wanted) = (site.table, site.others, site.wanted);
    match why_not(table, others, wanted, hanging, short, *reply) {
        Some(refusal) => Some(Failure::NotMended(short, refusal)),
        None => refused_from(site, hanging, number + 1, more),
    }
}

/// Whether a block has a short address.
pub fn is_in(block: Block, address: u8) -> bool
    ensures { result ≡ in_block block address }
{
    block.first.number() <= address && address <= block.last.number()
}

/// This short address if a block has it, or else the other one.
fn if_inside(block: Block, address: u8, later: Option<Short>) -> Option<Short>
    ensures { result ≡ (if in_block block address then Some address else later) }
{
    if is_in(block, address) {
        Short::of(address)
    } else {
        later
    }
}

fn or_else(first: Option<Short>, later: Option<Short>) -> Option<Short>
    ensures { result ≡ or_else first later }
{
    match first {
        Some(short) => Some(short),
        None => later,
    }
}

/// The first short address of a block among those of some pairs.
fn inside(block: &Block, pairs: &[Pair]) -> Option<Short>
    ensures { result ≡ inside block.now pairs.now }
{
    match pairs {
        [] => None,
        [pair, more @ ..] => {
            let later = inside(block, more);
            if_inside(*block, pair.address(), later)
        }
    }
}

/// The first short address of a block that is reserved in one of these tables.
pub fn reserved_in(block: &Block, tables: &[Kept]) -> Option<Short>
    ensures { result ≡ reserved_in block.now tables.now }
{
    match tables {
        [] => None,
        [table, more @ ..] => {
            let later = reserved_in(block, more);
            or_else(inside(block, table.reserved()), later)
        }
    }
}

/// Whether gear were told apart: one alone has the short address, or none.
pub(crate) fn is_apart(mending: &Mending) -> bool
    ensures { result ≡ is_apart mending.now }
{
    match mending.outcome() {
        Some(Outcome::Kept(_) | Outcome::Nobody) => true,
        Some(
            Outcome::Another(_)
            | Outcome::Missing(_)
            | Outcome::Twins(_)
            | Outcome::Lost
            | Outcome::Spent,
        )
        | None => false,
    }
}

/// Whether gear were not told apart at any short address.
pub fn is_any_left(mended: &[Mending]) -> bool
    ensures { result ≡ is_any_left mended.now }
{
    mended.iter().any(|mending| !is_apart(mending))
}

/// Whether gear were not told apart at a short address that they were heard to share.
fn is_left_shared(replies: &[Reply], mending: &Mending) -> bool
    ensures { result ≡ is_left_shared replies.now mending.now }
{
    let at = usize::from(mending.short().number());
    match replies.get(at) {
        Some(reply) => !is_apart(mending) && is_shared(*reply),
        None => false,
    }
}

/// Whether it is so of any.
pub fn is_any_left_shared(replies: &[Reply], mended: &[Mending]) -> bool
    ensures { result ≡ is_any_left_shared replies.now mended.now }
{
    mended
        .iter()
        .any(|mending| is_left_shared(replies, mending))
}

/// Whether gear that were heard to share a short address were not told apart, and a survey would enrol one there.
fn is_bare(replies: &[Reply], mending: &Mending) -> bool
    ensures { result ≡ is_bare replies.now mending.now }
{
    is_left_shared(replies, mending) && !mending.course().table.is_some()
}

/// Whether it is so of any short address that was mended.
pub fn is_any_bare(replies: &[Reply], mended: &[Mending]) -> bool
    ensures { result ≡ is_any_bare replies.now mended.now }
{
    mended.iter().any(|mending| is_bare(replies, mending))
}

/// These short addresses, and those at which gear were not told apart.
pub fn with_left(heard: Shorts, mended: &[Mending]) -> Shorts
    ensures { result ≡ with_left heard mended.now }
{
    match mended {
        [] => heard,
        [mending, more @ ..] => {
            let left = if is_apart(mending) {
                heard
            } else {
                heard.with(mending.short())
            };
            with_left(left, more)
        }
    }
}
