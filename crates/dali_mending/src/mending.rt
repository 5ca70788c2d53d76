//! The machine that mends one short address.

ghost use Rattle.std.specs.Prelude.{◌≡◌, ◌==◌, if◌then◌else◌, true, false, Some, None, MatchOption};
ghost use Rattle.std.specs.List.{list_any};
ghost use Rattle.dali_script.specs.Due.{accepts};
ghost use Rattle.dali_script.specs.Stages.{in_block};
ghost use Rattle.dali_script.specs.declared.orders.Due.TheVariants as due;
ghost use Rattle.dali_mending.specs.Course.{IsCourse};
ghost use Rattle.dali_mending.specs.Transactions.{frame_next};
ghost use Rattle.dali_mending.specs.Mending.{is_heard, outcome_at, tells_none, tells_apart, ascent_after, course_after};
ghost use Rattle.dali_mending.specs.Mending.{IsSought, with_number, is_added, left_after, spent_if, placed_by};

use crate::course::{Course, Outcome};
use crate::stage::{Stage, answer_at};
use arrayvec::ArrayVec;
use dali_commissioning::{has_block, random_at, reply_of};
use dali_frame::{Answer, Forward, Priority, Random24, Short};
use dali_script::{Block, Entry, Half, Input, Kept, Pair, half_in};
use dali_search::Ascent;
use std::marker::Model;

/// How many transactions may pass until a gear is told apart.
const PATIENCE: u16 = 256;

/// How often in a row a transaction may be lost.
const LOST: u8 = 8;

/// A frame that is to be put.
#[derive(Clone, Copy)]
pub struct Put {
    /// 3 for the first frame of a transaction, 1 for each later one.
    pub priority: Priority,
    pub frame: Forward,
    pub half: Half,
}

/// Whether a backward frame came, clean or damaged.
fn is_heard(heard: Answer) -> bool
    ensures { result ≡ is_heard heard }
{
    match heard {
        Answer::Silence => false,
        Answer::Byte(_) | Answer::Damaged => true,
    }
}

/// Whether a gear has told that it has no short address.
fn tells_none(heard: Answer) -> bool
    ensures { result ≡ tells_none heard }
{
    match heard {
        Answer::Byte(byte) => byte == 0xFF,
        Answer::Silence | Answer::Damaged => false,
    }
}

/// The gear that a transaction has told apart from the one that keeps the short address, and which has lost it.
fn tells_apart(stage: &Stage, entries: &[Entry]) -> Option<Random24>
    ensures { result ≡ tells_apart stage.now entries.now }
{
    match *stage {
        Stage::Erasing(random) => {
            if tells_none(answer_at(entries, 7)) {
                Some(random)
            } else {
                None
            }
        }
        Stage::Asking(..)
        | Stage::Drawing
        | Stage::Beginning
        | Stage::Left
        | Stage::Searching(_)
        | Stage::Keeping(..)
        | Stage::Closing
        | Stage::Ending(_)
        | Stage::Ended(_) => None,
    }
}

/// The search after a transaction.
fn ascent_after(stage: &Stage, entries: &[Entry], ascent: &Ascent) -> Ascent
    requires { IsSought stage.now ascent.now }
    ensures { result ≡ ascent_after stage.now entries.now ascent.now }
{
    match *stage {
        Stage::Left => Ascent::new(),
        Stage::Searching(_) => {
            let mut next = ascent.copy();
            next.answer(is_heard(answer_at(entries, 3)));
            next
        }
        Stage::Asking(..)
        | Stage::Drawing
        | Stage::Beginning
        | Stage::Keeping(..)
        | Stage::Erasing(_)
        | Stage::Closing
        | Stage::Ending(_)
        | Stage::Ended(_) => ascent.copy(),
    }
}

/// The course after a transaction; `ascent` is the search after it.
fn course_after(
    short: Short,
    placed: &[Random24],
    course: &Course,
    entries: &[Entry],
    ascent: &Ascent,
) -> Course
    ensures { result ≡ course_after short placed.now course.now.stage course.now entries.now ascent.now }
{
    match course.stage {
        Stage::Asking(last, times) => {
            let (high, middle) = (answer_at(entries, 0), answer_at(entries, 1));
            course.asked(last, times, reply_of(high, middle, answer_at(entries, 2)))
        }
        Stage::Drawing => course.at(Stage::Closing),
        Stage::Beginning => course.at(Stage::Left),
        Stage::Left => course.left(is_heard(answer_at(entries, 3)), ascent.probe()),
        Stage::Searching(_) => course.searched(ascent.step(), ascent.probe()),
        Stage::Keeping(random, times) => {
            course.queried(short, placed, random, times, answer_at(entries, 6))
        }
        Stage::Erasing(_) => course.erased(),
        Stage::Closing => course.asked_anew(),
        Stage::Ending(outcome) => course.at(Stage::Ended(outcome)),
        Stage::Ended(_) => *course,
    }
}

/// A number is added to a list, if there is one and the list has room. Whether it was.
fn add(numbers: &mut ArrayVec<Random24, 64>, number: Option<Random24>) -> bool
    ensures numbers { numbers.new.items ≡ with_number numbers.old.items number }
    ensures added { result ≡ is_added numbers.old.items number }
{
    match number {
        Some(random) => numbers.try_push(random).is_ok(),
        None => false,
    }
}

/// The random address of a pair that has another short address than this one.
fn placed_elsewhere(pair: Pair, short: Short) -> Option<Random24>
    ensures { result ≡ (if pair.0 == short then None else Some pair.1) }
{
    if pair.address() == short.number() {
        None
    } else {
        Some(pair.random())
    }
}

/// The random addresses for which a table has other short addresses than this one.
fn placed_by(enrolled: &[Pair], short: Short) -> ArrayVec<Random24, 64>
    ensures { result.items ≡ placed_by enrolled.now short }
{
    match enrolled {
        [] => ArrayVec::new(),
        [pair, more @ ..] => {
            let mut placed = placed_by(more, short);
            let _ = add(&mut placed, placed_elsewhere(*pair, short));
            placed
        }
    }
}

/// How many transactions are left until a gear is told apart.
fn left_after(left: u16, is_added: bool) -> u16
    ensures { result ≡ left_after left is_added }
{
    if is_added {
        PATIENCE
    } else {
        left.saturating_sub(1)
    }
}

/// It ends if none is left.
fn spent_if(left: u16, course: &Course) -> Course
    ensures { result ≡ spent_if left course.now }
{
    if left == 0 { course.spent() } else { *course }
}

/// What mends one short address that several gear share.
///
/// How to drive it: put the frame that `put` says, and tell with `told` what came of it, until `outcome` says how it
/// has ended. The frames from one at priority 3 to the last one before the next such are a transaction: no other
/// controller's frame may come between.
///
/// Contracts see the short address, the course, the search, the frames of the running transaction, and how often in a
/// row it was lost. They also see how many transactions are left until a gear is told apart, and those that were; and
/// the random addresses for which the table has other short addresses, whose gear do not keep this one.
#[derive(Drop)]
pub struct Mending {
    short: Short,
    placed: ArrayVec<Random24, 64>,
    course: Course,
    ascent: Ascent,
    entries: ArrayVec<Entry, 8>,
    lost: u8,
    left: u16,
    erased: ArrayVec<Random24, 64>,
}

impl Model for Mending {
    ghost use Rattle.dali_mending.specs.Mending.{Mending, IsMending};

    ghost Value = { Mending };

    ghost view = { λ m. record {
      short = m.short;
      placed = m.placed.items;
      course = m.course;
      ascent = m.ascent;
      entries = m.entries.items;
      lost = m.lost;
      left = m.left;
      erased = m.erased.items;
    } };

    ghost invariant = { λ m. IsMending (record {
      short = m.short;
      placed = m.placed.items;
      course = m.course;
      ascent = m.ascent;
      entries = m.entries.items;
      lost = m.lost;
      left = m.left;
      erased = m.erased.items;
    }) };
}

impl Mending {
    ghost use Rattle.dali_mending.specs.Mending.{Mending, mending_begun, IsMending, put_next, told_to, finished};
    ghost use Rattle.dali_mending.specs.Mending.{lost_once, heard_once};

    /// The mending of a short address by what a table has enrolled, which may have a gear for it.
    pub fn new(short: Short, enrolled: &[Pair]) -> Mending
        ensures { result ≡ mending_begun short enrolled.now }
    {
        Mending {
            short,
            placed: placed_by(enrolled, short),
            course: Course::begun(random_at(enrolled, short)),
            ascent: Ascent::new(),
            entries: ArrayVec::new(),
            lost: 0,
            left: PATIENCE,
            erased: ArrayVec::new(),
        }
    }

    /// The mending of a short address by the table of all controllers. None if it lies in a block of others, whose
    /// tables are not among them.
    pub fn of(table: &Kept, others: &[Block], short: Short) -> Option<Mending>
        ensures { MatchOption result (list_any (λ b. in_block b short) others.now ≡ true)
            (λ m. (list_any (λ b. in_block b short) others.now ≡ false)
            × (m ≡ mending_begun short table.now.enrolled)) }
    {
        if has_block(others, short) {
            return None;
        }
        Some(Mending::new(short, table.enrolled()))
    }

    /// The short address.
    pub fn short(&self) -> Short
        ensures { result ≡ self.now.short }
    {
        self.short
    }

    /// Where it is.
    pub fn course(&self) -> Course
        ensures value { result ≡ self.now.course }
        ensures course { IsCourse self.now.course }
    {
        self.course
    }

    /// The random addresses of gear that have lost the short address, as they were told apart.
    pub fn erased(&self) -> &[Random24]
        ensures { result.now ≡ self.now.erased }
    {
        &self.erased
    }

    /// How it has ended; None as long as it goes on.
    pub fn outcome(&self) -> Option<Outcome>
        ensures { result ≡ outcome_at self.now.course.stage }
    {
        match self.course.stage {
            Stage::Ended(outcome) => Some(outcome),
            Stage::Asking(..)
            | Stage::Drawing
            | Stage::Beginning
            | Stage::Left
            | Stage::Searching(_)
            | Stage::Keeping(..)
            | Stage::Erasing(_)
            | Stage::Closing
            | Stage::Ending(_) => None,
        }
    }

    fn frame_next(&self) -> Option<Forward>
        ensures { result ≡ frame_next self.now.short self.now.course.stage self.now.entries }
    {
        self.course.stage.frame_next(self.short, &self.entries)
    }

    /// The frame that is to be put next; None once it has ended.
    pub fn put(&self) -> Option<Put>
        ensures { result ≡ put_next self.now }
    {
        let frame = self.frame_next()?;
        let priority = if self.entries.is_empty() {
            Priority::FIRST
        } else {
            Priority::LATER
        };
        Some(Put {
            priority,
            frame,
            half: half_in(&self.entries, frame),
        })
    }

    /// The transaction is over.
    fn finish(&mut self)
        ensures { self.new ≡ finished self.old }
    {
        let ascent = ascent_after(&self.course.stage, &self.entries, &self.ascent);
        let course = course_after(
            self.short,
            &self.placed,
            &self.course,
            &self.entries,
            &ascent,
        );
        let apart = tells_apart(&self.course.stage, &self.entries);
        let is_new = add(&mut self.erased, apart);
        self.left = left_after(self.left, is_new);
        self.course = spent_if(self.left, &course);
        self.ascent = ascent;
        self.entries.clear();
        self.lost = 0;
    }

    /// A frame was sent, and this was heard after it.
    #[tactic(auto, using(crate::proofs::Kept::next_is_few))]
    fn heard(&mut self, frame: Forward, heard: Answer)
        requires { frame_next self.old.short self.old.course.stage self.old.entries ≡ Some frame }
        ensures { self.new ≡ heard_once self.old frame heard }
    {
        self.entries.push(Entry { frame, heard });
        if self.frame_next().is_none() {
            self.finish();
        }
    }

    /// A frame was lost: the transaction begins again.
    fn lose(&mut self)
        ensures { self.new ≡ lost_once self.old }
    {
        self.entries.clear();
        self.lost = self.lost.saturating_add(1);
        if self.lost >= LOST {
            self.course = self.course.at(Stage::Ended(Outcome::Lost));
        }
    }

    /// It is told what came of the frame that was put. Once it has ended nothing changes.
    pub fn told(&mut self, told: Input)
        requires { accepts due.Bus told ≡ true }
        ensures told { self.new ≡ told_to self.old told }
    {
        let Some(frame) = self.frame_next() else {
            return;
        };
        match told {
            Input::Heard(heard) => self.heard(frame, heard),
            Input::Start
            | Input::Survey
            | Input::Destroyed
            | Input::Lapsed
            | Input::Committed
            | Input::CommitFailed => self.lose(),
        }
    }
}
