//! What a mending does next, by what was heard in its last transaction.

ghost use Rattle.std.specs.Prelude.{◌≡◌};
ghost use Rattle.dali_search.specs.declared.step.Step.{Step};
ghost use Rattle.dali_mending.specs.Course.{begun, at_stage, kind_of, is_same, times_after, asked, answered, told};
ghost use Rattle.dali_mending.specs.Course.{unnumbered, unclear, outcome_told, keep_on, asked_anew};
ghost use Rattle.dali_mending.specs.Course.{found, searched, queried, kept, is_placed, passed, owned, unkept};
ghost use Rattle.dali_mending.specs.Course.{silent, gone, alike, left};
ghost use Rattle.dali_mending.specs.Course.{erased, spent};

use crate::stage::{Stage, is_own};
use dali_commissioning::Reply;
use dali_frame::{Answer, Random24, Short};
use dali_search::Step;

/// How often in a row the same must be told, or something that tells no number.
const ASKED: u8 = 3;

/// After how many rounds in which the gear that is to keep the short address did not answer it is given up.
const MISSED: u8 = 3;

/// How often in a row something else than its short address may be heard.
const UNLIKE: u8 = 6;

/// How a mending ends.
#[derive(Clone, Copy, Debug, PartialEq, Eq)]
pub enum Outcome {
    /// One gear alone has the short address: it told this random address, and no other, three times in a row.
    Kept(Random24),
    /// No gear answers to the short address, three times in a row.
    Nobody,
    /// The table has the short address for another gear, and one with this random address alone answers, three times
    /// in a row.
    Another(Random24),
    /// The gear with this random address, for which the table has the short address, does not answer under its number;
    /// something else was heard at the short address.
    Missing(Random24),
    /// Under this random address no short address was understood: several gear have both, or the answers of one are
    /// weak.
    Twins(Random24),
    /// A transaction was lost eight times in a row.
    Lost,
    /// So many transactions have passed and no gear was told apart.
    Spent,
}

/// Where a mending is, but for its search and its running transaction.
#[derive(Clone, Copy)]
pub struct Course {
    /// The random address for which the table has the short address, if it has it.
    pub table: Option<Random24>,
    /// The random address of the gear that is to keep it: the one of the table, or the first that told its short
    /// address.
    pub keeper: Option<Random24>,
    /// In how many rounds since then it did not answer.
    pub missed: u8,
    pub stage: Stage,
}

impl Course {
    /// A mending that has heard nothing yet.
    pub(crate) fn begun(table: Option<Random24>) -> Course
        ensures { result ≡ begun table }
    {
        let keeper = table;
        Course {
            table,
            keeper,
            missed: 0,
            stage: Stage::Asking(Reply::Noise, 0),
        }
    }

    pub(crate) fn at(&self, stage: Stage) -> Course
        ensures { result ≡ at_stage self.now stage }
    {
        Course { stage, ..*self }
    }

    /// It asks once more.
    pub(crate) fn asked_anew(&self) -> Course
        ensures { result ≡ asked_anew self.now }
    {
        self.at(Stage::Asking(Reply::Noise, 0))
    }

    /// It goes on with the gear that is to keep the short address, or else so.
    fn keep_on(&self, or_else: Stage) -> Course
        ensures { result ≡ keep_on self.now or_else }
    {
        match self.keeper {
            Some(random) => self.at(Stage::Keeping(random, 0)),
            None => self.at(or_else),
        }
    }

    /// A gear without random address told so: if no gear is known that has one, those draw.
    fn unnumbered(&self) -> Course
        ensures { result ≡ unnumbered self.now }
    {
        self.keep_on(Stage::Drawing)
    }

    /// Something was heard that tells no number.
    fn unclear(&self) -> Course
        ensures { result ≡ unclear self.now }
    {
        self.keep_on(Stage::Beginning)
    }

    /// One gear alone told its random address, or gear that have none told so.
    fn told(&self, random: Random24) -> Course
        ensures { result ≡ told self.now random }
    {
        if random == Random24::MASK {
            self.unnumbered()
        } else {
            self.at(Stage::Ended(outcome_told(self.table, random)))
        }
    }

    /// This was told so often in a row.
    fn answered(&self, reply: Reply, times: u8) -> Course
        ensures { result ≡ answered self.now reply times }
    {
        match reply {
            Reply::Random(random) => {
                if times >= ASKED {
                    self.told(random)
                } else {
                    self.at(Stage::Asking(reply, times))
                }
            }
            Reply::Silence => {
                if times >= ASKED {
                    self.at(Stage::Ended(Outcome::Nobody))
                } else {
                    self.at(Stage::Asking(reply, times))
                }
            }
            Reply::Noise | Reply::Unclear | Reply::Several => {
                if times >= ASKED {
                    self.unclear()
                } else {
                    self.at(Stage::Asking(reply, times))
                }
            }
        }
    }

    /// The gear were asked and told this; before, they told the other, so often in a row.
    pub(crate) fn asked(&self, last: Reply, times: u8, reply: Reply) -> Course
        ensures { result ≡ asked self.now last times reply }
    {
        let reply = kind_of(reply);
        let times = times_after(&last, times, &reply);
        self.answered(reply, times)
    }

    /// The search has found a gear with this number.
    fn found(&self, number: Random24) -> Course
        ensures { result ≡ found self.now number }
    {
        match self.keeper {
            Some(random) => {
                if number == random {
                    self.at(Stage::Keeping(random, 0))
                } else {
                    self.at(Stage::Erasing(number))
                }
            }
            None => self.at(Stage::Keeping(number, 0)),
        }
    }

    /// The search has come so far; `next` is what it asks next. If it finds no gear, those that are left have `FFFFFF`.
    pub(crate) fn searched(&self, step: Step, next: Random24) -> Course
        ensures { result ≡ searched self.now step next }
    {
        match step {
            Step::Again => self.at(Stage::Searching(next)),
            Step::Found(number) => self.found(number),
            Step::Nobody => self.found(Random24::MASK),
        }
    }

    /// Whether any gear is left; `first` is what the search asks first then.
    pub(crate) fn left(&self, is_any: bool, first: Random24) -> Course
        ensures { result ≡ left self.now is_any first }
    {
        if is_any {
            self.at(Stage::Searching(first))
        } else {
            self.at(Stage::Closing)
        }
    }

    /// The gear with this random address told its short address, and is to keep it.
    fn kept(&self, random: Random24) -> Course
        ensures { result ≡ kept self.now random }
    {
        Course {
            keeper: Some(random),
            missed: 0,
            stage: Stage::Left,
            ..*self
        }
    }

    /// The gear that is to keep the short address did not answer in any of the last rounds.
    fn gone(&self) -> Course
        ensures { result ≡ gone self.now }
    {
        match self.table {
            Some(random) => self.at(Stage::Ending(Outcome::Missing(random))),
            None => Course {
                keeper: None,
                missed: 0,
                stage: Stage::Closing,
                ..*self
            },
        }
    }

    /// It did not answer.
    fn silent(&self) -> Course
        ensures { result ≡ silent self.now }
    {
        let missed = self.missed.saturating_add(1);
        if missed >= MISSED {
            self.gone()
        } else {
            Course {
                missed,
                stage: Stage::Closing,
                ..*self
            }
        }
    }

    /// A gear with this random address answered so often, and no short address was understood. If it has no random
    /// address, it draws.
    fn alike(&self, random: Random24) -> Course
        ensures { result ≡ alike self.now random }
    {
        if random == Random24::MASK {
            self.unnumbered()
        } else {
            self.at(Stage::Ending(Outcome::Twins(random)))
        }
    }

    /// Something else was heard than the short address, now as before.
    fn unkept(&self, random: Random24, times: u8, heard: Answer) -> Course
        ensures { result ≡ unkept self.now random times heard }
    {
        match heard {
            Answer::Silence => self.silent(),
            Answer::Byte(_) | Answer::Damaged => {
                let times = times.saturating_add(1);
                if times >= UNLIKE {
                    self.alike(random)
                } else {
                    self.at(Stage::Keeping(random, times))
                }
            }
        }
    }

    /// A gear with this random address was withdrawn, and is not to keep the short address: the search goes on.
    fn passed(&self) -> Course
        ensures { result ≡ passed self.now }
    {
        self.at(Stage::Left)
    }

    /// A gear with this random address told its short address; the table has those of `placed` at others.
    fn owned(&self, placed: &[Random24], random: Random24) -> Course
        ensures { result ≡ owned placed.now self.now random }
    {
        if random == Random24::MASK {
            self.unnumbered()
        } else if is_placed(placed, random) {
            self.passed()
        } else {
            self.kept(random)
        }
    }

    /// This was heard after QUERY SHORT ADDRESS under this number.
    pub(crate) fn queried(
        &self,
        short: Short,
        placed: &[Random24],
        random: Random24,
        times: u8,
        heard: Answer,
    ) -> Course
        ensures { result ≡ queried short placed.now self.now random times heard }
    {
        if is_own(short, heard) {
            self.owned(placed, random)
        } else {
            self.unkept(random, times, heard)
        }
    }

    /// A gear has lost the short address.
    pub(crate) fn erased(&self) -> Course
        ensures { result ≡ erased self.now }
    {
        self.keep_on(Stage::Closing)
    }

    /// No more transaction is left than the one that ends the initialisation.
    pub(crate) fn spent(&self) -> Course
        ensures { result ≡ spent self.now }
    {
        match self.stage {
            Stage::Ending(_) | Stage::Ended(_) => *self,
            Stage::Asking(..)
            | Stage::Drawing
            | Stage::Beginning
            | Stage::Left
            | Stage::Searching(_)
            | Stage::Keeping(..)
            | Stage::Erasing(_)
            | Stage::Closing => self.at(Stage::Ending(Outcome::Spent)),
        }
    }
}

/// Whether the table has another short address for this random address.
fn is_placed(placed: &[Random24], random: Random24) -> bool
    ensures { result ≡ is_placed placed.now random }
{
    placed.iter().any(|number| *number == random)
}

/// What is told counts as: several numbers, or noise, as no number.
fn kind_of(reply: Reply) -> Reply
    ensures { result ≡ kind_of reply }
{
    match reply {
        Reply::Silence | Reply::Random(_) => reply,
        Reply::Noise | Reply::Unclear | Reply::Several => Reply::Unclear,
    }
}

fn is_same(last: &Reply, reply: &Reply) -> bool
    ensures { result ≡ is_same last.now reply.now }
{
    match *last {
        Reply::Silence => matches!(*reply, Reply::Silence),
        Reply::Unclear => matches!(*reply, Reply::Unclear),
        Reply::Random(one) => match *reply {
            Reply::Random(other) => one == other,
            Reply::Silence | Reply::Noise | Reply::Unclear | Reply::Several => false,
        },
        Reply::Noise | Reply::Several => false,
    }
}

/// How often in a row it was told, with this time.
fn times_after(last: &Reply, times: u8, reply: &Reply) -> u8
    ensures { result ≡ times_after last.now times reply.now }
{
    if is_same(last, reply) {
        times.saturating_add(1)
    } else {
        1
    }
}

/// How a mending ends when one gear alone tells this random address.
fn outcome_told(table: Option<Random24>, random: Random24) -> Outcome
    ensures { result ≡ outcome_told table random }
{
    match table {
        Some(other) => {
            if random == other {
                Outcome::Kept(random)
            } else {
                Outcome::Another(random)
            }
        }
        None => Outcome::Kept(random),
    }
}
