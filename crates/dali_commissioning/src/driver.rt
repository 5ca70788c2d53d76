//! A driver that stands beside the program: one line is written to it for each frame, and one is read from it that
//! tells what came of the frame.

ghost use Rattle.std.specs.Prelude.{◌≡◌, ◌≢◌};
ghost use Rattle.dali_commissioning.specs.Drivers.{is_answer};

use crate::lighting::is_sent;
use crate::lines::{push_put, told_of};
use arrayvec::ArrayVec;
use dali_frame::{Answer, Forward, Priority};
use dali_script::{Half, Input};
use std::alloc::{AllocError, Global};
use std::error::Error;
use std::fmt;
use std::io::{Read, Write};

/// Why a line cannot be written, or none can be read that tells what came of a frame.
#[derive(Clone, Copy, Debug, PartialEq, Eq)]
pub enum DriverFault {
    /// A line of the driver is none that this program knows.
    BadLine,
    /// A line of the driver has more than 16 bytes.
    LongLine,
    /// The input ended within a line.
    TornLine,
    /// The input ended: the driver is gone.
    Ended,
    /// The input cannot be read.
    Read,
    /// The output cannot be written.
    Write,
    /// There is too little memory.
    Memory,
}

impl DriverFault {
    fn text(self) -> &'static str {
        match self {
            DriverFault::BadLine => "bad line",
            DriverFault::LongLine => "line too long",
            DriverFault::TornLine => "line without line feed",
            DriverFault::Ended => "end of input",
            DriverFault::Read => "the input cannot be read",
            DriverFault::Write => "the output cannot be written",
            DriverFault::Memory => "out of memory",
        }
    }
}

impl fmt::Display for DriverFault {
    fn fmt<W: fmt::Write>(&self, f: &mut fmt::Formatter<W>) -> fmt::Result {
        f.write_str(self.text())
    }
}

impl Error for DriverFault {}

impl From<AllocError> for DriverFault {
    ghost use Rattle.dali_commissioning.specs.declared.driver.DriverFault.TheVariants.{Memory};

    ghost from_gives = { λ _ e. e ≡ Memory };

    fn from(_error: AllocError) -> DriverFault {
        DriverFault::Memory
    }
}

/// Whether this tells that a gear was heard, clean or damaged.
fn is_answer(told: Input) -> bool
    ensures { result ≡ is_answer told }
{
    match told {
        Input::Heard(Answer::Byte(_) | Answer::Damaged) => true,
        Input::Heard(Answer::Silence)
        | Input::Start
        | Input::Survey
        | Input::Destroyed
        | Input::Lapsed
        | Input::Committed
        | Input::CommitFailed => false,
    }
}

/// A driver, by what is read from it and written to it.
///
/// Contracts see both, how many lines were begun to be read from it, the one that was read last, whether any gear was
/// heard, whether the last frame was lost, and the fault: once a line could not be written or read, no frame is put any
/// more.
pub struct DriverLink<R, W> {
    reader: R,
    writer: W,
    /// Where a line is made.
    text: String,
    lines: u64,
    line: ArrayVec<u8, 16>,
    has_heard: bool,
    /// Whether the last frame was lost.
    is_lost: bool,
    /// Why the last frame failed, if it did.
    fault: Option<DriverFault>,
}

impl<R: Drop, W: Drop> Drop for DriverLink<R, W> {
    fn drop(self) {
        let DriverLink {
            reader: _,
            writer: _,
            text: _,
            lines: _,
            line: _,
            has_heard: _,
            is_lost: _,
            fault: _,
        } = self;
    }
}

impl<R: Read, W: Write> DriverLink<R, W> {
    ghost use Rattle.std.specs.Prelude.{◌++◌, [], ◌∷◌, ◌||◌, true, false, not, Some, None, Ok, Err, OnOk};
    ghost use Rattle.std.specs.Prelude.{IfOk, IfErr, IfSome};
    ghost use Rattle.std.specs.Io.KnownBytes.{Appends, Consumes};
    ghost use Rattle.dali_script.specs.Due.{accepts};
    ghost use Rattle.dali_script.specs.declared.orders.Due.TheVariants as due;
    ghost use Rattle.dali_commissioning.specs.Lines.{told_of, Tells, put_text};
    ghost use Rattle.dali_commissioning.specs.Drivers.{reader_of, writer_of, lines_of, next_line, line_of};
    ghost use Rattle.dali_commissioning.specs.Census.{IsPut, answer_told, is_sent};
    ghost use Rattle.dali_commissioning.specs.Drivers.{has_heard, is_answer, talk_of, fault_of, is_lost, IsPart};
    ghost use Rattle.dali_commissioning.specs.Drivers.{IsPutInPart};
    ghost use Rattle.dali_commissioning.specs.declared.driver.DriverFault.TheVariants.{BadLine};

    /// A driver of which no line was read. What it writes is read by `reader`, and it reads what `writer` writes.
    pub fn new(alloc: Global, reader: R, writer: W) -> DriverLink<R, W>
        ensures reader { reader_of result ≡ reader }
        ensures writer { writer_of result ≡ writer }
        ensures lines { lines_of result ≡ 0 }
        ensures unheard { has_heard result ≡ false }
        ensures open { fault_of result ≡ None }
    {
        DriverLink {
            reader,
            writer,
            text: String::new(alloc),
            lines: 0,
            line: ArrayVec::new(),
            has_heard: false,
            is_lost: false,
            fault: None,
        }
    }

    /// The number of the line that was read last, from 1 on: if a line is refused, that line's. It stops at
    /// 18,446,744,073,709,551,615.
    pub fn lines(&self) -> u64
        ensures { result ≡ lines_of self.now }
    {
        self.lines
    }

    /// The line that was read last, without its line feed: if one is refused, that one, as far as it was read.
    pub fn line(&self) -> &[u8]
        ensures { result.now ≡ line_of self.now }
    {
        self.line.as_slice()
    }

    /// Whether any gear was heard: an answer was told, clean or damaged.
    pub fn has_heard(&self) -> bool
        ensures { result ≡ has_heard self.now }
    {
        self.has_heard
    }

    /// A line of the driver, without its line feed. It is read a byte at a time, so that nothing behind it is taken.
    fn read_line(&mut self) -> Result<(), DriverFault>
        ensures line { OnOk result (Consumes (R.remaining (reader_of self.old))
            (R.remaining (reader_of self.new)) (line_of self.new ++ 10 ∷ [])) }
        ensures writer { writer_of self.new ≡ writer_of self.old }
        ensures lines { lines_of self.new ≡ next_line (lines_of self.old) }
        ensures heard { has_heard self.new ≡ has_heard self.old }
        ensures fault { fault_of self.new ≡ fault_of self.old }
        ensures not_bad { result ≢ Err BadLine }
    {
        self.lines = self.lines.saturating_add(1);
        self.line.clear();
        for _ in 0..17u8 {
            let mut byte = [0u8; 1];
            match self.reader.read(&mut byte) {
                Ok(0) if self.line.is_empty() => return Err(DriverFault::Ended),
                Ok(0) => return Err(DriverFault::TornLine),
                Ok(_) => {}
                Err(_) => return Err(DriverFault::Read),
            }
            if byte[0] == b'\n' {
                return Ok(());
            }
            if self.line.try_push(byte[0]).is_err() {
                return Err(DriverFault::LongLine);
            }
        }
        Err(DriverFault::LongLine)
    }

    /// What the driver's next line tells.
    fn read_told(&mut self) -> Result<Input, DriverFault>
        ensures told { IfOk result (Tells (R.remaining (reader_of self.old)) (R.remaining (reader_of self.new))) }
        ensures of_bus { IfOk result (λ told. accepts due.Bus told ≡ true) }
        ensures writer { writer_of self.new ≡ writer_of self.old }
        ensures lines { lines_of self.new ≡ next_line (lines_of self.old) }
        ensures heard { IfOk result (λ told. has_heard self.new ≡ has_heard self.old || is_answer told) }
        ensures fault { fault_of self.new ≡ fault_of self.old }
        ensures bad { result ≡ Err BadLine → told_of (line_of self.new) ≡ None }
    {
        self.read_line()?;
        match told_of(self.line.as_slice()) {
            Some(told) => {
                self.has_heard = self.has_heard || is_answer(told);
                Ok(told)
            }
            None => Err(DriverFault::BadLine),
        }
    }

    /// Writes the line of a frame.
    #[tactic(auto, using(crate::proofs::Written::appends_kept))]
    fn write_put(
        &mut self,
        priority: Priority,
        frame: Forward,
        half: Half,
    ) -> Result<(), DriverFault>
        ensures wrote { OnOk result (Appends (W.contents (writer_of self.old)) (W.contents (writer_of self.new))
            (put_text priority frame half)) }
        ensures reader { reader_of self.new ≡ reader_of self.old }
        ensures lines { lines_of self.new ≡ lines_of self.old }
        ensures heard { has_heard self.new ≡ has_heard self.old }
        ensures part { IfErr result IsPart }
        ensures not_bad { result ≢ Err BadLine }
    {
        self.text.clear();
        push_put(&mut self.text, priority, frame, half)?;
        if self.writer.write_all(self.text.as_bytes()).is_err() || self.writer.flush().is_err() {
            return Err(DriverFault::Write);
        }
        Ok(())
    }

    /// Writes the line of a frame, and reads nothing: what comes of it is not learned. This is done after a fault, too,
    /// which is over then.
    pub(crate) fn announce(
        &mut self,
        priority: Priority,
        frame: Forward,
        half: Half,
    ) -> Result<(), DriverFault>
        ensures wrote { OnOk result (Appends (W.contents (writer_of self.old)) (W.contents (writer_of self.new))
            (put_text priority frame half)) }
        ensures reader { reader_of self.new ≡ reader_of self.old }
        ensures lines { lines_of self.new ≡ lines_of self.old }
        ensures heard { has_heard self.new ≡ has_heard self.old }
        ensures part { IfErr result IsPart }
        ensures failed { IfErr result (λ fault. fault_of self.new ≡ Some fault) }
        ensures open { OnOk result (fault_of self.new ≡ None) }
        ensures not_bad { result ≢ Err BadLine }
    {
        match self.write_put(priority, frame, half) {
            Ok(()) => {
                self.fault = None;
                Ok(())
            }
            Err(fault) => {
                self.fault = Some(fault);
                Err(fault)
            }
        }
    }

    /// What the driver's next line tells, and the fault if that is not learned.
    fn learn(&mut self) -> Result<Input, DriverFault>
        ensures told { IfOk result (Tells (R.remaining (reader_of self.old)) (R.remaining (reader_of self.new))) }
        ensures of_bus { IfOk result (λ told. accepts due.Bus told ≡ true) }
        ensures writer { writer_of self.new ≡ writer_of self.old }
        ensures lines { lines_of self.new ≡ next_line (lines_of self.old) }
        ensures heard { IfOk result (λ told. has_heard self.new ≡ has_heard self.old || is_answer told) }
        ensures failed { IfErr result (λ fault. fault_of self.new ≡ Some fault) }
        ensures open { OnOk result (fault_of self.new ≡ fault_of self.old) }
        ensures lost { IfOk result (λ told. is_lost self.new ≡ not (is_sent told)) }
        ensures bad { result ≡ Err BadLine → told_of (line_of self.new) ≡ None }
    {
        match self.read_told() {
            Ok(told) => {
                self.is_lost = !is_sent(told);
                Ok(told)
            }
            Err(fault) => {
                self.fault = Some(fault);
                Err(fault)
            }
        }
    }

    /// Puts a frame: writes its line, and reads what came of it. After a fault neither is done, and that fault is
    /// answered again.
    ///
    /// A driver that never answers is waited for as long as its line can be read.
    pub fn exchange(
        &mut self,
        priority: Priority,
        frame: Forward,
        half: Half,
    ) -> Result<Input, DriverFault>
        ensures wrote { IfOk result (λ _. Appends (W.contents (writer_of self.old)) (W.contents (writer_of self.new))
            (put_text priority frame half)) }
        ensures told { IfOk result (Tells (R.remaining (reader_of self.old)) (R.remaining (reader_of self.new))) }
        ensures closed { IfSome (fault_of self.old) (λ fault. (self.new ≡ self.old) × (result ≡ Err fault)) }
        ensures failed { IfErr result (λ fault. fault_of self.new ≡ Some fault) }
        ensures open { OnOk result (fault_of self.new ≡ None) }
        ensures lost { IfOk result (λ told. is_lost self.new ≡ not (is_sent told)) }
        ensures part { IfErr result (λ fault. IsPutInPart fault (talk_of R.remaining W.contents self.old)
            (talk_of R.remaining W.contents self.new) (put_text priority frame half)) }
        ensures of_bus { IfOk result (λ told. accepts due.Bus told ≡ true) }
        ensures lines { IfOk result (λ _. lines_of self.new ≡ next_line (lines_of self.old)) }
        ensures heard { IfOk result (λ told. has_heard self.new ≡ has_heard self.old || is_answer told) }
        ensures bad { fault_of self.old ≡ None → result ≡ Err BadLine → told_of (line_of self.new) ≡ None }
    {
        if let Some(fault) = self.fault {
            return Err(fault);
        }
        self.announce(priority, frame, half)?;
        self.learn()
    }

    /// The same: what was heard after the frame; None if it was lost.
    pub(crate) fn ask(
        &mut self,
        priority: Priority,
        frame: Forward,
        half: Half,
    ) -> Result<Option<Answer>, DriverFault>
        ensures lost { result ≡ Ok None → is_lost self.new ≡ true }
        ensures put { IfOk result (λ heard. (told : Input) × IsPut priority frame half told
            (talk_of R.remaining W.contents self.old) (talk_of R.remaining W.contents self.new)
            × (heard ≡ answer_told told)) }
        ensures failed { IfErr result (λ fault. fault_of self.new ≡ Some fault) }
    {
        match self.exchange(priority, frame, half)? {
            Input::Heard(heard) => Ok(Some(heard)),
            Input::Start
            | Input::Survey
            | Input::Destroyed
            | Input::Lapsed
            | Input::Committed
            | Input::CommitFailed => Ok(None),
        }
    }
}
