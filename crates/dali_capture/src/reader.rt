//! A capture from its bytes.

ghost use Rattle.std.specs.Prelude.{◌≡◌, ◌++◌, option_map, option_to_list, Ok, IfSome, IfOk, IfErr, OnOk};
ghost use Rattle.dali_capture.specs.Captures.{so_far_at_first, is_blank, word_end, line_end, read_byte, read_bytes};
ghost use Rattle.dali_capture.specs.Captures.{Reads, IsFaultAmid, IsFaultOf, read_end, capture_of};

use crate::fault::{CaptureFault, Mistake, Reason};
use crate::item::Item;
use crate::source::Source;
use std::alloc::Global;
use std::io::Read;
use std::marker::Model;

/// The longest capture that is read, in bytes.
pub const CAPTURE_LIMIT: usize = 67_108_864;

/// What was read of a capture.
///
/// Contracts see the record of its fields.
#[derive(Drop)]
struct SoFar {
    source: Source,
    /// The number of the line that is being read.
    line: u64,
    /// The word that is being read.
    word: Vec<u8>,
    items: Vec<Item>,
}

impl Model for SoFar {
    ghost use Rattle.dali_capture.specs.Captures.{SoFar};

    ghost Value = { SoFar };

    ghost view = { λ r. record { source = r.source; line = r.line; word = r.word.items; items = r.items.items } };
}

/// Whether a byte stands between words.
fn is_blank(byte: u8) -> bool
    ensures { result ≡ is_blank byte }
{
    byte == b' ' || (9 <= byte && byte <= 13)
}

impl SoFar {
    /// Nothing.
    fn new(alloc: Global) -> SoFar
        ensures { result ≡ so_far_at_first }
    {
        SoFar {
            source: Source::Unknown,
            line: 1,
            word: Vec::new(alloc),
            items: Vec::new(alloc),
        }
    }

    /// This is wrong in the line that is being read.
    fn mistake(&self, reason: Reason) -> CaptureFault
        ensures { result ≡ CaptureFault.Bad (record { line = self.now.line; reason = reason }) }
    {
        CaptureFault::Bad(Mistake {
            line: self.line,
            reason,
        })
    }

    /// An item, if one was told, joins those before.
    fn join(&mut self, told: Option<Item>) -> Result<(), CaptureFault>
        ensures joined { OnOk result
            (self.new ≡ record self.old { items = self.old.items ++ option_to_list told }) }
        ensures memory { IfErr result (λ e. e ≡ CaptureFault.Memory) }
    {
        match told {
            Some(item) => match self.items.push(item) {
                Ok(()) => Ok(()),
                Err(_) => Err(CaptureFault::Memory),
            },
            None => Ok(()),
        }
    }

    /// A word has ended, if one had begun.
    fn word_end(&mut self, wanted: Option<&[u8]>, is_inverted: bool) -> Result<(), CaptureFault>
        ensures { Reads (word_end (option_map (λ w. w.now) wanted.entry) is_inverted self.old) self.new result }
    {
        if self.word.is_empty() {
            return Ok(());
        }
        match self.source.word(wanted, is_inverted, &self.word) {
            Ok((source, told)) => {
                self.source = source;
                self.word.clear();
                self.join(told)
            }
            Err(reason) => Err(self.mistake(reason)),
        }
    }

    /// A line has ended.
    fn line_end(&mut self) -> Result<(), CaptureFault>
        ensures { Reads (line_end self.old) self.new result }
    {
        match self.source.line_end() {
            Ok(source) => {
                self.source = source;
                self.line = self.line.saturating_add(1);
                Ok(())
            }
            Err(reason) => Err(self.mistake(reason)),
        }
    }

    /// The next byte.
    fn byte(
        &mut self,
        wanted: Option<&[u8]>,
        is_inverted: bool,
        byte: u8,
    ) -> Result<(), CaptureFault>
        ensures { Reads (read_byte (option_map (λ w. w.now) wanted.entry) is_inverted self.old byte) self.new result }
    {
        if byte == b'\n' {
            self.word_end(wanted, is_inverted)?;
            self.line_end()
        } else if is_blank(byte) {
            self.word_end(wanted, is_inverted)
        } else {
            match self.word.push(byte) {
                Ok(()) => Ok(()),
                Err(_) => Err(CaptureFault::Memory),
            }
        }
    }

    /// The next bytes.
    fn bytes(
        &mut self,
        wanted: Option<&[u8]>,
        is_inverted: bool,
        bytes: &[u8],
    ) -> Result<(), CaptureFault>
        ensures { Reads (read_bytes (option_map (λ w. w.now) wanted.entry) is_inverted self.old bytes.now)
            self.new result }
    {
        for byte in bytes {
            self.byte(wanted, is_inverted, *byte)?;
        }
        Ok(())
    }

    /// The end of the capture, and all its items.
    fn end(mut self, wanted: Option<&[u8]>, is_inverted: bool) -> Result<Vec<Item>, CaptureFault>
        ensures items { IfOk result
            (λ items. read_end (option_map (λ w. w.now) wanted.entry) is_inverted self ≡ Ok items.items) }
        ensures fault { IfErr result
            (IsFaultAmid (read_end (option_map (λ w. w.now) wanted.entry) is_inverted self)) }
    {
        self.word_end(wanted, is_inverted)?;
        match self.source.end() {
            Ok(told) => {
                self.join(told)?;
                Ok(self.items)
            }
            Err(reason) => Err(self.mistake(reason)),
        }
    }
}

/// Reads a capture as it comes, and gives its items in their order.
///
/// `wanted` names the wire of a dump, if it has several of one bit; the bus is low while the wire is 0, or, if
/// inverted, while it is 1. `Bad` comes with the first mistake, `Read` if the reader fails, `Interrupted` too, and
/// `TooLong` past the limit.
pub fn read_capture<R: Read>(
    alloc: Global,
    wanted: Option<&[u8]>,
    is_inverted: bool,
    reader: &mut R,
) -> Result<Vec<Item>, CaptureFault>
    ensures items { IfOk result (λ items. IfSome (R.remaining reader.old)
        (λ text. capture_of (option_map (λ w. w.now) wanted.entry) is_inverted text ≡ Ok items.items)) }
    ensures fault { IfErr result (λ fault. IfSome (R.remaining reader.old)
        (λ text. IsFaultOf (capture_of (option_map (λ w. w.now) wanted.entry) is_inverted text) text fault)) }
{
    let mut so_far = SoFar::new(alloc);
    let mut chunk = [0u8; 4096];
    let mut read = 0;
    while read <= CAPTURE_LIMIT {
        let Ok(count) = reader.read(&mut chunk) else {
            return Err(CaptureFault::Read);
        };
        if count == 0 {
            return so_far.end(wanted, is_inverted);
        }
        match so_far.bytes(wanted, is_inverted, &chunk[..count]) {
            Ok(()) => read += count,
            // For the prover: which fault it is follows here alone.
            Err(fault) => return Err(fault),
        }
    }
    Err(CaptureFault::TooLong)
}
