//! A capture is a dump if its first word begins with `$`, else a log.

ghost use Rattle.std.specs.Prelude.{◌≡◌, option_map};
ghost use Rattle.dali_capture.specs.Sources.{begun, source_word, source_line_end, source_end};

use crate::dump::Dump;
use crate::fault::Reason;
use crate::item::Item;
use crate::log::Log;
use crate::words::after_mark;

/// What a capture is, read up to a word.
#[derive(Clone, Copy)]
pub enum Source {
    /// No word was read.
    Unknown,
    /// A log.
    Log(Log),
    /// A dump.
    Dump(Dump),
}

impl Source {
    /// What a capture is that begins with this word.
    fn begun(self, word: &[u8]) -> Source
        ensures { result ≡ begun self word.now }
    {
        match self {
            Source::Unknown => {
                if after_mark(word, b'$').is_some() {
                    Source::Dump(Dump::new())
                } else {
                    Source::Log(Log::new())
                }
            }
            Source::Log(_) | Source::Dump(_) => self,
        }
    }

    /// The next word, and the item that it tells.
    pub fn word(
        self,
        wanted: Option<&[u8]>,
        is_inverted: bool,
        word: &[u8],
    ) -> Result<(Source, Option<Item>), Reason>
        ensures { result ≡ source_word self (option_map (λ w. w.now) wanted.entry) is_inverted word.now }
    {
        match self.begun(word) {
            Source::Unknown => Ok((Source::Unknown, None)),
            Source::Log(log) => {
                let (log, told) = log.word(word)?;
                Ok((Source::Log(log), told))
            }
            Source::Dump(dump) => {
                let (dump, told) = dump.word(wanted, is_inverted, word)?;
                Ok((Source::Dump(dump), told))
            }
        }
    }

    /// The end of a line.
    pub fn line_end(self) -> Result<Source, Reason>
        ensures { result ≡ source_line_end self }
    {
        match self {
            Source::Log(log) => Ok(Source::Log(log.line_end()?)),
            Source::Unknown | Source::Dump(_) => Ok(self),
        }
    }

    /// The end of the capture, and the item that had ended before it.
    pub fn end(self) -> Result<Option<Item>, Reason>
        ensures { result ≡ source_end self }
    {
        match self {
            Source::Dump(dump) => dump.end(),
            Source::Log(log) => {
                let _ = log.line_end()?;
                Ok(None)
            }
            Source::Unknown => Ok(None),
        }
    }
}
