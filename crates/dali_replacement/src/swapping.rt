//! A swap of files of records, its journal, and the names of what lies beside a file.

ghost use Rattle.std.specs.Prelude.{◌≡◌, ◌≤◌, ◌<◌, ◌^◌, ◌↔◌, ℕ, List, ◌∷◌, ◌++◌, true, IsTrue, IsOk, IfOk, OnOk};
ghost use Rattle.std.specs.Prelude.{IsSomeAnd, MatchOption, codes, decimal, length, map, min, string_bytes, vec_len};
ghost use Rattle.dali_script.specs.Records.{Has};
ghost use Rattle.dali_replacement.specs.Permit.{confirmed_at, confirmed_random, confirmed_table};
ghost use Rattle.dali_replacement.specs.Tables.{IsComplete, IsGathered};
ghost use Rattle.dali_replacement.specs.Swapping.{address_of, number_of, names_of, texts_of, lines_of, swap_text};
ghost use Rattle.dali_replacement.specs.Swapping.{first_line, numbers_line, IsWithout, AreWithout, IsReadable};
ghost use Rattle.dali_replacement.specs.declared.swapping.Swap.{Swap};

use crate::confirmed::Confirmed;
use crate::refusal::ReplaceRefusal;
use crate::swap::MOST_FILES;
use crate::tables::{is_complete, is_gathered};
use dali_frame::Short;
use dali_script::Kept;
use std::alloc::{AllocError, Global};

/// The first line of a journal.
const HEAD: &str =
    "dali_commission: a replacement is not finished; call ./dali_commission replace again";

/// A swap of files: the new one of each takes the place of the old one, which is kept.
#[derive(Drop)]
pub struct Swap {
    short: Short,
    number: u32,
    names: Vec<String>,
}

/// Where the new file of records lies.
pub fn new_of(alloc: Global, name: &str) -> Result<String, AllocError>
    ensures { IfOk result (λ at. string_bytes at ≡ name.now ++ codes ".new") }
{
    format!(in alloc; "{name}.new")
}

/// Where the journal lies.
pub fn journal_of(alloc: Global, name: &str) -> Result<String, AllocError>
    ensures { IfOk result (λ at. string_bytes at ≡ name.now ++ codes ".replacing") }
{
    format!(in alloc; "{name}.replacing")
}

/// Where a new file of records is put aside.
pub fn aside_of(alloc: Global, name: &str, number: u32) -> Result<String, AllocError>
    ensures { IfOk result (λ at. string_bytes at ≡ name.now ++ (codes ".aside-" ++ decimal number)) }
{
    format!(in alloc; "{name}.aside-{number}")
}

/// Where the old file of records is kept.
pub fn kept_of(alloc: Global, name: &str, number: u32) -> Result<String, AllocError>
    ensures { IfOk result (λ at. string_bytes at ≡ name.now ++ (codes ".before-" ++ decimal number)) }
{
    format!(in alloc; "{name}.before-{number}")
}

fn is_text(other: &String, name: &str) -> bool
    ensures { IsTrue result ↔ (string_bytes other.now ≡ name.now) }
{
    other.as_str() == name
}

/// Whether one of some names is this one.
fn has_text(names: &[String], name: &str) -> bool
    ensures { IsTrue result ↔ Has (map string_bytes names.now) name.now }
{
    match names {
        [] => false,
        [other, more @ ..] => is_text(other, name) || has_text(more, name),
    }
}

/// Adds names to a text, each on a line of its own.
fn put_lines(text: &mut String, names: &[String]) -> Result<(), AllocError>
    ensures { OnOk result (string_bytes text.new ≡ string_bytes text.old ++ lines_of (map string_bytes names.now)) }
{
    let [name, more @ ..] = names else {
        return Ok(());
    };
    write!(text, "{name}\n")?;
    put_lines(text, more)
}

/// The first line of a text, and what stands behind it.
fn line_in(text: &str) -> Option<(&str, &str)>
    ensures { (line rest : List ℕ) → IsWithout 10 line → text.now ≡ line ++ 10 ∷ rest
        → IsSomeAnd result (λ x. (x.0.now ≡ line) × (x.1.now ≡ rest)) }
{
    text.split_once('\n')
}

/// Adds the names that stand on lines of their own, so many at the most, and answers whether nothing else stands there.
fn push_names(
    alloc: Global,
    names: &mut Vec<String>,
    text: &str,
    most: usize,
) -> Result<bool, AllocError>
    ensures { IfOk result (λ are. (lines : List (List ℕ)) → AreWithout 10 lines → length lines ≤ most
        → text.now ≡ lines_of lines
        → (are ≡ true) × (map string_bytes names.new.items ≡ map string_bytes names.old.items ++ lines)) }
{
    if text.is_empty() {
        return Ok(true);
    }
    if most == 0 {
        return Ok(false);
    }
    let Some((name, more)) = line_in(text) else {
        return Ok(false);
    };
    names.push(String::from_str(alloc, name)?)?;
    push_names(alloc, names, more, most - 1)
}

/// The names that stand on lines of their own, one at least.
fn names_in(alloc: Global, text: &str) -> Result<Option<Vec<String>>, AllocError>
    ensures { IfOk result (λ names. (lines : List (List ℕ)) → AreWithout 10 lines → 0 < length lines
        → length lines ≤ 64 → text.now ≡ lines_of lines
        → IsSomeAnd names (λ names. map string_bytes names.items ≡ lines)) }
{
    let mut names = Vec::new(alloc);
    if push_names(alloc, &mut names, text, MOST_FILES)? && !names.is_empty() {
        Ok(Some(names))
    } else {
        Ok(None)
    }
}

/// A short address and a number, with a space between them.
fn numbers_of(numbers: &str) -> Option<(Short, u32)>
    ensures { (a n : ℕ) → a < 64 → n < 2 ^ 32 → numbers.now ≡ numbers_line a n
        → IsSomeAnd result (λ x. (x.0 ≡ a) × (x.1 ≡ n)) }
{
    let (short, number) = numbers.split_once(' ')?;
    Some((Short::of(short.parse().ok()?)?, number.parse().ok()?))
}

fn is_head(line: &str) -> bool
    ensures { IsTrue result ↔ (line.now ≡ first_line) }
{
    line == HEAD
}

/// The numbers of a journal, and what stands behind them.
fn numbers_in(text: &str) -> Option<(Short, u32, &str)>
    ensures { (a n : ℕ) (rest : List ℕ) → a < 64 → n < 2 ^ 32
        → text.now ≡ first_line ++ 10 ∷ (numbers_line a n ++ 10 ∷ rest)
        → IsSomeAnd result (λ x. (x.0 ≡ a) × (x.1 ≡ n) × (x.2.now ≡ rest)) }
{
    let (head, rest) = line_in(text)?;
    if !is_head(head) {
        return None;
    }
    let (numbers, names) = line_in(rest)?;
    let (short, number) = numbers_of(numbers)?;
    Some((short, number, names))
}

impl Swap {
    /// A swap of the files of these names, whose new tables have the gear that was heard, if it may begin: the new
    /// tables are complete, and all others of the old ones were asked for. The old files are to be kept under this
    /// number.
    pub fn of(
        confirmed: &Confirmed,
        old: &[Kept],
        news: &[Kept],
        number: u32,
        names: Vec<String>,
    ) -> Result<Swap, ReplaceRefusal>
        ensures complete { IsOk result ↔ (IsComplete (vec_len names) (confirmed_at confirmed.now)
            (confirmed_random confirmed.now) old.now news.now
            × IsGathered (confirmed_at confirmed.now) old.now (confirmed_table confirmed.now)) }
        ensures swap { IfOk result (λ swap. (address_of swap ≡ confirmed_at confirmed.now)
            × (number_of swap ≡ number) × (names_of swap ≡ names.items)) }
    {
        let (short, random) = (confirmed.short(), confirmed.random());
        if is_complete(names.len(), short, random, old, news)
            && is_gathered(short, old, confirmed.table())
        {
            Ok(Swap {
                short,
                number,
                names,
            })
        } else {
            Err(ReplaceRefusal::Incomplete)
        }
    }

    /// The short address that was given anew.
    pub fn short(&self) -> Short
        ensures { result ≡ address_of self.now }
    {
        self.short
    }

    /// The number under which the old files are kept.
    pub fn number(&self) -> u32
        ensures { result ≡ number_of self.now }
    {
        self.number
    }

    /// The names of the files.
    pub fn names(&self) -> &[String]
        ensures { result.now ≡ names_of self.now }
    {
        &self.names
    }

    /// The swap that a journal is of, whose text is this one, byte by byte. None if it is none.
    pub fn read(alloc: Global, text: &str) -> Result<Option<Swap>, AllocError>
        ensures { IfOk result (λ read. MatchOption read
            ((swap : Swap) → IsReadable swap → swap_text swap ≡ text.now → ⊥)
            (λ swap. swap_text swap ≡ text.now)) }
    {
        let Some(head) = numbers_in(text) else {
            return Ok(None);
        };
        let Some(names) = names_in(alloc, head.2)? else {
            return Ok(None);
        };
        let swap = Swap {
            short: head.0,
            number: head.1,
            names,
        };
        let own = swap.text(alloc)?;
        if is_text(&own, text) {
            Ok(Some(swap))
        } else {
            Ok(None)
        }
    }

    /// The text of its journal.
    pub fn text(&self, alloc: Global) -> Result<String, AllocError>
        ensures { IfOk result (λ text. string_bytes text ≡ swap_text self.now) }
    {
        let (short, number) = (self.short.number(), self.number);
        let mut text = format!(in alloc; "{HEAD}\n{short} {number}\n")?;
        put_lines(&mut text, &self.names)?;
        Ok(text)
    }

    /// How many files it has, 64 at most.
    pub fn count(&self) -> u32
        ensures value { result ≡ min (length (names_of self.now)) 64 }
        ensures most { result ≤ 64 }
    {
        match u32::try_from(self.names.len()) {
            Ok(count) => count.min(64),
            Err(_) => 64,
        }
    }

    /// Whether one of its files has this name.
    pub fn has(&self, name: &str) -> bool
        ensures { IsTrue result ↔ Has (texts_of self.now) name.now }
    {
        has_text(&self.names, name)
    }
}
