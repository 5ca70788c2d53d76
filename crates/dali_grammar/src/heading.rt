//! The first lines: what is set up, the numbers that its gear will draw, and its used gear.

ghost use Rattle.std.specs.Prelude.{◌≡◌, ◌≤◌, length, IfOk, option_map};
ghost use Rattle.std.specs.Result.{result_ok};
ghost use Rattle.dali_grammar.specs.Lines.{words_of, parts_after, one_of};
ghost use Rattle.dali_grammar.specs.Numbers.{number_in, blocks_of};
ghost use Rattle.dali_grammar.specs.Heading.{bench_heading, site_of, heading_of, draws_of, drawn_of, shown};
ghost use Rattle.dali_grammar.specs.Heading.{is_used_line, used_line_of};

use crate::lines::cut;
use crate::numbers::{block_of, number_in};
use crate::words::{Wanted, Wrong, is_name, next, number, short_and_random};
use dali_events::{DRAW_LIMIT, Used};
use dali_frame::Random24;
use std::alloc::{AllocError, Global};

/// What the first line sets up: gear, and a block of short addresses for each controller.
#[derive(Drop)]
pub struct Heading {
    /// A bench has gear alone; it is planned as a site of one controller, which does nothing.
    pub is_bench: bool,
    /// How many gear there are, at most 1,000,000.
    pub gear: u32,
    /// The first and the last address of each controller's block, each at most 255.
    pub blocks: Vec<(u8, u8)>,
}

/// What `bench N` sets up, behind its first word.
fn bench_of(alloc: Global, rest: Option<&[u8]>) -> Result<Result<Heading, Wrong>, AllocError>
    ensures { IfOk result (λ heading. option_map shown (result_ok heading) ≡ option_map bench_heading
        (one_of number_in (parts_after 32 (option_map (λ rest. rest.now) rest.entry)))) }
{
    let gear = match number(rest) {
        Ok(gear) => gear,
        Err(wrong) => return Ok(Err(wrong)),
    };
    let blocks = vec![in alloc; (0, 0); 1]?;
    Ok(Ok(Heading {
        is_bench: true,
        gear,
        blocks,
    }))
}

/// The blocks of the words that follow, or the first that is none.
fn blocks_of(
    alloc: Global,
    words: Option<&[u8]>,
) -> Result<Result<Vec<(u8, u8)>, Wrong>, AllocError>
    ensures { IfOk result (λ blocks. option_map (λ blocks. blocks.items) (result_ok blocks)
        ≡ blocks_of (parts_after 32 (option_map (λ text. text.now) words.entry))) }
{
    let mut blocks = Vec::new(alloc);
    let mut rest = words;
    while let Some(list) = rest {
        let (word, more) = cut(list, b' ');
        let Some(block) = block_of(word) else {
            return Ok(Err(Wrong::behind(2, blocks.len(), Wanted::Block)));
        };
        blocks.push(block)?;
        rest = more;
    }
    Ok(Ok(blocks))
}

/// What `site N BLOCK ..` sets up, behind its first word.
fn site_of(alloc: Global, rest: Option<&[u8]>) -> Result<Result<Heading, Wrong>, AllocError>
    ensures { IfOk result (λ heading. option_map shown (result_ok heading)
        ≡ site_of (parts_after 32 (option_map (λ rest. rest.now) rest.entry))) }
{
    let wrong = Wrong::at(2, Wanted::Number);
    let (word, list) = match next(rest, wrong) {
        Ok(next) => next,
        Err(wrong) => return Ok(Err(wrong)),
    };
    let Some(gear) = number_in(word) else {
        return Ok(Err(wrong));
    };
    let blocks = match blocks_of(alloc, list)? {
        Ok(blocks) => blocks,
        Err(wrong) => return Ok(Err(wrong)),
    };
    Ok(Ok(Heading {
        is_bench: false,
        gear,
        blocks,
    }))
}

/// What the first line sets up, or its first wrong word.
pub fn heading_of(alloc: Global, line: &[u8]) -> Result<Result<Heading, Wrong>, AllocError>
    ensures { IfOk result (λ heading. option_map shown (result_ok heading) ≡ heading_of (words_of line.now)) }
{
    let (name, rest) = cut(line, b' ');
    if is_name(name, b"bench") {
        bench_of(alloc, rest)
    } else if is_name(name, b"site") {
        site_of(alloc, rest)
    } else {
        Ok(Err(Wrong::at(1, Wanted::Name)))
    }
}

/// The numbers in the line `draws HHHHHH ..`, at most 1,024, or its first wrong word.
pub fn draws_of(alloc: Global, line: &[u8]) -> Result<Result<Vec<u32>, Wrong>, AllocError>
    ensures draws { IfOk result
        (λ draws. option_map (λ draws. draws.items) (result_ok draws) ≡ draws_of (words_of line.now)) }
    ensures few { IfOk result (λ draws. IfOk draws (λ draws. length draws.items ≤ 1024)) }
{
    let (name, rest) = cut(line, b' ');
    if !is_name(name, b"draws") {
        return Ok(Err(Wrong::at(1, Wanted::Name)));
    }
    drawn_of(alloc, rest)
}

/// The random addresses of the words that follow, at most 1,024, or the first that is none.
fn drawn_of(alloc: Global, words: Option<&[u8]>) -> Result<Result<Vec<u32>, Wrong>, AllocError>
    ensures draws { IfOk result (λ draws. option_map (λ draws. draws.items) (result_ok draws)
        ≡ drawn_of (parts_after 32 (option_map (λ text. text.now) words.entry))) }
    ensures few { IfOk result (λ draws. IfOk draws (λ draws. length draws.items ≤ 1024)) }
{
    let mut draws = Vec::new(alloc);
    let mut rest = words;
    while let Some(list) = rest {
        let (word, more) = cut(list, b' ');
        let Some(draw) = Random24::read_hex(word) else {
            return Ok(Err(Wrong::behind(1, draws.len(), Wanted::Random)));
        };
        if draws.len() == DRAW_LIMIT {
            return Ok(Err(Wrong::behind(1, draws.len(), Wanted::FewDraws)));
        }
        draws.push(draw.value())?;
        rest = more;
    }
    Ok(Ok(draws))
}

/// Whether a line is one of a used gear: `used` and further words, which may be bad ones.
pub fn is_used_line(line: &[u8]) -> bool
    ensures { result ≡ is_used_line (words_of line.now) }
{
    let (name, _) = cut(line, b' ');
    is_name(name, b"used")
}

/// The gear in the line `used G A RRRRRR`, of which the first word is known, or its first wrong word.
pub fn used_of(line: &[u8]) -> Result<Used, Wrong>
    ensures { result_ok result ≡ used_line_of (words_of line.now) }
{
    let wrong = Wrong::at(2, Wanted::Number);
    let (_, rest) = cut(line, b' ');
    let (word, rest) = next(rest, wrong)?;
    let gear = number_in(word).ok_or(wrong)?;
    let (short, random) = short_and_random(rest)?;
    Ok(Used {
        gear,
        short,
        random,
    })
}
