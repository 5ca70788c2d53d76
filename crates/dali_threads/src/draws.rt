//! The random addresses that the gear of a run may draw.

ghost use Rattle.std.specs.Prelude.{◌≡◌, ◌%◌, ◌^◌, ◌≤◌, IfOk, OnOk};
ghost use Rattle.dali_threads.specs.Drawn.{AreDrawn, StandOnce, with_number, drawn_on, numbers_of};

use indexmap::IndexSet;
use rand_core::SeedableRng;
use rand_core::utils::NextWord;
use rand_pcg::Pcg32;
use std::alloc::{AllocError, Global};

/// A random address of 24 bits that no gear may draw, `FFFFFF`.
const MASK: u32 = 0xFF_FFFF;

/// The low 24 bits of a word as one number more, unless they are `FFFFFF` or are there already.
fn add(numbers: &mut IndexSet<u32>, word: u32) -> Result<(), AllocError>
    ensures { OnOk result (numbers.new.keys ≡ with_number numbers.old.keys (word % 2 ^ 24)) }
{
    let number = word & MASK;
    if number == MASK {
        return Ok(());
    }
    match numbers.insert(number) {
        Ok(_) => Ok(()),
        Err(_) => Err(AllocError),
    }
}

/// Uses up to so many words of a generator, until there are as many numbers as are wanted.
fn draw(
    numbers: &mut IndexSet<u32>,
    generator: &mut Pcg32,
    words: usize,
    most: usize,
) -> Result<(), AllocError>
    ensures { OnOk result (numbers.new.keys ≡ drawn_on words most generator.old numbers.old.keys) }
{
    let mut left = words;
    while left > 0 {
        if numbers.len() == most {
            return Ok(());
        }
        left -= 1;
        add(numbers, generator.next_word())?;
    }
    Ok(())
}

/// At most so many numbers, pairwise different and below `FFFFFF`, in the order in which they were drawn: the low 24
/// bits of each word that PCG32 gives from this seed, until there are so many, or four words for each of them and 64
/// more were used.
pub(crate) fn drawn(alloc: Global, seed: u64, most: usize) -> Result<IndexSet<u32>, AllocError>
    requires { most ≤ 512 }
    ensures numbers { IfOk result (λ numbers. numbers.keys ≡ numbers_of seed most) }
    ensures drawn { IfOk result (λ numbers. AreDrawn most numbers.keys) }
    ensures once { IfOk result (λ numbers. StandOnce numbers.keys) }
{
    let mut generator = Pcg32::seed_from_u64(seed);
    let mut numbers = IndexSet::new(alloc);
    draw(&mut numbers, &mut generator, 4 * most + 64, most)?;
    // They are a set, so none stands twice.
    let _ = numbers.len();
    Ok(numbers)
}
