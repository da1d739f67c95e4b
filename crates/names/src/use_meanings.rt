//! What the uses of a file mean, by their offsets.

ghost use Rattle.std.specs.Prelude.{◌≡◌, ◌+◌, IfOk, OnOk};
ghost use Rattle.names.specs.UseMeanings.{block_of, in_chain, Reaches};

use crate::meanings::NameMeaning;
use std::alloc::{AllocError, Global};

/// How many bytes of the text a block has.
pub const BLOCK: u32 = 16;

/// What a use means, and which other use of its block comes after it in the chain.
#[derive(Clone, Copy)]
pub struct UseMeaning<'a> {
    pub at: u32,
    /// The number of that use, from 1, or 0 if there is none.
    pub next: u32,
    pub meaning: NameMeaning<'a>,
}

/// What each use in a file means, by its offset. The uses of each block of the text make a chain.
#[derive(Drop)]
pub struct UseMeanings<'a> {
    /// For each block the number of the first use in its chain, from 1, or 0 if there is none.
    firsts: Vec<u32>,
    uses: Vec<UseMeaning<'a>>,
}

/// The number of the block that has the offset.
fn block_of(at: u32) -> usize
    ensures { result ≡ block_of at }
{
    (at / BLOCK) as usize
}

/// Gives the block that has the offset its place, with an empty chain if it had none.
///
/// # Errors
///
/// Memory was refused.
fn reach(firsts: &mut Vec<u32>, at: u32) -> Result<(), AllocError>
    ensures { OnOk result (Reaches firsts.old.items firsts.new.items (block_of at)) }
{
    let block = block_of(at);
    if block >= firsts.len() {
        firsts.resize(block + 1, 0)?;
    }
    Ok(())
}

/// The number of the use that stands after so many others.
///
/// # Errors
///
/// There is no such number, since memory for so many uses was never had.
fn number_after(count: usize) -> Result<u32, AllocError>
    ensures { IfOk result (λ number. number ≡ count + 1) }
{
    if count >= u32::MAX as usize {
        return Err(AllocError);
    }
    Ok(count as u32 + 1)
}

/// What the use at the offset means, in the chain that begins with the use of that number.
fn in_chain<'a>(uses: &[UseMeaning<'a>], first: u32, at: u32) -> Option<NameMeaning<'a>>
    ensures { result ≡ in_chain first uses.now first at }
{
    let mut number = first as usize;
    while number > 0 {
        let index = number - 1;
        let Some(found) = uses.get(index) else {
            return None;
        };
        if found.at == at {
            return Some(found.meaning);
        }
        number = index.min(found.next as usize);
    }
    None
}

impl<'a> UseMeanings<'a> {
    ghost use Rattle.std.specs.Prelude.{ℕ, None};
    ghost use Rattle.names.specs.KeptMeanings.{kept_at, AreNumbered, Keeps};

    /// No uses. There is room for so many, and for those of a text with so many bytes.
    ///
    /// # Errors
    ///
    /// Memory was refused.
    pub fn new(alloc: Global, most: usize, bytes: u32) -> Result<Self, AllocError>
        ensures numbered { IfOk result (λ uses. AreNumbered uses) }
        ensures none { IfOk result (λ uses. (at : ℕ) → kept_at uses at ≡ None) }
    {
        let mut firsts = Vec::new(alloc);
        reach(&mut firsts, bytes)?;
        let uses = Vec::with_capacity(alloc, most)?;
        Ok(UseMeanings { firsts, uses })
    }

    /// What the use means that begins at the offset, and `None` where no use begins there. It takes no memory.
    pub fn get(&self, at: u32) -> Option<NameMeaning<'a>>
        ensures { result ≡ kept_at self.now at }
    {
        match self.firsts.get(block_of(at)) {
            Some(first) => in_chain(&self.uses, *first, at),
            None => None,
        }
    }

    /// Keeps what the use at the offset means, in place of what was kept of this offset before.
    ///
    /// # Errors
    ///
    /// Memory was refused; what is kept is not known then.
    pub fn keep(&mut self, at: u32, meaning: NameMeaning<'a>) -> Result<(), AllocError>
        requires { AreNumbered self.old }
        ensures { OnOk result (Keeps self.old self.new at meaning.entry) }
    {
        let number = number_after(self.uses.len())?;
        reach(&mut self.firsts, at)?;
        let block = block_of(at);
        let next = self.firsts[block];
        self.uses.push(UseMeaning { at, next, meaning })?;
        self.firsts[block] = number;
        Ok(())
    }
}
