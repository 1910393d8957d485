//! The cells of a new activation.
ghost use Rattle.std.specs.Prelude.{◌≡◌, ◌≤◌, ◌<◌, ◌+◌, ◌-◌, ◌^◌, ◌++◌, [], ◌∷◌, pos, length, nat_le, get_or, set, replicate, vec_capacity};
ghost use Rattle.pfc_stacks.specs.Activations.{own_words, block_cells, size_of};

use crate::Mark;
use pfc_code::Block;

/// An activation has eight cells of its own, before those of its block.
pub(crate) const OWN_CELLS: usize = 8;

/// Which of its own cells holds the address at which its caller goes on.
pub(crate) const ADDRESS_PLACE: usize = 0;

/// Which holds the number of its block.
pub(crate) const BLOCK_PLACE: usize = 1;

/// Which holds its mark.
pub(crate) const MARK_PLACE: usize = 2;

/// Which holds its static link.
pub(crate) const LINK_PLACE: usize = 3;

/// Which holds where its caller's own cells begin.
pub(crate) const CALLER_PLACE: usize = 4;

/// Which holds how many operands its caller keeps.
pub(crate) const UNDER_PLACE: usize = 5;

/// The static link of what is not nested: the word of the address of main's first own cell.
pub(crate) const MAIN_LINK: i64 = 0;

/// What the own cells of an activation hold.
#[derive(Clone, Copy)]
pub(crate) struct Own {
    /// the address at which its caller goes on
    pub(crate) address: u64,
    /// the number of its block
    pub(crate) block: u32,
    pub(crate) mark: Mark,
    /// its static link: the word of the address of another activation's first own cell
    pub(crate) link: i64,
    /// where the own cells of its caller begin
    pub(crate) caller: u32,
    /// how many operands its caller keeps
    pub(crate) under: u32,
}

/// How many cells a block has behind those of its parameters.
pub(crate) fn others_of(block: &Block) -> usize
    ensures count { result ≡ block.now.cells - block.now.params }
    ensures few { result < 2 ^ 32 }
{
    block.cells.saturating_sub(block.params) as usize
}

/// How many cells an activation of a block has, with its own.
pub(crate) fn size_of(block: &Block) -> usize
    ensures count { result ≡ size_of block.now }
    ensures few { result < 2 ^ 34 }
{
    OWN_CELLS + (block.params as usize + others_of(block))
}

/// An activation of so many cells may stand over so many others, where there may be so many in all.
pub(crate) fn has_place(below: usize, size: usize, most: u32) -> bool
    ensures { result ≡ nat_le (below + size) most }
{
    let most = most as usize;
    size <= most && below <= most - size
}

/// The word of an address.
fn word_of_address(address: u64) -> i64
    requires { address ≤ 2 ^ 32 }
    ensures { result ≡ pos address }
{
    address as i64
}

/// Puts one cell behind these, which have room for it.
#[inline(always)]
fn push_word(cells: &mut Vec<i64>, w: i64)
    requires { length cells.old.items < vec_capacity cells.old }
    ensures items { cells.new.items ≡ cells.old.items ++ w ∷ [] }
    ensures count { length cells.new.items ≡ length cells.old.items + 1 }
    ensures capacity { vec_capacity cells.new ≡ vec_capacity cells.old }
{
    cells.push_reserved(w);
}

/// Puts the own cells of an activation behind these cells, which have room for them. One by one they cost less than a slice of
/// them.
#[inline(always)]
pub(crate) fn push_own(cells: &mut Vec<i64>, own: Own)
    requires address { own.address ≤ 2 ^ 32 }
    requires room { length cells.old.items + 8 ≤ vec_capacity cells.old }
    ensures items { cells.new.items ≡ cells.old.items ++ own_words own }
    ensures capacity { vec_capacity cells.old ≤ vec_capacity cells.new }
{
    push_word(cells, word_of_address(own.address));
    push_word(cells, i64::from(own.block));
    push_word(cells, own.mark.word());
    push_word(cells, own.link);
    push_word(cells, i64::from(own.caller));
    push_word(cells, i64::from(own.under));
    push_word(cells, 0);
    push_word(cells, 0);
}

/// Puts the arguments of a block behind these cells, which have room for them. Most blocks have none or one, for which no slice
/// is copied.
#[inline(always)]
fn push_arguments(cells: &mut Vec<i64>, args: &[i64])
    requires { length cells.old.items + length args.now ≤ vec_capacity cells.old }
    ensures items { cells.new.items ≡ cells.old.items ++ args.now }
    ensures capacity { vec_capacity cells.old ≤ vec_capacity cells.new }
{
    match args.len() {
        0 => {}
        1 => push_word(cells, args[0]),
        _ => cells.extend_from_slice(args).unwrap(),
    }
}

/// Puts so many cells that are 0 behind these cells, which have room for them: most often none, or a function's result.
#[inline(always)]
fn push_zeros(cells: &mut Vec<i64>, others: usize)
    requires { length cells.old.items + others ≤ vec_capacity cells.old }
    ensures { cells.new.items ≡ cells.old.items ++ replicate others (pos 0) }
{
    match others {
        0 => {}
        1 => push_word(cells, 0),
        _ => {
            let all = cells.len() + others;
            cells.resize(all, 0).unwrap();
        }
    }
}

/// Puts the cells of a block behind these cells, which have room for them: its arguments, and so many others.
#[inline(always)]
pub(crate) fn push_block(cells: &mut Vec<i64>, args: &[i64], others: usize)
    requires { length cells.old.items + length args.now + others ≤ vec_capacity cells.old }
    ensures { cells.new.items ≡ cells.old.items ++ block_cells args.now others }
{
    push_arguments(cells, args);
    push_zeros(cells, others);
}

/// The word at a place, from 0.
pub(crate) fn word_at(words: &[i64], k: usize) -> i64
    requires { k < length words.now }
    ensures { result ≡ get_or words.now k (pos 0) }
{
    words[k]
}

/// Writes the cell at a place, from 0, where there is one.
pub(crate) fn write_word(cells: &mut Vec<i64>, k: usize, v: i64)
    ensures items { cells.new.items ≡ set cells.old.items k v }
    ensures capacity { vec_capacity cells.new ≡ vec_capacity cells.old }
{
    if k < cells.len() {
        cells[k] = v;
    }
}
