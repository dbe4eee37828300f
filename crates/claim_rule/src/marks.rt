// Marks of the rows whose standing changed.
use std::alloc::{AllocError, Global};
use std::sync::atomic::{AtomicU64, Ordering};

/// How many rows have their marks in one word.
pub(crate) const BLOCK_ROWS: u32 = 64;

/// A mark for each row, and one for each block of rows in which a row is marked. Marks are hints for whoever writes
/// down what changed: no contract says anything of them.
#[derive(Drop)]
pub(crate) struct Marks {
    words: Vec<AtomicU64>,
    blocks: Vec<AtomicU64>,
}

impl Marks {
    /// A mark for each of these rows, of which none is set.
    pub(crate) fn new(alloc: Global, rows: u32) -> Result<Marks, AllocError> {
        Ok(Marks {
            words: cleared(alloc, rows.div_ceil(BLOCK_ROWS))?,
            blocks: cleared(alloc, rows.div_ceil(BLOCK_ROWS * BLOCK_ROWS))?,
        })
    }

    /// Sets the mark of a row; and that of its block, where the row is the first that is marked there.
    pub(crate) fn set(&self, row: u32) {
        if set_bit(&self.words, row) == 0 {
            set_bit(&self.blocks, row / BLOCK_ROWS);
        }
    }

    /// Clears the marks of 64 blocks, and answers which were set. The first block has the lowest bit.
    pub(crate) fn take_blocks(&self, group: u32) -> u64 {
        take_word(&self.blocks, group)
    }

    /// Clears the marks of a block of rows, and answers which were set. The first row of the block has the lowest bit.
    pub(crate) fn take(&self, block: u32) -> u64 {
        take_word(&self.words, block)
    }
}

// As many words, of which no bit is set.
fn cleared(alloc: Global, count: u32) -> Result<Vec<AtomicU64>, AllocError> {
    let mut words = Vec::new(alloc);
    for _word in 0..count {
        words.push(AtomicU64::new(0))?;
    }
    Ok(words)
}

// Sets a bit, and gives what its word was before; a number whose lowest bit is set, where there is no such word.
fn set_bit(words: &Vec<AtomicU64>, at: u32) -> u64 {
    match words.get((at / BLOCK_ROWS) as usize) {
        Some(word) => word.fetch_or(1 << (at % BLOCK_ROWS), Ordering::SeqCst),
        None => 1,
    }
}

// Clears a word, and gives what it was. Most have no bit set: such a word is only read, since to write it would take
// its line from other processors.
fn take_word(words: &Vec<AtomicU64>, at: u32) -> u64 {
    match words.get(at as usize) {
        Some(word) if word.load(Ordering::SeqCst) != 0 => word.swap(0, Ordering::SeqCst),
        _ => 0,
    }
}
