//! Running a call with each amount of memory, inside a test that is a process of its own.
ghost use Rattle.std.specs.Prelude.{◌≡◌, ◌+◌, IfOk, IsTrue, IsFalse};

use std::alloc::{AllocError, Global};
use std::marker::Model;

/// Amounts of memory, each greater than the last, and all the memory that is left beside them.
///
/// The blocks are asked for and never written, so that they take address space alone.
#[derive(Drop)]
pub struct Amounts {
    steps: Vec<Vec<u8>>,
    hoard: Vec<Vec<u8>>,
}

impl Model for Amounts {
    ghost use Rattle.std.specs.Prelude.{ℕ, length};

    ghost Value = { ℕ };

    ghost view = { λ a. length a.steps.items };
}

/// How many blocks the hoard has room for.
const ROOM: usize = 100_000;

/// The size of the first block that is asked for.
const LARGEST: usize = 1 << 46;

/// How many pages of stack a run may take.
const DEPTH: u8 = 255;

/// Writes to so many pages of stack: once all addresses are taken, it cannot grow. The answer is
/// read from there, so that no compiler leaves the writing out.
fn grow_stack(depth: u8) -> u8 {
    if depth == 0 {
        return 0;
    }
    let page = [depth; 4_096];
    let deeper = grow_stack(depth - 1);
    page.get(deeper as usize).copied().unwrap_or(deeper)
}

impl Amounts {
    /// So many amounts, the first of `step` bytes and each greater by `step` than the one before.
    pub fn new(alloc: Global, count: u32, step: u32) -> Result<Amounts, AllocError>
        ensures { IfOk result (λ a. a ≡ count) }
    {
        let mut steps = Vec::with_capacity(alloc, count as usize)?;
        for k in 0..count {
            let size = (count - k) as usize * step as usize;
            steps.push(Vec::with_capacity(alloc, size)?)?;
        }
        let hoard = Vec::with_capacity(alloc, ROOM)?;
        Ok(Amounts { steps, hoard })
    }

    /// Leaves no more than the next amount of memory, and answers whether there was a next one.
    pub fn advance(&mut self, alloc: Global) -> bool
        ensures next { IsTrue result → self.old ≡ self.new + 1 }
        ensures none { IsFalse result → (self.old ≡ 0) }
    {
        let Some(block) = self.steps.pop() else {
            return false;
        };
        self.take_all(alloc);
        drop(block);
        true
    }

    /// Takes blocks, the largest first, until not even 16 bytes are had.
    fn take_all(&mut self, alloc: Global)
        ensures { self.new ≡ self.old }
    {
        let mut size = LARGEST - grow_stack(DEPTH) as usize;
        for _ in 0..ROOM {
            if self.hoard.len() >= ROOM {
                return;
            }
            match Vec::with_capacity(alloc, size) {
                Ok(block) => {
                    if self.hoard.push(block).is_err() {
                        return;
                    }
                }
                Err(_) if size <= 16 => return,
                Err(_) => size /= 2,
            }
        }
    }
}
