//! The files of a folder, drawn from a seed.
ghost use Rattle.std.specs.Prelude.{◌≡◌, IfOk};
ghost use Rattle.tg_draws.specs.Draws.{AreFilesDrawn, IsDrawn};

use crate::generator::Generator;
use std::alloc::{AllocError, Global};
use std::marker::Model;
use tg_bytes::{Bytes, List};

/// How many bytes the file `big` has.
const BIG_LEN: usize = 10_485_760;

/// A file of the folder `many` has fewer bytes than this.
const MOST_LEN: u32 = 65_536;

/// The files that are drawn from a seed: `big`, and those of the folder `many` in order.
#[derive(Drop)]
pub struct Drawn {
    /// The bytes of `big`.
    pub big: Bytes,
    /// The bytes of each file of `many`.
    pub many: List<Bytes>,
}

/// The files that are drawn from a seed, so many of them in the folder `many`: `big` has 10,485,760 bytes; of each
/// other file its length is drawn first, modulo 65,536, and then its bytes. The error is want of memory.
pub fn draw(alloc: Global, seed: u64, files: u32) -> Result<Drawn, AllocError>
    ensures { IfOk result (λ drawn. IsDrawn seed files drawn) }
{
    let mut generator = Generator { state: seed };
    let big = generator.bytes(alloc, BIG_LEN)?;
    let many = draw_files(alloc, &mut generator, files)?;
    Ok(Drawn { big, many })
}

/// So many files, each its length and then its bytes. The error is want of memory.
fn draw_files(
    alloc: Global,
    generator: &mut Generator,
    files: u32,
) -> Result<List<Bytes>, AllocError>
    ensures { IfOk result (λ many. AreFilesDrawn generator.old.state files many generator.new.state) }
{
    let mut many = List::new(alloc);
    for _ in 0..files {
        let size = generator.next() % MOST_LEN;
        many.push(generator.bytes(alloc, size as usize)?)?;
    }
    Ok(many)
}
