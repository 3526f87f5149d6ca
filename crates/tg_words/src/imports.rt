//! The command `import`.

ghost use Rattle.std.specs.Prelude.{◌∷◌, map, string_bytes, codes};
ghost use Rattle.tg_cid.specs.Limits.{max_block_len};
ghost use Rattle.tg_words.specs.Operands.{Answers, Exact, ImportGiven, NumberGiven, givens, value_at};

use crate::operands::{
    GivenOption, OptionNames, Setting, named, number_given, two_operands, value_of,
};
use crate::{Command, WordsFault};
use std::alloc::Global;
use std::marker::Model;
use tg_cid::MAX_BLOCK_LEN;

/// What is asked of an import: the paths of the folder and of the pack, and the numbers of the layout.
#[derive(Drop)]
pub struct Import {
    /// The path of the folder, which isn't empty.
    pub folder: String,
    /// The path of the pack, which isn't empty.
    pub pack: String,
    /// How many bytes a chunk of a file has at most: 1 to 2,097,152.
    pub chunk: u32,
    /// How many links a node of a file has at most: 2 to 4,096.
    pub width: u32,
    /// The weight above which a directory is sharded: 0 to 1,048,576.
    pub shard: u64,
}

impl Model for Import {
    ghost use Rattle.std.specs.Prelude.{string_bytes};
    ghost use Rattle.tg_words.specs.ImportLines.{ImportParts};

    ghost Value = { ImportParts };

    ghost view = { λ i. record {
      folder = string_bytes i.folder;
      pack = string_bytes i.pack;
      chunk = i.chunk;
      width = i.width;
      shard = i.shard;
    } };
}

const CHUNK: Setting = Setting {
    low: 1,
    high: MAX_BLOCK_LEN as u32,
    default: 1_048_576,
};

const WIDTH: Setting = Setting {
    low: 2,
    high: 4_096,
    default: 1_024,
};

const SHARD: Setting = Setting {
    low: 0,
    high: 1_048_576,
    default: 262_144,
};

/// `import FOLDER PACK [--chunk N] [--width N] [--shard N]`.
pub fn import_of(alloc: Global, words: &[String]) -> Result<Command, WordsFault>
    ensures { Answers (codes "import" ∷ map string_bytes words.now) result }
{
    let names = OptionNames {
        valued: &["chunk", "width", "shard"],
        flags: &[],
    };
    let (folder, pack, options) = two_operands(alloc, words, names)?;
    let import = import_with(alloc, folder, pack, options.as_slice())?;
    Ok(Command::Import(import))
}

/// The import of this folder into this pack with these options.
fn import_with(
    alloc: Global,
    folder: &str,
    pack: &str,
    options: &[GivenOption],
) -> Result<Import, WordsFault>
    ensures { Exact (ImportGiven folder.now pack.now (givens options.now)) result }
{
    let folder = named(alloc, folder)?;
    let pack = named(alloc, pack)?;
    let (chunk, width, shard) = numbers_given(options)?;
    Ok(Import {
        folder,
        pack,
        chunk,
        width,
        shard: u64::from(shard),
    })
}

/// The numbers of the layout that these options give: chunk, width and shard.
fn numbers_given(options: &[GivenOption]) -> Result<(u32, u32, u32), WordsFault>
    ensures { Exact (λ numbers.
        NumberGiven (value_at (givens options.now) (codes "chunk")) 1 max_block_len 1048576 numbers.0
        × NumberGiven (value_at (givens options.now) (codes "width")) 2 4096 1024 numbers.1
        × NumberGiven (value_at (givens options.now) (codes "shard")) 0 1048576 262144 numbers.2) result }
{
    let chunk = number_given(value_of(options, "chunk"), CHUNK)?;
    let width = number_given(value_of(options, "width"), WIDTH)?;
    let shard = number_given(value_of(options, "shard"), SHARD)?;
    Ok((chunk, width, shard))
}
