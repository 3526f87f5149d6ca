//! The command `mirror`.

ghost use Rattle.std.specs.Prelude.{◌∷◌, ◌↔◌, IsTrue, map, string_bytes, codes};
ghost use Rattle.tg_words.specs.MirrorLines.{MayRootPack};
ghost use Rattle.tg_words.specs.Operands.{Answers, Exact, MirrorGiven};

use crate::fetches::is_addr;
use crate::operands::{OptionNames, named, three_operands};
use crate::{Command, WordsFault, cid_of_text};
use std::alloc::Global;
use std::marker::Model;
use tg_cid::{Cid, Codec, HashKind};

/// What is asked of a mirror: the address of a gateway, the root of the DAG, and the path of the pack.
#[derive(Drop)]
pub struct Mirror {
    /// The address, of the form HOST:PORT.
    pub addr: String,
    /// The root: a CIDv1 with sha2-256, other than the root of a pack that isn't finished.
    pub root: Cid,
    /// The path of the pack, which isn't empty.
    pub pack: String,
}

impl Model for Mirror {
    ghost use Rattle.std.specs.Prelude.{string_bytes};
    ghost use Rattle.tg_words.specs.MirrorLines.{MirrorParts};

    ghost Value = { MirrorParts };

    ghost view = { λ m. record { addr = string_bytes m.addr; root = m.root; pack = string_bytes m.pack } };
}

/// `mirror ADDR ROOT PACK`.
pub fn mirror_of(alloc: Global, words: &[String]) -> Result<Command, WordsFault>
    ensures { Answers (codes "mirror" ∷ map string_bytes words.now) result }
{
    let names = OptionNames {
        valued: &[],
        flags: &[],
    };
    let (addr, root, pack) = three_operands(alloc, words, names)?;
    let mirror = mirror_with(alloc, addr, root, pack)?;
    Ok(Command::Mirror(mirror))
}

/// What is mirrored from a gateway at this address by the text of a root into this pack.
fn mirror_with(alloc: Global, addr: &str, root: &str, pack: &str) -> Result<Mirror, WordsFault>
    ensures { Exact (MirrorGiven addr.now root.now pack.now) result }
{
    if !is_addr(addr) {
        return Err(WordsFault::Usage);
    }
    let root = cid_of_text(alloc, root)?;
    if !may_root_pack(&root) {
        return Err(WordsFault::Usage);
    }
    let pack = named(alloc, pack)?;
    let addr = String::from_str(alloc, addr)?;
    Ok(Mirror { addr, root, pack })
}

/// Whether a pack may have this root: a CIDv1 with sha2-256 other than the root of a pack that isn't finished, which is raw
/// with 32 zero bytes of digest.
fn may_root_pack(root: &Cid) -> bool
    ensures { IsTrue result ↔ MayRootPack root.now }
{
    root.version() == 1
        && root.hash_kind() == HashKind::Sha256
        && (root.codec() != Codec::Raw || root.digest().iter().any(|byte| *byte != 0))
}
