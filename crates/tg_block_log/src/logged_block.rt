//! A block that is logged.
ghost use Rattle.tg_cid.specs.Limits.{max_block_len};
ghost use Rattle.std.specs.Prelude.{◌≤◌, ℕ, length};
ghost use Rattle.tg_cid.specs.Names.{Names};
ghost use Rattle.tg_cid.specs.CodeLaws.{Names-prop};

use tg_bytes::Bytes;
use tg_cid::Cid;

/// A block under the version 1 form of a CID that names it.
#[derive(Drop)]
pub struct LoggedBlock {
    pub cid: Cid,
    pub block: Bytes,
    ghost named: { Names cid block } by { Names-prop cid block },
    ghost small: { length block ≤ max_block_len },
}
