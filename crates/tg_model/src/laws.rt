//! Laws of reading, each the contract of a function that does nothing.
ghost use Rattle.std.specs.Prelude.{◌≡◌, ◌↔◌, ◌<◌, ◌+◌, ◌*◌, ◌^◌, ◌∷◌, ℕ, List, All, Ok, Err, get_or, length};
ghost use Rattle.std.specs.Bool.{Decides};
ghost use Rattle.tg_cid.specs.Cid.{CidParts};
ghost use Rattle.tg_model.specs.Computed.{is_good_name, read};
ghost use Rattle.tg_model.specs.EntryNames.{IsGoodName};
ghost use Rattle.tg_model.specs.InnerFaults.{IsNoWantOfMemory};
ghost use Rattle.tg_model.specs.Reading.{Reads, big_endian};
ghost use Rattle.tg_model.specs.declared.fault.BlockFault.{BlockFault};
ghost use Rattle.tg_model.specs.declared.kinds.Kind.{Kind};

/// A block has at most one kind under a CID, and of a block of bytes `read` computes it.
///
/// UnixFS specification, Data Format.
pub fn readings()
    ensures one_kind { (cid : CidParts) (block : List ℕ) (a b : Kind) → Reads cid block a → Reads cid block b → a ≡ b }
    ensures computed { (cid : CidParts) (block : List ℕ) (kind : Kind) → All (λ b. b < 256) block
        → (read cid block ≡ Ok kind) ↔ Reads cid block kind }
    // The fault that is computed is never want of memory, nor carries it.
    ensures inner { (cid : CidParts) (block : List ℕ) (fault : BlockFault) → All (λ b. b < 256) block
        → read cid block ≡ Err fault → IsNoWantOfMemory fault }
{
    tg_dagpb::laws::one_text();
    tg_dagpb::laws::computes();
    tg_unixfs::laws::one_data();
    tg_unixfs::laws::computes();
    tg_cid::laws::one_spelling();
    tg_cid::laws::computes();
}

/// The bits of a shard are one number, of which the first byte is the most significant: that byte stands above the
/// number of the others, and the number of so many bytes is below that power of 2.
///
/// UnixFS specification, HAMT Directories.
pub fn big_endians()
    ensures first { (byte : ℕ) (bytes : List ℕ) → big_endian (byte
        ∷ bytes) ≡ byte * 2 ^ (8 * length bytes) + big_endian bytes }
    ensures below { (bytes : List ℕ) → ((k : ℕ) → get_or bytes k 0 < 256) → big_endian bytes < 2 ^ (8 * length bytes) }
{}

/// The test of a name says whether it is good for an entry.
///
/// UnixFS specification, Directory; Path Gateway specification, path segments.
pub fn good_names()
    ensures { (name : List ℕ) → Decides (is_good_name name) (IsGoodName name) }
{}
