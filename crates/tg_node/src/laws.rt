//! The law of node texts, the contract of a function that does nothing.
ghost use Rattle.std.specs.Prelude.{◌≡◌, ℕ, List};
ghost use Rattle.tg_cid.specs.Cid.{CidParts};
ghost use Rattle.tg_node.specs.NodeTexts.{IsNodeTextOf};
/// A block of a CID has one text.
pub fn one_node_text()
    ensures { (cid : CidParts) (block a b : List ℕ) → IsNodeTextOf cid block a → IsNodeTextOf cid block b → a ≡ b }
{
    tg_dagpb::laws::one_text();
    tg_unixfs::laws::one_data();
    tg_cid::laws::one_spelling();
}
