//! The laws of node texts, each the contract of a function that does nothing.
ghost use Rattle.std.specs.Prelude.{◌≡◌, ℕ, ◌⊎◌, [], List as Items};
ghost use Rattle.tg_dagpb.specs.Node.{NodeText, CanonicalText, DataFirstText};
ghost use Rattle.tg_dagpb.specs.Cursor.{IsBetween};
ghost use Rattle.tg_dagpb.specs.declared.Node.{Node};

pub use crate::computed::computes;

/// A text is of one node, and a node has one canonical text and at most one other: that with the data before all links.
pub fn one_text()
    ensures one_node { (a b : Node) (text : Items ℕ) → NodeText a text → NodeText b text → a ≡ b }
    ensures canonical { (node : Node) (s t : Items ℕ) → CanonicalText node s → CanonicalText node t → s ≡ t }
    ensures other { (node : Node) (s t : Items ℕ) → DataFirstText node s → DataFirstText node t → s ≡ t }
    // Links never stand on both sides of the data.
    ensures orders { (node : Node) (text : Items ℕ) → NodeText node text
        → CanonicalText node text ⊎ DataFirstText node text }
    // A cursor over the links begins at the front.
    ensures start { (node : Node) (text : Items ℕ) → NodeText node text → IsBetween text 0 [] node.links }
{
    tg_pbtable::laws::table_laws();
}
