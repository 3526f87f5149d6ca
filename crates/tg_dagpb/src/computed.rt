//! The node of a text as a function in proofs.
ghost use Rattle.std.specs.Prelude.{◌≡◌, ℕ, ◌<◌, ◌↔◌, List, All, Ok, Err};
ghost use Rattle.tg_pbtable.specs.declared.fault.PbFault.{PbFault};
ghost use Rattle.tg_dagpb.specs.Node.{NodeText};
ghost use Rattle.tg_dagpb.specs.Faults.{HasNodeCause};
ghost use Rattle.tg_dagpb.specs.Computed.{node_of};
ghost use Rattle.tg_dagpb.specs.declared.Node.{Node};

/// A text of bytes has just the node, or just the fault, that `node_of` computes.
pub fn computes()
    ensures node { (text : List ℕ) (node : Node) → All (λ b. b < 256) text
        → (node_of text ≡ Ok node) ↔ NodeText node text }
    ensures fault { (text : List ℕ) (fault : PbFault) → All (λ b. b < 256) text
        → (node_of text ≡ Err fault) ↔ HasNodeCause text fault }
{
    tg_pbtable::laws::table_laws();
}
