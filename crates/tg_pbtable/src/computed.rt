//! The fields of a text as a function in proofs.
ghost use Rattle.std.specs.Prelude.{◌≡◌, ℕ, ◌<◌, ◌↔◌, List, All, Ok, Err};
ghost use Rattle.tg_pbtable.specs.Message.{Message, IsTable};
ghost use Rattle.tg_pbtable.specs.Faults.{HasCause};
ghost use Rattle.tg_pbtable.specs.Computed.{fields_of};
ghost use Rattle.tg_pbtable.specs.declared.table.Rule.{Rule};
ghost use Rattle.tg_pbtable.specs.declared.table.Order.{Order};
ghost use Rattle.tg_pbtable.specs.declared.table.Field.{Field};
ghost use Rattle.tg_pbtable.specs.declared.fault.PbFault.{PbFault};

/// A text of bytes has just the fields, or just the fault, that `fields_of` computes.
pub fn computes()
    ensures fields { (rules : List Rule) (order : Order) (text : List ℕ) (fields : List Field) → IsTable rules
        → All (λ b. b < 256) text → (fields_of rules order text ≡ Ok fields) ↔ Message rules order text fields }
    ensures fault { (rules : List Rule) (order : Order) (text : List ℕ) (fault : PbFault) → IsTable rules
        → All (λ b. b < 256) text → (fields_of rules order text ≡ Err fault) ↔ HasCause rules order text fault }
{}
