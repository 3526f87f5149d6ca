//! All fields of a text.
ghost use Rattle.std.specs.Prelude.{◌≡◌, ◌⊎◌, List, All, IfOk, IfErr, IsErrOf, MatchResult};
ghost use Rattle.tg_pbtable.specs.Message.{Message, IsTable};
ghost use Rattle.tg_pbtable.specs.Faults.{HasCause, HasFields};
ghost use Rattle.tg_pbtable.specs.Emitted.{LiesIn};
ghost use Rattle.tg_pbtable.specs.declared.table.Field.{Field};
ghost use Rattle.tg_pbtable.specs.declared.fault.PbFault.{PbFault};

use crate::cursor::FieldCursor;
use crate::fault::PbFault;
use crate::table::{Field, Fields, Order, Rule};
use std::alloc::Global;

/// The fields of a text in the order of its bytes, where the text is a message under the table.
///
/// Protobuf encoding guide; the order of fields and the rule on doubled ones are this project's own. Errors: the first
/// of `PbFault`'s causes at the first field where one holds, `Missing` at the end, and `OutOfMemory` for want of memory
/// alone.
pub fn scan<const N: usize>(
    alloc: Global,
    rules: &[Rule; N],
    order: Order,
    bytes: &[u8],
) -> Result<Fields, PbFault>
    requires { IsTable rules.now }
    ensures found { IfOk result (λ fields. Message rules.now order bytes.now fields) }
    // Each place lies in the text.
    ensures places { IfOk result (λ fields. All (λ field. LiesIn bytes.now field.value) fields) }
    ensures only { (fields : List Field) → Message rules.now order bytes.now fields
        → MatchResult result (λ found. found ≡ fields) (λ e. e ≡ PbFault.OutOfMemory) }

    // Each refusal comes only where its cause holds, and where a cause holds it comes or memory is wanted.
    ensures cause { IfErr result (λ e. (e ≡ PbFault.OutOfMemory) ⊎ HasCause rules.now order bytes.now e) }
    ensures given { (fault : PbFault) → HasCause rules.now order bytes.now fault
        → (result ≡ Err fault) ⊎ (result ≡ Err PbFault.OutOfMemory) }
    // Memory is wanted for a field alone, so a text that is refused at its first field never wants any.
    ensures memory { IsErrOf result PbFault.OutOfMemory → HasFields rules.now order bytes.now }
{
    let mut fields = Vec::new(alloc);
    let mut cursor = FieldCursor::new();
    while let Some(field) = cursor.next(rules, order, bytes)? {
        fields.push(field)?;
    }
    Ok(Fields::new(fields))
}
