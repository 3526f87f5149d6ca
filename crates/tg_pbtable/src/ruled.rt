//! One field of a text, with the table's rule for it.
ghost use Rattle.std.specs.Prelude.{◌≡◌, ◌≢◌, ◌≤◌, ℕ, List, [], length, drop, All, IfOk, IfErr, MatchOption};
ghost use Rattle.std.specs.Prelude.{MatchResult};
ghost use Rattle.tg_pbtable.specs.Message.{IsTable};
ghost use Rattle.tg_pbtable.specs.Emitted.{LiesIn};
ghost use Rattle.tg_pbtable.specs.Cursor.{StandsAt, StandsBetween, IsNextField, IsRefused};
ghost use Rattle.tg_pbtable.specs.Reading.{IsRuled, HasNumberAt};
ghost use Rattle.tg_pbtable.specs.declared.table.Field.{Field};
ghost use Rattle.tg_pbtable.specs.declared.table.Order.{Order};
ghost use Rattle.tg_pbtable.specs.declared.fault.PbFault.{PbFault};

use crate::fault::PbFault;
use crate::raw::{ReadFault, raw_field_at};
use crate::table::{Field, Rule};

/// The field of which the key stands at `at`, and the offset of the first byte behind it.
///
/// Protobuf encoding guide. What stands before the field isn't asked. Errors: `Short`, `BadVarint`, `Unknown` and
/// `WrongWire`, the first of them whose cause holds at `at`.
pub fn field_at<const N: usize>(
    rules: &[Rule; N],
    bytes: &[u8],
    at: usize,
) -> Result<(Field, usize), PbFault>
    requires table { IsTable rules.now }
    requires inside { at ≤ length bytes.now }
    ensures found { IfOk result (λ r. StandsAt rules.now bytes.now at r.0 r.1
        × LiesIn bytes.now r.0.value × (r.1 ≤ length bytes.now)) }
    ensures only { (field : Field) (next : ℕ) → StandsAt rules.now bytes.now at field next
        → result ≡ Ok (field, next) }
    // At a place between two fields of a message the next one is found, or none is left.
    ensures between { (order : Order) (behind ahead : List Field)
        → StandsBetween rules.now order bytes.now at behind ahead
        → MatchResult result (λ r. IsNextField rules.now order bytes.now behind ahead r.0 r.1) (λ _. ahead ≡ []) }

    // Each refusal comes only where its cause holds, and where a cause holds it comes.
    ensures cause { IfErr result (λ e. IsRefused rules.now at (drop at bytes.now) e) }
    ensures given { (fault : PbFault) → IsRefused rules.now at (drop at bytes.now) fault
        → result ≡ Err fault }
{
    let (_, field, next) = ruled_field(rules, bytes, at)?;
    Ok((field, next))
}

/// The index of the rule of the field at `at`, the field, and where the next one begins.
#[inline(always)]
pub(crate) fn ruled_field<const N: usize>(
    rules: &[Rule; N],
    bytes: &[u8],
    at: usize,
) -> Result<(usize, Field, usize), PbFault>
    requires { at ≤ length bytes.now }
    ensures { MatchResult result (λ r. IsRuled rules.now at (drop at bytes.now) r.0 r.1 r.2)
        (λ e. IsRefused rules.now at (drop at bytes.now) e) }
{
    let raw = match raw_field_at(bytes, at) {
        Ok(raw) => raw,
        Err(ReadFault::Short) => return Err(PbFault::Short { at: at as u64 }),
        Err(ReadFault::Bad) => return Err(PbFault::BadVarint { at: at as u64 }),
    };
    let Some(index) = rule_of(rules, raw.number) else {
        return Err(PbFault::Unknown {
            at: at as u64,
            number: raw.number,
        });
    };
    let rule = rules[index];
    let Some(found) = raw.value else {
        return Err(PbFault::WrongWire { at: at as u64 });
    };
    if found.wire == rule.wire {
        let field = Field {
            number: rule.number,
            wire: rule.wire,
            value: found.value,
        };
        Ok((index, field, found.next))
    } else {
        Err(PbFault::WrongWire { at: at as u64 })
    }
}

/// The index of the rule of a number.
fn rule_of<const N: usize>(rules: &[Rule; N], number: u64) -> Option<usize>
    ensures { MatchOption result (All (λ rule. rule.number ≢ number) rules.now)
        (λ i. HasNumberAt rules.now i number) }
{
    rules
        .iter()
        .position(|rule| u64::from(rule.number) == number)
}
