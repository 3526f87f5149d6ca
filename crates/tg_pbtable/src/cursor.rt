//! The fields of a text one after another.
ghost use Rattle.std.specs.Prelude.{◌≡◌, ◌<◌, ◌≤◌, ◌↔◌, ◌++◌, ◌∷◌, ℕ, List, [], length, take, Contains, IsTrue};
ghost use Rattle.std.specs.Prelude.{MatchBool, MatchOption, MatchResult, min, ⊤};
ghost use Rattle.tg_pbtable.specs.Message.{Message, IsTable, Spelled, IsInOrder};
ghost use Rattle.tg_pbtable.specs.Faults.{HasCause, BreaksOrder};
ghost use Rattle.tg_pbtable.specs.Emitted.{LiesIn};
ghost use Rattle.tg_pbtable.specs.Cursor.{HasRead, IsLast};
ghost use Rattle.tg_pbtable.specs.Reading.{IsLowest};
ghost use Rattle.tg_pbtable.specs.declared.table.Rule.{Rule};
ghost use Rattle.tg_pbtable.specs.declared.table.Order.{Order};
ghost use Rattle.tg_pbtable.specs.declared.table.Field.{Field};

use crate::fault::PbFault;
use crate::ruled::ruled_field;
use crate::table::{Field, Order, Rule, Times};

/// A place between two fields of a text, with what has to be known of the fields before it. It takes no memory.
#[derive(Clone, Copy)]
pub struct FieldCursor<const N: usize> {
    at: usize,
    seen: [bool; N],
    last: Option<u32>,
}

impl<const N: usize> FieldCursor<N> {
    /// The place before the first field.
    pub fn new() -> FieldCursor<N>
        ensures start { result.at ≡ 0 }
        ensures read { (rules : List Rule) (order : Order) (text : List ℕ) → length rules ≡ N
            → HasRead rules order text [] result }
    {
        FieldCursor {
            at: 0,
            seen: [false; N],
            last: None,
        }
    }

    /// The offset of the next field's first byte.
    pub fn at(&self) -> usize
        ensures place { result ≡ self.now.at }
        // The text up to there is the spellings of the fields that were read.
        ensures front { (rules : List Rule) (order : Order) (text : List ℕ) (fields : List Field)
            → HasRead rules order text fields self.now
            → Spelled 0 fields (take result text) × (result ≤ length text) }
    {
        self.at
    }

    /// The next field of the text, or none at its end. The cursor stays where it was on an error and at the end.
    ///
    /// Protobuf encoding guide; the order of fields and the rule on doubled ones are this project's own. Errors: the
    /// first of `PbFault`'s causes at this field, `Missing` at the end, and never want of memory.
    pub fn next(
        &mut self,
        rules: &[Rule; N],
        order: Order,
        bytes: &[u8],
    ) -> Result<Option<Field>, PbFault>
        requires table { IsTable rules.now }
        requires inside { self.old.at ≤ length bytes.now }
        ensures inside { self.new.at ≤ length bytes.now }
        // For the fields read so far: the next one, or that the text is a message with them.
        ensures next { (fields : List Field) → HasRead rules.now order bytes.now fields self.old
            → MatchResult result
            (λ next. MatchOption next (Message rules.now order bytes.now fields)
            (λ field. HasRead rules.now order bytes.now (fields ++ field ∷ []) self.new
            × LiesIn bytes.now field.value × (self.old.at < self.new.at)))
            (λ e. HasCause rules.now order bytes.now e) }
        ensures kept { MatchResult result (λ next. MatchOption next (self.new ≡ self.old) (λ _. ⊤))
            (λ _. self.new ≡ self.old) }
    {
        if self.at >= bytes.len() {
            return match missing(rules, &self.seen) {
                Some(number) => Err(PbFault::Missing {
                    number: u64::from(number),
                }),
                None => Ok(None),
            };
        }
        let (index, field, next) = ruled_field(rules, bytes, self.at)?;
        let number = field.number;
        if is_out_of_order(order, self.last, self.seen[index], number) {
            return Err(PbFault::OutOfOrder { at: self.at as u64 });
        }
        if self.last == Some(number) && rules[index].times != Times::Many {
            return Err(PbFault::Doubled { at: self.at as u64 });
        }
        self.at = next;
        self.seen[index] = true;
        self.last = Some(number);
        Ok(Some(field))
    }
}

/// Whether a field of the number may not stand behind fields of which the last has the number `last`.
fn is_out_of_order(order: Order, last: Option<u32>, seen: bool, number: u32) -> bool
    ensures { (numbers : List ℕ) → IsLast numbers last → (IsTrue seen ↔ Contains numbers number)
        → IsInOrder order numbers
        → MatchBool result (BreaksOrder order numbers number) (IsInOrder order (numbers ++ number ∷ [])) }
{
    match order {
        Order::Ascending => match last {
            Some(last) => number < last,
            None => false,
        },
        Order::Runs => seen && last != Some(number),
    }
}

/// The lowest number of a rule that asks for a field and has none.
fn missing<const N: usize>(rules: &[Rule; N], seen: &[bool; N]) -> Option<u32>
    ensures { IsLowest rules.now seen.now (length rules.now) result }
{
    let mut lowest = None;
    for (i, rule) in rules.iter().enumerate() {
        if rule.times == Times::One && !seen[i] {
            lowest = Some(lower(lowest, rule.number));
        }
    }
    lowest
}

/// The lower of two numbers, of which the first may be none.
fn lower(low: Option<u32>, number: u32) -> u32
    ensures { MatchOption low (result ≡ number) (λ n. result ≡ min n number) }
{
    low.map_or(number, |low| low.min(number))
}
