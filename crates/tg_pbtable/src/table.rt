//! Tables of fields, and the fields of a text.
ghost use Rattle.std.specs.Prelude.{◌≡◌};
ghost use Rattle.tg_pbtable.specs.Wires.{wire_code};
ghost use Rattle.tg_pbtable.specs.Reading.{IsWireOf};
ghost use Rattle.tg_pbtable.specs.Place.{IsInside, bytes_of};

use std::marker::Model;

/// How a value is spelled (protobuf encoding guide, wire types).
#[derive(Clone, Copy, PartialEq, Eq)]
pub enum Wire {
    /// Wire type 0: a varint below 2 ^ 64.
    Varint,
    /// Wire type 2: a length and that many bytes.
    Bytes,
    /// Wire type 5: a number below 2 ^ 32 in four bytes, the least significant one first.
    Fixed32,
}

impl Wire {
    /// The wire type's number.
    pub(crate) fn code(self) -> u64
        ensures { result ≡ wire_code self }
    {
        match self {
            Wire::Varint => 0,
            Wire::Bytes => 2,
            Wire::Fixed32 => 5,
        }
    }

    /// The wire type of a number, or none where it is none that a table may use.
    pub(crate) fn with_code(code: u64) -> Option<Wire>
        ensures { IsWireOf code result }
    {
        if code == Wire::Varint.code() {
            Some(Wire::Varint)
        } else if code == Wire::Bytes.code() {
            Some(Wire::Bytes)
        } else if code == Wire::Fixed32.code() {
            Some(Wire::Fixed32)
        } else {
            None
        }
    }
}

/// How often a number may stand.
#[derive(Clone, Copy, PartialEq, Eq)]
pub enum Times {
    /// Once.
    One,
    /// Once or not at all.
    Optional,
    /// Any number of times.
    Many,
}

/// A row of a table: the number of a field, from 1 to 2 ^ 29 - 1, its wire type and how often it may stand.
#[derive(Clone, Copy, PartialEq, Eq)]
pub struct Rule {
    pub number: u32,
    pub wire: Wire,
    pub times: Times,
}

/// In which order the fields of a message stand.
#[derive(Clone, Copy, PartialEq, Eq)]
pub enum Order {
    /// The numbers never fall.
    Ascending,
    /// The fields of one number stand together.
    Runs,
}

/// The value of a field: a number, or the place of its bytes in the text, from `start` up to and without `end`.
#[derive(Clone, Copy, PartialEq, Eq)]
pub enum Value {
    Number(u64),
    Place { start: usize, end: usize },
}

/// Where bytes lie in a text: from `start` up to and without `end`.
#[derive(Clone, Copy, PartialEq, Eq)]
pub struct Place {
    pub start: usize,
    pub end: usize,
}

impl Place {
    /// The bytes of a text that lie there.
    pub fn bytes_in(self, text: &[u8]) -> &[u8]
        requires { IsInside text.now self }
        ensures { result.now ≡ bytes_of text.now self }
    {
        &text[self.start..self.end]
    }
}

/// One field of a text: its number, how its value is spelled, and the value.
#[derive(Clone, Copy, PartialEq, Eq)]
pub struct Field {
    pub number: u32,
    pub wire: Wire,
    pub value: Value,
}

/// The fields of a text in order, which contracts see as a list.
#[derive(Drop)]
pub struct Fields {
    fields: Vec<Field>,
}

impl Fields {
    /// These fields in this order.
    pub fn new(fields: Vec<Field>) -> Self
        ensures { result ≡ fields.items }
    {
        Fields { fields }
    }

    /// The fields in order.
    pub fn as_slice(&self) -> &[Field]
        ensures { result.now ≡ self.now }
    {
        self.fields.as_slice()
    }
}

impl Model for Fields {
    ghost use Rattle.std.specs.Prelude.{List};
    ghost use Rattle.tg_pbtable.specs.declared.table.Field.{Field};

    ghost Value = { List Field };

    ghost view = { λ f. f.fields.items };
}
