//! Media types of answers.
ghost use Rattle.std.specs.Prelude.{◌≡◌, ◌↔◌, IsTrue};
ghost use Rattle.tg_query.specs.Accepts.{raw_type};
ghost use Rattle.tg_query.specs.Requests.{car_with_dups, dups_word};
ghost use Rattle.tg_query.specs.Types.{IsCarType, IsTypeOf};

use crate::accepts::{form_of_range, is_car, param_of};
use tg_model::{Form, Query};

/// Whether a media type, as the value of `Content-Type`, is that of a query's answer: the type of a raw block, or that
/// of a CAR of version 1, in order `dfs`, with the dups that the query asks for. Types and names of parameters are
/// compared without regard to ASCII case, values are taken as they stand. An absent parameter counts as its default,
/// which is `1`, `dfs` or `y`; unknown parameters are passed over, and of a parameter that stands twice the first
/// counts. It takes no memory.
///
/// RFC 9110, section 8.3; Trustless Gateway specification, response types and CAR parameters.
pub fn is_type_of(query: &Query, kind: &[u8]) -> bool
    ensures { IsTrue result ↔ IsTypeOf query.now kind.now }
{
    match query.form() {
        Form::Raw => matches!(form_of_range(kind), Some(Form::Raw)),
        Form::Car => is_car_type(kind, query.dups()),
    }
}

/// Whether a media type is that of a CAR of version 1, in order `dfs`, with repeats or without.
fn is_car_type(kind: &[u8], repeats: bool) -> bool
    ensures { IsTrue result ↔ IsCarType repeats kind.now }
{
    is_car(kind)
        && param_of(kind, b"version", b"1") == b"1".as_slice()
        && param_of(kind, b"order", b"dfs") == b"dfs".as_slice()
        && param_of(kind, b"dups", b"y") == dups_word(repeats)
}

/// The media type of a raw block.
///
/// Trustless Gateway specification, response types.
pub fn raw_type() -> &'static [u8]
    ensures { result.now ≡ raw_type }
{
    b"application/vnd.ipld.raw"
}

/// The media type of a CAR of version 1, in order `dfs`, with repeats or without.
///
/// Trustless Gateway specification, response types and CAR parameters.
pub fn car_type(dups: bool) -> &'static [u8]
    ensures { result.now ≡ car_with_dups dups }
{
    if dups {
        b"application/vnd.ipld.car; version=1; order=dfs; dups=y"
    } else {
        b"application/vnd.ipld.car; version=1; order=dfs; dups=n"
    }
}

/// The word for repeats.
fn dups_word(dups: bool) -> &'static [u8]
    ensures { result.now ≡ dups_word dups }
{
    if dups { b"y" } else { b"n" }
}
