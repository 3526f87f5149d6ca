//! `Accept` fields of requests.
ghost use Rattle.std.specs.Prelude.{◌≡◌, Ok, IfOk, option_copied};
ghost use Rattle.tg_query.specs.Answers.{Gives};
ghost use Rattle.tg_query.specs.Cuts.{cut_at};
ghost use Rattle.tg_query.specs.Accepts.{accepted_of, choice_of, first_car, first_form, first_param, form_of_range};
ghost use Rattle.tg_query.specs.Accepts.{form_of_type, is_car_form, param_in, param_of, ranges_of};

use crate::cuts::cut_first;
use crate::fault::QueryFault;
use std::alloc::{AllocError, Global};
use tg_bytes::{Bytes, List};
use tg_http::without_spaces;
use tg_model::Form;

/// What the `Accept` fields of a request accept.
///
/// RFC 9110, section 12.5.1; Trustless Gateway specification, response types.
#[derive(Drop)]
pub struct Accepted {
    /// The format of the first known type.
    pub first: Option<Form>,
    /// The parameters of the first CAR type.
    pub car: Option<CarChoice>,
}

/// The parameters of a CAR type, the defaults filled in: version `1`, order `dfs` and dups `y`.
///
/// Trustless Gateway specification, CAR parameters.
#[derive(Drop)]
pub struct CarChoice {
    /// The CAR's version.
    pub version: Bytes,
    /// The order of blocks.
    pub order: Bytes,
    /// Whether repeated blocks are sent again.
    pub dups: Bytes,
}

/// What the values of the `Accept` fields, in order, accept. Types and names of parameters are compared without regard
/// to ASCII case, values are taken as they stand. Unknown types and parameters are passed over, and of a parameter that
/// stands twice the first counts.
///
/// RFC 9110, section 12.5.1; Trustless Gateway specification, response types. The error is want of memory alone.
pub fn parse_accept(alloc: Global, values: &List<Bytes>) -> Result<Accepted, QueryFault>
    ensures { Gives (Ok (accepted_of values.now)) result }
{
    let values = values.as_slice();
    let car = match first_car(values) {
        Some(range) => Some(choice_of(alloc, range)?),
        None => None,
    };
    Ok(Accepted {
        first: first_form(values),
        car,
    })
}

/// The format of the first known type.
fn first_form(values: &[Bytes]) -> Option<Form>
    ensures { result ≡ first_form (ranges_of values.now) }
{
    for value in values {
        if let Some(form) = form_in(value.as_slice()) {
            return Some(form);
        }
    }
    None
}

/// The format of the first known type in the value of a field.
fn form_in(value: &[u8]) -> Option<Form>
    ensures { result ≡ first_form (cut_at 44 value.now) }
{
    for range in value.split(|byte| *byte == b',') {
        if let Some(form) = form_of_range(range) {
            return Some(form);
        }
    }
    None
}

/// The first CAR type with its parameters.
fn first_car(values: &[Bytes]) -> Option<&[u8]>
    ensures { option_copied result ≡ first_car (ranges_of values.now) }
{
    for value in values {
        if let Some(range) = car_in(value.as_slice()) {
            return Some(range);
        }
    }
    None
}

/// The first CAR type in the value of a field, with its parameters.
fn car_in(value: &[u8]) -> Option<&[u8]>
    ensures { option_copied result ≡ first_car (cut_at 44 value.now) }
{
    value
        .split(|byte| *byte == b',')
        .find(|range| is_car(range))
}

/// Whether a media range is of the CAR type.
pub(crate) fn is_car(range: &[u8]) -> bool
    ensures { result ≡ is_car_form (form_of_range range.now) }
{
    matches!(form_of_range(range), Some(Form::Car))
}

/// The format of a media range of a known type.
pub(crate) fn form_of_range(range: &[u8]) -> Option<Form>
    ensures { result ≡ form_of_range range.now }
{
    let (name, _) = cut_first(range, b';');
    form_of_type(without_spaces(name))
}

/// The format of a known type.
fn form_of_type(name: &[u8]) -> Option<Form>
    ensures { result ≡ form_of_type name.now }
{
    if name.eq_ignore_ascii_case(b"application/vnd.ipld.raw") {
        Some(Form::Raw)
    } else if name.eq_ignore_ascii_case(b"application/vnd.ipld.car") {
        Some(Form::Car)
    } else {
        None
    }
}

/// The parameters of a CAR type. The error is want of memory.
fn choice_of(alloc: Global, range: &[u8]) -> Result<CarChoice, AllocError>
    ensures { IfOk result (λ choice. choice ≡ choice_of range.now) }
{
    Ok(CarChoice {
        version: Bytes::of(alloc, param_of(range, b"version", b"1"))?,
        order: Bytes::of(alloc, param_of(range, b"order", b"dfs"))?,
        dups: Bytes::of(alloc, param_of(range, b"dups", b"y"))?,
    })
}

/// The value of the first parameter of this name, or the default.
pub(crate) fn param_of<'a>(range: &'a [u8], name: &[u8], default: &'a [u8]) -> &'a [u8]
    ensures { result.now ≡ param_of range.now name.now default.now }
{
    let (_, params) = cut_first(range, b';');
    match params {
        Some(params) => match first_param(params, name) {
            Some(value) => value,
            None => default,
        },
        None => default,
    }
}

/// The value of the first parameter of this name.
fn first_param<'a>(params: &'a [u8], name: &[u8]) -> Option<&'a [u8]>
    ensures { option_copied result ≡ first_param name.now (cut_at 59 params.now) }
{
    for param in params.split(|byte| *byte == b';') {
        if let Some(value) = value_under(param, name) {
            return Some(value);
        }
    }
    None
}

/// The value of a parameter where it has this name. Without `=` the value is empty.
fn value_under<'a>(param: &'a [u8], name: &[u8]) -> Option<&'a [u8]>
    ensures { option_copied result ≡ param_in name.now param.now }
{
    let (found, value) = cut_first(without_spaces(param), b'=');
    if found.eq_ignore_ascii_case(name) {
        Some(value.unwrap_or(&[]))
    } else {
        None
    }
}
