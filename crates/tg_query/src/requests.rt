//! The request that a client prints for a query.
ghost use Rattle.std.specs.Prelude.{◌≡◌, ◌++◌, ◌∷◌, IfOk, OnOk, codes, decimal};
ghost use Rattle.tg_cid.specs.Computed.{cid_text};
ghost use Rattle.tg_model.specs.Queries.{IsSpan};
ghost use Rattle.tg_query.specs.Requests.{IsAddr, accept_text, car_params, from_text};
ghost use Rattle.tg_query.specs.Requests.{params_text, path_text, request_text, span_param, span_text, target_text};
ghost use Rattle.tg_query.specs.Requests.{to_text};
ghost use Rattle.tg_query.specs.Targets.{scope_word};

use crate::types::{car_type, raw_type};
use itoa::Buffer;
use std::alloc::{AllocError, Global};
use tg_bytes::Bytes;
use tg_cid::Cid;
use tg_escape::push_escaped;
use tg_model::{Form, Query, Scope, Span, SpanFrom};

/// The request for a query to a gateway at `addr`, which has the form HOST:PORT. The root stands as a CIDv1. The error
/// is want of memory.
///
/// RFC 9112, section 3; Trustless Gateway specification.
pub fn print_request(alloc: Global, query: &Query, addr: &str) -> Result<Bytes, AllocError>
    requires { IsAddr addr.now }
    ensures { IfOk result (λ text. text ≡ request_text query.now addr.now) }
{
    let mut text = Bytes::new(alloc);
    text.push_all(b"GET ")?;
    push_target(&mut text, alloc, query)?;
    text.push_all(b" HTTP/1.1\r\nHost: ")?;
    text.push_all(addr.as_bytes())?;
    text.push_all(b"\r\nAccept: ")?;
    push_accept(&mut text, query)?;
    text.push_all(b"\r\nConnection: close\r\n\r\n")?;
    Ok(text)
}

/// Adds the target of a query.
fn push_target(text: &mut Bytes, alloc: Global, query: &Query) -> Result<(), AllocError>
    ensures { OnOk result (text.new ≡ text.old ++ target_text query.now) }
{
    push_asked_path(text, alloc, query)?;
    text.push_all(b"?")?;
    push_params(text, query)?;
    Ok(())
}

/// Adds `/ipfs/`, the text of the query's root as a CIDv1, and each segment of its path, escaped, behind a slash. The
/// error is want of memory.
///
/// Path Gateway specification; RFC 3986, section 2.1.
pub fn push_asked_path(text: &mut Bytes, alloc: Global, query: &Query) -> Result<(), AllocError>
    ensures { OnOk result (text.new ≡ text.old ++ (codes "/ipfs/" ++ (cid_text query.now.root
        ++ path_text query.now.path))) }
{
    text.push_all(b"/ipfs/")?;
    push_root(text, alloc, query.root())?;
    push_path(text, alloc, query.path().as_slice())?;
    Ok(())
}

/// Adds the text of a root.
fn push_root(text: &mut Bytes, alloc: Global, root: Cid) -> Result<(), AllocError>
    ensures { OnOk result (text.new ≡ text.old ++ cid_text root) }
{
    tg_cid::laws::computes();
    tg_cid::laws::one_spelling();
    let shown = root.to_text(alloc)?;
    text.push_all(shown.as_slice())?;
    Ok(())
}

/// Adds the segments of a path, each behind a slash.
fn push_path(text: &mut Bytes, alloc: Global, path: &[Bytes]) -> Result<(), AllocError>
    ensures { OnOk result (text.new ≡ text.old ++ path_text path.now) }
{
    for name in path {
        text.push_all(b"/")?;
        push_escaped(text, alloc, name.as_slice())?;
    }
    Ok(())
}

/// Adds the query of the target.
fn push_params(text: &mut Bytes, query: &Query) -> Result<(), AllocError>
    ensures { OnOk result (text.new ≡ text.old ++ params_text query.now.form query.now) }
{
    match query.form() {
        Form::Raw => text.push_all(b"format=raw"),
        Form::Car => push_car_params(text, query.scope(), query.span()),
    }
}

/// Adds the query of a target for a CAR.
fn push_car_params(text: &mut Bytes, scope: Scope, span: Option<Span>) -> Result<(), AllocError>
    ensures { OnOk result (text.new ≡ text.old ++ car_params scope span) }
{
    text.push_all(b"format=car&dag-scope=")?;
    text.push_all(scope_word(scope))?;
    push_span_param(text, span)?;
    Ok(())
}

/// The word of a scope.
fn scope_word(scope: Scope) -> &'static [u8]
    ensures { result.now ≡ scope_word scope }
{
    match scope {
        Scope::Block => b"block",
        Scope::Entity => b"entity",
        Scope::All => b"all",
    }
}

/// Adds the parameter of a range, where one is given.
fn push_span_param(text: &mut Bytes, span: Option<Span>) -> Result<(), AllocError>
    ensures { OnOk result (text.new ≡ text.old ++ span_param span) }
{
    match span {
        Some(span) => {
            text.push_all(b"&entity-bytes=")?;
            push_span(text, span)
        }
        None => Ok(()),
    }
}

/// Adds a range.
fn push_span(text: &mut Bytes, span: Span) -> Result<(), AllocError>
    ensures { OnOk result (text.new ≡ text.old ++ span_text span) }
{
    match span.from() {
        SpanFrom::Start(start) => push_number(text, start)?,
        SpanFrom::Last(count) => {
            text.push_all(b"-")?;
            push_number(text, count)?
        }
    }
    text.push_all(b":")?;
    match span.to() {
        Some(last) => push_number(text, last),
        None => text.push_all(b"*"),
    }
}

/// Adds a number.
fn push_number(text: &mut Bytes, number: u64) -> Result<(), AllocError>
    ensures { OnOk result (text.new ≡ text.old ++ decimal number) }
{
    text.push_all(Buffer::new().format(number).as_bytes())
}

/// Adds the value of `Accept`.
fn push_accept(text: &mut Bytes, query: &Query) -> Result<(), AllocError>
    ensures { OnOk result (text.new ≡ text.old ++ accept_text query.now.form query.now) }
{
    match query.form() {
        Form::Raw => text.push_all(raw_type()),
        Form::Car => text.push_all(car_type(query.dups())),
    }
}
