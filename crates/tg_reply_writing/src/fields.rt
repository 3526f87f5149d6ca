//! The lines of a head: its status line, its fields, and the line that ends it.
ghost use Rattle.std.specs.Prelude.{◌≡◌, ◌++◌, [], ◌∷◌, IfOk, OnOk};
ghost use Rattle.httparse.specs.Ascii.{crlf_bytes};
ghost use Rattle.tg_reply.specs.Heads.{content_length, content_type, data_fields, field_line, if_chunked, if_closing};
ghost use Rattle.tg_reply.specs.Heads.{if_found, if_method, no_sniffing, phrase_of, text_type};
ghost use Rattle.tg_reply.specs.Laws.{number_of};
ghost use Rattle.tg_reply_writing.specs.Lines.{field_lines, status_line};

use http::StatusCode;
use itoa::Buffer;
use std::alloc::{AllocError, Global};
use tg_bytes::Bytes;
use tg_reply::Status;

/// A head of its status line alone. The error is want of memory.
pub(crate) fn begin(alloc: Global, status: Status) -> Result<Bytes, AllocError>
    ensures { IfOk result (λ head. head ≡ status_line status) }
{
    let code = code_of(status);
    let mut head = Bytes::of(alloc, b"HTTP/1.1 ")?;
    head.push_all(code.as_str().as_bytes())?;
    head.push_all(b" ")?;
    head.push_all(phrase_of(status).as_bytes())?;
    head.push_all(b"\r\n")?;
    Ok(head)
}

/// The code of a status.
fn code_of(status: Status) -> StatusCode
    ensures { result ≡ number_of status }
{
    match status {
        Status::Ok => StatusCode::OK,
        Status::BadRequest => StatusCode::BAD_REQUEST,
        Status::NotFound => StatusCode::NOT_FOUND,
        Status::MethodNotAllowed => StatusCode::METHOD_NOT_ALLOWED,
        Status::NotAcceptable => StatusCode::NOT_ACCEPTABLE,
        Status::FieldsTooLarge => StatusCode::REQUEST_HEADER_FIELDS_TOO_LARGE,
        Status::ServerError => StatusCode::INTERNAL_SERVER_ERROR,
    }
}

/// The phrase of a status.
fn phrase_of(status: Status) -> &'static str
    ensures { result.now ≡ phrase_of status }
{
    code_of(status).canonical_reason().unwrap_or("")
}

/// Adds a field.
pub(crate) fn push_field(head: &mut Bytes, name: &[u8], value: &[u8]) -> Result<(), AllocError>
    ensures { OnOk result (head.new ≡ head.old ++ field_line (name.now, value.now)) }
{
    head.push_all(name)?;
    head.push_all(b": ")?;
    head.push_all(value)?;
    head.push_all(b"\r\n")?;
    Ok(())
}

/// Adds the length of a body.
pub(crate) fn push_length(head: &mut Bytes, size: u64) -> Result<(), AllocError>
    ensures { OnOk result (head.new ≡ head.old ++ field_line (content_length size)) }
{
    push_field(
        head,
        b"Content-Length",
        Buffer::new().format(size).as_bytes(),
    )
}

/// Adds the methods that are served, where the status is that of a method that isn't.
pub(crate) fn push_methods(head: &mut Bytes, status: Status) -> Result<(), AllocError>
    ensures { OnOk result (head.new ≡ head.old ++ field_lines (if_method status)) }
{
    match status {
        Status::MethodNotAllowed => push_field(head, b"Allow", b"GET, HEAD"),
        Status::Ok
        | Status::BadRequest
        | Status::NotFound
        | Status::NotAcceptable
        | Status::FieldsTooLarge
        | Status::ServerError => Ok(()),
    }
}

/// Adds that the body comes in chunks, where the request has a minor version that knows them.
pub(crate) fn push_coding(head: &mut Bytes, minor: u8) -> Result<(), AllocError>
    ensures { OnOk result (head.new ≡ head.old ++ field_lines (if_chunked minor)) }
{
    if minor == 0 {
        return Ok(());
    }
    push_field(head, b"Transfer-Encoding", b"chunked")
}

/// Adds the fields of a reply with blocks up to the path that was asked for: the type, that it is to be kept as a file,
/// that no other type is to be guessed, where the path leads to a terminal that the reply never changes, and the path.
pub(crate) fn push_data_fields(
    head: &mut Bytes,
    found: bool,
    kind: &[u8],
    path: &[u8],
) -> Result<(), AllocError>
    ensures { OnOk result (head.new ≡ head.old ++ field_lines (data_fields found kind.now path.now [])) }
{
    push_field(head, b"Content-Type", kind)?;
    push_field(head, b"Content-Disposition", b"attachment")?;
    push_field(head, b"X-Content-Type-Options", b"nosniff")?;
    push_lifetime(head, found)?;
    push_field(head, b"X-Ipfs-Path", path)
}

/// Adds that the reply never changes, where the path leads to a terminal.
fn push_lifetime(head: &mut Bytes, found: bool) -> Result<(), AllocError>
    ensures { OnOk result (head.new ≡ head.old ++ field_lines (if_found found)) }
{
    if !found {
        return Ok(());
    }
    push_field(
        head,
        b"Cache-Control",
        b"public, max-age=29030400, immutable",
    )
}

/// Adds the fields of a text but for its length.
pub(crate) fn push_text_fields(head: &mut Bytes) -> Result<(), AllocError>
    ensures { OnOk result (head.new ≡ head.old
        ++ field_lines (content_type text_type ∷ no_sniffing ∷ [])) }
{
    push_field(head, b"Content-Type", b"text/plain; charset=utf-8")?;
    push_field(head, b"X-Content-Type-Options", b"nosniff")
}

/// Adds that the connection closes, where it does, and the line that ends the head.
pub(crate) fn end(head: &mut Bytes, closes: bool) -> Result<(), AllocError>
    ensures { OnOk result (head.new ≡ head.old ++ (field_lines (if_closing closes) ++ crlf_bytes)) }
{
    if closes {
        push_field(head, b"Connection", b"close")?;
    }
    head.push_all(b"\r\n")
}
