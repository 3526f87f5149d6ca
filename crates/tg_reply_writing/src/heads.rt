//! The heads of replies, and the replies of refusals.
ghost use Rattle.std.specs.Prelude.{◌≡◌, ◌++◌, [], IfOk, if◌then◌else◌};
ghost use Rattle.tg_reply.specs.Heads.{asked_path, car_head, car_status, raw_head, refusal_head, text_of};

use crate::fields::{
    begin, end, push_coding, push_data_fields, push_length, push_methods, push_text_fields,
};
use crate::refusals::{status_of, text_of};
use std::alloc::{AllocError, Global};
use tg_bytes::Bytes;
use tg_model::Query;
use tg_query::{car_type, push_asked_path, raw_type};
use tg_reply::{Refusal, Status};

/// The reply of a refusal: its head, which says whether the connection closes, and behind it the text where the reply
/// has a body. The error is want of memory.
///
/// RFC 9112, sections 4 to 6; Path Gateway and Trustless Gateway specifications, response status codes.
pub fn refusal_reply(
    alloc: Global,
    refusal: Refusal,
    closes: bool,
    has_body: bool,
) -> Result<Bytes, AllocError>
    ensures { IfOk result (λ bytes. bytes ≡ refusal_head refusal closes ++ (if has_body then text_of refusal else [])) }
{
    let mut reply = refusal_head(alloc, refusal, closes)?;
    if has_body {
        reply.push_all(text_of(refusal))?;
    }
    Ok(reply)
}

/// The head of the reply of a refusal.
fn refusal_head(alloc: Global, refusal: Refusal, closes: bool) -> Result<Bytes, AllocError>
    ensures { IfOk result (λ head. head ≡ refusal_head refusal closes) }
{
    let status = status_of(refusal);
    let mut head = begin(alloc, status)?;
    push_text_fields(&mut head)?;
    push_methods(&mut head, status)?;
    push_length(&mut head, text_of(refusal).len() as u64)?;
    end(&mut head, closes)?;
    Ok(head)
}

/// The head before a raw block of `size` bytes to a query, which says whether the connection closes. The error is want
/// of memory.
///
/// RFC 9112, sections 4 to 6; Trustless Gateway specification, response headers.
pub fn raw_head(alloc: Global, query: &Query, size: u64, closes: bool) -> Result<Bytes, AllocError>
    ensures { IfOk result (λ bytes. bytes ≡ raw_head query.now size closes) }
{
    let path = asked_path(alloc, query)?;
    let mut head = begin(alloc, Status::Ok)?;
    push_data_fields(&mut head, true, raw_type(), path.as_slice())?;
    push_length(&mut head, size)?;
    end(&mut head, closes)?;
    Ok(head)
}

/// The head before a CAR to a query in a request of this minor version: status 200 where the path leads to a terminal,
/// and 404 where it leads nowhere. It says whether the connection closes. The error is want of memory.
///
/// RFC 9112, sections 4 to 6; Trustless Gateway specification, response headers and CAR responses; that a CAR comes with
/// status 404 is this project's own.
pub fn car_head(
    alloc: Global,
    found: bool,
    query: &Query,
    minor: u8,
    closes: bool,
) -> Result<Bytes, AllocError>
    ensures { IfOk result (λ bytes. bytes ≡ car_head found query.now minor closes) }
{
    let path = asked_path(alloc, query)?;
    let mut head = begin(alloc, car_status(found))?;
    push_data_fields(&mut head, found, car_type(query.dups()), path.as_slice())?;
    push_coding(&mut head, minor)?;
    end(&mut head, closes)?;
    Ok(head)
}

/// The status of a reply with a CAR.
fn car_status(found: bool) -> Status
    ensures { result ≡ car_status found }
{
    if found { Status::Ok } else { Status::NotFound }
}

/// What a query asks for as a path: its root and the segments behind it.
fn asked_path(alloc: Global, query: &Query) -> Result<Bytes, AllocError>
    ensures { IfOk result (λ path. path ≡ asked_path query.now) }
{
    let mut path = Bytes::new(alloc);
    push_asked_path(&mut path, alloc, query)?;
    Ok(path)
}
