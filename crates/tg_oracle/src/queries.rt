//! Queries that are made of parts which may be wrong.
ghost use Rattle.std.specs.Prelude.{◌^◌, ◌<◌, ◌≤◌, length, All, IfOk, IfSome};
ghost use Rattle.tg_model.specs.EntryNames.{IsGoodName};

use std::alloc::{AllocError, Global};
use tg_bytes::{Bytes, List};
use tg_cid::Cid;
use tg_model::{Path, Query, Scope, Span, SpanFrom, is_good_name};
use thiserror::Error;

/// Why no query is made.
#[derive(Clone, Copy, Debug, PartialEq, Eq, Error)]
pub enum QueryFault {
    /// The path has more than 128 segments, or one that is no name of an entry.
    #[error("the path is no path of a query")]
    BadPath,
    /// A number of the range is 2^63 or more, or the range begins behind its end.
    #[error("the range is none")]
    BadRange,
    /// No memory was found.
    #[error("out of memory")]
    OutOfMemory,
}

impl From<AllocError> for QueryFault {
    fn from(_fault: AllocError) -> QueryFault {
        QueryFault::OutOfMemory
    }
}

/// The query with repeats for a CAR of what is below a path.
///
/// Errors: `BadPath` where the path has more than 128 segments or one that is no name of an entry; `OutOfMemory`.
pub fn scoped_query(
    alloc: Global,
    root: Cid,
    path: &[&str],
    scope: Scope,
) -> Result<Query, QueryFault> {
    let path = path_of(alloc, path)?;
    Ok(Query::car(root, path, scope, None, true))
}

/// The query with repeats for a CAR of a range of the file at a path.
///
/// Errors: `BadPath`; `BadRange` where a number of the range is 2^63 or more or an offset is above the last byte;
/// `OutOfMemory`.
pub fn ranged_query(
    alloc: Global,
    root: Cid,
    path: &[&str],
    from: SpanFrom,
    to: Option<u64>,
) -> Result<Query, QueryFault> {
    let path = path_of(alloc, path)?;
    let span = span_of(from, to)?;
    Ok(Query::car(root, path, Scope::Entity, Some(span), true))
}

/// The range of a file's bytes.
///
/// Errors: `BadRange` where a number of it is 2^63 or more or an offset is above the last byte.
pub fn span_of(from: SpanFrom, to: Option<u64>) -> Result<Span, QueryFault> {
    if let Some(last) = to
        && last >= 1 << 63
    {
        return Err(QueryFault::BadRange);
    }
    match from {
        SpanFrom::Start(start) => start_span(start, to),
        SpanFrom::Last(count) if count < 1 << 63 => Ok(Span::last(count, to)),
        SpanFrom::Last(_) => Err(QueryFault::BadRange),
    }
}

/// The range from an offset, whose last byte is below 2^63.
fn start_span(start: u64, to: Option<u64>) -> Result<Span, QueryFault>
    requires { IfSome to (λ last. last < 2 ^ 63) }
{
    if start >= 1 << 63 {
        return Err(QueryFault::BadRange);
    }
    match to {
        Some(last) if last < start => Err(QueryFault::BadRange),
        Some(last) => Ok(Span::from_start(start, Some(last))),
        None => Ok(Span::from_start(start, None)),
    }
}

/// The path with these segments.
fn path_of(alloc: Global, names: &[&str]) -> Result<Path, QueryFault>
    ensures few { IfOk result (λ path. length path ≤ 128) }
    ensures good { IfOk result (λ path. All IsGoodName path) }
{
    if names.len() > 128 {
        return Err(QueryFault::BadPath);
    }
    let mut path = List::new(alloc);
    for name in names {
        path.push(good_name(alloc, name.as_bytes())?)?;
    }
    Ok(path)
}

/// A segment of a path.
fn good_name(alloc: Global, name: &[u8]) -> Result<Bytes, QueryFault>
    ensures { IfOk result IsGoodName }
{
    if !is_good_name(name) {
        return Err(QueryFault::BadPath);
    }
    Ok(Bytes::of(alloc, name)?)
}
