//! Paths in targets and words.
ghost use Rattle.std.specs.Prelude.{option_copied};
ghost use Rattle.percent_encoding.specs.Percent.{percent_decode};
ghost use Rattle.tg_query.specs.Answers.{Gives};
ghost use Rattle.tg_query.specs.Paths.{name_of, path_of, path_behind};

use crate::fault::QueryFault;
use percent_encoding::percent_decode;
use std::alloc::Global;
use tg_bytes::{Bytes, List, SLASH};
use tg_model::{Path, is_good_name};

/// How many segments a path has at most.
pub const MAX_SEGMENTS: usize = 128;

/// The path that a text writes: its segments between slashes, each decoded once from percent-encoding, the empty ones
/// dropped. A `%` without two hexadecimal digits stands for itself.
///
/// Path Gateway specification; RFC 3986, section 2.1. Errors: `BadPath` where a segment is no name of an entry (a slash
/// or a zero byte in it, `.` or `..`) or there are more than 128, and `OutOfMemory`.
pub fn parse_path(alloc: Global, text: &[u8]) -> Result<Path, QueryFault>
    ensures { Gives (path_of text.now) result }
{
    let mut path = List::new(alloc);
    let segments = text
        .split(|byte| *byte == SLASH)
        .filter(|part| !part.is_empty());
    for segment in segments {
        if path.as_slice().len() == MAX_SEGMENTS {
            return Err(QueryFault::BadPath);
        }
        path.push(name_of(alloc, segment)?)?;
    }
    Ok(path)
}

/// The path behind a CID: none, or what stands behind a slash.
///
/// Errors: those of `parse_path`.
pub fn parse_behind(alloc: Global, rest: Option<&[u8]>) -> Result<Path, QueryFault>
    ensures { Gives (path_behind (option_copied rest.entry)) result }
{
    match rest {
        Some(text) => parse_path(alloc, text),
        None => Ok(List::new(alloc)),
    }
}

/// The name that a segment is.
fn name_of(alloc: Global, segment: &[u8]) -> Result<Bytes, QueryFault>
    ensures { Gives (name_of segment.now) result }
{
    let mut name = Vec::new(alloc);
    percent_decode(segment).append_to(&mut name)?;
    if !is_good_name(name.as_slice()) {
        return Err(QueryFault::BadPath);
    }
    Ok(Bytes::from(name))
}
