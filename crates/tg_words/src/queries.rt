//! The query that a word ROOT/PATH and the options `--scope`, `--bytes` and `--dups` ask, for the commands that have
//! them.

ghost use Rattle.std.specs.Prelude.{◌≡◌, ◌≤◌, Bool, length, option_map, All, IfSome, IfNone};
ghost use Rattle.tg_model.specs.EntryNames.{IsGoodName};
ghost use Rattle.tg_model.specs.Queries.{IsSpan};
ghost use Rattle.tg_model.specs.declared.queries.Form.{Form};
ghost use Rattle.tg_model.specs.declared.queries.Scope.{Scope};
ghost use Rattle.tg_query.specs.Spans.{SpanText};
ghost use Rattle.tg_words.specs.Operands.{Exact, QueryBy, QueryGiven, ValueGives, givens};
ghost use Rattle.tg_words.specs.QueryWords.{DupsText, ScopeText, scope_for};

use crate::WordsFault;
use crate::operands::{GivenOption, OptionNames, value_of};
use std::alloc::Global;
use tg_cid::Cid;
use tg_model::{Path, Query, Scope, Span};
use tg_query::{parse_span, parse_word};

/// The options that a query is asked by.
pub const QUERY_NAMES: OptionNames<'static> = OptionNames {
    valued: &["scope", "bytes", "dups"],
    flags: &[],
};

/// The query that a word ROOT/PATH and these options ask, for a CAR.
///
/// The scope is entity where a range is given, whatever scope is asked beside it, and where no scope is asked. A block
/// that stands at several places is sent at each of them where nothing else is asked.
pub fn query_with(alloc: Global, target: &str, options: &[GivenOption]) -> Result<Query, WordsFault>
    ensures { Exact (QueryBy target.now (givens options.now)) result }
{
    let scope = value_of(options, "scope");
    let bytes = value_of(options, "bytes");
    let dups = value_of(options, "dups");
    query_of(alloc, target, scope, bytes, dups)
}

/// The query that a word ROOT/PATH and the values of `--scope`, `--bytes` and `--dups` ask.
fn query_of(
    alloc: Global,
    target: &str,
    scope: Option<&str>,
    bytes: Option<&str>,
    dups: Option<&str>,
) -> Result<Query, WordsFault>
    ensures { Exact (QueryGiven target.now (option_map (λ text. text.now) scope.entry)
        (option_map (λ text. text.now) bytes.entry) (option_map (λ text. text.now) dups.entry)) result }
{
    tg_query::path_laws::roots_read();
    tg_query::path_laws::spans_read();
    let asked = scope_given(scope)?;
    let span = span_given(bytes)?;
    let dups = dups_given(dups)?;
    let (root, path) = parse_word(alloc, target.as_bytes())?;
    Ok(car_query(root, path, asked, span, dups.unwrap_or(true)))
}

/// The query for a CAR, whose scope is entity where a range is given or no scope is asked.
fn car_query(root: Cid, path: Path, asked: Option<Scope>, span: Option<Span>, dups: bool) -> Query
    requires few { length path ≤ 128 }
    requires good { All IsGoodName path }
    requires span { IfSome span IsSpan }
    ensures { result ≡ record
        { root = root; path = path; form = Form.Car; scope = scope_for asked span; span = span; dups = dups } }
{
    match span {
        Some(range) => Query::car(root, path, Scope::Entity, Some(range), dups),
        None => Query::car(root, path, asked.unwrap_or(Scope::Entity), None, dups),
    }
}

/// The scope that a value writes, where there is a value.
fn scope_given(value: Option<&str>) -> Result<Option<Scope>, WordsFault>
    ensures { Exact (ValueGives ScopeText (option_map (λ text. text.now) value.entry)) result }
{
    let Some(word) = value else {
        return Ok(None);
    };
    let scope = scope_of(word).ok_or(WordsFault::Usage)?;
    Ok(Some(scope))
}

/// The scope of a word.
///
/// Trustless Gateway specification, dag-scope.
fn scope_of(word: &str) -> Option<Scope>
    ensures some { IfSome result (λ scope. ScopeText word.now scope) }
    ensures none { IfNone result ((scope : Scope) → ScopeText word.now scope → ⊥) }
{
    if word == "block" {
        Some(Scope::Block)
    } else if word == "entity" {
        Some(Scope::Entity)
    } else if word == "all" {
        Some(Scope::All)
    } else {
        None
    }
}

/// Whether repeats are sent by what a value writes, where there is a value.
pub(crate) fn dups_given(value: Option<&str>) -> Result<Option<bool>, WordsFault>
    ensures { Exact (ValueGives DupsText (option_map (λ text. text.now) value.entry)) result }
{
    let Some(word) = value else {
        return Ok(None);
    };
    let dups = dups_of(word).ok_or(WordsFault::Usage)?;
    Ok(Some(dups))
}

/// Whether repeats are sent by a word.
///
/// Trustless Gateway specification, dups.
fn dups_of(word: &str) -> Option<bool>
    ensures some { IfSome result (λ dups. DupsText word.now dups) }
    ensures none { IfNone result ((dups : Bool) → DupsText word.now dups → ⊥) }
{
    if word == "y" {
        Some(true)
    } else if word == "n" {
        Some(false)
    } else {
        None
    }
}

/// The range that a value writes, where there is a value.
fn span_given(value: Option<&str>) -> Result<Option<Span>, WordsFault>
    ensures { Exact (ValueGives SpanText (option_map (λ text. text.now) value.entry)) result }
{
    tg_query::path_laws::spans_read();
    let Some(text) = value else {
        return Ok(None);
    };
    let span = parse_span(text.as_bytes())?;
    Ok(Some(span))
}
