//! A target and `Accept` as one query.
ghost use Rattle.std.specs.Option.{unwrap_or};
ghost use Rattle.std.specs.Prelude.{◌≡◌};
ghost use Rattle.tg_query.specs.Joins.{car_or_fault, default_choice, dups_of, format_for, is_either, is_served};
ghost use Rattle.tg_query.specs.Joins.{join_of, raw_or_fault, scope_for};
ghost use Rattle.tg_query.specs.Targets.{IsTarget};

use crate::accepts::{Accepted, CarChoice};
use crate::fault::QueryFault;
use crate::targets::Target;
use std::alloc::Global;
use tg_model::{Form, Query, Scope, Span};

/// The query that a target and `Accept` ask for. The target's format decides, else the first known type. For a CAR the
/// parameters of the first CAR type count; the scope is entity where a range is given, and all where neither is. For a
/// raw block scope and range are dropped. It takes no memory.
///
/// Trustless Gateway specification. Errors: `BadParam` for a CAR of another version than 1, another order than `dfs`
/// and `unk`, or dups other than `y` and `n`; `NoFormat` where neither tells a format; `RawPath` for a raw block behind
/// a path.
pub fn join(alloc: Global, target: Target, accepted: &Accepted) -> Result<Query, QueryFault>
    requires { IsTarget target }
    ensures { result ≡ join_of target accepted.now }
{
    match format_for(target.format, accepted.first) {
        None => Err(QueryFault::NoFormat),
        Some(Form::Raw) => raw_query(alloc, target),
        Some(Form::Car) => car_query(target, &accepted.car),
    }
}

/// The target's format, else the first known type.
fn format_for(own: Option<Form>, first: Option<Form>) -> Option<Form>
    ensures { result ≡ format_for own first }
{
    match own {
        Some(form) => Some(form),
        None => first,
    }
}

/// The query for the root's block.
fn raw_query(alloc: Global, target: Target) -> Result<Query, QueryFault>
    ensures { result ≡ raw_or_fault target }
{
    if !target.path.as_slice().is_empty() {
        return Err(QueryFault::RawPath);
    }
    Ok(Query::raw(alloc, target.root))
}

/// The query for a CAR with these parameters.
fn car_query(target: Target, car: &Option<CarChoice>) -> Result<Query, QueryFault>
    requires { IsTarget target }
    ensures { result ≡ car_or_fault target (unwrap_or car.now default_choice) }
{
    let Some(dups) = dups_of(car) else {
        return Err(QueryFault::BadParam);
    };
    let scope = scope_for(target.scope, target.span);
    Ok(Query::car(target.root, target.path, scope, target.span, dups))
}

/// Whether repeats are sent, or none where the CAR isn't served.
fn dups_of(car: &Option<CarChoice>) -> Option<bool>
    ensures { result ≡ dups_of (unwrap_or car.now default_choice) }
{
    match car {
        None => Some(true),
        Some(choice) if is_served(choice) => Some(choice.dups.as_slice() == b"y".as_slice()),
        Some(_) => None,
    }
}

/// Whether a CAR of these parameters is served.
fn is_served(choice: &CarChoice) -> bool
    ensures { result ≡ is_served choice.now }
{
    choice.version.as_slice() == b"1".as_slice()
        && is_either(choice.order.as_slice(), b"dfs", b"unk")
        && is_either(choice.dups.as_slice(), b"y", b"n")
}

/// Whether a word is one of two.
fn is_either(word: &[u8], first: &[u8], second: &[u8]) -> bool
    ensures { result ≡ is_either word.now first.now second.now }
{
    word == first || word == second
}

/// The scope: entity where a range is given, else the given one, else all.
fn scope_for(scope: Option<Scope>, span: Option<Span>) -> Scope
    ensures { result ≡ scope_for scope span }
{
    match (span, scope) {
        (Some(_), _) => Scope::Entity,
        (None, Some(scope)) => scope,
        (None, None) => Scope::All,
    }
}
