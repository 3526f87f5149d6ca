//! Laws of requests, each the contract of a function that does nothing.
ghost use Rattle.std.specs.Prelude.{◌≡◌, ◌↔◌, ℕ, List, Ok};
ghost use Rattle.tg_model.specs.Queries.{QueryParts};
ghost use Rattle.tg_query.specs.AcceptTexts.{AcceptText};
ghost use Rattle.tg_query.specs.Accepts.{accepted_of};
ghost use Rattle.tg_query.specs.Laws.{IsOneHead, IsPrintable};
ghost use Rattle.tg_query.specs.Requests.{request_text};
ghost use Rattle.tg_query.specs.Targets.{TargetText, target_of};
ghost use Rattle.tg_query.specs.Types.{IsTypeOf, TypeText};
ghost use Rattle.tg_query.specs.declared.accepts.Accepted.{Accepted};
ghost use Rattle.tg_query.specs.declared.targets.Target.{Target};

/// The request that is printed for a query whose root is a CIDv1 is one head and nothing else, where it fits a head;
/// and what its target and its `Accept` ask is that query.
///
/// RFC 9112, sections 2 to 6; Trustless Gateway specification.
pub fn printed_requests()
    ensures { (q : QueryParts) (addr : List ℕ) → IsPrintable q addr → IsOneHead q (request_text q addr) }
{
    crate::path_laws::cuts_read();
    crate::path_laws::roots_read();
    crate::path_laws::spans_read();
    tg_cid::laws::computes();
    tg_http::laws::request_heads();
}

/// What is computed of a target is what its grammar says.
///
/// Path Gateway and Trustless Gateway specifications.
pub fn targets_read()
    ensures { (text : List ℕ) (target : Target) → (target_of text ≡ Ok target) ↔ TargetText text target }
{
    crate::path_laws::cuts_read();
    crate::path_laws::roots_read();
    crate::path_laws::spans_read();
}

/// What is computed of the values of `Accept` fields is what their grammar says.
///
/// RFC 9110, section 12.5.1; Trustless Gateway specification, response types.
pub fn accepts_read()
    ensures { (values : List (List ℕ)) (accepted : Accepted)
        → (accepted_of values ≡ accepted) ↔ AcceptText values accepted }
{
    crate::path_laws::cuts_read();
}

/// What is computed of the type of a query's answer is what its grammar says.
///
/// RFC 9110, section 8.3; Trustless Gateway specification, response types and CAR parameters.
pub fn types_read()
    ensures { (q : QueryParts) (kind : List ℕ) → IsTypeOf q kind ↔ TypeText q.form q.dups kind }
{
    crate::path_laws::cuts_read();
}
