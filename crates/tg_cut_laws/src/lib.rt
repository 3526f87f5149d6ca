//! That the answer of a client is one, however the bytes are cut: laws, each the contract of a function that does nothing.
#![tactic(auto)]

ghost use Rattle.tg_cut_laws.specs.Bodies.{BodyCutLaws};
ghost use Rattle.tg_cut_laws.specs.Cars.{CarCutLaws};
ghost use Rattle.tg_cut_laws.specs.Clients.{AnsweredOnce};
ghost use Rattle.tg_cut_laws.specs.Replies.{ReplyCutLaws};
ghost use Rattle.tg_cut_laws.specs.Sections.{SectionLaws};
ghost use Rattle.tg_streams.specs.Streams.{into};

use tg_streams::Sink;

/// A list of sections has one answer for a query and limits: two refusals of what they are come at the same section, with
/// the same text written before, and are the same; where one comes no block is wanted behind it; and where all came it is
/// that of one section more. Faults of out and want of memory are free.
///
/// Trustless Gateway specification, dag-scope, entity-bytes and dups.
pub fn sections_answered_once()
    ensures { SectionLaws }
{
    tg_model_laws::verified_sections();
}

/// The bytes of a CAR have one answer for a query and limits, however they are cut: two refusals of what they are are the
/// same, with the same sections and the same text written before; and of bytes of which nothing is refused no front is.
/// Faults of out and want of memory are free.
///
/// CARv1 specification; Trustless Gateway specification, CAR responses.
pub fn cars_answered_once()
    ensures { CarCutLaws }
{
    sections_answered_once();
    tg_car::laws::car_laws();
    tg_client::laws::received_sections();
}

/// The body of a reply has one answer for a query and limits behind one final head, however it is cut: two refusals of what
/// it is are the same, with the same text written before; and the answer is refused by none. Faults of out and want of memory
/// are free.
///
/// Trustless Gateway specification, response types and CAR responses.
pub fn bodies_answered_once()
    ensures { BodyCutLaws }
{
    sections_answered_once();
    cars_answered_once();
    tg_client::laws::received_sections();
}

/// The bytes of a reply have one answer for a query and limits, however they are cut: clients that are handed the same bytes
/// in whichever pieces accept all, with the same text put, or refuse all, with the same refusal and the same text put
/// before. Faults of out and of the peer, and want of memory, are free.
///
/// RFC 9110, section 15; RFC 9112, sections 2 to 8; Trustless Gateway specification.
pub fn replies_answered_once()
    ensures { ReplyCutLaws }
{
    bodies_answered_once();
    tg_heard::heads_go_on();
    tg_heard::bodies_go_on();
}

/// However the bytes of a reply are cut, clients of one query and limits answer the same and have put the same: by what
/// `Client::feed`, `Client::end` and `fetch` ensure. Faults of out and of the peer, and want of memory, are free.
///
/// RFC 9112, sections 2 to 8; Trustless Gateway specification.
pub fn clients_answered_once<S: Sink, T: Sink>()
    ensures { (old new : S) (before after : T) → AnsweredOnce (into S.sink old new) (into T.sink before after) }
{
    replies_answered_once();
}
