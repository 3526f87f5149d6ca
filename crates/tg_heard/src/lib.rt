//! What a client hears of a gateway: interim heads and the final one, the sections that a reply carries for a query, and
//! the gateway's own reply to the client's request. Each law is the contract of a function that does nothing.
#![tactic(auto)]

mod examples;
mod own;

ghost use Rattle.tg_heard.specs.FrontLaws.{BodyPieceLaws, HeadLaws};
ghost use Rattle.tg_heard.specs.GotLaws.{CarriedIsGot, GotFronts, OneGot};
ghost use Rattle.tg_heard.specs.Laws.{AskedAbsencesCarry, AskedAnswersCarry, CarsCarry, CutsCarryNothing, NotBoth};
ghost use Rattle.tg_heard.specs.Laws.{OneCarried, OneCarriedBy, OneFinalHead, RawsCarry, RefusalsCarryNothing};

pub use examples::heard_examples;
pub use own::{own_replies, own_replies_carry, own_requests, own_sessions};

/// What is heard of a reply is one: its final head, also when more bytes come, and the sections that it carries for a
/// query; and it is no answer and no absence at once.
///
/// RFC 9112, sections 2 to 7; CARv1 specification.
pub fn heard_is_one()
    ensures head { OneFinalHead }
    ensures carried { OneCarried }
    ensures carried_by { OneCarriedBy }
    ensures not_both { NotBoth }
{
    tg_http::laws::longer_bytes();
    tg_body::laws::body_laws();
    tg_car::laws::car_laws();
}

/// A reply to `GET` with blocks that isn't cut carries its sections for the query, as the answer or as an absence, where
/// its head fits a head and the root and the sections are spelled. A CAR in chunks that is cut carries nothing, and a
/// refusal carries nothing, whatever follows it. To HTTP/1.0 nothing shows that a CAR was cut.
///
/// RFC 9112, sections 4 to 7; CARv1 specification; Trustless Gateway specification, response types.
pub fn replies_carry()
    ensures car { CarsCarry }
    ensures raw { RawsCarry }
    ensures cut { CutsCarryNothing }
    ensures refusals { RefusalsCarryNothing }
{
    tg_reply::replies_read();
    tg_reply::reply_bodies();
    tg_body::laws::body_laws();
    tg_http::laws::longer_bytes();
}

/// The reply to `GET` for a CAR that is asked, over a store of bytes, carries the sections of the query where it isn't
/// cut and its head fits a head: of a path that leads to a terminal the answer's, and of one that leads nowhere those
/// that show it.
///
/// RFC 9112, sections 4 to 7; CARv1 specification; Trustless Gateway specification, response types.
pub fn asked_replies_carry()
    ensures answers { AskedAnswersCarry }
    ensures absences { AskedAbsencesCarry }
{
    tg_reply::asked_replies_read();
}

/// The sections received so far of a reply are one list, of a front of what was heard a front of it, and those that
/// a reply carries where its blocks are within the limit.
///
/// RFC 9112, sections 6 and 7; CARv1 specification, Data.
pub fn received_so_far()
    ensures one { OneGot }
    ensures fronts { GotFronts }
    ensures carried { CarriedIsGot }
{
    tg_http::laws::longer_bytes();
    tg_body::laws::body_laws();
    tg_client::laws::received_sections();
}

/// The heads of a reply, of which more may come: a final head, and that no reply begins with the bytes, stay with more of
/// them, and of the three, with that the final head isn't whole, no two hold of the same bytes.
///
/// RFC 9110, section 15; RFC 9112, section 2.
pub fn heads_go_on()
    ensures { HeadLaws }
{
    tg_http::laws::longer_bytes();
}

/// What came of a body is one, grows with the bytes, and is a front of the whole one, behind which no body goes on.
///
/// RFC 9112, sections 6 and 7.
pub fn bodies_go_on()
    ensures { BodyPieceLaws }
{
    tg_body::laws::body_laws();
    tg_http::laws::line_laws();
}
