//! What follows from how a reply is heard.
ghost use Rattle.tg_fetch.specs.Laws.{AbsenceIsNoAnswer, AbsenceIsTold, CarriedIsAnswer, CarriedIsTaken, NoPeerFault};
ghost use Rattle.tg_fetch.specs.Own.{OwnIsFed};
ghost use Rattle.tg_streams.specs.Streams.{into};

use tg_streams::Sink;

/// A reply that carries sections which fit a query, and pass no limit, is refused in none of its fronts, but for counted
/// faults and want of memory, however it is cut; and where it is accepted their text is put.
///
/// RFC 9112, sections 2 to 8; CARv1 specification; Trustless Gateway specification.
pub fn carried_replies()
    ensures taken { CarriedIsTaken }
    ensures answer { CarriedIsAnswer }
{
    tg_heard::heard_is_one();
    tg_heard::heads_go_on();
    tg_heard::bodies_go_on();
    tg_client::laws::bodies();
    tg_model_laws::one_fit();
    tg_verify::laws::verified_answers();
    tg_model_laws::verified_sections();
}

/// No reply is refused for a fault of the peer, which is one of its link.
///
/// This project's own.
pub fn refused_replies()
    ensures { NoPeerFault }
{}

/// A reply that carries the blocks of a path of which a segment leads nowhere, and passes no limit, is refused in none of
/// its fronts but for that segment, with nothing put, and for want of memory, however it is cut; and none is accepted.
///
/// RFC 9112, sections 2 to 8; CARv1 specification; Path Gateway specification.
pub fn carried_absences()
    ensures told { AbsenceIsTold }
    ensures none { AbsenceIsNoAnswer }
{
    tg_heard::heard_is_one();
    tg_heard::heads_go_on();
    tg_heard::bodies_go_on();
    tg_client::laws::bodies();
    tg_client::laws::received_sections();
    tg_model_laws::verified_sections();
}

/// What a gateway's session sends for a client's request, over a store that holds the blocks of a sound DAG and breaks
/// off nowhere, handed to that client in any pieces, is accepted, and the DAG's answer is written, where the query is
/// within the limits; and where its path leads nowhere it is refused for that segment, and nothing is written. A fault
/// of out and want of memory are free. It is said of `Client::feed` into any sink by what that ensures (`ends` and
/// `short`), piece by piece.
///
/// RFC 9112; Trustless Gateway specification; Path Gateway specification.
pub fn own_exchanges<S: Sink>()
    ensures { (old new : S) → OwnIsFed (into S.sink old new) }
{
    carried_replies();
    carried_absences();
    tg_heard::own_sessions();
    tg_heard::heard_is_one();
    tg_heard::heads_go_on();
    tg_heard::bodies_go_on();
    tg_client::laws::standing_bodies();
    tg_model_laws::own_sections();
    tg_model_laws::own_absences();
    tg_model_laws::against_every_peer();
}
