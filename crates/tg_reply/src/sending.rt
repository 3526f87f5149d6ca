//! Laws of what a session has sent, reply by reply, each the contract of a function that does nothing.
ghost use Rattle.tg_reply.specs.SentLaws.{BrokenAreFew, BrokenIsFront, FailedAreBroken, FailedAreCounted};
ghost use Rattle.tg_reply.specs.SentLaws.{LimitIsFront, SentAreFew, SentAsReplies, SentBegins, SentExtends};
ghost use Rattle.tg_reply.specs.SentLaws.{SentIsDetermined, SentIsShaped, SentJoins, SentStays, SessionsGoOn};
ghost use Rattle.tg_reply.specs.SentLaws.{SessionsStayClosed, SomeSent, StandsForSent, UnfailedAreUncounted};

/// What is sent is determined by the bytes and by what happened at each request; where the store doesn't break off it is
/// what the definition of replies says of the bytes, and there is such for any bytes.
///
/// RFC 9112, sections 2.2 and 9.3.
pub fn sent_is_determined()
    ensures determined { SentIsDetermined }
    ensures replies { SentAsReplies }
    ensures some { SomeSent }
{
    tg_http::laws::longer_bytes();
    crate::first_heads();
    crate::one_request();
    crate::one_writing();
}

/// What was sent for a front, and for the rest and what follows, is sent for both; behind a close nothing is sent.
///
/// RFC 9112, sections 2.2 and 9.3.
pub fn sent_joins()
    ensures joins { SentJoins }
    ensures stays { SentStays }
{
    tg_http::laws::longer_bytes();
}

/// What was sent can be gone on with, and what is sent for bytes that go on begins with what was sent for these, where
/// the same happened at the requests in these: so it doesn't matter how the bytes are cut.
///
/// RFC 9112, sections 2.2 and 9.3.
pub fn sent_begins()
    ensures extends { SentExtends }
    ensures begins { SentBegins }
{
    tg_http::laws::longer_bytes();
    crate::first_heads();
    crate::one_request();
}

/// There are no more replies than bytes; a reply at which the store broke off has status 500 or a body that was cut, and
/// the store counted it; where it broke off nowhere its count is what it was.
///
/// RFC 9112, section 9.3.
pub fn numbers_of_sent()
    ensures few { SentAreFew }
    ensures broken { FailedAreBroken }
    ensures broken_few { BrokenAreFew }
    ensures counted { FailedAreCounted }
    ensures uncounted { UnfailedAreUncounted }
{}

/// What a session stands for is sent for the bytes that it was fed. One that is fed a piece and refuses nothing stands for
/// what it sent besides, too; a closed one stands for the same whatever comes; and where more bytes came than may be
/// received, out failed or memory was wanted, a front of what is sent was written, with the numbers of the replies that
/// were written whole.
///
/// RFC 9112, section 9.3.
pub fn sessions_go_on()
    ensures sent { StandsForSent }
    ensures go_on { SessionsGoOn }
    ensures closed { SessionsStayClosed }
    ensures limit { LimitIsFront }
    ensures front { BrokenIsFront }
{
    tg_http::laws::longer_bytes();
}

/// What is sent over a store that tells its blocks has the shape of what is sent over one that tells nothing.
///
/// RFC 9112, section 9.3; Trustless Gateway specification.
pub fn sent_is_shaped()
    ensures { SentIsShaped }
{
    crate::request_targets();
    crate::asked_queries();
    crate::raw_queries();
}
