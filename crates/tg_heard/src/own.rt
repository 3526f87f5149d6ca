//! A client's request for a query and a gateway's reply to it: what is read of the one, and what the other carries over a
//! store that holds the blocks of a sound DAG. Each law is the contract of a function that does nothing.
ghost use Rattle.tg_heard.specs.Exchanges.{AnswerableIsAnswered, HeldHaveOneBlock, OwnRepliesCarry, OwnReply, OwnReplyCarries, PrintedIsRead};
ghost use Rattle.tg_heard.specs.Sessions.{OwnIsSent, SentCarries};

/// The request that is printed for a query is read, whatever follows it, as a head that asks for the query by `GET` of
/// HTTP/1.1 and for a close, and as nothing else.
///
/// RFC 9112, sections 2 to 6 and 9.3; Trustless Gateway specification.
pub fn own_requests()
    ensures { PrintedIsRead }
{
    tg_query::laws::printed_requests();
    tg_reply::first_heads();
    tg_http::laws::longer_bytes();
}

/// Over a store that holds the blocks of a sound DAG, no two different ones stand under one CID; and where none that is
/// asked for lies deeper than 512, the reply to a head such as that of the printed request is the DAG's own.
///
/// Path Gateway and Trustless Gateway specifications.
pub fn own_replies()
    ensures one_block { HeldHaveOneBlock }
    ensures reply { OwnReply }
{
    tg_answering::own_replies();
    tg_model_laws::paths();
}

/// The reply that a sound DAG has to the printed request of a query, within the limits, carries the sections of the DAG's
/// own traversal, where they are spelled: as the answer, or where the path leads nowhere as an absence. So does what a
/// gateway writes for it over a store that holds the DAG.
///
/// RFC 9112, sections 4 to 7; CARv1 specification; Trustless Gateway specification, response types.
pub fn own_replies_carry()
    ensures own { OwnReplyCarries }
    ensures carry { OwnRepliesCarry }
    ensures answerable { AnswerableIsAnswered }
{
    own_requests();
    own_replies();
    tg_answering::own_replies();
    crate::replies_carry();
    tg_reply::sent_sections();
    tg_reply::one_writing();
}

/// Over a store that holds the blocks of a sound DAG and breaks off nowhere, all that a session sends for the printed
/// request of a query, whatever follows it, is the reply that the DAG has, and the connection closes behind it, where
/// no block that is asked for lies deeper than 512; and within the limits it carries the sections of the DAG's own
/// traversal.
///
/// RFC 9112, sections 2 to 7 and 9.3; Path Gateway and Trustless Gateway specifications.
pub fn own_sessions()
    ensures sent { OwnIsSent }
    ensures carries { SentCarries }
{
    own_requests();
    own_replies();
    own_replies_carry();
    tg_reply::one_writing();
    tg_reply::sent_is_determined();
}
