//! Laws of sessions, each the contract of a function that does nothing.
ghost use Rattle.tg_gateway.specs.Laws.{BrokenIsNext, FailuresRise, LimitIsAll, SentLonger, SessionsBegin};
ghost use Rattle.tg_gateway.specs.Laws.{SessionsStandInFull};

/// A session that was fed nothing stands for no bytes; and what a session stands for is all that is sent for the bytes
/// that it was fed, as many as may be received.
///
/// RFC 9112, sections 2.2 and 9.3.
pub fn sessions_stand()
    ensures begin { SessionsBegin }
    ensures in_full { SessionsStandInFull }
{
    tg_reply::sent_joins();
}

/// Where more bytes came than may be received, all that is sent for so many was written. Where out failed or memory was
/// wanted, the replies that were counted were written whole, and a front of the next; bytes that come behind change
/// nothing of it.
///
/// RFC 9112, sections 2.2 and 9.3.
pub fn sessions_refuse()
    ensures limit_all { LimitIsAll }
    ensures broken_next { BrokenIsNext }
    ensures longer { SentLonger }
{
    tg_reply::sent_joins();
    tg_reply::sessions_go_on();
}

/// Over a store that tells its blocks no reply of a session breaks off but where the store's count rose meanwhile.
///
/// RFC 9112, section 9.3.
pub fn failures_rise()
    ensures { FailuresRise }
{
    tg_reply::numbers_of_sent();
}
