//! Laws of lanes, each the contract of a function that does nothing.
ghost use Rattle.tg_lanes.specs.Laws.{BreaksByItsOwn, BrokenAreSentAsItRose, FailsByTheStore, LaneWritesReplies};
ghost use Rattle.tg_lanes.specs.Laws.{LanesAreApart, LanesBegin, LanesDifferByTheirOwn, RepliesAreInTurn};

/// Over a store that tells its blocks a lane has written just the replies to the bytes that it was fed itself, as many
/// as may be received, unless in one of its own events a count rose or memory was wanted. So in two histories that have
/// the same bytes of a lane it has written the same, whatever the other lanes were fed and whatever happened to them; or
/// in one of the two a count rose in its own events, or it wanted memory.
///
/// RFC 9112, sections 2.2 and 9.3.
pub fn lanes_are_apart()
    ensures writes { LaneWritesReplies }
    ensures breaks { BreaksByItsOwn }
    ensures apart { LanesAreApart }
    ensures differ { LanesDifferByTheirOwn }
{
    tg_reply::sent_is_determined();
    tg_reply::numbers_of_sent();
    tg_gateway::laws::sessions_stand();
}

/// The store's counts at a lane's replies go on behind any number that its events lie behind. Over a store that tells its
/// blocks each of them that broke off was sent in an event of the lane's own in which the store's count rose, whatever
/// the lane refused; so where there is none such event no reply broke off.
///
/// RFC 9112, section 9.3.
pub fn lanes_reply()
    ensures in_turn { RepliesAreInTurn }
    ensures broken { BrokenAreSentAsItRose }
    ensures fails { FailsByTheStore }
{
    tg_reply::numbers_of_sent();
}

/// Lanes that are new stand for nothing that happened.
///
/// RFC 9112, section 9.3.
pub fn lanes_begin()
    ensures { LanesBegin }
{
    tg_gateway::laws::sessions_stand();
}
