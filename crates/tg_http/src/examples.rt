//! Worked examples of heads.
ghost use Rattle.std.specs.Prelude.{ℕ, ◌≤◌, List, ◌++◌, length};
ghost use Rattle.tg_http.specs.HeadText.{HasNoFeed};
ghost use Rattle.tg_http.specs.Heads.{HasHeadCause, IsNoReply, IsNoRequest};
ghost use Rattle.tg_http.specs.declared.fault.HttpFault.TheVariants as faults;

use crate::laws::longer_bytes;

/// 16,384 bytes without a line feed pass the limit of a head, whatever comes behind them.
///
/// RFC 9112, section 2.2.
pub fn endless_line()
    ensures request { (bytes more : List ℕ) → 16384 ≤ length bytes → HasNoFeed bytes
        → HasHeadCause IsNoRequest (bytes ++ more) faults.HeadLimit }
    ensures reply { (bytes more : List ℕ) → 16384 ≤ length bytes → HasNoFeed bytes
        → HasHeadCause IsNoReply (bytes ++ more) faults.HeadLimit }
{
    longer_bytes();
}
