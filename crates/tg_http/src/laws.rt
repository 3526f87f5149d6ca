//! Laws of heads and lines.
ghost use Rattle.std.specs.Prelude.{length};
ghost use Rattle.httparse.specs.Grammar.{IsRequestHead, RequestHead as RequestTree, print_request};
ghost use Rattle.tg_http.specs.HeadText.{HeadText};
ghost use Rattle.tg_http.specs.Heads.{RequestStays, ReplyStays};
ghost use Rattle.tg_http.specs.Laws.{LineLaws};
ghost use Rattle.tg_http.specs.Sought.{SoughtStays};

/// Bytes that were answered with a head or a refusal get the same answer whatever comes behind them.
///
/// RFC 9112, section 2.2.
pub fn longer_bytes()
    ensures request { RequestStays }
    ensures reply { ReplyStays }
{}

/// A line goes up to its first line feed, so bytes have one first line.
///
/// RFC 9112, section 2.2.
pub fn line_laws()
    ensures { LineLaws }
{}

/// A request head of the grammar is a head text with as many lines as it has fields.
///
/// RFC 9112, sections 2.1 and 3.
pub fn request_heads()
    ensures { (tree : RequestTree) → IsRequestHead tree → HeadText (print_request tree) (length tree.fields) }
{}

/// A cursor that was sought in bytes was sought in them whatever comes behind them.
///
/// RFC 9112, section 2.2.
pub fn sought_heads()
    ensures { SoughtStays }
{}
