//! Laws of the replies to a stream of bytes.
ghost use Rattle.tg_reply.specs.FirstHead.{FirstHeads};
ghost use Rattle.tg_reply.specs.Streams.{OneRequest, OneWriting};
ghost use Rattle.tg_reply.specs.Written.{WritingComputes};

/// The request at the front of bytes can be computed: whether one is whole, within the limits and of the grammar, what
/// is told of it, and what follows it.
///
/// RFC 9112, sections 2 to 6.
pub fn first_heads()
    ensures { FirstHeads }
{
    tg_http::laws::line_laws();
}

/// At most one request stands at the front of bytes, whatever its head, and one rest follows it.
///
/// RFC 9112, section 2.2.
pub fn one_request()
    ensures { OneRequest }
{}

/// What a gateway writes for bytes is determined by the bytes and by what its store has, and can be computed from them.
///
/// RFC 9112, section 2.2.
pub fn one_writing()
    ensures one { OneWriting }
    ensures computes { WritingComputes }
{
    first_heads();
}
