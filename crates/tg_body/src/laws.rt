//! The laws of bodies and of what a reader gives of them, for proofs.
ghost use Rattle.tg_body.specs.Laws.{BodyLaws};

/// What a reader gives and refuses is determined by the bytes, however they are cut. So is the whole body at the front
/// of bytes, where the framing says how a body ends; and a body in chunks that was cut holds no whole one.
///
/// RFC 9112, sections 6.3 and 7.1.
pub fn body_laws()
    ensures { BodyLaws }
{
    tg_http::laws::line_laws();
}
