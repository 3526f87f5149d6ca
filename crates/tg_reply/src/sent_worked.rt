//! Worked examples of what is sent.
ghost use Rattle.std.specs.Prelude.{◌≡◌, ◌++◌, ◌∷◌, [], false, true};
ghost use Rattle.tg_reply.specs.Examples.{empty_car_header, empty_head, empty_head_plain, three_roots};
ghost use Rattle.tg_reply.specs.SentExamples.{as_stored_sent, both_requests, cut_reply, cut_sent, header_chunk, plain_reply, plain_requests, refused_sent};
ghost use Rattle.tg_reply.specs.Sent.{CountsBetween, SentFor, SentInFull, broken_in, closed_by, failed_in, quiet, sent_bytes};

/// What is sent for requests on one link. The CAR of the empty directory, and that an entry of it isn't there. Where the
/// store failed before the head of the first reply: the refusal `Store`, behind which the connection stays open, so that
/// the second request is answered. Where it failed behind the CAR's header: the head and the chunk of that header, and a
/// close, behind which the second request isn't looked at. To HTTP/1.0 the CAR without chunks, whole or cut, and a close
/// in either case.
///
/// RFC 9112, sections 7.1 and 9.3; Trustless Gateway specification.
pub fn sent_examples()
    ensures as_stored { SentInFull (SentFor three_roots) both_requests as_stored_sent [] }
    ensures refused { SentInFull (SentFor three_roots) both_requests refused_sent [] }
    ensures open_link { closed_by refused_sent ≡ false }
    ensures refused_counts { CountsBetween 0 refused_sent 1 }
    ensures refused_failed { failed_in refused_sent ≡ 1 }
    ensures refused_broken { broken_in refused_sent ≡ 1 }
    ensures cut { SentInFull (SentFor three_roots) both_requests (cut_sent (cut_reply empty_head header_chunk)) [] }
    ensures cut_bytes { sent_bytes (cut_sent (cut_reply empty_head header_chunk)) ≡ empty_head ++ header_chunk }
    ensures cut_closes { closed_by (cut_sent (cut_reply empty_head header_chunk)) ≡ true }
    ensures cut_broken { broken_in (cut_sent (cut_reply empty_head header_chunk)) ≡ 1 }
    ensures plain { SentInFull (SentFor three_roots) plain_requests (quiet plain_reply 0 ∷ []) [] }
    ensures plain_cut { SentInFull (SentFor three_roots) plain_requests (cut_sent (cut_reply empty_head_plain empty_car_header)) [] }
{
    crate::first_heads();
    crate::text_replies();
}
