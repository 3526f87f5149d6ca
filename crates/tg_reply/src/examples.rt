//! Worked examples of replies.
ghost use Rattle.std.specs.Prelude.{◌≡◌, ◌++◌, ◌∷◌, [], codes, length, take, true};
ghost use Rattle.tg_reply.specs.Asked.{asked};
ghost use Rattle.tg_reply.specs.Examples.{absence_head, absence_head_plain, bad_framing, bad_head, bad_method, bad_request};
ghost use Rattle.tg_reply.specs.Examples.{empty_car_header, hello_absence_head, hello_car_header, hello_car_section, hello_chunks};
ghost use Rattle.tg_reply.specs.Examples.{empty_car_section, empty_chunks, empty_head, empty_head_plain};
ghost use Rattle.tg_reply.specs.Examples.{empty_head_raw, empty_root, first_bytes, first_target, folder_chunks};
ghost use Rattle.tg_reply.specs.Examples.{folder_head, folder_root, get, head_limit, hello_root, folder_alone};
ghost use Rattle.tg_reply.specs.Examples.{not_acceptable, not_found, open_reply, request, request_lines, second_bytes};
ghost use Rattle.tg_reply.specs.Examples.{second_target, server_error, lines, three_roots, unreadable_root};
ghost use Rattle.tg_reply.specs.Streams.{Replies};
ghost use Rattle.tg_reply.specs.Replies.{refused_bytes, refused_request, reply, reply_bytes};
ghost use Rattle.tg_reply.specs.Written.{replies_for};
ghost use Rattle.tg_reply.specs.declared.refusal.Refusal.{Refusal};
ghost use Rattle.tg_reply.specs.declared.status.Status.{Status};

/// Replies with blocks: the CAR of the empty directory in chunks of 117 bytes, to `HEAD`, to HTTP/1.0, and as a raw
/// block; and the CAR of a directory whose entry isn't stored, which is cut.
///
/// Trustless Gateway specification; RFC 9112, section 7.1.
pub fn block_replies()
    ensures car { reply three_roots (get empty_root) ≡ open_reply Status.Ok empty_head empty_chunks }
    ensures size { length empty_chunks ≡ 117 }
    ensures head { reply three_roots (request (codes "HEAD") 1 empty_root (codes "application/vnd.ipld.car" ∷ []))
        ≡ open_reply Status.Ok empty_head [] }
    ensures plain { reply three_roots (request (codes "GET") 0 empty_root (codes "application/vnd.ipld.car" ∷ []))
        ≡ record (open_reply Status.Ok empty_head_plain (empty_car_header ++ empty_car_section)) { closes = true } }
    ensures raw { reply three_roots (get (empty_root ++ codes "?format=raw"))
        ≡ open_reply Status.Ok empty_head_raw (0x0a ∷ 0x02 ∷ 0x08 ∷ 0x01 ∷ []) }
    ensures cut { reply folder_alone (get folder_root)
        ≡ record (open_reply Status.Ok folder_head folder_chunks) { cut = true; closes = true } }
{}

/// Replies to requests that are refused, over stores of three roots and of a directory alone, and to bytes that are no
/// request.
///
/// Path Gateway and Trustless Gateway specifications, response status codes.
pub fn text_replies()
    ensures bad_framing { reply three_roots (record (get empty_root) { framed = true }) ≡ bad_framing }
    ensures bad_method { reply three_roots (request (codes "POST") 1 empty_root []) ≡ bad_method }
    ensures bad_path { reply three_roots (get (codes "/ipns/x")) ≡ bad_request (codes "8") (codes "BadPath") }
    ensures bad_cid { reply three_roots (get (codes "/ipfs/x")) ≡ bad_request (codes "7") (codes "BadCid") }
    ensures bad_format { reply three_roots (get (empty_root
        ++ codes "?format=zip")) ≡ bad_request (codes "10") (codes "BadFormat") }
    ensures bad_scope { reply three_roots (get (empty_root
        ++ codes "?dag-scope=some")) ≡ bad_request (codes "9") (codes "BadScope") }
    ensures bad_range { reply three_roots (get (empty_root
        ++ codes "?entity-bytes=5:3")) ≡ bad_request (codes "9") (codes "BadRange") }
    ensures doubled { reply three_roots (get (empty_root
        ++ codes "?format=car&format=car")) ≡ bad_request (codes "8") (codes "Doubled") }
    ensures bad_param { reply three_roots (request (codes "GET") 1 empty_root
        (codes "application/vnd.ipld.car; version=2" ∷ [])) ≡ not_acceptable }
    ensures no_format { reply three_roots (request (codes "GET") 1 empty_root []) ≡ bad_request (codes "9")
        (codes "NoFormat") }
    ensures raw_path { reply three_roots (get (empty_root
        ++ codes "/x?format=raw")) ≡ bad_request (codes "8") (codes "RawPath") }
    ensures no_root { reply three_roots (get folder_root) ≡ not_found (codes "7") (codes "NoRoot") }
    ensures gone { reply folder_alone (get (folder_root ++ codes "/a")) ≡ server_error (codes "5") (codes "Gone") }
    ensures bad_block { reply three_roots (get (unreadable_root
        ++ codes "/x")) ≡ server_error (codes "9") (codes "BadBlock") }
    ensures store { refused_request (get empty_root) Refusal.Store ≡ server_error (codes "6") (codes "Store") }
    ensures head_limit { refused_bytes Refusal.HeadLimit ≡ head_limit }
    ensures bad_head { refused_bytes Refusal.BadHead ≡ bad_head }
    // To HEAD the same head without the body.
    ensures to_head { reply three_roots (request (codes "HEAD") 1 empty_root [])
        ≡ record (bad_request (codes "9") (codes "NoFormat")) { body = [] } }
{}

/// Replies to paths that lead nowhere: the CAR of the blocks on them. An entry of the empty directory isn't there, in
/// chunks of 117 bytes, to `HEAD` and to HTTP/1.0; and a raw block is no directory, whose CAR has 107 bytes.
///
/// RFC 9110, section 15.5.5; Trustless Gateway specification, CAR responses; that the blocks are sent with a 404 is this
/// project's own.
pub fn absence_replies()
    ensures not_there { reply three_roots (get (empty_root
        ++ codes "/x")) ≡ open_reply Status.NotFound absence_head empty_chunks }
    ensures head { reply three_roots (request (codes "HEAD") 1 (empty_root
        ++ codes "/x") (codes "application/vnd.ipld.car" ∷ [])) ≡ open_reply Status.NotFound absence_head [] }
    ensures plain { reply three_roots (request (codes "GET") 0 (empty_root
        ++ codes "/x") (codes "application/vnd.ipld.car" ∷ [])) ≡ record (open_reply Status.NotFound absence_head_plain
        (empty_car_header ++ empty_car_section)) { closes = true } }
    ensures not_folder { reply three_roots (get (hello_root
        ++ codes "/x")) ≡ open_reply Status.NotFound hello_absence_head hello_chunks }
    ensures size { length (hello_car_header ++ hello_car_section) ≡ 107 }
{}

/// Two requests on one link: the CAR of the empty directory, and that an entry of it isn't there.
///
/// RFC 9112, section 9.3.
pub fn two_replies()
    ensures { Replies three_roots (request_lines first_target ++ request_lines second_target) (first_bytes
        ++ second_bytes) }
{
    tg_http::laws::request_heads();
}

/// The same two replies, computed from the bytes; the first alone, where the second request isn't whole; and behind it
/// that of `BadHead`, where the second is none.
///
/// RFC 9112, section 9.3.
pub fn computed_replies()
    ensures both { replies_for three_roots (request_lines first_target ++ request_lines second_target) ≡ first_bytes
        ++ second_bytes }
    // Of the second request the first 40 bytes alone.
    ensures waiting { replies_for three_roots (request_lines first_target
        ++ take 40 (request_lines second_target)) ≡ first_bytes }
    // A second head text of one word.
    ensures no_head { replies_for three_roots (request_lines first_target ++ lines (codes "GET" ∷ [])) ≡ first_bytes
        ++ reply_bytes bad_head }
{
    text_replies();
}
