//! Heads that come byte by byte.
ghost use Rattle.tg_http.specs.Sought.{IsSought};

use std::alloc::Global;
use tg_bytes::Bytes;
use tg_http::laws::sought_heads;
use tg_http::{
    HeadCursor, HttpFault, ReplyHead, RequestHead, next_reply, next_request, read_reply,
    read_request,
};
use tg_rows::Answer;

/// Says whether a request and a reply are read alike of bytes that come one by one, and of as many at once.
pub fn answer(alloc: Global, given: &[Bytes], answer: &mut Answer) {
    let [bytes] = given else {
        return answer.text("the bytes of a head");
    };
    answer.text(if is_read_alike(alloc, bytes.as_slice()) {
        "as at once"
    } else {
        "otherwise"
    });
}

/// Whether a request and a reply are read alike of the text at each length, a byte more each time.
fn is_read_alike(alloc: Global, text: &[u8]) -> bool {
    sought_heads();
    let mut request = HeadCursor::new();
    let mut reply = HeadCursor::new();
    for size in 0..=text.len() {
        let bytes = &text[..size];
        if !is_request_alike(alloc, bytes, &mut request) {
            return false;
        }
        if !is_reply_alike(alloc, bytes, &mut reply) {
            return false;
        }
    }
    true
}

/// Whether the cursor gives of a request what is read of the bytes at once.
fn is_request_alike(alloc: Global, bytes: &[u8], cursor: &mut HeadCursor) -> bool
    requires { IsSought cursor.old bytes.now }
    ensures { IsSought cursor.new bytes.now }
{
    let told = next_request(alloc, bytes, cursor);
    is_same_request(&told, &read_request(alloc, bytes))
}

/// Whether the cursor gives of a reply what is read of the bytes at once.
fn is_reply_alike(alloc: Global, bytes: &[u8], cursor: &mut HeadCursor) -> bool
    requires { IsSought cursor.old bytes.now }
    ensures { IsSought cursor.new bytes.now }
{
    let told = next_reply(alloc, bytes, cursor);
    is_same_reply(&told, &read_reply(alloc, bytes))
}

/// Whether the same is read of a request.
fn is_same_request(
    told: &Result<Option<RequestHead>, HttpFault>,
    wanted: &Result<Option<RequestHead>, HttpFault>,
) -> bool {
    match (told, wanted) {
        (Ok(Some(head)), Ok(Some(want))) => head.used == want.used
            && head.method == want.method
            && head.target == want.target
            && head.minor == want.minor
            && head.accept.as_slice() == want.accept.as_slice()
            && head.close == want.close
            && head.framed == want.framed,
        (Ok(None), Ok(None)) => true,
        (Err(fault), Err(want)) => fault == want,
        _ => false,
    }
}

/// Whether the same is read of a reply.
fn is_same_reply(
    told: &Result<Option<ReplyHead>, HttpFault>,
    wanted: &Result<Option<ReplyHead>, HttpFault>,
) -> bool {
    match (told, wanted) {
        (Ok(Some(head)), Ok(Some(want))) => head.used == want.used
            && head.status == want.status
            && head.kind == want.kind
            && head.coding == want.coding
            && head.framing == want.framing,
        (Ok(None), Ok(None)) => true,
        (Err(fault), Err(want)) => fault == want,
        _ => false,
    }
}
