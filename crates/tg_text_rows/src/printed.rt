//! Requests that are printed for queries, and read again.
ghost use Rattle.tg_query.specs.Requests.{IsAddr};

use crate::faults::{say_fault, say_http_fault};
use crate::queries::{query_in, query_of};
use std::alloc::Global;
use tg_bytes::Bytes;
use tg_http::{RequestHead, read_request};
use tg_query::{QueryFault, print_request};
use tg_rows::Answer;

/// The address of a gateway.
fn addr() -> &'static str
    ensures { IsAddr result.now }
{
    "localhost:8080"
}

/// The request for what a target and values of `Accept` ask.
fn printed(alloc: Global, given: &[Bytes]) -> Result<Bytes, QueryFault> {
    let query = query_in(alloc, given)?;
    Ok(print_request(alloc, &query, addr())?)
}

/// Says the request for what a target and values of `Accept` ask.
pub fn answer_printed(alloc: Global, given: &[Bytes], answer: &mut Answer) {
    match printed(alloc, given) {
        Ok(request) => answer.bytes(request.as_slice()),
        Err(fault) => say_fault(fault, answer),
    }
}

/// Says how many bytes that request has, and what is read of it again: that it is whole and the connection closes
/// behind it, and how many segments its path has.
pub fn answer_again(alloc: Global, given: &[Bytes], answer: &mut Answer) {
    match printed(alloc, given) {
        Ok(request) => say_again(alloc, request.as_slice(), answer),
        Err(fault) => say_fault(fault, answer),
    }
}

fn say_again(alloc: Global, request: &[u8], answer: &mut Answer) {
    answer.number(request.len() as u64);
    match read_request(alloc, request) {
        Ok(Some(head)) => say_head(alloc, &head, request.len(), answer),
        Ok(None) => answer.text("unfinished"),
        Err(fault) => say_http_fault(fault, answer),
    }
}

fn say_head(alloc: Global, head: &RequestHead, length: usize, answer: &mut Answer) {
    if head.used == length && head.close && !head.framed {
        answer.text("whole");
    }
    match query_of(alloc, head.target.as_slice(), &head.accept) {
        Ok(query) => answer.number(query.path().as_slice().len() as u64),
        Err(fault) => say_fault(fault, answer),
    }
}
