//! Faults, by their names and as they are printed.
use tg_bytes::{Bytes, number_of};
use tg_cid::CidFault;
use tg_http::HttpFault;
use tg_query::QueryFault;
use tg_rows::Answer;

/// Says a fault, and how it is printed where that isn't its name.
pub fn say_fault(fault: QueryFault, answer: &mut Answer) {
    let name = name_of(fault);
    answer.text(name);
    answer.printed(&fault, name);
    if let QueryFault::BadCid(of_cid) = fault {
        answer.shown_as(&of_cid);
    }
}

fn name_of(fault: QueryFault) -> &'static str {
    match fault {
        QueryFault::BadPath => "BadPath",
        QueryFault::BadCid(_) => "BadCid",
        QueryFault::NoFormat => "NoFormat",
        QueryFault::BadFormat => "BadFormat",
        QueryFault::BadScope => "BadScope",
        QueryFault::BadRange => "BadRange",
        QueryFault::Doubled => "Doubled",
        QueryFault::BadParam => "BadParam",
        QueryFault::RawPath => "RawPath",
        QueryFault::OutOfMemory => "OutOfMemory",
    }
}

/// What the fault of a CID that is short at this byte, or else want of memory, is as a fault of a query.
pub fn answer_wrap(given: &[Bytes], answer: &mut Answer) {
    let fault = match given.first() {
        Some(at) => match number_of(at.as_slice()) {
            Some(at) => CidFault::Short { at },
            None => return answer.text("no number"),
        },
        None => CidFault::OutOfMemory,
    };
    say_fault(QueryFault::from(fault), answer);
}

/// Says why bytes are no head or no body, and how that is printed where it isn't its name.
pub fn say_http_fault(fault: HttpFault, answer: &mut Answer) {
    let name = match fault {
        HttpFault::BadHead => "BadHead",
        HttpFault::HeadLimit => "HeadLimit",
        HttpFault::BadFraming => "BadFraming",
        HttpFault::OutOfMemory => "OutOfMemory",
    };
    answer.text(name);
    answer.printed(&fault, name);
}
