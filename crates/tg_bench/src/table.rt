//! The scan of a protobuf text with many fields: its time a byte stays the same as the text grows.
use crate::speeds::{filled, speed};
use std::io;
use std::rt::Clock;
use std::time::Instant;
use tg_pbtable::{Order, Rule, Times, Wire, scan};

const TABLE: &[Rule; 2] = &[
    Rule {
        number: 1,
        wire: Wire::Bytes,
        times: Times::Optional,
    },
    Rule {
        number: 2,
        wire: Wire::Bytes,
        times: Times::Many,
    },
];

/// The spelling of one field of number 2 with 38 bytes: 40 bytes in all.
const FIELD: [u8; 40] = *b"\x12\x26abcdefghijklmnopqrstuvwxyz0123456789ab";

/// Prints the speed of the scan for texts of 12,500 to 50,000 fields, the last of 2,000,000 bytes.
pub fn run(rt: &(impl Clock + Print + AllocGlobal)) -> io::Result<()> {
    scan_of(rt, 12_500)?;
    scan_of(rt, 25_000)?;
    scan_of(rt, 50_000)
}

/// The same for a text of so many fields.
fn scan_of(rt: &(impl Clock + Print + AllocGlobal), fields: usize) -> io::Result<()> {
    let text = filled(rt.alloc(), b"", fields, &FIELD)?;
    report(rt, fields, text.as_slice())
}

/// The same for this text.
fn report(rt: &(impl Clock + Print + AllocGlobal), fields: usize, text: &[u8]) -> io::Result<()> {
    let begin = Instant::now(rt)?;
    let found = scan(rt.alloc(), TABLE, Order::Runs, text).is_ok();
    let speed = speed(text.len(), begin.elapsed(rt)?);
    println!(rt;
        "scan of {fields} fields, {} bytes: {speed} MB/s (read: {found})",
        text.len()
    )
}
