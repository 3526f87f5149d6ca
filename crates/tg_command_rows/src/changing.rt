//! Commands over a pack of which a byte changes.
use crate::runs::run_changing;
use crate::said::say_ran;
use crate::setup::Setup;
use std::alloc::Global;
use tg_bytes::{Bytes, number_of};
use tg_rows::Answer;

/// Says what a command left over a pack that tells nothing, of which the byte at the place that the first field gives changes
/// once the pack was read to its end.
pub fn answer(alloc: Global, fields: &[Bytes], answer: &mut Answer) {
    let Some((place, fields)) = fields.split_first() else {
        return answer.text("no place");
    };
    let Some(place) = number_of(place.as_slice()) else {
        return answer.text("no place");
    };
    let mut setup = Setup::of(alloc, fields);
    let piece = setup.piece();
    match run_changing(alloc, &mut setup, place, piece) {
        Some(ran) => say_ran(&ran, answer),
        None => answer.text(setup.fault().unwrap_or("no folder")),
    }
}
