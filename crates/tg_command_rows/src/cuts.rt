//! A command over each front of its input.
use crate::groups::Groups;
use crate::runs::run_setup;
use crate::said::say_ran;
use crate::setup::Setup;
use std::alloc::Global;
use tg_bytes::Bytes;
use tg_rows::Answer;

/// Says what is left of a run over no bytes of the input, over its first, and so on up to all of it: each once, and how many
/// lengths one behind another leave it.
pub fn answer(alloc: Global, fields: &[Bytes], answer: &mut Answer) {
    let length = Setup::of(alloc, fields).input_length();
    let mut groups = Groups::new(alloc);
    for size in 0..=length {
        let mut cut = Answer::new(alloc);
        say_cut(alloc, fields, size, &mut cut);
        if groups.turns(&cut, answer) {
            say_cut(alloc, fields, size, answer);
        }
    }
    groups.end(answer);
}

/// Says what is left of a run over so many bytes of the input.
fn say_cut(alloc: Global, fields: &[Bytes], size: usize, answer: &mut Answer) {
    let mut setup = Setup::of(alloc, fields);
    let piece = setup.piece();
    setup.leave_front(size);
    match run_setup(alloc, &mut setup, piece) {
        Some(ran) => say_ran(&ran, answer),
        None => answer.text(setup.fault().unwrap_or("no folder")),
    }
}
