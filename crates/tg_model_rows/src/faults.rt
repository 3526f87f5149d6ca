//! The faults of blocks.
use tg_model::BlockFault;
use tg_rows::Answer;
use tg_unixfs::UnixFault;

/// Says why a block has no kind, or can't stand where it stands.
pub fn say_block(fault: BlockFault, answer: &mut Answer) {
    match fault {
        BlockFault::BadNode(inner) => {
            answer.text("BadNode");
            answer.shown_as(&inner);
        }
        BlockFault::BadUnix(inner) => say_unix(inner, answer),
        BlockFault::BadLink { at } => say_at("BadLink", at, answer),
        BlockFault::BadName { at } => say_at("BadName", at, answer),
        BlockFault::DoubledName { at } => say_at("DoubledName", at, answer),
        BlockFault::BadSlot { at } => say_at("BadSlot", at, answer),
        BlockFault::Misplaced { at } => say_at("Misplaced", at, answer),
        _ => say_numbers(fault, answer),
    }
}

/// Says the fault of a node's data.
fn say_unix(fault: UnixFault, answer: &mut Answer) {
    answer.text("BadUnix");
    match fault {
        UnixFault::Pb(inner) => {
            answer.text("Pb");
            answer.shown_as(&inner);
        }
        UnixFault::BadTime(inner) => {
            answer.text("BadTime");
            answer.shown_as(&inner);
        }
        _ => answer.shown_as(&fault),
    }
}

/// Says a fault of a link or a slot.
fn say_at(name: &str, at: u64, answer: &mut Answer) {
    answer.text(name);
    answer.number(at);
}

/// Says a fault with two numbers, or with none.
fn say_numbers(fault: BlockFault, answer: &mut Answer) {
    match fault {
        BlockFault::BadSizes { links, sizes } => {
            say_at("BadSizes", links, answer);
            answer.number(sizes);
        }
        BlockFault::BadBits { bits, links } => {
            say_at("BadBits", bits, answer);
            answer.number(links);
        }
        _ => say_bare(fault, answer),
    }
}

/// Says a fault without numbers.
fn say_bare(fault: BlockFault, answer: &mut Answer) {
    answer.text(match fault {
        BlockFault::NoUnix => "NoUnix",
        BlockFault::HugeSizes => "HugeSizes",
        BlockFault::BadShape => "BadShape",
        BlockFault::BelowEight => "BelowEight",
        BlockFault::NotShard => "NotShard",
        BlockFault::NotPart => "NotPart",
        _ => "OutOfMemory",
    });
}
