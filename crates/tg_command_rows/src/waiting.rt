//! Dials in memory that may say of no link that it is ready.
ghost use Rattle.tg_dials.specs.Memory.{mem_dial};

use std::marker::Model;
use tg_dials::{Dial, MemDial, first_link};
use tg_faults::Failed;
use tg_links::MemLink;

/// A dial in memory, each of whose links is ready where `ready` holds, and none where it doesn't.
#[derive(Drop)]
pub struct WaitingDial {
    pub inner: MemDial,
    pub ready: bool,
}

impl Model for WaitingDial {
    ghost use Rattle.tg_dials.specs.Memory.{DialState};

    ghost Value = { DialState };

    ghost view = { λ d. d.inner };
}

impl Dial for WaitingDial {
    type Link = MemLink;

    ghost dial = { mem_dial };

    fn hurry(&mut self) {
        self.inner.hurry();
    }

    fn dial(&mut self, addr: &str) -> Result<MemLink, Failed> {
        self.inner.dial(addr)
    }

    fn is_ready(&mut self, _link: &MemLink) -> bool {
        self.ready
    }

    fn wait(&mut self, links: &[Option<MemLink>]) -> usize {
        first_link(links)
    }

    fn done(&mut self, link: MemLink) {
        self.inner.done(link);
    }
}
