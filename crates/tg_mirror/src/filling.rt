//! A store in a pack that is filled.
use tg_cid::Cid;
use tg_files::Pack;
use tg_model::{Keep, KeepFault};
use tg_store::PackStore;

/// A store in a pack that is filled: it keeps what the store does, and says besides that the pack's count of faults doesn't
/// fall meanwhile.
#[derive(Drop)]
pub(crate) struct Filling<P: Pack> {
    pub(crate) store: PackStore<P>,
}

impl<P: Pack> Keep for Filling<P> {
    ghost use Rattle.tg_mirror.specs.Filled.{HasFilled, filled_joins, filled_rests};
    ghost use Rattle.tg_store.specs.PackLaws.{told_store};
    ghost use Rattle.tg_store.specs.Packs.{stored_in};

    ghost keeper = { record {
      stored = λ s. stored_in (P.pack.content s.store.pack) s.store.places;
      faults = λ s. P.pack.faults s.store.pack;
      kept = λ a b sections. HasFilled P.pack a.store b.store sections;
    } };

    ghost told = { λ s. told_store (P.pack.content s.store.pack) s.store.places };

    ghost rests = { λ s. filled_rests P.pack P.rests P.joins s.store };

    ghost joins = { λ a b c u v. filled_joins P.pack P.rests P.joins a.store b.store c.store u v };

    fn keep(&mut self, cid: Cid, block: &[u8]) -> Result<(), KeepFault> {
        self.store.keep(cid, block)
    }
}
