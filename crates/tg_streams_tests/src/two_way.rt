//! A two-way stream whose facts follow from its laws alone.
ghost use Rattle.std.specs.Prelude.{◌≡◌, ℕ, ◌<◌, List as Items, ◌++◌, take, None, OnOk, OnErr, refl};
ghost use Rattle.tg_faults.specs.Faults.{Rose};
ghost use Rattle.tg_streams.specs.Known.{beside_rests, beside_joins};

use std::alloc::Global;
use tg_bytes::Bytes;
use tg_faults::Failed;
use tg_streams::{Sink, Source, put_all, take_piece};

/// A stream in both directions, whose two counts of faults are one number.
trait TwoWay: Source + Sink {
    ghost heard: { Self → Items ℕ };

    ghost said: { Self → Items ℕ };

    ghost hears: { (a b : Self) (w : Items ℕ) → Self.Source.source.took a b w → heard b ≡ heard a ++ w };

    ghost says_on: { (a b : Self) (w : Items ℕ) → Self.Source.source.took a b w → said b ≡ said a };

    ghost says: { (a b : Self) (w : Items ℕ) → Self.Sink.sink.wrote a b w → said b ≡ said a ++ w };

    ghost hears_on: { (a b : Self) (w : Items ℕ) → Self.Sink.sink.wrote a b w → heard b ≡ heard a };

    ghost one_count: { (s : Self) → Self.Source.source.faults s ≡ Self.Sink.sink.faults s };
}

/// What a generic put leaves of a two-way stream.
fn answer<L: TwoWay>(link: &mut L, bytes: &[u8]) -> Result<(), Failed>
    ensures heard { L.heard link.new ≡ L.heard link.old }
    ensures said { OnOk result (L.said link.new ≡ L.said link.old ++ bytes.now) }
    ensures one_count { L.Source.source.faults link.new ≡ L.Sink.sink.faults link.new }
    ensures source_count { OnErr result (Rose (L.Source.source.faults link.old) (L.Source.source.faults link.new)) }
{
    put_all(link, bytes)
}

/// It hears sevens and keeps what it hears and says.
#[derive(Drop)]
struct Sevens {
    heard: Bytes,
    said: Bytes,
    faults: u64,
}

impl Source for Sevens {
    ghost source = { record {
      left = λ _. None;
      at_end = λ _. ⊥;
      faults = λ s. s.faults;
      calls = λ _. None;
      took = λ a b w. (b.heard ≡ a.heard ++ w) × (b.said ≡ a.said);
    } };

    ghost rests = { λ s. beside_rests s.heard s.said };

    ghost joins = { λ a b c u v. beside_joins a.heard b.heard c.heard a.said b.said c.said u v };

    fn take(&mut self, buf: &mut [u8]) -> Result<usize, Failed> {
        if buf.is_empty() {
            return Ok(0);
        }
        if self.heard.push_all(&[7]).is_err() {
            self.faults = self.faults.saturating_add(1);
            return Err(Failed);
        }
        buf[0] = 7;
        Ok(1)
    }
}

impl Sink for Sevens {
    ghost sink = { record {
      held = λ _. None;
      faults = λ s. s.faults;
      calls = λ _. None;
      wrote = λ a b w. (b.said ≡ a.said ++ w) × (b.heard ≡ a.heard);
    } };

    ghost rests = { λ s. beside_rests s.said s.heard };

    ghost joins = { λ a b c u v. beside_joins a.said b.said c.said a.heard b.heard c.heard u v };

    fn put(&mut self, bytes: &[u8]) -> Result<usize, Failed> {
        if self.said.push_all(bytes).is_err() {
            self.faults = self.faults.saturating_add(1);
            return Err(Failed);
        }
        Ok(bytes.len())
    }
}

impl TwoWay for Sevens {
    ghost heard = { λ s. s.heard };

    ghost said = { λ s. s.said };

    ghost hears = { λ a b w t. t.0 };

    ghost says_on = { λ a b w t. t.1 };

    ghost says = { λ a b w t. t.0 };

    ghost hears_on = { λ a b w t. t.1 };

    ghost one_count = { λ s. refl };
}

/// Whether a seven is heard, then a text is said, and both are kept.
fn keeps_both(alloc: Global) -> bool {
    let mut link = Sevens {
        heard: Bytes::new(alloc),
        said: Bytes::new(alloc),
        faults: 0,
    };
    let mut buf = [0; 3];
    let hears = take_piece(&mut link, &mut buf) == Ok(1);
    let says = answer(&mut link, b"hello") == Ok(());
    hears
        && says
        && link.heard.as_slice() == [7].as_slice()
        && link.said.as_slice() == b"hello".as_slice()
}

#[test]
fn a_link_keeps_what_it_heard(rt: HostRuntime) {
    assert!(rt; keeps_both(rt.alloc()));
}
