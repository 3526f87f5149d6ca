//! A pack in memory, which fails at the calls that it is given.
ghost use Rattle.std.specs.Prelude.{◌≡◌, ◌+◌, ◌-◌, ◌↔◌, min, [], ◌∷◌, length, drop, Some, None, IsErr, Contains, OnErr};
ghost use Rattle.std.specs.Prelude.{OnOk, IfOk, IfSome, option_copied};
ghost use Rattle.tg_faults.specs.Faults.{counted};
ghost use Rattle.tg_files.specs.Packs.{Did, HasLength, PackCalled, PackQuiet, PackRose, ReadAt, Reaches, SameContent};
ghost use Rattle.tg_files.specs.Packs.{Untold, mem_pack, pack_joins, pack_rests, pack_step};
ghost use Rattle.tg_files.specs.Packs.PackWrite.{append as added, attach as attached, overwrite as overwritten};

use crate::packs::Pack;
use crate::place::{Place, Target};
use crate::reading::read_front;
use std::marker::Model;
use tg_bytes::{Bytes, List};
use tg_faults::{Calls, Failed};

/// A pack in memory. The calls are numbered from 0, and those whose numbers it was given fail. Its bytes are dropped
/// where a write fails: it tells nothing from then on, holds nothing and takes what is written without keeping it.
#[derive(Drop)]
pub struct MemPack {
    content: Option<Bytes>,
    place: Place,
    calls: Calls,
}

impl Model for MemPack {
    ghost use Rattle.tg_files.specs.Packs.{PackState};

    ghost Value = { PackState };

    ghost view = { λ p. record {
      content = p.content;
      place = p.place.at;
      fails = p.calls.fails;
      calls = p.calls.made;
      faults = p.calls.faults;
    } };
}

impl MemPack {
    /// A pack of these bytes. The calls whose numbers stand in `fails`, counted from 0, fail.
    pub fn new(content: Bytes, fails: List<u64>) -> MemPack
        ensures { result ≡ record { content = Some content; place = None; fails = fails; calls = 0; faults = 0 } }
    {
        MemPack {
            content: Some(content),
            place: Place::nowhere(),
            calls: Calls::new(fails),
        }
    }

    /// What it holds, until a write fails.
    pub fn content(&self) -> Option<&[u8]>
        ensures { option_copied result ≡ self.now.content }
    {
        match &self.content {
            Some(content) => Some(content.as_slice()),
            None => None,
        }
    }

    /// How many calls failed.
    pub fn count(&self) -> u64
        ensures { result ≡ self.now.faults }
    {
        self.calls.faults
    }

    /// What it holds, and nothing once a write failed.
    fn bytes(&self) -> &[u8]
        ensures { IfSome self.now.content (λ content. result.now ≡ content) }
    {
        match &self.content {
            Some(content) => content.as_slice(),
            None => &[],
        }
    }
}

impl Pack for MemPack {
    ghost pack = { mem_pack };

    ghost rests = { λ p. pack_rests p };

    ghost joins = { λ a b c u v. pack_joins a b c u v };

    /// The path isn't looked for. It fails exactly where the call's number stands in the list that it was given.
    fn attach(&mut self, path: &str, fresh: bool) -> Result<(), Failed>
        ensures did { OnOk result (Did (attached path.now fresh ∷ []) (pack_step mem_pack self.old self.new)) }
        ensures quiet { OnOk result (PackQuiet (pack_step mem_pack self.old self.new)) }
        ensures call { PackCalled (pack_step mem_pack self.old self.new) }
        ensures err_same { OnErr result (SameContent (pack_step mem_pack self.old self.new)) }
        ensures err_rose { OnErr result (PackRose (pack_step mem_pack self.old self.new)) }

        ensures fails { IsErr result ↔ Contains self.old.fails self.old.calls }
        ensures kept { self.new.fails ≡ self.old.fails }
        ensures err_count { OnErr result (self.new.faults ≡ counted self.old.faults) }
    {
        self.calls.next()?;
        if fresh && let Some(content) = &mut self.content {
            content.clear();
        }
        self.place = Place::of(&Target { path, fresh });
        Ok(())
    }

    /// How many bytes it holds. It fails exactly where the call's number stands in the list that it was given.
    fn size(&mut self) -> Result<u64, Failed>
        ensures size { IfOk result (λ n. HasLength self.old.content n) }
        ensures same { SameContent (pack_step mem_pack self.old self.new) }
        ensures quiet { OnOk result (PackQuiet (pack_step mem_pack self.old self.new)) }
        ensures call { PackCalled (pack_step mem_pack self.old self.new) }
        ensures err_rose { OnErr result (PackRose (pack_step mem_pack self.old self.new)) }

        ensures fails { IsErr result ↔ Contains self.old.fails self.old.calls }
        ensures kept { self.new.fails ≡ self.old.fails }
        ensures err_count { OnErr result (self.new.faults ≡ counted self.old.faults) }
    {
        self.calls.next()?;
        Ok(self.bytes().len() as u64)
    }

    /// Reads as many bytes as the buffer and the pack allow. It fails exactly where the call's number stands in the
    /// list that it was given.
    fn read_at(&mut self, offset: u64, buf: &mut [u8]) -> Result<usize, Failed>
        ensures read { IfOk result (λ n. ReadAt self.old.content offset n buf.new) }
        ensures same { SameContent (pack_step mem_pack self.old self.new) }
        ensures quiet { OnOk result (PackQuiet (pack_step mem_pack self.old self.new)) }
        ensures call { PackCalled (pack_step mem_pack self.old self.new) }
        ensures err_rose { OnErr result (PackRose (pack_step mem_pack self.old self.new)) }

        ensures fails { IsErr result ↔ Contains self.old.fails self.old.calls }
        ensures amount { IfOk result (λ n. IfSome self.old.content
            (λ held. n ≡ min (length buf.new) (length held - offset))) }
        ensures others { IfOk result (λ n. drop n buf.new ≡ drop n buf.old) }
        ensures err_buffer { OnErr result (buf.new ≡ buf.old) }
        ensures kept { self.new.fails ≡ self.old.fails }
        ensures err_count { OnErr result (self.new.faults ≡ counted self.old.faults) }
    {
        self.calls.next()?;
        Ok(read_front(self.bytes(), offset, buf))
    }

    /// It fails exactly where the call's number stands in the list that it was given.
    fn write_at(&mut self, offset: u64, bytes: &[u8]) -> Result<(), Failed>
        requires { Reaches self.old.content (offset + length bytes.now) }
        ensures did { OnOk result (Did (overwritten offset bytes.now ∷ []) (pack_step mem_pack self.old self.new)) }
        ensures quiet { OnOk result (PackQuiet (pack_step mem_pack self.old self.new)) }
        ensures call { PackCalled (pack_step mem_pack self.old self.new) }
        ensures err_untold { OnErr result (Untold (pack_step mem_pack self.old self.new)) }
        ensures err_rose { OnErr result (PackRose (pack_step mem_pack self.old self.new)) }

        ensures fails { IsErr result ↔ Contains self.old.fails self.old.calls }
        ensures kept { self.new.fails ≡ self.old.fails }
        ensures err_count { OnErr result (self.new.faults ≡ counted self.old.faults) }
    {
        if let Err(fault) = self.calls.next() {
            self.content = None;
            return Err(fault);
        }
        if let Some(content) = &mut self.content {
            content.overwrite(offset as usize, bytes);
        }
        Ok(())
    }

    /// It fails where the call's number stands in the list that it was given, and for want of memory alone besides.
    fn append(&mut self, bytes: &[u8]) -> Result<(), Failed>
        ensures did { OnOk result (Did (added bytes.now ∷ []) (pack_step mem_pack self.old self.new)) }
        ensures quiet { OnOk result (PackQuiet (pack_step mem_pack self.old self.new)) }
        ensures call { PackCalled (pack_step mem_pack self.old self.new) }
        ensures err_untold { OnErr result (Untold (pack_step mem_pack self.old self.new)) }
        ensures err_rose { OnErr result (PackRose (pack_step mem_pack self.old self.new)) }

        ensures fails { Contains self.old.fails self.old.calls → IsErr result }
        ensures kept { self.new.fails ≡ self.old.fails }
        ensures err_count { OnErr result (self.new.faults ≡ counted self.old.faults) }
    {
        if let Err(fault) = self.calls.next() {
            self.content = None;
            return Err(fault);
        }
        if let Some(content) = &mut self.content
            && content.push_all(bytes).is_err()
        {
            self.content = None;
            return Err(self.calls.fault());
        }
        Ok(())
    }
}
