//! Bytes that are kept in one place, read and written at any offset in it.
ghost use Rattle.std.specs.Prelude.{◌≡◌, ◌+◌, List, length, [], ◌∷◌, ◌++◌, IfOk, OnOk, OnErr};
ghost use Rattle.tg_files.specs.Packs.{Did, HasLength, PackCalled, PackMeaning, PackQuiet, PackRose, PackWrite, ReadAt};
ghost use Rattle.tg_files.specs.Packs.{Reaches, SameContent, Untold, pack_step};
ghost use Rattle.tg_files.specs.Packs.PackWrite.{append as added, attach as attached, overwrite as overwritten};

use tg_faults::Failed;

/// Bytes that are kept in one place, such as a file, and are read, replaced and added to.
///
/// Its meaning is one record: `content` is all of its bytes, or `None` where they aren't told; `place` is where the
/// last `attach` that answered Ok attached it, and `None` before the first; `faults` counts the calls that failed and
/// stands still at 2 ^ 64 - 1; `calls` counts the calls that were made, or is `None` where that isn't told; `did`
/// relates a value, what it became, and what was done to it meanwhile, one after another: it holds the facts that the
/// kind of pack knows of itself. A write that failed may have written a part, so the bytes aren't told after it.
pub trait Pack {
    ghost pack: { PackMeaning Self };

    /// Keeps the bytes at a path of the system from now on: none where it is `fresh`, and else those that are there.
    /// The error is a fault of the pack, which stays where it was.
    fn attach(&mut self, path: &str, fresh: bool) -> Result<(), Failed>
        ensures did { OnOk result (Did (attached path.now fresh ∷ []) (pack_step pack self.old self.new)) }
        ensures quiet { OnOk result (PackQuiet (pack_step pack self.old self.new)) }
        ensures call { PackCalled (pack_step pack self.old self.new) }
        ensures err_same { OnErr result (SameContent (pack_step pack self.old self.new)) }
        ensures err_rose { OnErr result (PackRose (pack_step pack self.old self.new)) };

    /// How many bytes there are. The error is a fault of the pack.
    fn size(&mut self) -> Result<u64, Failed>
        ensures size { IfOk result (λ n. HasLength (pack.content self.old) n) }
        ensures same { SameContent (pack_step pack self.old self.new) }
        ensures quiet { OnOk result (PackQuiet (pack_step pack self.old self.new)) }
        ensures call { PackCalled (pack_step pack self.old self.new) }
        ensures err_rose { OnErr result (PackRose (pack_step pack self.old self.new)) };

    /// Reads bytes from `offset` on into the front of the buffer and says how many: none on a buffer that has room says
    /// that the pack ends at the offset or before it. The error is a fault of the pack.
    fn read_at(&mut self, offset: u64, buf: &mut [u8]) -> Result<usize, Failed>
        ensures read { IfOk result (λ n. ReadAt (pack.content self.old) offset n buf.new) }
        ensures same { SameContent (pack_step pack self.old self.new) }
        ensures quiet { OnOk result (PackQuiet (pack_step pack self.old self.new)) }
        ensures call { PackCalled (pack_step pack self.old self.new) }
        ensures err_rose { OnErr result (PackRose (pack_step pack self.old self.new)) };

    /// Puts all of the bytes in place of as many from `offset` on; a pack that outlives the program then lasts at its
    /// path, with all that was written to it, where a fresh one need not stand before. The error is a fault of the pack, whose bytes then aren't told any more.
    fn write_at(&mut self, offset: u64, bytes: &[u8]) -> Result<(), Failed>
        requires { Reaches (pack.content self.old) (offset + length bytes.now) }
        ensures did { OnOk result (Did (overwritten offset bytes.now ∷ []) (pack_step pack self.old self.new)) }
        ensures quiet { OnOk result (PackQuiet (pack_step pack self.old self.new)) }
        ensures call { PackCalled (pack_step pack self.old self.new) }
        ensures err_untold { OnErr result (Untold (pack_step pack self.old self.new)) }
        ensures err_rose { OnErr result (PackRose (pack_step pack self.old self.new)) };

    /// Adds all of the bytes at the end. The error is a fault of the pack, whose bytes then aren't told any more.
    fn append(&mut self, bytes: &[u8]) -> Result<(), Failed>
        ensures did { OnOk result (Did (added bytes.now ∷ []) (pack_step pack self.old self.new)) }
        ensures quiet { OnOk result (PackQuiet (pack_step pack self.old self.new)) }
        ensures call { PackCalled (pack_step pack self.old self.new) }
        ensures err_untold { OnErr result (Untold (pack_step pack self.old self.new)) }
        ensures err_rose { OnErr result (PackRose (pack_step pack self.old self.new)) };

    // Nothing done relates a value to itself, and one thing done after another is done.
    ghost rests: { (s : Self) → pack.did s s [] };

    ghost joins: { (a b c : Self) (u v : List PackWrite) → pack.did a b u → pack.did b c v → pack.did a c (u ++ v) };
}
