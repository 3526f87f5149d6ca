//! The UnixFS data of a text as a function in proofs.
ghost use Rattle.std.specs.Prelude.{◌≡◌, ℕ, ◌<◌, ◌↔◌, List, All, Ok, Err};
ghost use Rattle.tg_unixfs.specs.Unix.{UnixText};
ghost use Rattle.tg_unixfs.specs.Faults.{HasUnixCause};
ghost use Rattle.tg_unixfs.specs.Computed.{unix_of};
ghost use Rattle.tg_unixfs.specs.declared.Unix.{Unix};
ghost use Rattle.tg_unixfs.specs.declared.UnixFault.{UnixFault};

/// A text of bytes has just the data, or just the fault, that `unix_of` computes.
pub fn computes()
    ensures data { (text : List ℕ) (unix : Unix) → All (λ b. b < 256) text
        → (unix_of text ≡ Ok unix) ↔ UnixText unix text }
    ensures fault { (text : List ℕ) (fault : UnixFault) → All (λ b. b < 256) text
        → (unix_of text ≡ Err fault) ↔ HasUnixCause text fault }
{
    tg_pbtable::laws::table_laws();
}
