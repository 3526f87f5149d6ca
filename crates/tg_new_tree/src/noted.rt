//! What was made of a new tree, as its calls answered. It exists in contracts alone.
ghost use Rattle.std.specs.Prelude.{◌≡◌, List};
ghost use Rattle.std.specs.Borrow.{ftrue};
ghost use Rattle.tg_new_tree.specs.declared.made.Made.{Made};

use std::marker::Model;
use tg_bytes::Bytes;

/// What was made of a tree. It takes no memory, and its function does nothing when it runs.
#[derive(Drop)]
pub(crate) struct Noted {
    pub(crate) ghost made: { List Made },
}

impl Model for Noted {
    ghost also_owns = { λ _. ftrue };
}

/// What was made of a tree by now: nothing, or what was made before and one more folder, one more file, which is empty, or more bytes of the
/// file that was made last.
#[derive(Drop)]
pub(crate) enum Now<'a> {
    Nothing,
    Folder(&'a Noted, &'a [Bytes]),
    File(&'a Noted, &'a [Bytes]),
    More(&'a Noted, &'a [u8]),
}

impl Noted {
    ghost use Rattle.tg_new_tree.specs.Now.{made_now};

    /// What was made by now.
    #[inline(always)]
    pub(crate) fn of(_now: &Now<'_>) -> Noted
        ensures { result.made ≡ made_now _now.now }
    {
        Noted {}
    }
}
