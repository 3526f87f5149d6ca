//! Where an object is attached. It exists in contracts alone.
ghost use Rattle.std.specs.Prelude.{◌≡◌, Option, Some, None};
ghost use Rattle.std.specs.Borrow.{ftrue};
ghost use Rattle.tg_files.specs.Packs.{PackPlace};

use std::marker::Model;

/// Where a pack or a folder is attached, or that it is attached nowhere. It takes no memory, and its functions do
/// nothing when they run.
#[derive(Drop)]
pub struct Place {
    pub ghost at: { Option PackPlace },
}

impl Model for Place {
    ghost also_owns = { λ _. ftrue };
}

/// A path of the system, and whether what stands there is made empty.
#[derive(Clone, Copy, Drop)]
pub(crate) struct Target<'a> {
    pub(crate) path: &'a str,
    pub(crate) fresh: bool,
}

impl Place {
    /// That of an object before it is attached.
    pub(crate) fn nowhere() -> Place
        ensures { result.at ≡ None }
    {
        Place {}
    }

    /// That of an object that was attached so.
    #[inline(always)]
    pub(crate) fn of(_target: &Target<'_>) -> Place
        ensures { result.at ≡ Some (record { path = _target.now.path.now; fresh = _target.now.fresh }) }
    {
        Place {}
    }
}
