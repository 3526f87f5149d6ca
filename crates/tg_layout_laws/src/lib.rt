//! The importer's layout determines the DAG of a tree of files: laws over the definitions alone, each the contract of a
//! function that does nothing. Code calls such a function where its own proof needs the law.
#![tactic(auto)]

ghost use Rattle.std.specs.Prelude.{◌≡◌, All};
ghost use Rattle.tg_model.specs.Content.{content};
ghost use Rattle.tg_model.specs.Dag.{Dag, blocks, root_cid};
ghost use Rattle.tg_model.specs.ImportLayout.{HasPlainCid, IsImportLayout, IsLaidAt, IsLaidFile, LayoutOptions};
ghost use Rattle.tg_model.specs.Sound.{IsSound, top};
ghost use Rattle.tg_tree.specs.declared.tree.Tree.{Tree};

/// A tree of files has at most one DAG in the layout: two sound DAGs that are laid out for it are the same. And
/// whatever the tree, files in the layout with one content are the same.
///
/// UnixFS specification: File, Directory, HAMTDirectory.
pub fn one_layout()
    ensures one { (options : LayoutOptions) (tree : Tree) (d e : Dag) → IsSound d → IsSound e
        → IsImportLayout d tree options → IsImportLayout e tree options → d ≡ e }
    ensures file { (options : LayoutOptions) (d e : Dag) → IsSound d → IsSound e
        → IsLaidFile options d → IsLaidFile options e → IsLaidAt options top d → IsLaidAt options top e
        → All HasPlainCid (blocks d) → All HasPlainCid (blocks e) → content d ≡ content e → d ≡ e }
{
    tg_model::laws::readings();
    tg_model::laws::big_endians();
    tg_model_laws::placed_shards();
    tg_dagpb::laws::one_text();
    tg_unixfs::laws::one_text();
    tg_unixfs::laws::one_data();
    tg_cid::laws::one_spelling();
    tg_cid::laws::digest_laws();
}

/// So a tree of files has at most one root in the layout.
pub fn one_root()
    ensures { (options : LayoutOptions) (tree : Tree) (d e : Dag) → IsSound d → IsSound e
        → IsImportLayout d tree options → IsImportLayout e tree options → root_cid d ≡ root_cid e }
{
    one_layout();
}
