//! The worked example of what a mirror holds: a directory over a file of three leaves.
ghost use Rattle.std.specs.Prelude.{All, None, Some, [], ◌≡◌};
ghost use Rattle.tg_mirror_laws.specs.Mirrored.{HoldsNothing, ServesAs};
ghost use Rattle.tg_model.specs.Stores.{AddsEach, IsStore, Store};
ghost use Rattle.tg_model.specs.Traversal.{block_list};
ghost use Rattle.tg_model.specs.declared.queries.Scope.TheVariants as scopes;
ghost use Rattle.tg_oracle.specs.HelloWorld.{IsNamed, all_sections, query_for, whole_dag};

/// The five sections of the DAG are sent for a query for all of it. Where each CID names its block, a store that held
/// nothing, in which they were kept, has each of the five blocks, since their digests differ; and it serves as any store
/// does that holds the DAG.
///
/// Trustless Gateway specification, dag-scope all.
pub fn hello_mirrored()
    ensures sections { block_list (query_for [] scopes.All None) whole_dag ≡ all_sections }
    ensures held { All IsNamed all_sections → (old new : Store) → IsStore old → HoldsNothing old
        → AddsEach old new all_sections → All (λ section. new section.cid ≡ Some section.block) all_sections }
    ensures serves { All IsNamed all_sections → (old new : Store) → IsStore old → HoldsNothing old
        → AddsEach old new all_sections → ServesAs new whole_dag }
{
    tg_oracle::example_whole();
    tg_mirror_laws::laws::mirrored_dags();
}
