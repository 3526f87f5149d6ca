//! The worked example of the definitions: a file of three leaves in a directory.
ghost use Rattle.std.specs.Prelude.{◌≡◌, ℕ, [], ◌∷◌, ◌++◌, None, Some, Ok, All, codes, length, map};
ghost use Rattle.tg_cid.specs.Names.{Names};
ghost use Rattle.tg_tree.specs.declared.tree.Tree.{Tree};
ghost use Rattle.tg_model.specs.Answer.{answer};
ghost use Rattle.tg_model.specs.Computed.{read};
ghost use Rattle.tg_model.specs.Content.{content};
ghost use Rattle.tg_model.specs.Counts.{counts};
ghost use Rattle.tg_model.specs.Dag.{Dag, Section, blocks, root_cid};
ghost use Rattle.tg_model.specs.Fits.{Fits, IsInProgress, output_so_far};
ghost use Rattle.tg_model.specs.ImportLayout.{IsImportLayout};
ghost use Rattle.tg_oracle.specs.HelloWorld.{IsHelloFolder, IsNamed, all_sections, at_h, d, d_block, d_cid, d_kind};
ghost use Rattle.tg_oracle.specs.HelloWorld.{directory_of, f, f_block, f_cid, f_kind, file_of, first_dag, five_to_six};
ghost use Rattle.tg_oracle.specs.HelloWorld.{holding, l1, l1_cid, l2, l2_cid, l2_spot, l3, l3_cid, last_three, leaf};
ghost use Rattle.tg_oracle.specs.HelloWorld.{leafless_dag, middle_dag, options_of_four, past_the_end, query_for};
ghost use Rattle.tg_oracle.specs.HelloWorld.{whole_dag};
ghost use Rattle.tg_model.specs.Lookup.{found, lookup_path, not_folder, not_there};
ghost use Rattle.tg_model.specs.PathWalk.{gone, path_walk, stopped, terminal, whole};
ghost use Rattle.tg_model.specs.ShowsTree.{Shows};
ghost use Rattle.tg_model.specs.Sound.{IsSound};
ghost use Rattle.tg_model.specs.StoreView.{store_view};
ghost use Rattle.tg_model.specs.Traversal.{block_list, traversal};
ghost use Rattle.tg_model.specs.declared.queries.Scope.TheVariants as scopes;

/// The blocks are read as a file of three parts and as a directory with it.
pub fn example_blocks()
    ensures file { read f_cid f_block ≡ Ok f_kind }
    ensures directory { read d_cid d_block ≡ Ok d_kind }
{}

/// The whole DAG is sound, since each of its blocks is named by its CID; what it says, and what is sent of it for a
/// query.
pub fn example_whole()
    ensures sound { All IsNamed all_sections → IsSound whole_dag }
    ensures content { content (file_of (leaf l1) (leaf l2) (leaf l3)) ≡ codes "hello world" }
    ensures path { lookup_path at_h whole_dag ≡ found (file_of (leaf l1) (leaf l2) (leaf l3)) }
    ensures walk { (path_walk at_h whole_dag).end ≡ terminal (file_of (leaf l1) (leaf l2) (leaf l3)) }
    ensures absent { lookup_path (codes "x" ∷ []) whole_dag ≡ not_there 0 }
    ensures not_folder { lookup_path (codes "h" ∷ codes "x" ∷ []) whole_dag ≡ not_folder 1 }
    ensures entity { block_list (query_for at_h scopes.Entity None) whole_dag ≡ d ∷ f ∷ l1 ∷ l2 ∷ l3 ∷ [] }
    ensures block { block_list (query_for at_h scopes.Block None) whole_dag ≡ d ∷ f ∷ [] }
    ensures listing { block_list (query_for [] scopes.Entity None) whole_dag ≡ d ∷ [] }
    ensures inside { block_list (query_for at_h scopes.Entity (Some five_to_six)) whole_dag ≡ d ∷ f ∷ l2 ∷ [] }
    ensures past { block_list (query_for at_h scopes.Entity (Some past_the_end)) whole_dag ≡ d ∷ f ∷ [] }
    ensures from_end { block_list (query_for at_h scopes.Entity (Some last_three)) whole_dag ≡ d ∷ f ∷ l3 ∷ [] }
    ensures answer { answer (query_for at_h scopes.Entity (Some five_to_six)) whole_dag ≡ Some (codes " w") }
    ensures end { answer (query_for at_h scopes.Entity (Some last_three)) whole_dag ≡ Some (codes "rld") }
    ensures nothing { answer (query_for at_h scopes.Entity (Some past_the_end)) whole_dag ≡ Some [] }
    ensures lines { answer (query_for [] scopes.Entity None) whole_dag
        ≡ Some (codes "bafybeighmzuokpuzyho2ninhgybpych6atkhbn2o57c3hlyer2hntezxly h" ++ 10 ∷ []) }
    ensures bundle { answer (query_for [] scopes.All None) whole_dag
        ≡ Some (codes "dir /" ++ 10 ∷ codes "file 11 /h" ++ 10 ∷ codes "hello world" ++ 10 ∷ []) }
{
    example_blocks();
    tg_model::laws::readings();
}

/// With one leaf opened of the three, the range that meets it comes through and fits; with none, that leaf is wanted;
/// and without a range what is written ends before the first leaf that isn't there.
pub fn example_partial()
    ensures through { traversal (query_for at_h scopes.Entity (Some five_to_six)) middle_dag ≡ traversal
        (query_for at_h scopes.Entity (Some five_to_six)) whole_dag }
    ensures fits { All IsNamed all_sections
        → Fits middle_dag (query_for at_h scopes.Entity (Some five_to_six)) (d ∷ f ∷ l2 ∷ []) (codes " w") }
    ensures in_progress { All IsNamed all_sections
        → IsInProgress leafless_dag (query_for at_h scopes.Entity (Some five_to_six)) (d ∷ f ∷ []) l2_spot }
    ensures wanted { (traversal (query_for at_h scopes.Entity None) first_dag).end ≡ stopped (gone l2_spot) }
    ensures so_far { output_so_far (query_for at_h scopes.Entity None) first_dag ≡ codes "hell" }
    ensures counts { counts (query_for at_h scopes.Entity None) whole_dag
        ≡ record {
          block = 144;
          depth = 3;
          entries = 0;
          names = 0;
          received = 0;
          output = 11;
          seen_blocks = 0;
          seen_bytes = 0;
          reused = 0;
        } }
    ensures listed { counts (query_for [] scopes.Entity None) whole_dag
        ≡ record {
          block = 50;
          depth = 1;
          entries = 1;
          names = 1;
          received = 0;
          output = 62;
          seen_blocks = 0;
          seen_bytes = 0;
          reused = 0;
        } }
    ensures view { store_view holding d_cid ≡ middle_dag }
{
    example_blocks();
    tg_model::laws::readings();
}

/// The whole DAG shows a folder with the one file `h`, and is the layout that an import with chunks of 4 bytes gives
/// it. Any sound DAG that is laid out so for this folder has its root.
pub fn example_import()
    ensures shows { (tree file : Tree) → IsHelloFolder tree file → Shows whole_dag tree }
    ensures layout { (tree file : Tree) → IsHelloFolder tree file → IsImportLayout whole_dag tree options_of_four }
    ensures only { All IsNamed all_sections → (tree file : Tree) (e : Dag) → IsHelloFolder tree file → IsSound e
        → IsImportLayout e tree options_of_four → root_cid e ≡ d_cid }
{
    example_whole();
    tg_layout_laws::one_root();
    tg_pbtable::laws::table_laws();
    tg_pbtable::laws::computes();
    tg_dagpb::laws::computes();
    tg_unixfs::laws::computes();
    tg_cid::laws::computes();
}
