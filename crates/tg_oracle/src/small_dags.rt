//! Values of the definitions on small DAGs.
ghost use Rattle.std.specs.Prelude.{◌≡◌, ℕ, [], ◌∷◌, ◌++◌, None, Some, codes, map, replicate};
ghost use Rattle.tg_model.specs.Answer.{answer, named_of};
ghost use Rattle.tg_model.specs.Content.{content, entries};
ghost use Rattle.tg_model.specs.Lookup.{found, lookup_path, not_folder, not_there};
ghost use Rattle.tg_model.specs.PathWalk.{not_reached, path_walk, terminal};
ghost use Rattle.tg_model.specs.PathWalk as walk;
ghost use Rattle.tg_oracle.specs.SmallDags.{asking, asking_once, asking_raw, with_own_digest};
ghost use Rattle.tg_oracle.specs.SmallDags.{with_version_zero};
ghost use Rattle.tg_oracle.specs.SmallDags.{folder, folder_dag, hell, inner, inner_dag, link, link_dag};
ghost use Rattle.tg_oracle.specs.SmallDags.{no_bytes, nothing, one_shard, one_shard_dag, one_shard_slots, inner_slots};
ghost use Rattle.tg_oracle.specs.SmallDags.{over_inner, parent, parent_dag, raw_leaf, twin_file, twins, two_to_five};
ghost use Rattle.tg_model.specs.Sound.{position_fault, shard_fault, child, part};
ghost use Rattle.tg_model.specs.Texts.{listing_line, Named};
ghost use Rattle.tg_model.specs.Traversal.{block_list, sent, traversal};
ghost use Rattle.tg_model.specs.Counts.{counts};
ghost use Rattle.tg_model.specs.Dag.{Dag, unopened};
ghost use Rattle.tg_model.specs.declared.fault.BlockFault.TheVariants as faults;
ghost use Rattle.tg_model.specs.declared.kinds.Kind.TheVariants.{Shard};
ghost use Rattle.tg_model.specs.declared.queries.Scope.TheVariants as scopes;

/// A part of no length inside a range isn't opened, and without a range it is; equal parts are sent at each place, or
/// once without repeats; an empty range opens no part.
pub fn small_files()
    ensures content { content twin_file ≡ codes "hellhell" }
    ensures entity { block_list (asking [] scopes.Entity None) twin_file ≡ twins ∷ hell ∷ nothing ∷ hell ∷ [] }
    ensures inside { block_list (asking [] scopes.Entity (Some two_to_five)) twin_file ≡ twins ∷ hell ∷ hell ∷ [] }
    ensures answer { answer (asking [] scopes.Entity (Some two_to_five)) twin_file ≡ Some (codes "llhe") }
    // Each block once: the first under each CID; a version or a codec more is another CID.
    ensures once { block_list (asking_once scopes.Entity None) twin_file ≡ twins ∷ hell ∷ nothing ∷ [] }
    ensures once_inside { block_list (asking_once scopes.Entity (Some two_to_five)) twin_file ≡ twins ∷ hell ∷ [] }
    ensures versions { sent (asking_once scopes.Entity None) (twins ∷ with_version_zero twins ∷ twins ∷ [])
        ≡ twins ∷ with_version_zero twins ∷ [] }
    // A block of an identity CID isn't asked for, but for the root of a raw query.
    ensures unsent { sent (asking [] scopes.Entity None) (twins ∷ with_own_digest hell ∷ hell ∷ []) ≡ twins ∷ hell ∷ [] }
    ensures unsent_once { sent (asking_once scopes.Entity None) (hell ∷ with_own_digest hell ∷ hell ∷ []) ≡ hell ∷ [] }
    ensures raw_sent { sent asking_raw (with_own_digest hell ∷ []) ≡ with_own_digest hell ∷ [] }
    ensures counted { (counts (asking_once scopes.Entity None) twin_file).reused ≡ 1 }
    ensures empty { block_list (asking [] scopes.Entity (Some no_bytes)) twin_file ≡ twins ∷ [] }
    ensures no_answer { answer (asking [] scopes.Entity (Some no_bytes)) twin_file ≡ Some [] }
{}

/// A symbolic link says its target, with a range and without, and is not followed; a range of a directory is ignored.
pub fn small_directories()
    ensures target { answer (asking [] scopes.Entity None) link_dag ≡ Some (codes "far") }
    ensures target_in_range { answer (asking [] scopes.Entity (Some two_to_five)) link_dag ≡ Some (codes "far") }
    ensures target_sent { block_list (asking [] scopes.Entity (Some two_to_five)) link_dag ≡ link ∷ [] }
    ensures not_followed { lookup_path (codes "l" ∷ codes "x" ∷ []) folder_dag ≡ not_folder 1 }
    ensures entity { block_list (asking [] scopes.Entity None) folder_dag ≡ folder ∷ [] }
    ensures in_range { traversal (asking [] scopes.Entity (Some two_to_five)) folder_dag ≡ traversal
        (asking [] scopes.Entity None) folder_dag }
    ensures all { block_list (asking [] scopes.All None) folder_dag ≡ folder ∷ link ∷ twins ∷ hell ∷ nothing ∷ hell
        ∷ [] }
{}

/// Entries of shards stand behind the slots of their names; a name whose slot is unused or another's leads nowhere, and
/// one whose slot has a child shard goes on there.
pub fn small_shards()
    ensures one_stands { shard_fault [] one_shard_slots ≡ None }
    ensures one_elsewhere { shard_fault [] inner_slots ≡ Some (faults.Misplaced 0) }
    ensures inner_stands { shard_fault (0xBC ∷ []) inner_slots ≡ None }
    // A part that is a misplaced shard is told as misplaced, and any other shard as no part.
    ensures part_elsewhere { position_fault (part 4) (Shard inner_slots) ≡ Some (faults.Misplaced 0) }
    ensures part_stands { position_fault (part 4) (Shard one_shard_slots) ≡ Some faults.NotPart }
    ensures too_deep { shard_fault (replicate 8 0) one_shard_slots ≡ Some faults.BelowEight }
    ensures hello { path_walk (codes "hello" ∷ []) one_shard_dag ≡ record {
      sections = one_shard
          ∷ [];
      end = terminal (raw_leaf hell);
    } }
    ensures absent { path_walk (codes "hellp" ∷ []) one_shard_dag ≡ record {
      sections = one_shard
          ∷ [];
      end = not_reached (walk.not_there 0);
    } }
    ensures behind { path_walk (codes "hello" ∷ codes "x" ∷ []) one_shard_dag
        ≡ record { sections = one_shard ∷ hell ∷ []; end = not_reached (walk.not_folder 1) } }
    ensures inside { path_walk (codes "q" ∷ []) parent_dag ≡ record {
      sections = parent ∷ inner
          ∷ [];
      end = terminal (raw_leaf hell);
    } }
    ensures same_slot { path_walk (codes "cm" ∷ []) parent_dag ≡ record {
      sections = parent ∷ inner
          ∷ [];
      end = not_reached (walk.not_there 0);
    } }
    ensures unused { path_walk (codes "zz" ∷ []) parent_dag ≡ record {
      sections = parent
          ∷ [];
      end = not_reached (walk.not_there 0);
    } }
    ensures gone { path_walk (codes "q" ∷ []) (over_inner (unopened inner.cid)) ≡ record {
      sections = parent
          ∷ [];
      end = not_reached (walk.gone (record { cid = inner.cid; depth = 2; position = child (0xBC ∷ []) }));
    } }
    ensures entity { block_list (asking [] scopes.Entity None) parent_dag ≡ parent ∷ inner ∷ [] }
    ensures entries { map (λ entry. entry.name) (entries parent_dag) ≡ codes "m" ∷ codes "q" ∷ codes "g" ∷ [] }
{}
