//! Laws of sound DAGs.
ghost use Rattle.std.specs.Prelude.{◌≡◌, ◌++◌, ℕ, true, false, List, map};
ghost use Rattle.tg_model.specs.Answer.{is_listed, named_of, node_text};
ghost use Rattle.tg_model.specs.Content.{entries};
ghost use Rattle.tg_model.specs.Dag.{Dag, blocks};
ghost use Rattle.tg_model.specs.Ends.{EndsAlike};
ghost use Rattle.tg_model.specs.Lookup.{lookup_path};
ghost use Rattle.tg_model.specs.PathWalk.{path_walk, terminal, whole};
ghost use Rattle.tg_model.specs.Queries.{QueryParts};
ghost use Rattle.tg_model.specs.Sound.{IsSound};
ghost use Rattle.tg_model.specs.Traversal.{named_met, opened_list, traversal};
ghost use Rattle.tg_model.specs.declared.queries.Scope.TheVariants as scopes;

/// In a sound DAG the walk along a path by slots ends as the look-up by names does: at the same node, or with the same
/// end at the same segment.
///
/// Path Gateway specification, Path Resolution; UnixFS specification, HAMTDirectory.
pub fn paths()
    ensures { (d : Dag) (path : List (List ℕ)) → IsSound d → EndsAlike (path_walk path d).end (lookup_path path d) }
{}

/// Where the path of a query leads to a terminal in a sound DAG, the traversal comes through.
///
/// Its text is what the terminal says, but for a listing, of which it meets just the entries; and under scope all it
/// sends just the terminal's blocks in preorder behind those of the path.
///
/// Trustless Gateway specification, dag-scope and entity-bytes.
pub fn traversals()
    ensures through { (q : QueryParts) (d t : Dag) → IsSound d → (path_walk q.path d).end ≡ terminal t
        → (traversal q d).end ≡ whole }
    ensures text { (q : QueryParts) (d t : Dag) → IsSound d → (path_walk q.path d).end ≡ terminal t
        → is_listed q.scope t ≡ false → (traversal q d).text ≡ node_text q.scope q.span t }
    ensures listing { (q : QueryParts) (d t : Dag) → IsSound d → (path_walk q.path d).end ≡ terminal t
        → is_listed q.scope t ≡ true → map named_met (traversal q d).met ≡ map named_of (entries t) }
    ensures everything { (q : QueryParts) (d t : Dag) → IsSound d → (path_walk q.path d).end ≡ terminal t
        → q.scope ≡ scopes.All → opened_list q d ≡ (path_walk q.path d).sections ++ blocks t }
{}
