//! Laws on sections that fit a query, over the definitions alone.
ghost use Rattle.std.specs.Prelude.{◌≡◌, ◌⊎◌, ℕ, None, Some, List};
ghost use Rattle.tg_model_laws.specs.Fronts.{FitsByFronts, ProgressByFronts};
ghost use Rattle.tg_model_laws.specs.Openings.{IsAtPlace, IsSettled};
ghost use Rattle.tg_model_laws.specs.PartialDags.{HoldAll, WriteFronts};
ghost use Rattle.tg_model.specs.Answer.{answer};
ghost use Rattle.tg_model.specs.Counts.{counts};
ghost use Rattle.tg_model.specs.Dag.{Dag, Section, root_cid};
ghost use Rattle.tg_model.specs.Ends.{StopsAlike};
ghost use Rattle.tg_model.specs.Fits.{CollisionPair, Fits, HasOneBlockEach, IfOnce, IsFrontOfAnswer, IsInProgress};
ghost use Rattle.tg_model.specs.Fits.{IsOpenedFor, output_so_far};
ghost use Rattle.tg_model.specs.LimitNumbers.{AreWithin};
ghost use Rattle.tg_model.specs.Lookup.{lookup_path};
ghost use Rattle.tg_model.specs.PathWalk.{Spot, Stop, not_folder, not_reached, not_there, path_walk, stopped};
ghost use Rattle.tg_model.specs.Queries.{QueryParts};
ghost use Rattle.tg_model.specs.Sound.{IsSound};
ghost use Rattle.tg_model.specs.Traversal.{block_list, opened_list, traversal};

/// Sections fit a query in one way at most: the partial DAG that they open and the text are determined. They stay in
/// progress in one way at most: the partial DAG and the spot of the wanted block are determined. And they don't do
/// both.
pub fn one_fit()
    // What is opened is determined by the list of what is opened, and this by what is sent, where the traversal came
    // through or stopped at a block that would be sent: another, as a repeat or one of an identity CID, may be opened
    // or not.
    ensures opened { (q : QueryParts) (a b : Dag) → IsOpenedFor a q → IsOpenedFor b q
        → opened_list q a ≡ opened_list q b
        → IsAtPlace (traversal q a).end → IsAtPlace (traversal q b).end → (a ≡ b)
        × ((traversal q a).end ≡ (traversal q b).end) }
    ensures sent { (q : QueryParts) (a b : Dag) → IsOpenedFor a q → IsOpenedFor b q → block_list q a ≡ block_list q b
        → IsSettled a q → IsSettled b q → opened_list q a ≡ opened_list q b }

    ensures fits { (q : QueryParts) (sections : List Section) (a b : Dag) (x y : List ℕ)
        → Fits a q sections x → Fits b q sections y → (a ≡ b) × (x ≡ y) }
    ensures in_progress { (q : QueryParts) (sections : List Section) (a b : Dag) (v w : Spot)
        → IsInProgress a q sections v → IsInProgress b q sections w → (a ≡ b) × (v ≡ w) }
    ensures either { (q : QueryParts) (sections : List Section) (a b : Dag) (x : List ℕ) (w : Spot)
        → Fits a q sections x → IsInProgress b q sections w → ⊥ }
{
    tg_model::laws::readings();
}

/// Each front of sections that fit, or are in progress, is in progress: the CID of the section behind it is wanted, and
/// what is written for it is a front of what is written for all.
pub fn front_sections()
    ensures fits { FitsByFronts }
    ensures in_progress { ProgressByFronts }
{}

/// The sections of a sound DAG's own traversal fit, with its answer, where the query has one, and one block stands
/// under each CID where each is sent once.
pub fn own_sections()
    ensures { (q : QueryParts) (d : Dag) (text : List ℕ) → IsSound d → root_cid d ≡ q.root
        → IfOnce q.dups (HasOneBlockEach (opened_list q d)) → answer q d ≡ Some text
        → (s : Dag) × Fits s q (block_list q d) text }
{}

/// Where the traversal of a sound DAG stops the path leads nowhere, and the query has no answer. The blocks on the path
/// open a partial DAG with the same traversal, where one block stands under each CID if each is sent once.
///
/// Path Gateway specification, Path Resolution.
pub fn own_absences()
    ensures nowhere { (q : QueryParts) (d : Dag) (stop : Stop) → IsSound d → (traversal q d).end ≡ stopped stop
        → ((path_walk q.path d).end ≡ not_reached stop) × (answer q d ≡ None) }
    ensures opened { (q : QueryParts) (d : Dag) (stop : Stop) → IsSound d → root_cid d ≡ q.root
        → IfOnce q.dups (HasOneBlockEach (opened_list q d)) → (traversal q d).end ≡ stopped stop
        → (s : Dag) × IsOpenedFor s q × (traversal q s ≡ traversal q d) }
{}

/// Against every peer: sections that fit a query are those of the sound DAG with the query's root and their text is its
/// answer, or there is a collision pair; what is written meanwhile is a front of the answer, an absence is one of the
/// DAG, and what is opened counts no more than the DAG does, so that a limit that is passed is one that the DAG passes;
/// or there is a pair.
pub fn against_every_peer()
    ensures accepted { (q : QueryParts) (d s : Dag) (sections : List Section) (out : List ℕ)
        → IsSound d → root_cid d ≡ q.root → Fits s q sections out
        → ((sections ≡ block_list q d) × (answer q d ≡ Some out)) ⊎ CollisionPair sections d }
    // Whatever was opened; and while the sections are in progress.
    ensures written { WriteFronts }
    ensures meanwhile { (q : QueryParts) (d s : Dag) (sections : List Section) (wanted : Spot)
        → IsSound d → root_cid d ≡ q.root → IsInProgress s q sections wanted
        → IsFrontOfAnswer (output_so_far q s) (answer q d) ⊎ CollisionPair sections d }

    // Under scope all, without a path, what fits is what is sent of all of the DAG's blocks.
    ensures everything { HoldAll }

    // An absence that the opened blocks show is the DAG's, at the same segment.
    ensures absent { (q : QueryParts) (d s : Dag) (i : ℕ)
        → IsSound d → root_cid d ≡ q.root → IsOpenedFor s q → (traversal q s).end ≡ stopped (not_there i)
        → StopsAlike (not_there i) (lookup_path q.path d) ⊎ CollisionPair (block_list q s) d }
    ensures not_folder { (q : QueryParts) (d s : Dag) (i : ℕ)
        → IsSound d → root_cid d ≡ q.root → IsOpenedFor s q → (traversal q s).end ≡ stopped (not_folder i)
        → StopsAlike (not_folder i) (lookup_path q.path d) ⊎ CollisionPair (block_list q s) d }

    ensures counted { (q : QueryParts) (d s : Dag)
        → IsSound d → root_cid d ≡ q.root → IsOpenedFor s q
        → AreWithin (counts q d) (counts q s) ⊎ CollisionPair (block_list q s) d }
{
    tg_model::laws::readings();
}
