//! Laws of a traversal in stages.
ghost use Rattle.tg_model_laws.specs.Stages.{StageLaws};

/// The traversal of any DAG in stages: what it has given, and the tasks that are left of it over the DAG's nodes, from
/// its start on, block by block, to its end.
///
/// Path Gateway specification, Path Resolution; Trustless Gateway specification, dag-scope and entity-bytes.
pub fn traversal_stages()
    ensures { StageLaws }
{
    crate::traversals_joined();
    crate::traversal_steps();
}
