//! Laws of a swarm, over its definitions alone. Each is the contract of a function that does nothing.
ghost use Rattle.tg_swarm.specs.Laws.{EachJob, FirstWaits, FrontsAreSound, NewStand, SwarmsAreSound};

/// Each job is done with, finished, asked of one peer, or waits, or lies ahead of those that may be asked. And where no peer has a
/// job and one isn't done with, the first of these waits.
///
/// This project's own; Trustless Gateway specification, entity-bytes.
pub fn each_job()
    ensures places { EachJob }
    ensures unstuck { FirstWaits }
{}

/// A swarm whose one job is the root's block, and of whose peers nothing is asked, stands for no connection.
///
/// This project's own.
pub fn new_swarms()
    ensures { NewStand }
{}

/// What a swarm wrote is a front of the content of each sound DAG of its root, and all of it once all jobs are done with, and nothing
/// where the root is no file; and so are texts that were accepted for the first jobs. Or a received block and one of the DAG are
/// different bytes with one SHA-256.
///
/// Trustless Gateway specification, entity-bytes; UnixFS specification, File.
pub fn sound_swarms()
    ensures fronts { FrontsAreSound }
    ensures stands { SwarmsAreSound }
{
    tg_parts::accepted_roots();
    tg_parts::accepted_parts();
}
