//! What was made of an answer, as a law, which is the contract of a function that does nothing.
ghost use Rattle.tg_extract.specs.Answers.{BadAnswers, FrontAnswers, FrontTrees, LinkAnswers, WholeAnswers, WholeTrees};

use crate::laws::made_records;

/// What was made of the answer of a sound DAG to a query for all below a path is what stands there: of the whole answer just that, in order;
/// and of a front of it a front of that, behind which there is a symbolic link, or a record that isn't made, where one stopped it. What
/// stands there is the tree of files that it shows.
///
/// UnixFS specification, File, Directory and HAMTDirectory; bundles are this project's own.
pub fn made_answers()
    ensures whole { WholeAnswers }
    ensures front { FrontAnswers }
    ensures link { LinkAnswers }
    ensures bad { BadAnswers }
    ensures whole_trees { WholeTrees }
    ensures front_trees { FrontTrees }
{
    tg_bundles::bundle_records();
    tg_bundles::proper_records();
    tg_bundles::shown_records();
    made_records()
}
