//! An extract that is told what the text is of by a client.
ghost use Rattle.std.proofs.Common.{◌∙◌};
ghost use Rattle.std.specs.Prelude.{◌≡◌, IfSome, None, Option, Some, []};
ghost use Rattle.tg_extract.specs.Extracts.{Grows, grows_joins, kind_of};
ghost use Rattle.tg_verify.specs.declared.terminal.Terminal.{Terminal};

use crate::extract::Extract;
use tg_client::TellTerminal;
use tg_new_tree::NewTree;
use tg_verify::Terminal;

/// Tells an extract what the query's path leads to: what was told first stays.
#[derive(Clone, Copy, Debug, PartialEq, Eq)]
pub struct TellExtract;

impl<T: NewTree + Drop> TellTerminal<Extract<T>> for TellExtract {
    ghost wrote = { λ a b bytes. Grows T.new_tree a b bytes };

    ghost knows = { λ e told. kind_of e.stage ≡ told };

    ghost puts = { λ a b u h. h.grows };

    ghost joins = { λ a b c u v p q. grows_joins T.new_tree a b c u v p q };

    ghost stays = { λ a b u told h k. h.kind ∙ k };

    fn tell(&self, terminal: Terminal, out: &mut Extract<T>) {
        out.tell(terminal)
    }
}
