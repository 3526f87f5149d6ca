//! The rows of `tg_verify` and `tg_client`: a verifier that is fed the sections of small and of very large DAGs, right and
//! wrong ones, some beside the evaluator of queries, and each limit at its number and one past it.
#![tactic(auto)]

mod absences;
mod asking;
mod cars;
mod changes;
mod dags;
mod ends;
mod evaluated;
mod handed;
mod large;
mod sections;
mod verified;

use crate::asking::{Given, given_of};
use crate::dags::Dag;
use std::alloc::Global;
use std::process::ExitCode;
use std::rt::HostRuntime;
use std::str::from_utf8;
use tg_bytes::Bytes;
use tg_rows::{Answer, Judge, run};

fn main(rt: HostRuntime) -> ExitCode {
    let mut judge = VerifyJudge {
        alloc: rt.alloc(),
        dag: Dag::new(rt.alloc()),
    };
    run(&rt, &mut judge)
}

/// The DAG of the rows behind the last row `dag`.
#[derive(Drop)]
struct VerifyJudge {
    alloc: Global,
    dag: Dag,
}

impl Judge for VerifyJudge {
    fn answer(&mut self, given: &[Bytes], answer: &mut Answer) {
        let [kind, given @ ..] = given else {
            return answer.text("no kind");
        };
        match from_utf8(kind.as_slice()) {
            Ok("dag") => {
                self.dag = Dag::new(self.alloc);
                answer.text("begun");
            }
            Ok("raw" | "changed" | "node" | "itself" | "lost-raw" | "lost-node") => {
                self.dag.answer(kind.as_slice(), given, answer);
            }
            Ok("levels" | "chain" | "wide-file" | "wide-directory" | "fan") => {
                large::answer(&mut self.dag, kind.as_slice(), given, answer);
            }
            Ok(kind) => answer_kind(self.alloc, &self.dag, kind, given, answer),
            Err(_) => answer.text("an unknown kind"),
        }
    }
}

/// Answers a row of this kind about the DAG.
fn answer_kind(alloc: Global, dag: &Dag, kind: &str, given: &[Bytes], answer: &mut Answer) {
    let [_, given @ ..] = given else {
        return answer.text("no name");
    };
    let given = given_of(alloc, given);
    if given.is_bad {
        return answer.text("an unknown mark, or no number");
    }
    answer_asked(alloc, dag, kind, &given, answer);
}

/// Answers a row of this kind about what is asked of the DAG.
fn answer_asked(alloc: Global, dag: &Dag, kind: &str, given: &Given, answer: &mut Answer) {
    match kind {
        "verify" => verified::answer(alloc, dag, given, answer),
        "absence" => absences::answer(alloc, dag, given, answer),
        "handed" => handed::answer(alloc, dag, given, answer),
        "leads" => handed::answer_terminals(alloc, dag, given, answer),
        "evaluated" => evaluated::answer(alloc, dag, given, answer),
        "changes" => changes::answer(alloc, dag, given, answer),
        "car" => cars::answer(alloc, dag, given, answer),
        "counted" => cars::answer_counted(alloc, dag, given, answer),
        "received" => cars::answer_received(alloc, dag, given, answer),
        "sections" => sections::answer(alloc, given, answer),
        _ => answer.text("an unknown kind"),
    }
}
