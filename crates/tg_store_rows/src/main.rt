//! The rows of folders and packs, of stores, of CARs that are written from them, and of files, directories and folders that
//! are made into DAGs: over packs, folders and keepers in memory, of which each call fails in turn, and over the system's.
#![tactic(auto)]

mod checked;
mod dags;
mod directories;
mod entries;
mod exports;
mod files;
mod folder_calls;
mod folders;
mod given;
mod importing;
mod left;
mod making;
mod numbered_log;
mod objects;
mod pack_calls;
mod packs;
mod rough_files;
mod said;
mod system;
mod trees;

use crate::objects::Objects;
use std::alloc::Global;
use std::process::ExitCode;
use std::rt::HostRuntime;
use std::str::from_utf8;
use tg_bytes::Bytes;
use tg_rows::{Answer, Judge, run};
use tg_store::MemStore;

fn main(rt: HostRuntime) -> ExitCode {
    let alloc = rt.alloc();
    let mut judge = Stores {
        rt,
        memory: MemStore::new(alloc),
        objects: Objects::new(rt),
    };
    run(&rt, &mut judge)
}

/// The store in memory that the rows before left, and the folders and packs.
#[derive(Drop)]
struct Stores {
    rt: HostRuntime,
    memory: MemStore,
    objects: Objects,
}

impl Judge for Stores {
    fn answer(&mut self, given: &[Bytes], answer: &mut Answer) {
        let [kind, given @ ..] = given else {
            return answer.text("no kind");
        };
        match from_utf8(kind.as_slice()) {
            Ok(kind) => answer_step(self, kind, given, answer),
            Err(_) => answer.text("an unknown kind"),
        }
    }
}

/// Answers a row that goes on with what the rows before left, or any other.
fn answer_step(judge: &mut Stores, kind: &str, given: &[Bytes], answer: &mut Answer) {
    let alloc = judge.rt.alloc();
    match kind {
        "memory" => {
            judge.memory = MemStore::new(alloc);
            answer.text("empty");
        }
        "keep" => making::answer_keep(alloc, &mut judge.memory, given, answer),
        "get" => packs::answer_get(alloc, &mut judge.memory, given, answer),
        "system" => system::answer(&judge.rt, given, answer),
        "memory-folder" | "system-folder" | "memory-pack" | "system-pack" | "rough-pack" => {
            judge.objects.answer(kind, given, answer);
        }
        _ => answer_kind(alloc, kind, given, answer),
    }
}

/// Answers a row of a kind that needs nothing of the rows before.
fn answer_kind(alloc: Global, kind: &str, given: &[Bytes], answer: &mut Answer) {
    match kind {
        "attach" => packs::answer_attach(alloc, given, answer),
        "fails" => packs::answer_fails(alloc, given, answer),
        "cut" => packs::answer_cut(alloc, given, answer),
        "turned" => packs::answer_turned(alloc, given, answer),
        "changing" => packs::answer_changing(alloc, given, answer),
        "packed" => making::answer_packed(alloc, given, answer),
        "made" => making::answer_made(alloc, given, answer),
        "export" => exports::answer_scope(alloc, given, answer),
        "range" => exports::answer_range(alloc, given, answer),
        "faults" => exports::answer_faults(alloc, given, answer),
        "puts" => exports::answer_puts(alloc, given, answer),
        "rough-folder" => folder_calls::answer_rough(alloc, given, answer),
        "rough-listing" => folder_calls::answer_listing(alloc, given, answer),
        "reader" => pack_calls::answer_reader(alloc, given, answer),
        _ => answer_dag(alloc, kind, given, answer),
    }
}

/// Answers a row of a kind about what is made into a DAG.
fn answer_dag(alloc: Global, kind: &str, given: &[Bytes], answer: &mut Answer) {
    match kind {
        "chunks" => dags::answer_chunks(alloc, given, answer),
        "blocks" => dags::answer_blocks(alloc, given, answer),
        "leaf" => dags::answer_leaf(alloc, given, answer),
        "file" => files::answer_file(alloc, given, answer),
        "pair" => files::answer_pair(alloc, given, answer),
        "folder" => folders::answer_folder(alloc, given, answer),
        "odd" => folders::answer_odd(alloc, given, answer),
        "node" => directories::answer_node(alloc, given, answer),
        "directory" => directories::answer_directory(alloc, given, answer),
        "shape" => directories::answer_shape(alloc, given, answer),
        "weight" => directories::answer_weight(alloc, given, answer),
        "shard" => directories::answer_shard(alloc, given, answer),
        "numbered" => directories::answer_numbered(alloc, given, answer),
        _ => answer.text("an unknown kind"),
    }
}
