//! The folders and packs that rows go on with.
use crate::given::bytes_at;
use crate::rough_files::{PLAIN, RoughFiles, plan_of};
use crate::system::{path_in, top_of};
use crate::{folder_calls, pack_calls};
use std::rt::HostRuntime;
use std::str::from_utf8;
use tg_bytes::{Bytes, List};
use tg_files::{HostFolder, HostPack, MemFolder, MemPack, TempNames};
use tg_rows::Answer;

/// The folders and packs that the rows before left.
#[derive(Drop)]
pub struct Objects {
    rt: HostRuntime,
    memory_folder: Option<MemFolder>,
    system_folder: HostFolder<HostRuntime>,
    memory_pack: MemPack,
    system_pack: HostPack<HostRuntime>,
    rough_pack: HostPack<RoughFiles>,
}

impl Objects {
    /// Objects that nothing was done with.
    pub fn new(rt: HostRuntime) -> Objects {
        let alloc = rt.alloc();
        let rough = RoughFiles { alloc, plan: PLAIN };
        let names = TempNames::new(1);
        Objects {
            rt,
            memory_folder: None,
            system_folder: HostFolder::new(rt, names),
            memory_pack: MemPack::new(Bytes::new(alloc), List::new(alloc)),
            system_pack: HostPack::new(rt, names),
            rough_pack: HostPack::new(rough, names),
        }
    }

    /// `OBJECT CALL ..`: what a call of an object gives, with which the next row of it goes on. `memory-folder make CALL ENTRY
    /// ..` and `memory-pack make BYTES CALL` make one whose call with this number fails, or none, and `rough-pack make NAME
    /// PLAN ..` one whose calls go by a plan.
    pub fn answer(&mut self, object: &str, given: &[Bytes], answer: &mut Answer) {
        let [verb, given @ ..] = given else {
            return answer.text("no call");
        };
        match from_utf8(verb.as_slice()) {
            Ok("make") => self.make(object, given, answer),
            Ok(verb) => self.call(object, verb, given, answer),
            Err(_) => answer.text("no call"),
        }
    }

    /// Makes an object.
    fn make(&mut self, object: &str, given: &[Bytes], answer: &mut Answer) {
        let alloc = self.rt.alloc();
        match object {
            "memory-folder" => self.memory_folder = folder_calls::folder_with(alloc, given),
            "memory-pack" => {
                if let Some(pack) = pack_calls::pack_with(alloc, given) {
                    self.memory_pack = pack;
                }
            }
            "rough-pack" => {
                let plan = plan_of(given.get(1..).unwrap_or(&[]));
                self.rough_pack = HostPack::new(RoughFiles { alloc, plan }, TempNames::new(1));
            }
            _ => return answer.text("an unknown object"),
        }
        answer.text("made");
    }

    /// Calls an object.
    fn call(&mut self, object: &str, verb: &str, given: &[Bytes], answer: &mut Answer) {
        match (object, self.path_of(object, given)) {
            ("memory-folder", _) => self.call_memory_folder(verb, given, answer),
            ("memory-pack", _) => {
                pack_calls::answer_memory(&mut self.memory_pack, verb, given, answer);
            }
            ("system-folder", Some(path)) => {
                folder_calls::answer_host(
                    &mut self.system_folder,
                    verb,
                    path.as_str(),
                    given,
                    answer,
                );
            }
            ("system-pack", Some(path)) => {
                pack_calls::answer_host(&mut self.system_pack, verb, path.as_str(), given, answer);
            }
            ("rough-pack", Some(path)) => {
                pack_calls::answer_host(&mut self.rough_pack, verb, path.as_str(), given, answer);
            }
            _ => answer.text("an unknown object"),
        }
    }

    fn call_memory_folder(&mut self, verb: &str, given: &[Bytes], answer: &mut Answer) {
        match &mut self.memory_folder {
            Some(folder) => folder_calls::answer_memory(folder, verb, given, answer),
            None => answer.text("no folder"),
        }
    }

    /// The path of the system that a call's first field names, where the object has one.
    fn path_of(&self, object: &str, given: &[Bytes]) -> Option<String> {
        let Some(top) = top_of(&self.rt) else {
            return None;
        };
        let top = if object == "rough-pack" {
            ""
        } else {
            top.as_str()
        };
        path_in(&self.rt, top, bytes_at(given, 0))
    }
}
