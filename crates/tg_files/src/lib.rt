//! Folders that are read and packs that are read and written, in memory and of the system.
#![tactic(auto)]

mod draft;
mod folders;
mod host_folder;
mod host_pack;
mod mem_folder;
mod mem_pack;
mod packs;
mod place;
mod reading;
mod temp_names;

pub use folders::{Folder, FolderFault};
pub use host_folder::{HostFolder, system_path};
pub use host_pack::HostPack;
pub use mem_folder::MemFolder;
pub use mem_pack::MemPack;
pub use packs::Pack;
pub use reading::read_from;
pub use temp_names::TempNames;
