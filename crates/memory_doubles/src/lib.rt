//! What tests have in the place of disks, servers and standard error: devices, files, folders, servers and keepers in
//! memory, which tell what was done. Ports in memory stand in `memory_ports`.
#![tactic(auto)]

mod memory_device;
mod memory_files;
mod memory_folders;
mod memory_keeper;
mod memory_servers;

pub use memory_device::MemoryDevice;
pub use memory_files::{MemoryFiles, NamedRecord};
pub use memory_folders::{MemoryFolders, Stored};
pub use memory_keeper::{Done, MemoryKeeper};
pub use memory_servers::{Called, MemoryServers, NoServer};
