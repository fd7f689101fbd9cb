//! Files whose text is replaced whole.
use crate::folders::sync_folder_of;
use std::fs::{self, File, OpenOptions};
use std::io::{self, ErrorKind, Write};

/// A file that is made, if nothing stands under its name.
fn made_at(rt: &HostRuntime, path: &str) -> io::Result<File> {
    let mut options = OpenOptions::new();
    options.write(true);
    options.create_new(true);
    options.open(rt, path)
}

/// The same, in the place of what stands there: no link is followed, and no pipe is opened.
fn made_anew(rt: &HostRuntime, path: &str) -> io::Result<File> {
    match made_at(rt, path) {
        Err(reason) if reason.kind() == ErrorKind::AlreadyExists => {
            fs::remove_file(rt, path)?;
            made_at(rt, path)
        }
        made => made,
    }
}

/// Writes a file under another name first, which takes the file's place once all of it is on the disk. Then its folder
/// is put on the disk too, as far as the system does that for folders.
pub fn replace(rt: &HostRuntime, new_path: &str, path: &str, text: &[u8]) -> io::Result<()> {
    let mut file = made_anew(rt, new_path)?;
    file.write_all(text)?;
    file.sync_all()?;
    fs::rename(rt, new_path, path)?;
    sync_folder_of(rt, path);
    Ok(())
}
