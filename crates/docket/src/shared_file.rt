//! New files in a folder that several accounts may share.

use desk_program::{FileFault, file_fault};
use std::fs::{self, File, Permissions};
use std::io::{self, ErrorKind};
use std::os::unix::fs::{MetadataExt, PermissionsExt, chown};

// What the owner and the group may do with a file: read it and write it.
const OWNER_AND_GROUP: u32 = 0o660;

/// Gives a file the folder's group, and lets its owner and that group read and write it as far as they may do so with the folder. Others
/// may do neither. A group that this account can't give stays as it is.
pub fn share(rt: &HostRuntime, folder: &str, name: &str) -> io::Result<()> {
    let found = fs::metadata(rt, folder)?;
    let _ = chown(rt, name, None, Some(found.gid()));
    let mode = found.mode() & OWNER_AND_GROUP;
    fs::set_permissions(rt, name, Permissions::from_mode(mode))
}

// The file, shared as the folder is.
fn shared(
    rt: &HostRuntime,
    folder: &str,
    name: &str,
    file: File,
) -> Result<Option<File>, FileFault> {
    match share(rt, folder, name) {
        Ok(()) => Ok(Some(file)),
        Err(error) => Err(file_fault(rt.alloc(), name, error)),
    }
}

/// A new file of that name, shared as the folder is, if there is none yet.
pub fn new_file(rt: &HostRuntime, folder: &str, name: &str) -> Result<Option<File>, FileFault> {
    match File::create_new(rt, name) {
        Ok(file) => shared(rt, folder, name, file),
        Err(error) if error.kind() == ErrorKind::AlreadyExists => Ok(None),
        Err(error) => Err(file_fault(rt.alloc(), name, error)),
    }
}
