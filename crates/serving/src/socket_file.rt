//! Sockets as files.

use mio::net::UnixListener;
use std::alloc::Global;
use std::fs::{self, DirBuilder, Files, Permissions};
use std::io::{self, ErrorKind};
use std::net::Net;
use std::os::unix::fs::{DirBuilderExt, FileTypeExt, PermissionsExt};

/// The most bytes of a path to listen at. The socket has a longer name at first, which then has the
/// 107 bytes that the system allows.
const LONGEST_PATH: usize = 96;

/// Whether a socket may be placed at a path. The path is free, or has the socket of a server that
/// ended. The lock ensures that no server listens there.
pub fn may_come<R: Files>(rt: &R, path: &str) -> bool {
    if path.is_empty() || path.len() > LONGEST_PATH {
        return false;
    }
    match fs::symlink_metadata(rt, path) {
        Ok(found) => found.file_type().is_socket(),
        Err(error) => error.kind() == ErrorKind::NotFound,
    }
}

/// Listens at a path. The socket is created in a folder that only the user may enter. It is moved
/// to its path once only the user may connect to it.
pub fn listen<R: Files + Net>(rt: &R, alloc: Global, path: &str) -> io::Result<UnixListener> {
    let folder = format!(in alloc; "{path}.new")?;
    let inside = format!(in alloc; "{path}.new/socket")?;
    clear(rt, folder.as_str(), inside.as_str());
    let listener = listen_by(rt, folder.as_str(), inside.as_str(), path);
    clear(rt, folder.as_str(), inside.as_str());
    listener
}

fn listen_by<R: Files + Net>(
    rt: &R,
    folder: &str,
    inside: &str,
    path: &str,
) -> io::Result<UnixListener> {
    let mut builder = DirBuilder::new();
    builder.mode(0o700);
    builder.create(rt, folder)?;
    let listener = UnixListener::bind(rt, inside)?;
    fs::set_permissions(rt, inside, Permissions::from_mode(0o600))?;
    fs::rename(rt, inside, path)?;
    Ok(listener)
}

/// Removes the folder in which a socket was created, and a socket left in it.
fn clear<R: Files>(rt: &R, folder: &str, inside: &str) {
    match fs::symlink_metadata(rt, folder) {
        Ok(found) if found.is_dir() => {
            remove(rt, inside);
            let _ = fs::remove_dir(rt, folder);
        }
        _ => {}
    }
}

/// Removes a socket. A file of another kind is kept.
pub fn remove<R: Files>(rt: &R, path: &str) {
    match fs::symlink_metadata(rt, path) {
        Ok(found) if found.file_type().is_socket() => {
            let _ = fs::remove_file(rt, path);
        }
        _ => {}
    }
}
