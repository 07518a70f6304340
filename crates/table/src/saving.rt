// A table written to a file, whole or not at all: to a new file beside it, which then takes its name.
use std::fs::{File, Metadata, OpenOptions, Permissions};
use std::io::{Error, ErrorKind, Write};
use std::os::unix::fs::{MetadataExt, OpenOptionsExt, PermissionsExt, fchown};
use std::random::RandomSource;
use std::{fs, io};

// Why a table is not safe in its place: nothing was written; or it is there, and not known to outlast a crash.
#[derive(Drop)]
pub(crate) enum SaveError {
    Nothing,
    Unsettled,
}

// Says what could not be done, with the cause.
fn failed(error: SaveError, what: &[u8], cause: Error) -> SaveError {
    console::fail(what, cause);
    error
}

fn nothing(what: &[u8], cause: Error) -> SaveError {
    failed(SaveError::Nothing, what, cause)
}

// ---- what stands at a path, of which the first 4,095 octets are looked at

fn status(rt: &HostRuntime, path: &[u8]) -> io::Result<Metadata> {
    fs::metadata(rt, console::path_of(octets::part(path, 0, 4095))?)
}

// What is known of what stands at a path itself, and not of what a symbolic link there leads to.
fn look(rt: &HostRuntime, path: &[u8]) -> io::Result<Metadata> {
    fs::symlink_metadata(rt, console::path_of(octets::part(path, 0, 4095))?)
}

fn is_link(rt: &HostRuntime, path: &[u8]) -> bool {
    look(rt, path).is_ok_and(|st| st.is_symlink())
}

// Whether a file is that of the lines.
fn is_lines(rt: &HostRuntime, old: &Metadata, lines: &[u8]) -> bool {
    match status(rt, lines) {
        Ok(st) => (old.dev() == st.dev()) & (old.ino() == st.ino()),
        Err(_) => false,
    }
}

// Whether a table may take the place of a file. If not, says why.
fn may_replace(rt: &HostRuntime, old: &Metadata, lines: &[u8]) -> Result<(), SaveError> {
    if !old.is_file() {
        console::complain(b"table: TABLE is there and is no regular file\n");
        return Err(SaveError::Nothing);
    }
    if is_lines(rt, old, lines) {
        console::complain(b"table: TABLE is the file LINES\n");
        return Err(SaveError::Nothing);
    }
    Ok(())
}

// ---- the new file

// The owner, the group and the permissions of the old file. Without one the new file stays as it was made, and only its
// owner may read it.
fn keep(file: &File, old: Option<&Metadata>) -> Result<(), SaveError> {
    let Some(old) = old else {
        return Ok(());
    };
    fchown(file, Some(old.uid()), Some(old.gid())).map_err(|cause| {
        nothing(
            b"table: the owner and the group of TABLE cannot be kept",
            cause,
        )
    })?;
    file.set_permissions(Permissions::from_mode(old.mode() & 0o777))
        .map_err(|cause| nothing(b"table: the mode of TABLE cannot be kept", cause))
}

// The octets reach the disk before the file gets its name. table and old go apart: a struct that holds both references has no proof where
// the old file's is made.
fn fill(file: &mut File, table: &[u8], old: Option<&Metadata>) -> Result<(), SaveError> {
    file.write_all(table)
        .map_err(|cause| nothing(b"table: TABLE cannot be written", cause))?;
    keep(file, old)?;
    file.sync_all()
        .map_err(|cause| nothing(b"table: TABLE cannot be written", cause))
}

// The letters and digits that a new file's name may end in.
const LETTERS: [u8; 62] = *b"0123456789ABCDEFGHIJKLMNOPQRSTUVWXYZabcdefghijklmnopqrstuvwxyz";

// How many names are tried.
const TRIES: usize = 238328;

// Six letters and digits, at random, in place of the last six octets of a name.
fn draw(rt: &HostRuntime, name: &mut [u8]) -> io::Result<()> {
    let mut random = [0u8; 6];
    rt.fill_bytes(&mut random)?;
    let n = name.len().saturating_sub(6);
    for (x, y) in name[n..].iter_mut().zip(&random) {
        *x = LETTERS[*y as usize % 62];
    }
    Ok(())
}

// A file that was not there before, which only its owner may read and write.
fn create_new(rt: &HostRuntime, name: &[u8]) -> io::Result<File> {
    OpenOptions::new()
        .write(true)
        .create_new(true)
        .mode(0o600)
        .open(rt, console::path_of(name)?)
}

// A new file with a name of this pattern, whose last six octets are drawn until there is no such file.
fn create_temp(rt: &HostRuntime, name: &mut [u8]) -> io::Result<File> {
    for _ in 1..TRIES {
        draw(rt, name)?;
        match create_new(rt, name) {
            Err(cause) if cause.kind() == ErrorKind::AlreadyExists => {}
            answer => return answer,
        }
    }
    draw(rt, name)?;
    create_new(rt, name)
}

// Takes a new file away. Where that fails it stays, and nothing more can be done.
fn unlink(rt: &HostRuntime, name: &[u8]) {
    if let Ok(path) = console::path_of(name) {
        let _ = fs::remove_file(rt, path);
    }
}

// A new file with a name of this pattern, filled. Where that fails nothing is left of it.
fn make(
    rt: &HostRuntime,
    name: &mut [u8],
    table: &[u8],
    old: Option<&Metadata>,
) -> Result<(), SaveError> {
    // the file is closed before its name is taken away
    let filled = {
        let mut file = create_temp(rt, name).map_err(|cause| nothing(
            b"table: TABLE cannot be written",
            cause,
        ))?;
        fill(&mut file, table, old)
    };
    if filled.is_err() {
        unlink(rt, name);
    }
    filled
}

// ---- its name

// The folder of a path, with the slash; nothing where the path names none.
fn folder_of(path: &[u8]) -> &[u8] {
    match path.iter().rposition(|x| *x == b'/') {
        Some(i) => &path[..i + 1],
        None => &[],
    }
}

fn open_folder(rt: &HostRuntime, path: &[u8]) -> io::Result<File> {
    match folder_of(path) {
        [] => fs::open(rt, "."),
        folder => fs::open(rt, console::path_of(folder)?),
    }
}

// The folder, with the file's new name in it, reaches the disk.
fn settle(rt: &HostRuntime, path: &[u8]) -> Result<(), SaveError> {
    let folder = open_folder(rt, path).map_err(|cause| {
        failed(
            SaveError::Unsettled,
            b"table: TABLE was replaced, but its folder cannot be opened",
            cause,
        )
    })?;
    folder.sync_all().map_err(|cause| {
        failed(
            SaveError::Unsettled,
            b"table: TABLE was replaced, but its folder cannot be written",
            cause,
        )
    })
}

fn rename(rt: &HostRuntime, name: &[u8], path: &[u8]) -> io::Result<()> {
    fs::rename(rt, console::path_of(name)?, console::path_of(path)?)
}

fn save(
    rt: &HostRuntime,
    name: &mut [u8],
    path: &[u8],
    table: &[u8],
    old: Option<&Metadata>,
) -> Result<(), SaveError> {
    make(rt, name, table, old)?;
    if let Err(cause) = rename(rt, name, path) {
        let error = nothing(b"table: TABLE cannot be written", cause);
        unlink(rt, name);
        return Err(error);
    }
    settle(rt, path)
}

fn save_beside(
    rt: &HostRuntime,
    path: &[u8],
    table: &[u8],
    old: Option<&Metadata>,
) -> Result<(), SaveError> {
    let mut space = [0u8; 4096];
    let n = path.len();
    if 4088 < n {
        console::complain(b"table: the path of TABLE is too long\n");
        return Err(SaveError::Nothing);
    }
    // A pattern for the new file's name, beside the path.
    let name = &mut space[..n + 7];
    octets::put_at(name, 0, path);
    octets::put_at(name, n, b".XXXXXX");
    save(rt, name, path, table, old)
}

// Writes a table to a path, where nothing stands or another regular file than that of the lines.
pub(crate) fn write(
    rt: &HostRuntime,
    lines: &[u8],
    path: &[u8],
    table: &[u8],
) -> Result<(), SaveError> {
    if is_link(rt, path) {
        console::complain(b"table: TABLE is a symbolic link; name the file that it leads to\n");
        return Err(SaveError::Nothing);
    }
    match status(rt, path) {
        Ok(old) => {
            may_replace(rt, &old, lines)?;
            save_beside(rt, path, table, Some(&old))
        }
        Err(cause) if cause.kind() == ErrorKind::NotFound => save_beside(rt, path, table, None),
        Err(cause) => Err(nothing(b"table: TABLE cannot be written", cause)),
    }
}
