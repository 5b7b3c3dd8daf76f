// The files that the words name.
use send_text::tell::WrongAt;
use send_text::words::{LONGEST, Named};
use std::fs::File;
use std::io::{Error, ErrorKind, Read};
use std::str::from_utf8;
use std::{fs, io};

// A file's name as std takes it: text.
fn path_of(name: &[u8]) -> io::Result<&str> {
    from_utf8(name).map_err(|_| Error::from(ErrorKind::InvalidFilename))
}

// The file from its start on, in front of space; none where it is longer than space. A read past the file's end tells the end from a file that holds
// more.
fn read_whole<'b>(
    rt: &HostRuntime,
    name: &[u8],
    space: &'b mut [u8],
) -> io::Result<Option<&'b [u8]>> {
    let mut file = fs::open(rt, path_of(name)?)?;
    let n = intake::read_full(&mut file, space)?;
    match file.read(&mut [0])? {
        0 => Ok(Some(&space[..n])),
        _ if n < space.len() => Err(Error::other("it grew while it was read")),
        _ => Ok(None),
    }
}

// The whole file, where space holds it.
pub fn load<'b>(rt: &HostRuntime, file: Named, space: &'b mut [u8]) -> Result<&'b [u8], WrongAt> {
    let mut word = [0u8; LONGEST];
    let most = space.len();
    match read_whole(rt, file.read(rt, &mut word), space) {
        Ok(Some(bytes)) => Ok(bytes),
        Ok(None) => Err(WrongAt::LargeFile(file.argument, most)),
        Err(e) => Err(WrongAt::File(file.argument, e)),
    }
}

// Nothing, where no file is named.
pub fn load_if<'b>(
    rt: &HostRuntime,
    file: Option<Named>,
    space: &'b mut [u8],
) -> Result<&'b [u8], WrongAt> {
    match file {
        Some(file) => load(rt, file, space),
        None => Ok(&[]),
    }
}

fn create(rt: &HostRuntime, name: &[u8]) -> io::Result<File> {
    fs::create(rt, path_of(name)?)
}

// The file, emptied.
pub fn open_over(rt: &HostRuntime, file: Named) -> Result<File, WrongAt> {
    let mut word = [0u8; LONGEST];
    create(rt, file.read(rt, &mut word)).map_err(|e| WrongAt::File(file.argument, e))
}

// What the system held back has come to the file. A file of a kind that holds nothing back, as a pipe, says so by an error.
pub fn settled(file: &File) -> bool {
    match file.sync_all() {
        Ok(()) => true,
        Err(e) => matches!(
            e.kind(),
            ErrorKind::InvalidInput | ErrorKind::ReadOnlyFilesystem | ErrorKind::Unsupported
        ),
    }
}
