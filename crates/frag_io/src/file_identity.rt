//! Whether two open files are one, under whatever names: a link, a path by `./` or `..` and a descriptor all lead to
//! the same file.
ghost use Rattle.std.specs.Prelude.{◌↔◌, Some, IsSome, IsTrue, Contains};
ghost use Rattle.std.specs.Fs.{file_type, IsFile};

use std::fs::Metadata;
use std::os::unix::fs::MetadataExt;

/// What tells a file from every other: the device that it lies on, and its number there.
#[derive(Clone, Copy, PartialEq, Eq)]
pub(crate) struct FileIdentity {
    device: u64,
    inode: u64,
}

impl FileIdentity {
    /// The identity of a regular file. A device, a pipe or a terminal has none, since it keeps no bytes that could be
    /// lost.
    pub(crate) fn of(metadata: &Metadata) -> Option<FileIdentity>
        ensures { IsSome result ↔ IsFile (file_type metadata.now) }
    {
        if metadata.is_file() {
            Some(FileIdentity {
                device: metadata.dev(),
                inode: metadata.ino(),
            })
        } else {
            None
        }
    }

    /// Whether it is the identity of one of these files.
    pub(crate) fn is_among(self, files: &[Option<FileIdentity>]) -> bool
        ensures { IsTrue result ↔ Contains files.now (Some self) }
    {
        files.contains(&Some(self))
    }
}
