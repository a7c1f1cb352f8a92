//! Why bytes are no document.

/// Why bytes are refused; the kept numbers are lines, from 1.
#[derive(Clone, Copy, Debug, PartialEq, Eq)]
pub enum CertFault {
    /// No document has this line here, whatever numbers are put.
    BadLine(u32),
    /// A number or a count of the line is past its range.
    TooBig(u32),
    /// The line is a split with 1,024 open splits above it.
    TooDeep(u32),
    /// Every whole line is good, and the bytes end before the end line does.
    Truncated,
}

/// Why no document was read.
#[derive(Clone, Copy, Debug, PartialEq, Eq)]
pub enum DocumentError {
    /// The bytes are refused.
    Refused(CertFault),
    /// There was no memory.
    OutOfMemory,
}
