//! The reading of a document's bytes.
ghost use Rattle.std.specs.Prelude.{◌≤◌, ◌≡◌, ◌-◌, ◌+◌, IfOk, length};
ghost use Rattle.tree_document.specs.Document.{EachCert, IsSmallCert};
ghost use Rattle.mgf_reader.specs.Text.{ended_lines};
ghost use Rattle.tree_document.specs.Reading.{IsAnswer, greatest_document};

use crate::laws::lines_stop_as_documents_say;
use crate::reader::read_all;
use line_reader::{Stop, count_lines};
use std::alloc::Global;
use tree_document::DocumentError::{self, Refused};
use tree_document::{CertFault, Document};

/// Reads a document: the one whose spelling the bytes are, else the first refusal.
pub fn read_document(alloc: Global, bytes: &[u8]) -> Result<Document, DocumentError>
    requires { length bytes.now ≤ greatest_document }
    ensures answer { IsAnswer bytes.now result }
    ensures small { IfOk result (λ document. EachCert IsSmallCert document) }
{
    lines_stop_as_documents_say();
    let (document, rest) = match read_all(alloc, bytes) {
        Ok(both) => both,
        Err(Stop::Bad(left)) => return Err(Refused(CertFault::BadLine(line_of(bytes, left)))),
        Err(Stop::Big(left)) => return Err(Refused(CertFault::TooBig(line_of(bytes, left)))),
        Err(Stop::Deep(left)) => return Err(Refused(CertFault::TooDeep(line_of(bytes, left)))),
        Err(Stop::End) => return Err(Refused(CertFault::Truncated)),
        Err(Stop::OutOfMemory) => return Err(DocumentError::OutOfMemory),
    };
    if rest.is_empty() {
        return Ok(document);
    }
    Err(Refused(CertFault::BadLine(line_of(bytes, rest))))
}

/// The number of the line with which some last bytes of a text begin.
#[tactic(auto, using(crate::proofs::WholeLines::few_lines))]
fn line_of(bytes: &[u8], left: &[u8]) -> u32
    requires small { length bytes.now ≤ greatest_document }
    requires last { length (ended_lines left.now) ≤ length (ended_lines bytes.now) }
    ensures { result ≡ (length (ended_lines bytes.now) + 1) - length (ended_lines left.now) }
{
    count_lines(bytes) + 1 - count_lines(left)
}
