//! How a document ends for a text.
ghost use Rattle.std.specs.Prelude.{◌≡◌};
ghost use Rattle.mgf_reader.specs.Fault.{kind_number};
ghost use Rattle.tree_document.specs.Document.{IsGoodLine, ending_line};
ghost use Rattle.tree_document.specs.Line.{refused_line};
ghost use Rattle.right_document.specs.Ending as spec;

use mgf_reader::{MgfFault, MgfKind};
use tree_document::{Ending, MgfEnd};

/// The ending for a text with this fault, where it has one.
pub fn ending_of(fault: Option<MgfFault>) -> Ending
    ensures ending { result ≡ spec.ending_of fault }
    ensures good { IsGoodLine (ending_line result) }
{
    match fault {
        None => Ending::Clean,
        Some(fault) => Ending::Refused(refused_at(fault.line, fault.kind)),
    }
}

/// The end of a text that this line refused, for this reason.
fn refused_at(line: u32, kind: MgfKind) -> MgfEnd
    ensures line { result.line ≡ line }
    ensures kind { result.kind ≡ kind_number kind }
    ensures good { IsGoodLine (refused_line result.line result.kind) }
{
    MgfEnd {
        line,
        kind: kind.number(),
    }
}
