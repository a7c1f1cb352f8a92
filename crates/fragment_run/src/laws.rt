//! What two runs have to do with each other, which a check of this crate proves.
ghost use Rattle.std.specs.Prelude.{◌≡◌};
ghost use Rattle.frag_io.specs.DeskState.{DeskState};
ghost use Rattle.order_words.specs.Orders.{DocumentNames};
ghost use Rattle.run_plan.specs.declared.status.Status.{Status};
ghost use Rattle.fragment_run.specs.SolvedAndChecked.{SolvedAndChecked};

use check_command::{a_right_document_is_accepted, what_is_accepted_is_nothing_else};

/// What `solve` wrote, `check` accepts: it answers as `solve` did, that all is done, or that the same line refuses the
/// text.
pub fn what_solve_wrote_check_accepts()
    ensures { (names : DocumentNames) (before now later last : DeskState) (solved checked : Status)
        → SolvedAndChecked names before now later last solved checked → checked ≡ solved }
{
    a_right_document_is_accepted();
    what_is_accepted_is_nothing_else();
}
