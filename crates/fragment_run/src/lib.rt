//! One run of the program, from its words to its report: the words choose a command, which does the rest.
#![tactic(auto)]

ghost use Rattle.std.specs.Prelude.{◌≡◌, ◌↔◌, false, Some, None};
ghost use Rattle.frag_io.specs.declared.desk.Slot.{Slot};
ghost use Rattle.order_words.specs.Orders.{DocumentNames, ListNames, Order, check, list, order_of, profile_named};
ghost use Rattle.order_words.specs.Orders.{solve};
ghost use Rattle.order_words.specs.Words.{texts_of};
ghost use Rattle.run_plan.specs.Causes.{Causes};
ghost use Rattle.run_plan.specs.ProfilePromise.{ProfilePromise};
ghost use Rattle.run_plan.specs.Steps.{Steps};
ghost use Rattle.check_command.specs.CheckPromise.{CheckPromise};
ghost use Rattle.list_command.specs.ListPromise.{ListPromise};
ghost use Rattle.solve_command.specs.SolvePromise.{SolvePromise};
ghost use Rattle.fragment_run.specs.PlanOf.{plan_of};

pub use check_command::{a_rejected_document_is_not_right, what_is_accepted_is_nothing_else};

mod laws;

use frag_io::Desk;
pub use laws::what_solve_wrote_check_accepts;
use order_words::read_order;
pub use right_document::a_spectrum_has_one_outline;
pub use run_plan::{GREATEST_DOCUMENT, GREATEST_TEXT, RejectPart, RejectPlace, Status, fault_text};
use std::alloc::Global;

/// Runs the order that the words give over a desk of which no slot was begun, and says how it ended.
pub fn run<D: Desk>(alloc: Global, words: &[String], desk: &mut D) -> Status
    requires { (slot : Slot) → (D.state desk.old).begun slot ≡ false }

    // Each status has its cause.
    ensures words { (result ≡ Status.Words) ↔ (order_of (texts_of words.now) ≡ None) }
    ensures untouched { result ≡ Status.Words → (slot : Slot) → (D.state desk.new).begun slot ≡ false }
    ensures causes { Causes (D.state desk.old) (D.state desk.new) result }

    // Each order is carried out in the same way.
    ensures steps { (order : Order) → order_of (texts_of words.now) ≡ Some order
        → Steps (plan_of order) (D.state desk.old) (D.state desk.new) result }
    ensures profile { (order : Order) → order_of (texts_of words.now) ≡ Some order
        → ProfilePromise (profile_named order) (D.state desk.old) (D.state desk.new) result }

    // Each command has its promise.
    ensures list { (names : ListNames) → order_of (texts_of words.now) ≡ Some (list names)
        → ListPromise names (D.state desk.old) (D.state desk.new) result }
    ensures solve { (names : DocumentNames) → order_of (texts_of words.now) ≡ Some (solve names)
        → SolvePromise names (D.state desk.old) (D.state desk.new) result }
    ensures check { (names : DocumentNames) → order_of (texts_of words.now) ≡ Some (check names)
        → CheckPromise names (D.state desk.old) (D.state desk.new) result }
{
    match read_order(words) {
        Some(order_words::Order::List(names)) => list_command::list(alloc, &names, desk),
        Some(order_words::Order::Solve(names)) => solve_command::solve(alloc, &names, desk),
        Some(order_words::Order::Check(names)) => check_command::check(alloc, &names, desk),
        None => Status::Words,
    }
}
