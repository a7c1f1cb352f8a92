//! Whether a certificate holds.
ghost use Rattle.std.specs.Prelude.{◌≡◌, ◌≤◌, ◌<◌, ◌^◌, ◌↔◌, IfOk, Ok, length};
ghost use Rattle.colour_graph.specs.Bounded.{IsBounded};
ghost use Rattle.colour_graph.specs.EdgeSet.{all_edges};
ghost use Rattle.tree_certificate.specs.CertHolds.{CertHolds, cert_depth, cert_splits};
ghost use Rattle.tree_certificate.specs.Value.{cert_of};
ghost use Rattle.certificate_checker.specs.Places.{IsVerdict};
ghost use Rattle.certificate_checker.specs.declared.verdict.Verdict.TheVariants.{Holds};
ghost use Rattle.colour_graph.specs.Graph.{greatest_graph};
ghost use Rattle.tree_certificate.specs.BoundHolds.{greatest_depth};

use crate::bound::check_bound;
use crate::table::check_table;
use crate::verdict::Verdict;
use colour_graph::ColourGraph;
use std::alloc::{AllocError, Global};
use tree_certificate::{Cert, what_holds_bounds_every_tree};

/// Whether a certificate holds for an upper bound of a graph of at most `GREATEST_GRAPH` vertices, or the first place
/// where it fails. One that holds shows that no colourful list of edges scores more.
pub fn check_cert(
    alloc: Global,
    graph: &ColourGraph,
    cert: &Cert,
    upper: i64,
) -> Result<Verdict, AllocError>
    requires vertices { length graph.now.colours ≤ greatest_graph }
    requires depth { cert_depth (cert_of cert.now) ≤ greatest_depth }
    requires few { cert_splits (cert_of cert.now) < 2 ^ 31 }
    ensures verdict { IfOk result (λ verdict. IsVerdict graph.now (cert_of cert.now) upper verdict) }
    ensures exactly { IfOk result (λ verdict. (verdict ≡ Holds) ↔ CertHolds graph.now (cert_of cert.now) upper) }
    ensures bounded { result ≡ Ok Holds → IsBounded graph.now (all_edges graph.now) upper }
{
    what_holds_bounds_every_tree();
    graph.is_graph();
    match cert {
        Cert::Table(table) => check_table(alloc, graph, table.rows(), upper),
        Cert::Bounds(bound) => check_bound(alloc, graph, bound, upper),
    }
}
