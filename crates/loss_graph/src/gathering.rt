//! The vertices of a candidate's graph, gathered over the lists and counted.
ghost use Rattle.std.specs.Prelude.{◌≡◌, ◌≤◌, ◌<◌, ◌+◌, ◌*◌, ◌^◌, ℕ, IfOk, length};
ghost use Rattle.element_table.specs.Formula.{IsFormula};
ghost use Rattle.element_table.specs.FormulaList.{greatest_list};
ghost use Rattle.loss_graph.specs.Lists.{greatest_lists, list_at};
ghost use Rattle.loss_graph.specs.Vertices.{peaks_of};
ghost use Rattle.loss_graph.specs.inside.Gathered.{Adds, AreGathered};
ghost use Rattle.std.specs.List.{All};

use crate::vertex::{Vertex, is_proper_part};
use colour_graph::GREATEST_GRAPH;
use element_table::{Formula, FormulaList};
use std::alloc::{AllocError, Global};

/// The vertices so far, unless they are too many, with their number; and the numbers of the lists that have some.
#[derive(Drop)]
pub(crate) struct Gathered {
    pub(crate) vertices: Vec<Vertex>,
    pub(crate) peaks: Vec<u16>,
    pub(crate) count: u32,
}

/// Gathers the root and the proper parts of it in the lists of peaks.
pub(crate) fn gather(
    alloc: Global,
    lists: &[FormulaList],
    root: &Formula,
) -> Result<Gathered, AllocError>
    requires some { 0 < length lists.now }
    requires few { length lists.now < greatest_lists }
    requires short { All (λ list. length list.formulas ≤ greatest_list) lists.now }
    ensures formulas { IfOk result (λ _. (number : ℕ) → 0 < number → number < length lists.now
        → All IsFormula (list_at lists.now number).formulas) }
    ensures gathered { IfOk result (λ gathered.
        AreGathered root.now lists.now (peaks_of root.now lists.now)
        gathered.count gathered.vertices.items gathered.peaks.items) }
{
    let mut vertices = Vec::new(alloc);
    vertices.push(Vertex {
        formula: *root,
        peak: 0,
        colour: 0,
    })?;
    let mut gathered = Gathered {
        vertices,
        peaks: Vec::new(alloc),
        count: 1,
    };
    for number in 1..lists.len() {
        let list = &lists[number];
        gathered.add(number as u16, list.formulas.items(), root)?;
    }
    Ok(gathered)
}

impl Gathered {
    /// Adds the proper parts of the root in a list.
    fn add(&mut self, peak: u16, formulas: &[Formula], root: &Formula) -> Result<(), AllocError>
        requires few { length self.old.peaks.items + 1 < greatest_lists }
        requires short { length formulas.now ≤ greatest_list }
        requires room { self.old.count + greatest_list < 2 ^ 32 }
        ensures { IfOk result (λ _. Adds root.now peak formulas.now
            self.old.count self.old.vertices.items self.old.peaks.items
            self.new.count self.new.vertices.items self.new.peaks.items) }
    {
        let colour = self.peaks.len() as u16 + 1;
        let before = self.count;
        for formula in formulas {
            if is_proper_part(formula, root) {
                self.count += 1;
                if self.count <= GREATEST_GRAPH {
                    self.vertices.push(Vertex {
                        formula: *formula,
                        peak,
                        colour,
                    })?;
                }
            }
        }
        if self.count > before {
            self.peaks.push(peak)?;
        }
        Ok(())
    }
}
