//! Lists the formulas of a window: counts over every element but the last two as far as the masses and the limits
//! allow, and goes over the counts of these by their levels.
ghost use Rattle.std.specs.Prelude.{◌≡◌, ◌≤◌, ◌*◌, [], ◌∷◌, Err, length, slice_set, OnOk};
ghost use Rattle.element_table.specs.FormulaList.{greatest_list};
ghost use Rattle.formula_lister.specs.inside.Counting.{Completes, Gains, Overfills, IsOne, IsReady};
ghost use Rattle.formula_lister.specs.inside.Levels.{IsLevel};

use crate::chosen::{Bounds, Chosen};
use crate::element::Element;
use crate::levels::Rest;
use crate::outcome::{GREATEST_LIST, ListFault};
use element_table::Formula;
use valence_filter::Sieve;

/// What a listed formula has to keep: the sieve that it passes, and the bounds of its mass and its counts.
#[derive(Drop)]
pub(crate) struct Lister<'a> {
    pub sieve: &'a Sieve,
    pub bounds: Bounds,
}

impl Lister<'_> {
    /// Adds a formula to a list where it passes the sieve, if the list may have one more.
    fn add(&self, list: &mut Vec<Formula>, formula: &Formula) -> Result<(), ListFault>
        requires few { length list.old.items ≤ greatest_list }
        ensures gains { OnOk result
            (Gains (IsOne self.now.sieve.now.rules.items formula.now) list.old.items list.new.items) }
        ensures few { length list.new.items ≤ greatest_list }
        ensures too_many { result ≡ Err ListFault.TooMany
            → Overfills (IsOne self.now.sieve.now.rules.items formula.now) list.old.items }
    {
        if !self.sieve.passes(formula) {
            return Ok(());
        }
        if list.len() >= GREATEST_LIST {
            return Err(ListFault::TooMany);
        }
        list.push(*formula)?;
        Ok(())
    }

    /// Lists the formula of the chosen counts, if it reaches the window.
    fn list_chosen(&self, list: &mut Vec<Formula>, chosen: &Chosen) -> Result<(), ListFault>
        requires few { length list.old.items ≤ greatest_list }
        requires ready { IsReady self.now.bounds [] chosen.now.formula }
        requires light { chosen.now.mass ≤ self.now.bounds.most }
        ensures gains { OnOk result
            (Gains (Completes self.now.bounds self.now.sieve.now.rules.items [] chosen.now.formula)
            list.old.items list.new.items) }
        ensures few { length list.new.items ≤ greatest_list }
        ensures too_many { result ≡ Err ListFault.TooMany
            → Overfills (Completes self.now.bounds self.now.sieve.now.rules.items [] chosen.now.formula)
            list.old.items }
    {
        if chosen.mass < self.bounds.least {
            return Ok(());
        }
        self.add(list, &chosen.formula)
    }

    /// Lists the formula that has the chosen counts, that of a rest, and of the last element those that its level has
    /// beside it, if it reaches the window.
    #[inline]
    fn list_rest(
        &self,
        list: &mut Vec<Formula>,
        chosen: &Chosen,
        next: &Element,
        last: &Element,
        rest: &Rest,
    ) -> Result<(), ListFault>
        requires few { length list.old.items ≤ greatest_list }
        requires ready { IsReady self.now.bounds (next.now ∷ last.now ∷ []) chosen.now.formula }
        requires level { IsLevel self.now.bounds.most chosen.now.mass next.now last.now rest.now }
        requires within_limit { rest.now.count ≤ next.now.limit }
        requires reached { next.now.levels.per * rest.now.count ≤ rest.now.level }
        ensures gains { OnOk result
            (Gains (Completes self.now.bounds self.now.sieve.now.rules.items
            (last.now ∷ []) (slice_set chosen.now.formula next.now.place rest.now.count))
            list.old.items list.new.items) }
        ensures few { length list.new.items ≤ greatest_list }
        ensures too_many { result ≡ Err ListFault.TooMany
            → Overfills (Completes self.now.bounds self.now.sieve.now.rules.items
            (last.now ∷ []) (slice_set chosen.now.formula next.now.place rest.now.count))
            list.old.items }
    {
        if rest.over > self.bounds.most - self.bounds.least {
            return Ok(());
        }
        let atoms = rest.level - next.levels.per * rest.count;
        if atoms > last.limit {
            return Ok(());
        }
        let formula = chosen.formula.with(next.place, rest.count as u16);
        self.add(list, &formula.with(last.place, atoms as u16))
    }

    /// Lists the formulas that have the chosen counts and any allowed counts of the last two elements.
    #[inline(always)]
    fn list_pair(
        &self,
        list: &mut Vec<Formula>,
        chosen: &Chosen,
        next: &Element,
        last: &Element,
    ) -> Result<(), ListFault>
        requires few { length list.old.items ≤ greatest_list }
        requires ready { IsReady self.now.bounds (next.now ∷ last.now ∷ []) chosen.now.formula }
        requires light { chosen.now.mass ≤ self.now.bounds.most }
        ensures gains { OnOk result
            (Gains (Completes self.now.bounds self.now.sieve.now.rules.items
            (next.now ∷ last.now ∷ []) chosen.now.formula)
            list.old.items list.new.items) }
        ensures few { length list.new.items ≤ greatest_list }
        ensures too_many { result ≡ Err ListFault.TooMany
            → Overfills (Completes self.now.bounds self.now.sieve.now.rules.items
            (next.now ∷ last.now ∷ []) chosen.now.formula)
            list.old.items }
    {
        let width = self.bounds.most - self.bounds.least;
        let mut rest = Rest::first(&self.bounds, chosen.mass, next, last);
        while rest.count <= next.limit && next.levels.per * rest.count <= rest.level {
            self.list_rest(list, chosen, next, last, &rest)?;
            rest = rest.next(next, last, width);
        }
        Ok(())
    }

    /// Lists the formulas that have the chosen counts and any allowed counts of these elements.
    pub fn list_from(
        &self,
        list: &mut Vec<Formula>,
        chosen: &Chosen,
        elements: &[Element],
    ) -> Result<(), ListFault>
        requires few { length list.old.items ≤ greatest_list }
        requires ready { IsReady self.now.bounds elements.now chosen.now.formula }
        requires light { chosen.now.mass ≤ self.now.bounds.most }
        ensures gains { OnOk result
            (Gains (Completes self.now.bounds self.now.sieve.now.rules.items elements.now chosen.now.formula)
            list.old.items list.new.items) }
        ensures few { length list.new.items ≤ greatest_list }
        ensures too_many { result ≡ Err ListFault.TooMany
            → Overfills (Completes self.now.bounds self.now.sieve.now.rules.items elements.now chosen.now.formula)
            list.old.items }
    {
        if let [next, last] = elements {
            return self.list_pair(list, chosen, next, last);
        }
        let Some((first, others)) = elements.split_first() else {
            return self.list_chosen(list, chosen);
        };
        let least = first.least_count(chosen.mass, self.bounds.least);
        for count in least..first.count_end(chosen.mass, self.bounds.most) {
            self.list_from(list, &chosen.with(first, count), others)?;
        }
        Ok(())
    }
}
