//! A mass window.
use std::marker::Model;

/// The masses around a centre that are at most `half` away from it, in units of 10^-7 Da.
#[derive(Clone, Copy, Debug, PartialEq, Eq)]
pub struct Window {
    pub centre: i64,
    pub half: u64,
}

impl Model for Window {
    ghost use Rattle.element_table.specs.Window.{Window as MassWindow};

    ghost Value = { MassWindow };

    ghost view = { λ window. record { centre = window.centre; half = window.half } };

    ghost inverse = { λ window. record { centre = window.centre; half = window.half } };
}
