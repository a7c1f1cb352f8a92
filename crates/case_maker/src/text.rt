//! The text that is made of a number.
ghost use Rattle.std.specs.Prelude.{◌≡◌, ◌≤◌, ◌*◌, ◌++◌, IfOk, OnOk, codes, decimal, length};
ghost use Rattle.case_maker.specs.Draws.{state_after};
ghost use Rattle.case_maker.specs.MadeText as spec;

use crate::drawn::{draw_formula, draw_part};
use crate::generator::Generator;
use element_table::Formula;
use fixed_mass::print_units;
use itoa::Buffer;
use std::alloc::{AllocError, Global};

/// How far the m/z of a protonated ion is above its formula's mass, in units of 10^-7 Da.
const PROTON_SHIFT: u64 = 10_072_764;

/// The intensities that are drawn are at most this.
const GREATEST_INTENSITY: u64 = 1_000_000;

/// The text of a number at most 10^18: at most 20 spectra of at most 12 peaks each, in the Mascot generic format. The
/// precursor of each is a protonated ion whose formula is drawn, in units of 10^-7 Da, and its peaks are those of parts
/// of it that are drawn. The same numbers make the same text everywhere. `AllocError` is the only refusal.
pub fn make(alloc: Global, number: u64, spectra: u32, peaks: u32) -> Result<Vec<u8>, AllocError>
    requires number { number ≤ spec.greatest_case_number }
    requires few_spectra { spectra ≤ spec.most_spectra }
    requires few_peaks { peaks ≤ spec.most_peaks }
    ensures made { IfOk result (λ text. text.items ≡ spec.made_text number spectra peaks) }
    ensures short { IfOk result (λ text. length text.items ≤ spec.most_bytes) }
{
    let mut text = Vec::new(alloc);
    let mut generator = Generator::new(number);
    for place in 0..spectra {
        push_block(&mut text, &mut generator, number, place + 1, peaks)?;
    }
    Ok(text)
}

/// Appends the block of a spectrum.
fn push_block(
    text: &mut Vec<u8>,
    generator: &mut Generator,
    number: u64,
    spectrum: u32,
    peaks: u32,
) -> Result<(), AllocError>
    ensures appended { OnOk result (text.new.items ≡ text.old.items
        ++ spec.text_of (spec.block_lines number spectrum peaks generator.old)) }
    ensures state { OnOk result (generator.new ≡ state_after (spec.draws_of_spectrum peaks) generator.old) }
{
    let formula = draw_formula(generator);
    push_head(text, &formula, number, spectrum)?;
    push_peaks(text, generator, &formula, peaks)?;
    text.extend_from_slice(b"END IONS\n")?;
    Ok(())
}

/// Appends the lines of a block before its peaks.
fn push_head(
    text: &mut Vec<u8>,
    formula: &Formula,
    number: u64,
    spectrum: u32,
) -> Result<(), AllocError>
    ensures { OnOk result (text.new.items ≡ text.old.items
        ++ spec.text_of (spec.head_lines number spectrum formula.now)) }
{
    push_number(text, b"BEGIN IONS\nTITLE=trial ", number)?;
    push_number(text, b" ", u64::from(spectrum))?;
    text.extend_from_slice(b"\nPEPMASS=")?;
    push_mz(text, formula)?;
    text.extend_from_slice(b"\nCHARGE=1+\n")?;
    Ok(())
}

/// Appends the lines of so many peaks.
fn push_peaks(
    text: &mut Vec<u8>,
    generator: &mut Generator,
    whole: &Formula,
    peaks: u32,
) -> Result<(), AllocError>
    ensures appended { OnOk result (text.new.items ≡ text.old.items
        ++ spec.text_of (spec.peak_lines whole.now peaks generator.old)) }
    ensures state { OnOk result (generator.new ≡ state_after (peaks * spec.draws_of_peak) generator.old) }
{
    for _ in 0..peaks {
        push_peak(text, generator, whole)?;
    }
    Ok(())
}

/// Appends the line of a peak.
fn push_peak(
    text: &mut Vec<u8>,
    generator: &mut Generator,
    whole: &Formula,
) -> Result<(), AllocError>
    ensures appended { OnOk result (text.new.items ≡ text.old.items
        ++ (spec.peak_line whole.now generator.old ++ codes "\n")) }
    ensures state { OnOk result (generator.new ≡ state_after spec.draws_of_peak generator.old) }
{
    let part = draw_part(generator, whole);
    let intensity = 1 + generator.draw_below(GREATEST_INTENSITY);
    push_mz(text, &part)?;
    push_number(text, b" ", intensity)?;
    text.push(b'\n')?;
    Ok(())
}

/// Appends the m/z of the protonated ion of a formula.
fn push_mz(text: &mut Vec<u8>, formula: &Formula) -> Result<(), AllocError>
    ensures { OnOk result (text.new.items ≡ text.old.items ++ spec.mz_text formula.now) }
{
    text.extend_from_slice(print_units(formula.mass() + PROTON_SHIFT).items())?;
    Ok(())
}

/// Appends some words and a number.
fn push_number(text: &mut Vec<u8>, words: &[u8], number: u64) -> Result<(), AllocError>
    ensures { OnOk result (text.new.items ≡ text.old.items ++ (words.now ++ decimal number)) }
{
    text.extend_from_slice(words)?;
    text.extend_from_slice(Buffer::new().format(number).as_bytes())?;
    Ok(())
}

#[cfg(test)]
mod tests {
    use super::make;
    use std::test::Fail;

    #[test]
    fn the_text_of_number_zero(rt: HostRuntime) -> Result<(), Fail> {
        let text = make(rt.alloc(), 0, 2, 2)?;
        let first =
            b"BEGIN IONS\nTITLE=trial 0 1\nPEPMASS=817.2292892\nCHARGE=1+\n637.1659016 791265\n";
        assert!(rt; text.len() == 208);
        assert!(rt; text.starts_with(first));
        Ok(())
    }
}
