// Refusals and the numbers of their lines.
ghost use Rattle.std.specs.Prelude.{◌≡◌};
ghost use Rattle.chart_text.specs.LineNumbers.{lines_in, number_behind, refusal_behind};

use raim_model::{Refusal, TextFault, TextWhy};

// Refused at that line.
pub(crate) fn refused_at(line: u32, why: TextWhy) -> Refusal
    ensures { result ≡ Refusal.Text (record { line = line; why = why }) }
{
    Refusal::Text(TextFault { line, why })
}

// How many lines a line feed ends.
pub(crate) fn lines_in(text: &[u8]) -> usize
    ensures { result ≡ lines_in text.now }
{
    text.iter().filter(|b| **b == b'\n').count()
}

// The number that a line has where so many lines stand before.
fn number_behind(before: usize, line: u32) -> u32
    ensures { result ≡ number_behind before line }
{
    match u32::try_from(before) {
        Ok(before) => before.saturating_add(line),
        Err(_) => u32::MAX,
    }
}

// A refusal by the number that its line has behind so many lines.
pub(crate) fn behind(before: usize, refusal: Refusal) -> Refusal
    ensures { result ≡ refusal_behind before refusal }
{
    match refusal {
        Refusal::Memory => Refusal::Memory,
        Refusal::Text(fault) => refused_at(number_behind(before, fault.line), fault.why),
    }
}
