// One block of a fleet's text.
ghost use Rattle.std.specs.Prelude.{◌≡◌, ◌⊎◌, ◌+◌, ◌++◌, ◌∷◌, ◌<◌, ◌≤◌, ℕ, List, [], length, take, drop, true, IfOk, IfErr};
ghost use Rattle.report_text.specs.ReportLines.{pieces_of};
ghost use Rattle.fleet_text.specs.Fleet.{block_of};
ghost use Rattle.report_chart.specs.Chart.{IsRow};
ghost use Rattle.chart_text.specs.Blocks.{said_by, is_head, body_of, IsBodyOf, IsSayable};
ghost use Rattle.chart_text.specs.Refusals.{IsBodyRefused, IsBlockRefused};

use crate::begins::{behind_head, is_head, is_reason};
use crate::flight::read_flight;
use crate::reason::read_reason;
use crate::refusal::{behind, refused_at};
use raim_model::{Refusal, TextWhy};
use report_chart::Row;
use std::alloc::Global;
use text_lines::split_at_feed;

// How many bytes the first line of a text has, with the line feed that ends it.
fn line_len(text: &[u8]) -> usize
    requires { 0 < length text.now }
    ensures some { (0 < result) × (result ≤ length text.now) }
    ensures line { pieces_of text.now ≡ take result text.now ∷ pieces_of (drop result text.now) }
{
    match split_at_feed(text) {
        Some((_, rest)) => text.len() - rest.len(),
        None => text.len(),
    }
}

// What stands before the first line that begins a block, and what stands from there on.
fn split_body(text: &[u8]) -> (&[u8], &[u8])
    ensures body { result.0.now ≡ body_of text.now }
    ensures whole { text.now ≡ result.0.now ++ result.1.now }
    ensures next { (result.1.now ≡ []) ⊎ (is_head result.1.now ≡ true) }
{
    let mut rest = text;
    while !rest.is_empty() {
        let (line, after) = rest.split_at(line_len(rest));
        if is_head(line) {
            break;
        }
        rest = after;
    }
    text.split_at(text.len() - rest.len())
}

// What a block says, from what stands under its head.
fn read_body(alloc: Global, body: &[u8]) -> Result<Row, Refusal>
    ensures body { IfOk result (λ row. IsBodyOf (said_by row) body.now) }
    ensures sayable { IfOk result (λ row. IsSayable (said_by row)) }
    ensures row { IfOk result IsRow }
    ensures refused { IfErr result (IsBodyRefused body.now) }
{
    if is_reason(body) {
        return match read_reason(alloc, body) {
            Ok(line) => Ok(Row::Reason(line)),
            Err(refusal) => Err(refusal),
        };
    }
    match read_flight(alloc, body) {
        Ok(runs) => Ok(Row::Flight(runs)),
        Err(refusal) => Err(refusal),
    }
}

// The first block of a text, which is to have that number: what it says, and what stands behind it.
pub(crate) fn read_block(alloc: Global, text: &[u8], number: usize) -> Result<(Row, &[u8]), Refusal>
    requires head { is_head text.now ≡ true }
    ensures block { IfOk result (λ read. (body : List ℕ) × IsBodyOf (said_by read.0) body × (text.now ≡ block_of number body ++ read.1.now)) }
    ensures sayable { IfOk result (λ read. IsSayable (said_by read.0)) }
    ensures row { IfOk result (λ read. IsRow read.0) }
    ensures next { IfOk result (λ read. (read.1.now ≡ []) ⊎ (is_head read.1.now ≡ true)) }
    ensures shorter { IfOk result (λ read. length read.1.now < length text.now) }
    ensures refused { IfErr result (IsBlockRefused number text.now) }
{
    let Some(tail) = behind_head(text, number) else {
        return Err(refused_at(1, TextWhy::Label));
    };
    let (body, after) = split_body(tail);
    match read_body(alloc, body) {
        Ok(row) => Ok((row, after)),
        Err(refusal) => Err(behind(1, refusal)),
    }
}
