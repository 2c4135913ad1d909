// The text of a fleet.
ghost use Rattle.std.specs.Prelude.{◌≡◌, true, All, map, IfOk, IfErr};
ghost use Rattle.report_chart.specs.Chart.{IsRow};
ghost use Rattle.chart_text.specs.Blocks.{said_by, is_head, IsSayable};
ghost use Rattle.chart_text.specs.Fleets.{IsFleetOf};
ghost use Rattle.chart_text.specs.Refusals.{IsFleetRefused};

use crate::block::read_block;
use crate::refusal::{behind, lines_in};
use raim_model::Refusal;
use report_chart::Row;
use std::alloc::Global;

// What the blocks of a text say, the first of which is there.
pub(crate) fn read_fleet(alloc: Global, text: &[u8]) -> Result<Vec<Row>, Refusal>
    requires { is_head text.now ≡ true }
    ensures fleet { IfOk result (λ v. IsFleetOf (map said_by v.items) text.now) }
    ensures sayable { IfOk result (λ v. All IsSayable (map said_by v.items)) }
    ensures rows { IfOk result (λ v. All IsRow v.items) }
    ensures refused { IfErr result (IsFleetRefused text.now) }
{
    let mut rows = Vec::new(alloc);
    let mut rest = text;
    while !rest.is_empty() {
        match read_block(alloc, rest, rows.len() + 1) {
            Ok((row, after)) => {
                let Ok(()) = rows.push(row) else {
                    return Err(Refusal::Memory);
                };
                rest = after;
            }
            Err(refusal) => {
                let (front, _) = text.split_at(text.len() - rest.len());
                return Err(behind(lines_in(front), refusal));
            }
        }
    }
    Ok(rows)
}
