// A line in the place of a report.
ghost use Rattle.std.specs.Prelude.{◌≡◌, ◌++◌, ◌∷◌, [], true, IfOk, IfErr};
ghost use Rattle.std.specs.List.{list_all};
ghost use Rattle.text_lines.specs.Lines.{is_inside};
ghost use Rattle.chart_text.specs.Refusals.{IsReasonRefused};

use crate::refusal::refused_at;
use raim_model::{Refusal, TextWhy};
use std::alloc::Global;
use text_lines::split_at_feed;

// The one line of a body, without its line feed.
pub(crate) fn read_reason(alloc: Global, body: &[u8]) -> Result<Vec<u8>, Refusal>
    ensures line { IfOk result (λ v. body.now ≡ v.items ++ 10 ∷ []) }
    ensures inside { IfOk result (λ v. list_all is_inside v.items ≡ true) }
    ensures refused { IfErr result (IsReasonRefused body.now) }
{
    let Some((line, rest)) = split_at_feed(body) else {
        return Err(refused_at(1, TextWhy::Short));
    };
    if !rest.is_empty() {
        return Err(refused_at(2, TextWhy::Word));
    }
    match line.to_vec(alloc) {
        Ok(reason) => Ok(reason),
        Err(_) => Err(Refusal::Memory),
    }
}
