// A case of texts.
ghost use Rattle.std.specs.Prelude.{◌≤◌, All, length, IfOk};
ghost use Rattle.raim_model.specs.AlmanacRanges.{AreRecords};
ghost use Rattle.raim_model.specs.Span.{IsFlight};

use limits_text::read_limits;
use outage_notice::read_outages;
use piece_verdict::Case;
use raim_model::{AlmRecord, Almanac, OutOfMemory, Refusal, Span};
use route_interp::read_route;
use sem_text::read_sem;
use std::alloc::{AllocError, Global};
use yuma_text::read_yuma;

/// The records of an almanac: in the form YUMA where it begins with a star, and else in the form SEM.
fn read_almanac(alloc: Global, text: &str, span: Span) -> Result<Vec<AlmRecord>, Refusal>
    requires { IsFlight span }
    ensures { IfOk result (λ records. AreRecords span records.items) }
{
    if text.starts_with("*") {
        read_yuma(alloc, text.as_bytes(), span)
    } else {
        read_sem(alloc, text.as_bytes(), span)
    }
}

/// The records of the almanacs, up to the first that is refused.
fn read_almanacs(alloc: Global, texts: &[String], span: Span) -> Result<Vec<Almanac>, AllocError>
    requires { IsFlight span }
    ensures few { IfOk result (λ almanacs. length almanacs.items ≤ length texts.now) }
    ensures ranges { IfOk result (λ almanacs. All (AreRecords span) almanacs.items) }
{
    let mut almanacs = Vec::new(alloc);
    for text in texts {
        let Ok(records) = read_almanac(alloc, text.as_str(), span) else {
            break;
        };
        almanacs.push(Almanac { records })?;
    }
    Ok(almanacs)
}

/// The case of the texts of four files, the almanacs each by itself, in the form YUMA or SEM; nothing where one is refused or there
/// are not one to eight almanacs.
pub fn case_of_texts(
    alloc: Global,
    limits: &str,
    almanacs: &[String],
    outages: &str,
    route: &str,
) -> Result<Option<Case>, OutOfMemory> {
    let Ok(limits) = read_limits(alloc, limits.as_bytes()) else {
        return Ok(None);
    };
    let Ok(route) = read_route(alloc, route.as_bytes(), limits.leap) else {
        return Ok(None);
    };
    let Ok(outages) = read_outages(alloc, outages.as_bytes(), limits.leap) else {
        return Ok(None);
    };
    let Ok(read) = read_almanacs(alloc, almanacs, route.span()) else {
        return Err(OutOfMemory);
    };
    if read.len() != almanacs.len() || read.len() == 0 || read.len() > 8 {
        return Ok(None);
    }
    match Case::prepare(alloc, limits, read, outages, route) {
        Ok(case) => Ok(Some(case)),
        Err(fault) => Err(fault),
    }
}
