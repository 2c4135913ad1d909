// The block of one route.
ghost use Rattle.std.specs.Prelude.{◌≡◌, ◌≤◌, ◌++◌, ℕ, List, length, drop, IfOk};
ghost use Rattle.raim_run.specs.Printed.{IsNotable};
ghost use Rattle.raim_run.specs.Texts.{TakesSteps};
ghost use Rattle.fleet_text.specs.Fleet.{block_of};
ghost use Rattle.fleet_run.specs.Blocks.{IsBodyOf, IsLineOf, with_route};
ghost use Rattle.fleet_run.specs.Texts.{texts_of};

use crate::texts::FleetTexts;
use command_words::Program;
use fleet_text::push_head;
use raim_run::{Ending, Status, note_line, predict_to_ending};
use std::alloc::{AllocError, Global};
use std::sync::ledger::Ledger;
use step_counter::Steps;

// How many bytes of a note stand before what it says: "raim: ".
const NOTE_NAME: usize = 6;

// What a note says, behind other words.
fn said_behind(alloc: Global, words: &[u8], note: &[u8]) -> Result<Vec<u8>, AllocError>
    requires { 6 ≤ length note.now }
    ensures { IfOk result (λ line. line.items ≡ words.now ++ drop 6 note.now) }
{
    let mut line = words.to_vec(alloc)?;
    let (_, said) = note.split_at(NOTE_NAME);
    line.extend_from_slice(said)?;
    Ok(line)
}

// The line that stands in the place of a report.
fn line_of(alloc: Global, ending: Ending) -> Result<Vec<u8>, AllocError>
    requires { IsNotable ending.leap ending.status }
    ensures { IfOk result (λ line. IsLineOf ending.leap ending.status line.items) }
{
    let note = note_line(Program::Raim, ending);
    match ending.status {
        Status::Refused { .. } => said_behind(alloc, b"refused ", &note),
        Status::Overflow { .. } => said_behind(alloc, b"", &note),
        Status::TooManyRuns => said_behind(alloc, b"", &note),
        _ => Err(AllocError),
    }
}

// What stands under the head of the block of a route.
fn body_of<L: Ledger>(
    alloc: Global,
    texts: FleetTexts,
    route: &[u8],
    steps: &mut Steps<L>,
) -> Result<Vec<u8>, AllocError>
    ensures body { IfOk result (λ body. IsBodyOf (with_route (texts_of texts.entry) route.now) body.items) }
    ensures steps { TakesSteps (with_route (texts_of texts.entry) route.now) steps.old steps.new }
{
    match predict_to_ending(
        alloc,
        texts.limits,
        texts.almanac,
        texts.outages,
        route,
        steps,
    ) {
        Ok(text) => Ok(text),
        Err(ending) => line_of(alloc, ending),
    }
}

// The block of the route of that number.
pub(crate) fn block_of_route<L: Ledger>(
    alloc: Global,
    texts: FleetTexts,
    route: &[u8],
    number: u32,
    steps: &mut Steps<L>,
) -> Result<Vec<u8>, AllocError>
    ensures block { IfOk result (λ block. (body : List ℕ) × IsBodyOf (with_route (texts_of texts.entry) route.now) body × (block.items ≡ block_of number body)) }
    ensures steps { TakesSteps (with_route (texts_of texts.entry) route.now) steps.old steps.new }
{
    let body = body_of(alloc, texts, route, steps)?;
    let mut block = Vec::new(alloc);
    push_head(&mut block, number)?;
    block.extend_from_slice(&body)?;
    Ok(block)
}
