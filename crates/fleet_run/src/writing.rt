// Block after block.
ghost use Rattle.std.specs.Prelude.{◌≡◌, ◌≤◌, ◌⊎◌, ℕ, List, length, OnOk, IfErr};
ghost use Rattle.std.specs.Io.KnownBytes.{Appends};
ghost use Rattle.raim_base.specs.Causes.{Rose, GrowsByFront};
ghost use Rattle.fleet_text.specs.Fleet.{block_of};
ghost use Rattle.fleet_text.specs.Routes.{routes_of, most_routes};
ghost use Rattle.raim_run.specs.Texts.{TakesSteps};
ghost use Rattle.fleet_run.specs.Blocks.{IsBodyOf, with_route};
ghost use Rattle.fleet_run.specs.Causes.{BlocksEnd, BlockEnds};
ghost use Rattle.fleet_run.specs.Steps.{TakeFirstSteps};
ghost use Rattle.fleet_run.specs.Texts.{texts_of};

use crate::block::block_of_route;
use crate::texts::FleetTexts;
use fleet_text::split_route;
use raim_base::{Sink, write_all_counted};
use raim_run::Status;
use std::alloc::Global;
use std::sync::ledger::Ledger;
use step_counter::Steps;

// Makes and writes the block of one route.
fn write_block<K: Sink, L: Ledger>(
    alloc: Global,
    texts: FleetTexts,
    route: &[u8],
    number: u32,
    out: &mut K,
    steps: &mut Steps<L>,
) -> Result<(), Status>
    ensures ok { OnOk result ((body : List ℕ) × IsBodyOf (with_route (texts_of texts.entry) route.now) body × Appends (K.contents out.old) (K.contents out.new) (block_of number body)) }
    ensures cause { IfErr result (BlockEnds (with_route (texts_of texts.entry) route.now) number (K.contents out.old) (K.contents out.new) (K.faults out.old) (K.faults out.new)) }
    ensures later { K.faults out.old ≤ K.faults out.new }
    ensures steps { TakesSteps (with_route (texts_of texts.entry) route.now) steps.old steps.new }
{
    let Ok(block) = block_of_route(alloc, texts, route, number, steps) else {
        return Err(Status::Memory);
    };
    match write_all_counted(out, &block) {
        Ok(()) => Ok(()),
        Err(_) => Err(Status::WriteFault),
    }
}

// Makes and writes block after block.
pub(crate) fn write_blocks<K: Sink, L: Ledger>(
    alloc: Global,
    texts: FleetTexts,
    out: &mut K,
    steps: &mut Steps<L>,
) -> Status
    requires { length (routes_of texts.routes.now) ≤ most_routes }
    ensures cause { BlocksEnd (texts_of texts.entry) (K.contents out.old) (K.contents out.new) (K.faults out.old) (K.faults out.new) result }
    ensures later { K.faults out.old ≤ K.faults out.new }
    ensures steps { TakeFirstSteps (texts_of texts.entry) (routes_of texts.entry.routes.now) steps.old steps.new }
{
    let mut rest = texts.routes;
    let mut number = 1u32;
    loop {
        let (route, after) = split_route(rest);
        if let Err(status) = write_block(alloc, texts, route, number, out, steps) {
            return status;
        }
        let Some(next) = after else {
            return Status::Done;
        };
        rest = next;
        number += 1;
    }
}
