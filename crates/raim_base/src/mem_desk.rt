// A desk in memory, which fails at the calls that it is told.
ghost use Rattle.std.specs.Prelude.{◌≡◌, ◌≢◌, ◌<◌, ◌≤◌, ◌+◌, ◌^◌, ◌↔◌, ℕ, List, [], length, drop, take, ◌++◌, IsErr, IfOk, OnOk, OnErr};
ghost use Rattle.std.specs.Io.{ReadsAtMost};
ghost use Rattle.std.specs.Io.KnownBytes.{Keeps, ReadConsumes};
ghost use Rattle.raim_model.specs.declared.FileNo.{FileNo};
ghost use Rattle.raim_base.specs.Causes.{HasCause, one_more};
ghost use Rattle.raim_base.specs.Desks.{KeepsOthers};
ghost use Rattle.raim_base.specs.Paths.{file_named};

use crate::per_file::PerFile;
use crate::place::Place;
use crate::{Desk, Failed};
use raim_model::FileNo;
use std::marker::Model;

/// A desk in memory: the paths `limits`, `almanac`, `outages` and `route` hold four texts, and every
/// other path holds no bytes. It gives at most `chunk` bytes a read, numbers its calls from 1, and
/// fails at those that are listed and no others.
#[derive(Drop)]
pub struct MemDesk {
    limits: Vec<u8>,
    almanac: Vec<u8>,
    outages: Vec<u8>,
    route: Vec<u8>,
    fails: Vec<u64>,
    chunk: usize,
    calls: u64,
    places: PerFile<Place>,
    faults: PerFile<u64>,
    failed: Option<FileNo>,
}

impl Model for MemDesk {
    ghost use Rattle.std.specs.Prelude.{◌<◌};
    ghost use Rattle.raim_base.specs.MemDeskState.{MemDeskState};
    ghost use Rattle.raim_base.specs.PerFile.{each_of};
    ghost use Rattle.raim_base.specs.MemDeskView.{left_in};

    ghost Value = { MemDeskState };

    ghost view = { λ d. record {
      texts = record { limits = d.limits.items; almanac = d.almanac.items; outages = d.outages.items; route = d.route.items };
      fails = d.fails.items;
      chunk = d.chunk;
      calls = d.calls;
      left = left_in (record { limits = d.limits.items; almanac = d.almanac.items; outages = d.outages.items; route = d.route.items }) d.places;
      faults = each_of d.faults;
      failed = d.failed;
    } };

    ghost invariant = { λ d. 0 < d.chunk };
}

impl MemDesk {
    ghost use Rattle.raim_base.specs.MemDeskState.{text_of, IsNewDesk};

    /// A desk over four texts, of which no file is named yet.
    pub fn new(
        limits: Vec<u8>,
        almanac: Vec<u8>,
        outages: Vec<u8>,
        route: Vec<u8>,
        fails: Vec<u64>,
        chunk: usize,
    ) -> MemDesk
        requires { 0 < chunk }
        ensures limits { result.texts.limits ≡ limits.items }
        ensures almanac { result.texts.almanac ≡ almanac.items }
        ensures outages { result.texts.outages ≡ outages.items }
        ensures route { result.texts.route ≡ route.items }
        ensures fresh { IsNewDesk fails.items chunk result }
    {
        MemDesk {
            limits,
            almanac,
            outages,
            route,
            fails,
            chunk,
            calls: 0,
            places: PerFile::all(Place { text: None, at: 0 }),
            faults: PerFile::all(0),
            failed: None,
        }
    }

    /// The file of the last call that failed.
    pub fn failed(&self) -> Option<FileNo>
        ensures { result ≡ self.now.failed }
    {
        self.failed
    }

    /// How many calls were made; the count stops at 2^64 - 1.
    pub fn calls(&self) -> u64
        ensures { result ≡ self.now.calls }
    {
        self.calls
    }

    fn text(&self, text: Option<FileNo>) -> &[u8]
        ensures { result.now ≡ text_of self.now.texts text }
    {
        match text {
            None => &[],
            Some(FileNo::Limits) => &self.limits,
            Some(FileNo::Almanac) => &self.almanac,
            Some(FileNo::Outages) => &self.outages,
            Some(FileNo::Route) => &self.route,
        }
    }
}

// Moves some of what stands from a place on to the front of the buffer.
pub(crate) fn give(text: &[u8], at: usize, chunk: usize, buf: &mut [u8]) -> usize
    requires { 0 < chunk }
    ensures count { result ≤ length buf.new }
    ensures few { result ≤ chunk }
    ensures bytes { drop at text.now ≡ take result buf.new ++ drop (at + result) text.now }
    ensures end { result ≡ 0 → 0 < length buf.new → drop at text.now ≡ [] }
    ensures fits { at + result < 2 ^ 64 }
{
    if at >= text.len() {
        return 0;
    }
    let rest = text.split_at(at).1;
    let count = rest.len().min(buf.len()).min(chunk);
    buf[..count].copy_from_slice(&rest[..count]);
    count
}

// The text that a path names.
pub(crate) fn named(path: &str) -> Option<FileNo>
    ensures { result ≡ file_named path.now }
{
    if path == "limits" {
        return Some(FileNo::Limits);
    }
    if path == "almanac" {
        return Some(FileNo::Almanac);
    }
    if path == "outages" {
        return Some(FileNo::Outages);
    }
    if path == "route" {
        return Some(FileNo::Route);
    }
    None
}

impl Desk for MemDesk {
    ghost use Rattle.std.specs.Prelude.{Some, None};
    ghost use Rattle.raim_base.specs.MemDeskState.{of_file, text_under, FailsNext, IsNextCall};

    ghost holds = { λ d p. Some (text_under d p) };

    ghost left = { λ d f. Some (of_file d.left f) };

    ghost faults = { λ d f. of_file d.faults f };

    ghost calls = { λ _. None };

    #[tactic(auto, using(crate::proofs::Places::left_in_file))]
    fn name(&mut self, file: FileNo, path: &str) -> Result<(), Failed>
        ensures holds { (p : List ℕ) → Some (text_under self.new p) ≡ Some (text_under self.old p) }
        ensures named { OnOk result (Some (of_file self.new.left file) ≡ Some (text_under self.old path.now)) }
        ensures kept { OnErr result (Keeps (Some (of_file self.old.left file)) (Some (of_file self.new.left file))) }
        ensures others { KeepsOthers (λ f. Some (of_file self.old.left f)) (λ f. Some (of_file self.new.left f)) (of_file self.old.faults) (of_file self.new.faults) file }
        ensures cause { HasCause (of_file self.old.faults file) (of_file self.new.faults file) result }
        ensures listed { IsErr result ↔ FailsNext self.old }
        ensures counted { OnErr result (of_file self.new.faults file ≡ one_more (of_file self.old.faults file)) }
        ensures uncounted { OnOk result (of_file self.new.faults file ≡ of_file self.old.faults file) }
        ensures failed { OnErr result (self.new.failed ≡ Some file) }
        ensures not_failed { OnOk result (self.new.failed ≡ self.old.failed) }
        ensures next { IsNextCall self.old self.new }
    {
        self.calls = self.calls.saturating_add(1);
        if self.fails.contains(&self.calls) {
            self.faults
                .set(file, self.faults.get(file).saturating_add(1));
            self.failed = Some(file);
            return Err(Failed);
        }
        self.places.set(
            file,
            Place {
                text: named(path),
                at: 0,
            },
        );
        Ok(())
    }

    #[tactic(auto, using(crate::proofs::Places::left_in_file))]
    fn read(&mut self, file: FileNo, buf: &mut [u8]) -> Result<usize, Failed>
        ensures holds { (p : List ℕ) → Some (text_under self.new p) ≡ Some (text_under self.old p) }
        ensures count { ReadsAtMost result buf.new }
        ensures bytes { ReadConsumes (Some (of_file self.old.left file)) (Some (of_file self.new.left file)) result buf.new }
        ensures others { KeepsOthers (λ f. Some (of_file self.old.left f)) (λ f. Some (of_file self.new.left f)) (of_file self.old.faults) (of_file self.new.faults) file }
        ensures cause { HasCause (of_file self.old.faults file) (of_file self.new.faults file) result }
        ensures listed { IsErr result ↔ FailsNext self.old }
        ensures few { IfOk result (λ k. k ≤ self.old.chunk) }
        ensures counted { OnErr result (of_file self.new.faults file ≡ one_more (of_file self.old.faults file)) }
        ensures uncounted { OnOk result (of_file self.new.faults file ≡ of_file self.old.faults file) }
        ensures failed { OnErr result (self.new.failed ≡ Some file) }
        ensures not_failed { OnOk result (self.new.failed ≡ self.old.failed) }
        ensures next { IsNextCall self.old self.new }
    {
        self.calls = self.calls.saturating_add(1);
        if self.fails.contains(&self.calls) {
            self.faults
                .set(file, self.faults.get(file).saturating_add(1));
            self.failed = Some(file);
            return Err(Failed);
        }
        let place = self.places.get(file);
        let count = give(self.text(place.text), place.at, self.chunk, buf);
        let at = place.at + count;
        self.places.set(
            file,
            Place {
                text: place.text,
                at,
            },
        );
        Ok(count)
    }
}
