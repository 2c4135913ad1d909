// A desk in memory that never fails.
ghost use Rattle.std.specs.Prelude.{◌≡◌, IsOk, IfOk, OnOk, OnErr, List, ℕ};
ghost use Rattle.std.specs.Io.{ReadsAtMost};
ghost use Rattle.std.specs.Io.KnownBytes.{Keeps, ReadConsumes};
ghost use Rattle.raim_model.specs.declared.FileNo.{FileNo};
ghost use Rattle.raim_base.specs.Causes.{HasCause};
ghost use Rattle.raim_base.specs.Desks.{KeepsOthers};

use crate::mem_desk::{give, named};
use crate::per_file::PerFile;
use crate::place::Place;
use crate::{Desk, Failed};
use raim_model::FileNo;
use std::marker::Model;

/// A desk in memory over four texts, under the paths of a `MemDesk`. It never fails: its counts of faults
/// are 0.
#[derive(Drop)]
pub struct SureDesk {
    limits: Vec<u8>,
    almanac: Vec<u8>,
    outages: Vec<u8>,
    route: Vec<u8>,
    places: PerFile<Place>,
}

impl Model for SureDesk {
    ghost use Rattle.raim_base.specs.SureDeskState.{SureDeskState};
    ghost use Rattle.raim_base.specs.MemDeskView.{left_in};

    ghost Value = { SureDeskState };

    ghost view = { λ d. record {
      texts = record { limits = d.limits.items; almanac = d.almanac.items; outages = d.outages.items; route = d.route.items };
      left = left_in (record { limits = d.limits.items; almanac = d.almanac.items; outages = d.outages.items; route = d.route.items }) d.places;
    } };
}

impl SureDesk {
    ghost use Rattle.raim_base.specs.MemDeskState.{text_of, alike};
    ghost use Rattle.std.specs.Prelude.{[]};

    /// A desk over four texts, of which no file is named yet.
    pub fn new(limits: Vec<u8>, almanac: Vec<u8>, outages: Vec<u8>, route: Vec<u8>) -> SureDesk
        ensures limits { result.texts.limits ≡ limits.items }
        ensures almanac { result.texts.almanac ≡ almanac.items }
        ensures outages { result.texts.outages ≡ outages.items }
        ensures route { result.texts.route ≡ route.items }
        ensures fresh { result.left ≡ alike [] }
    {
        SureDesk {
            limits,
            almanac,
            outages,
            route,
            places: PerFile::all(Place { text: None, at: 0 }),
        }
    }

    fn text(&self, text: Option<FileNo>) -> &[u8]
        ensures { result.now ≡ text_of self.now.texts text }
    {
        match text {
            None => &[],
            Some(FileNo::Limits) => &self.limits,
            Some(FileNo::Almanac) => &self.almanac,
            Some(FileNo::Outages) => &self.outages,
            Some(FileNo::Route) => &self.route,
        }
    }
}

impl Desk for SureDesk {
    ghost use Rattle.std.specs.Prelude.{Some, None};
    ghost use Rattle.raim_base.specs.MemDeskState.{of_file};
    ghost use Rattle.raim_base.specs.SureDeskState.{sure_text_under};

    ghost holds = { λ d p. Some (sure_text_under d p) };

    ghost left = { λ d f. Some (of_file d.left f) };

    ghost faults = { λ _ _. 0 };

    ghost calls = { λ _. None };

    #[tactic(auto, using(crate::proofs::Places::left_in_file))]
    fn name(&mut self, file: FileNo, path: &str) -> Result<(), Failed>
        ensures holds { (p : List ℕ) → Some (sure_text_under self.new p) ≡ Some (sure_text_under self.old p) }
        ensures named { OnOk result (Some (of_file self.new.left file) ≡ Some (sure_text_under self.old path.now)) }
        ensures kept { OnErr result (Keeps (Some (of_file self.old.left file)) (Some (of_file self.new.left file))) }
        ensures others { KeepsOthers (λ f. Some (of_file self.old.left f)) (λ f. Some (of_file self.new.left f)) (λ f. 0) (λ f. 0) file }
        ensures cause { HasCause 0 0 result }
        ensures sure { IsOk result }
    {
        self.places.set(
            file,
            Place {
                text: named(path),
                at: 0,
            },
        );
        Ok(())
    }

    #[tactic(auto, using(crate::proofs::Places::left_in_file))]
    fn read(&mut self, file: FileNo, buf: &mut [u8]) -> Result<usize, Failed>
        ensures holds { (p : List ℕ) → Some (sure_text_under self.new p) ≡ Some (sure_text_under self.old p) }
        ensures count { ReadsAtMost result buf.new }
        ensures bytes { ReadConsumes (Some (of_file self.old.left file)) (Some (of_file self.new.left file)) result buf.new }
        ensures others { KeepsOthers (λ f. Some (of_file self.old.left f)) (λ f. Some (of_file self.new.left f)) (λ f. 0) (λ f. 0) file }
        ensures cause { HasCause 0 0 result }
        ensures sure { IsOk result }
    {
        let place = self.places.get(file);
        let count = give(self.text(place.text), place.at, usize::MAX, buf);
        let at = place.at + count;
        self.places.set(
            file,
            Place {
                text: place.text,
                at,
            },
        );
        Ok(count)
    }
}
