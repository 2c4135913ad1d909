// What is seen of some satellites over a piece of time, one satellite after another.
ghost use Rattle.std.specs.Prelude.{◌≡◌, pos, ◌≤ℤ◌, ◌+◌, ◌≤◌, ◌<◌, ◌^◌, [], ◌∷◌, ◌++◌, List, length, IfSome};
ghost use Rattle.fix_interval.specs.Intervals.{ends};
ghost use Rattle.site_laws.specs.Sights.{visible, widest_direction, DirectionInside, DirectionEnds};
ghost use Rattle.elev_mask.specs.Sights.{sight_ends};
ghost use Rattle.verdict_laws.specs.Sights.{Sighted};
ghost use Rattle.case_laws.specs.SightOver.{sight_given};
ghost use Rattle.piece_verdict.specs.Seen.{first_kept, looks_with, IsSeen};
ghost use Rattle.piece_verdict.specs.Looks.{AreLooks};

use crate::found::Found;
use crate::looks::Looks;
use arrayvec::ArrayVec;
use elev_mask::Sight;
use fix_interval::Iv;
use geom_inverse::Row;

/// What is seen of some satellites: the rows of those that are visible, how many may be, and the first that straddles.
#[derive(Drop)]
pub struct Seen {
    pub(crate) rows: ArrayVec<Row, 32>,
    pub(crate) possible: usize,
    pub(crate) straddling: Option<u8>,
}

/// The satellite kept before, and else this one.
fn keep_first(kept: Option<u8>, prn: u8) -> Option<u8>
    ensures { result ≡ first_kept kept prn }
{
    match kept {
        Some(first) => Some(first),
        None => Some(prn),
    }
}

impl Seen {
    /// Of no satellite.
    pub(crate) fn new() -> Seen
        ensures { IsSeen result [] }
    {
        Seen {
            rows: ArrayVec::new(),
            possible: 0,
            straddling: None,
        }
    }

    /// Forgets what was seen.
    pub(crate) fn clear(&mut self)
        ensures { IsSeen self.new [] }
    {
        self.rows.clear();
        self.possible = 0;
        self.straddling = None;
    }

    /// Adds what is seen of one satellite, whose row has the weight `k`.
    pub(crate) fn add(&mut self, prn: u8, sight: Sight, k: Iv)
        requires room { length self.old.rows.items < 32 }
        requires few { self.old.possible < 32 }
        requires bound { (row : DirectionEnds) → sight_ends sight ≡ visible row → DirectionInside row widest_direction }
        requires not_negative { pos 0 ≤ℤ k.lo }
        requires at_most_one { k.hi ≤ℤ pos (2 ^ 38) }
        ensures seen { (seen : List Sighted) → IsSeen self.old seen → IsSeen self.new (seen ++ record { prn = prn; sight = sight_given (ends k) (sight_ends sight) } ∷ []) }
        ensures rows { length self.new.rows.items ≤ length self.old.rows.items + 1 }
        ensures possible { self.new.possible ≤ self.old.possible + 1 }
    {
        match sight {
            Sight::Visible(direction) => {
                self.rows.push(Row::weighed(prn, &direction, k));
                self.possible += 1;
            }
            Sight::Straddle => {
                self.straddling = keep_first(self.straddling, prn);
                self.possible += 1;
            }
            Sight::Hidden => {}
        }
    }

    /// The first satellite that straddles, where a test that needs so many satellites is left undecided by it, whatever is seen
    /// of further ones.
    pub(crate) fn settles(&self, needed: usize) -> Option<u8>
        ensures { (seen : List Sighted) → IsSeen self.now seen → IfSome result (λ prn. AreLooks needed seen (Looks.Straddle prn)) }
    {
        if needed <= self.possible {
            self.straddling
        } else {
            None
        }
    }

    /// What a test that needs so many satellites makes of it.
    pub(crate) fn found(&self, needed: usize) -> Found
        ensures { (seen : List Sighted) → IsSeen self.now seen → AreLooks needed seen (looks_with result self.now) }
    {
        if self.possible < needed {
            return Found::Few;
        }
        match self.straddling {
            Some(prn) => Found::Straddle(prn),
            None => Found::Rows,
        }
    }

    /// The same with the rows.
    pub(crate) fn looks(self, found: Found) -> Looks
        ensures { result ≡ looks_with found self }
    {
        match found {
            Found::Few => Looks::Few,
            Found::Straddle(prn) => Looks::Straddle(prn),
            Found::Rows => Looks::Rows(self.rows),
        }
    }
}
