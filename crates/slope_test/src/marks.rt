// Places that are marked.
ghost use Rattle.std.specs.Prelude.{◌≡◌, ◌≢◌, ℕ, ◌<◌, List, slice_index_or, false};
ghost use Rattle.fix_interval.specs.Ends.{Ends};
ghost use Rattle.slope_laws.specs.declared.Shift.{Shift};
ghost use Rattle.slope_laws.specs.Rows.{NamedRow};
ghost use Rattle.slope_test.specs.Marks.{SlopesPass, ListsPass};

/// Places of a list of at most 32, of which something is known.
#[derive(Clone, Copy)]
pub struct Marks {
    pub places: [bool; 32],
}

impl Marks {
    /// No place.
    pub fn none() -> Marks
        ensures unmarked { (k : ℕ) → slice_index_or result.places k false ≡ false }
        // so nothing is known of any rows
        ensures slopes { (shift : Shift) (rows : List NamedRow) (kappa : Ends) → SlopesPass shift rows kappa result.places }
        ensures lists { (shift : Shift) (rows : List NamedRow) (kappa_less : Ends) → ListsPass shift rows kappa_less result.places }
    {
        Marks {
            places: [false; 32],
        }
    }

    /// Whether the place is marked.
    pub fn holds(&self, place: usize) -> bool
        requires { place < 32 }
        ensures { result ≡ slice_index_or self.now.places place false }
    {
        self.places[place]
    }

    /// Marks the place.
    pub fn add(&mut self, place: usize)
        requires { place < 32 }
        ensures { (k : ℕ) → k ≢ place → slice_index_or self.new.places k false ≡ slice_index_or self.old.places k false }
    {
        self.places[place] = true;
    }
}
