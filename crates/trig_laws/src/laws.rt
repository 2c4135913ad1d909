// Laws of the sine and cosine over intervals, each the contract of a function that does nothing.
ghost use Rattle.std.specs.Prelude.{◌≡◌, ℤ, pos, ◌^◌, ◌≤ℤ◌, ◌-ℤ◌, ◌+ℤ◌, ◌*ℤ◌};
ghost use Rattle.fractions.specs.Fraction.{Fraction};
ghost use Rattle.raim_model.specs.Level.{Level};
ghost use Rattle.raim_model.specs.Sine.{IsSineCosine};
ghost use Rattle.fix_interval.specs.Ends.{Ends, IsInside, width_of};
ghost use Rattle.fix_interval.specs.Lies.{Lies};
ghost use Rattle.fix_interval.specs.Pairs.{PairLies, PairInside};
ghost use Rattle.trig_laws.specs.SinCos.{sin_cos_of};

/// The sine and cosine of an interval of turns.
pub fn turns_are_enclosed()
    // they hold each pair that the model admits for turns inside
    ensures encloses { (a : Ends) → a.lo ≤ℤ a.hi → (N : Level) (u s c : Fraction) → Lies a 38 u → IsSineCosine N u s c → PairLies (sin_cos_of a) s c }
    // they lie inside those of wider turns
    ensures isotone { (a c : Ends) → IsInside a c → PairInside (sin_cos_of a) (sin_cos_of c) }
    // and each is at most 16 times as wide as the turns, and 256 units
    ensures narrow { (a : Ends) → a.lo ≤ℤ a.hi → (width_of (sin_cos_of a).sine ≤ℤ (pos 16 *ℤ width_of a +ℤ pos 256)) × (width_of (sin_cos_of a).cosine ≤ℤ (pos 16 *ℤ width_of a +ℤ pos 256)) }
{}

/// The sine and cosine of an interval are the same a whole number of turns on.
pub fn turns_repeat()
    ensures { (a : Ends) (w : ℤ) → sin_cos_of record { lo = a.lo +ℤ (w *ℤ pos (2 ^ 38)); hi = a.hi +ℤ (w *ℤ pos (2 ^ 38)) } ≡ sin_cos_of a }
{}
