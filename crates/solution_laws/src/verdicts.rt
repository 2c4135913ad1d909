// Laws of the verdict at a point of time, each the contract of a function that does nothing.
ghost use Rattle.std.specs.Prelude.{◌≡◌, ◌≢◌, ℕ, ℤ, pos, ◌+◌, ◌-◌, ◌<◌, ◌≤◌, true, false, List, [], ◌∷◌, ◌++◌, length, take, slice_index_or, All};
ghost use Rattle.fractions.specs.Fraction.{whole, ◌*ᶠ◌};
ghost use Rattle.raim_model.specs.declared.almanac.AlmRecord.{AlmRecord};
ghost use Rattle.raim_model.specs.declared.limits.Limits.{Limits};
ghost use Rattle.raim_model.specs.declared.outage.Outage.{Outage};
ghost use Rattle.raim_model.specs.declared.verdict.Verdict.TheVariants.{Available, Unavailable};
ghost use Rattle.raim_model.specs.declared.verdict.Why.TheVariants.{Few, Singular, Slope as TooSteep};
ghost use Rattle.raim_model.specs.Geometry.{horizontal, vertical};
ghost use Rattle.raim_model.specs.PointVerdict.{bias_of, kappa_of, point_verdict};
ghost use Rattle.raim_model.specs.Usable.{holds, is_usable};
ghost use Rattle.geometry_laws.specs.Worked.{five_rows, six_rows, rows_up};

/// The bias for five satellites is the first of the table, each larger number has the next one, and all numbers past the end
/// of the table have its last.
pub fn biases_are_looked_up()
    ensures given { (limits : Limits) (k d : ℕ) → k < length limits.bias_mm.items → bias_of limits (5 + k) ≡ slice_index_or limits.bias_mm.items k d }
    ensures last { (limits : Limits) (last k d : ℕ) → length limits.bias_mm.items ≡ last + 1 → last ≤ k → bias_of limits (5 + k) ≡ slice_index_or limits.bias_mm.items last d }
{}

/// The factor is the square of the bias over that of the alert limit.
pub fn factors_are_squared_ratios()
    ensures { (limits : Limits) (alert_mm n : ℕ) → 1 ≤ alert_mm
        → kappa_of limits alert_mm n *ᶠ (whole (pos alert_mm) *ᶠ whole (pos alert_mm)) ≡ whole (pos (bias_of limits n)) *ᶠ whole (pos (bias_of limits n)) }
{}

/// A satellite is usable where its health is 0 and none of its outages holds the millisecond, and nowhere else.
pub fn healthy_satellites_without_outage_are_usable()
    ensures unhealthy { (outages : List Outage) (t : ℤ) (rec : AlmRecord) → rec.health ≢ 0 → is_usable outages t rec ≡ false }
    ensures out { (before after : List Outage) (o : Outage) (t : ℤ) (rec : AlmRecord) → o.prn ≡ rec.prn → holds o t ≡ true → is_usable (before ++ (o ∷ after)) t rec ≡ false }
    ensures usable { (outages : List Outage) (t : ℤ) (rec : AlmRecord) → rec.health ≡ 0 → All (λ o. o.prn ≡ rec.prn → holds o t ≡ false) outages → is_usable outages t rec ≡ true }
{}

/// Verdicts of satellites on the axes, under an alert limit of a metre: one to the east, west, north and south, one up, and of six
/// one down. Detection passes with five where kappa is at most 1, and with six where it is at most 4/3, which lies between the
/// squares of 1.15 and of 1.2, and above 1.2 itself.
pub fn verdicts_of_satellites_on_the_axes()
    ensures five_pass { (limits : Limits) → limits.exclude ≡ false → limits.bias_mm.items ≡ 1000 ∷ 9000 ∷ [] → point_verdict horizontal limits 1000 five_rows ≡ Available }
    ensures five_steep { (limits : Limits) → limits.exclude ≡ false → limits.bias_mm.items ≡ 1001 ∷ 0 ∷ [] → point_verdict horizontal limits 1000 five_rows ≡ Unavailable TooSteep }
    ensures six_pass { (limits : Limits) → limits.exclude ≡ false → limits.bias_mm.items ≡ 9000 ∷ 1150 ∷ [] → point_verdict horizontal limits 1000 six_rows ≡ Available }
    ensures six_steep { (limits : Limits) → limits.exclude ≡ false → limits.bias_mm.items ≡ 0 ∷ 1200 ∷ 0 ∷ [] → point_verdict horizontal limits 1000 six_rows ≡ Unavailable TooSteep }
    ensures last_pass { (limits : Limits) → limits.exclude ≡ false → limits.bias_mm.items ≡ 1150 ∷ [] → point_verdict horizontal limits 1000 six_rows ≡ Available }
    ensures last_steep { (limits : Limits) → limits.exclude ≡ false → limits.bias_mm.items ≡ 1200 ∷ [] → point_verdict horizontal limits 1000 six_rows ≡ Unavailable TooSteep }
    ensures few { (limits : Limits) → limits.exclude ≡ false → limits.bias_mm.items ≡ 0 ∷ [] → point_verdict horizontal limits 1000 (take 4 five_rows) ≡ Unavailable Few }
    ensures singular { (limits : Limits) → limits.exclude ≡ false → limits.bias_mm.items ≡ 0 ∷ [] → point_verdict horizontal limits 1000 rows_up ≡ Unavailable Singular }
    // exclusion asks for six, tests them under kappa(6), and each five of them under kappa(5); without the one to the east, that to the
    // west has a slope and no residual, so only a kappa(5) of 0 passes
    ensures excluded_pass { (limits : Limits) → limits.exclude ≡ true → limits.bias_mm.items ≡ 0 ∷ 1150 ∷ [] → point_verdict horizontal limits 1000 six_rows ≡ Available }
    ensures excluded_whole_steep { (limits : Limits) → limits.exclude ≡ true → limits.bias_mm.items ≡ 0 ∷ 1200 ∷ [] → point_verdict horizontal limits 1000 six_rows ≡ Unavailable TooSteep }
    ensures excluded_five_steep { (limits : Limits) → limits.exclude ≡ true → limits.bias_mm.items ≡ 1 ∷ 0 ∷ [] → point_verdict horizontal limits 1000 six_rows ≡ Unavailable TooSteep }
    ensures excluded_few { (limits : Limits) → limits.exclude ≡ true → limits.bias_mm.items ≡ 0 ∷ [] → point_verdict horizontal limits 1000 five_rows ≡ Unavailable Few }
    // upwards, under an alert limit of its own: the bound of six is 4/3 as well
    ensures up_pass { (limits : Limits) → limits.exclude ≡ false → limits.bias_mm.items ≡ 9000 ∷ 2300 ∷ [] → point_verdict vertical limits 2000 six_rows ≡ Available }
    ensures up_steep { (limits : Limits) → limits.exclude ≡ false → limits.bias_mm.items ≡ 0 ∷ 2400 ∷ [] → point_verdict vertical limits 2000 six_rows ≡ Unavailable TooSteep }
{}
