// Laws of the definitions, each the contract of a function that does nothing.
ghost use Rattle.std.specs.Prelude.{◌≡◌, ◌≢◌, ◌↔◌, ◌+◌, ℤ, pos, ◌+ℤ◌, ◌≤ℤ◌, ◌<ℤ◌, List, true, false};
ghost use Rattle.raim_model.specs.declared.Piece.{Piece};
ghost use Rattle.raim_model.specs.declared.Run.{Run};
ghost use Rattle.raim_model.specs.declared.SplitFault.{SplitFault};
ghost use Rattle.raim_model.specs.declared.Verdict.{Verdict};
ghost use Rattle.raim_model.specs.Judgements.{Answers, is_certain, judgements, middle_of};
ghost use Rattle.raim_model.specs.Runs.{AreRuns, HasRuns, FaultComes};
ghost use Rattle.time_laws.specs.Answers.{HasAnswer};

/// A range has its runs, or too many of them, or a first millisecond that overflows.
pub fn a_range_has_an_answer()
    ensures { (w : ℤ → ℤ → Verdict) (first end : ℤ) → first ≤ℤ end → HasAnswer w first end }
{}

/// A range has one list of runs, and of its runs and the faults besides want of memory only one comes.
pub fn answers_exclude_one_another()
    ensures runs { (w : ℤ → ℤ → Verdict) (first end : ℤ) (xs ys : List Run) → AreRuns w first end xs → AreRuns w first end ys → xs ≡ ys }
    ensures no_fault { (w : ℤ → ℤ → Verdict) (first end : ℤ) (runs : List Run) (fault : SplitFault) → HasRuns w first end runs → FaultComes w first end fault → fault ≡ SplitFault.Memory }
    ensures one_fault { (w : ℤ → ℤ → Verdict) (first end : ℤ) (a b : SplitFault) → FaultComes w first end a → FaultComes w first end b → a ≢ SplitFault.Memory → b ≢ SplitFault.Memory → a ≡ b }
{}

/// Judging a piece answers that it is to be halved exactly where it has several milliseconds and its verdict is
/// not certain, and otherwise its verdict.
pub fn open_pieces_are_halved()
    ensures halved { (first last : ℤ) (v : Verdict) (piece : Piece) → first ≤ℤ last → Answers first last v piece → ((piece ≡ Piece.Split) ↔ ((first <ℤ last) × (is_certain v ≡ false))) }
    ensures decided { (first last : ℤ) (v : Verdict) (piece : Piece) → Answers first last v piece → piece ≢ Piece.Split → piece ≡ Piece.Decided v }
{}

/// The judgements of a piece: one where its verdict is certain or it is a single millisecond, and otherwise one
/// and those of its halves.
pub fn judgements_are_counted()
    ensures certain { (w : ℤ → ℤ → Verdict) (first last : ℤ) → is_certain (w first last) ≡ true → judgements w first last ≡ 1 }
    ensures single { (w : ℤ → ℤ → Verdict) (t : ℤ) → judgements w t t ≡ 1 }
    ensures halved { (w : ℤ → ℤ → Verdict) (first last : ℤ) → is_certain (w first last) ≡ false → first <ℤ last → judgements w first last ≡ 1 + judgements w first (middle_of first last) + judgements w (middle_of first last +ℤ pos 1) last }
{}
