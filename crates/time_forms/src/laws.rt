// Laws of forms, each the contract of a function that does nothing.

ghost use Rattle.std.specs.Prelude.{◌≡◌, ℕ, ℤ, pos, neg_ℤ, ◌<◌, ◌^◌, ◌+ℤ◌, ◌*ℤ◌, ◌≤ℤ◌, ◌<ℤ◌, Some};
ghost use Rattle.fix_interval.specs.Ends.{Ends, IsInside};
ghost use Rattle.fix_interval.specs.Sums.{add_of, sub_of, neg_of};
ghost use Rattle.fix_interval.specs.Products.{mul_wide_of, sqr_wide_of, narrow76_of, mul_of, sqr_of, scale_int_of};
ghost use Rattle.fix_interval.specs.Quotients.{div_int_of, div_of};
ghost use Rattle.fix_interval.specs.Roots.{sqrt_of};
ghost use Rattle.time_forms.specs.Forms.{Form, IsTime, Holds, least_of, greatest_of, span_of};
ghost use Rattle.time_forms.specs.Operations.{fixed_of, linear_of, moving_of, wider_of, bounded_of, add_form, sub_form, neg_form, less_form, scale_form, wide_form, coarser_form, narrow_form, mul_form};
ghost use Rattle.time_forms.specs.RootForms.{sqrt_form};
ghost use Rattle.time_forms.specs.QuotientForms.{div_form};
ghost use Rattle.time_forms.specs.Programs.{short_of, IsFormWithin};

/// What a form holds at any time of its piece is inside its span, so that comparisons that are certain of spans are certain of each
/// millisecond.
pub fn forms_are_inside_their_spans()
    ensures inside { (h : ℕ) (d : ℤ) (f : Form) (e : Ends) → IsTime h d → Holds h d f e → IsInside e (span_of f) }
    ensures at_most { (h : ℕ) (d : ℤ) (f g : Form) (a b : Ends) → IsTime h d → greatest_of f ≤ℤ least_of g
        → Holds h d f a → Holds h d g b → a.hi ≤ℤ b.lo }
    ensures below { (h : ℕ) (d : ℤ) (f g : Form) (a b : Ends) → IsTime h d → greatest_of f <ℤ least_of g
        → Holds h d f a → Holds h d g b → a.hi <ℤ b.lo }
{}

/// Forms of fixed ends, of k + d times a choice of fixed ends, of what moves evenly, wider forms, and those of anything
/// from -m to m.
pub fn known_forms_hold()
    ensures fixed { (h : ℕ) (d : ℤ) (e : Ends) → e.lo ≤ℤ e.hi → Holds h d (fixed_of e) e }
    ensures linear { (h : ℕ) (d : ℤ) (e : Ends) (k : ℤ) → IsTime h d → e.lo ≤ℤ e.hi
        → Holds h d (linear_of e k h) (scale_int_of e (k +ℤ d) (k +ℤ d)) }
    // what is e at the middle, and grows by g a millisecond, each end by its own, as a place on a leg
    ensures moving { (h : ℕ) (d : ℤ) (e g : Ends) → IsTime h d → (e.lo +ℤ g.lo *ℤ d) ≤ℤ (e.hi +ℤ g.hi *ℤ d)
        → Holds h d (moving_of e g h) record { lo = e.lo +ℤ g.lo *ℤ d; hi = e.hi +ℤ g.hi *ℤ d } }
    ensures wider { (h : ℕ) (d : ℤ) (f : Form) (k : ℕ) (e : Ends) → Holds h d f e → Holds h d (wider_of f k) e }
    ensures bounded { (h : ℕ) (d : ℤ) (m : ℕ) (e : Ends) → neg_ℤ (pos m) ≤ℤ e.lo → e.lo ≤ℤ e.hi → e.hi ≤ℤ pos m
        → Holds h d (bounded_of m) e }
{}

/// Sums, differences, negatives and whole multiples, with no rounding; and a sum less one of its parts is that of the others.
pub fn sums_of_forms_hold()
    ensures sum { (h : ℕ) (d : ℤ) (f g : Form) (a b : Ends) → Holds h d f a → Holds h d g b → Holds h d (add_form f g) (add_of a b) }
    ensures difference { (h : ℕ) (d : ℤ) (f g : Form) (a b : Ends) → Holds h d f a → Holds h d g b → Holds h d (sub_form f g) (sub_of a b) }
    ensures negative { (h : ℕ) (d : ℤ) (f : Form) (a : Ends) → Holds h d f a → Holds h d (neg_form f) (neg_of a) }
    ensures multiple { (h : ℕ) (d : ℤ) (f : Form) (a : Ends) (k : ℤ) → Holds h d f a → Holds h d (scale_form f k) (scale_int_of a k k) }
    ensures part { (f g : Form) → less_form (add_form f g) g ≡ f }
    ensures turned { (f g : Form) → add_form f g ≡ add_form g f }
    ensures grouped { (f g k : Form) → add_form (add_form f g) k ≡ add_form f (add_form g k) }
{}

/// Products and squares, wide and rounded, and what is rounded outward to larger units.
pub fn products_of_forms_hold()
    ensures wide { (h : ℕ) (d : ℤ) (f g : Form) (a b : Ends) → IsTime h d → Holds h d f a → Holds h d g b → Holds h d (wide_form f g) (mul_wide_of a b) }
    ensures wide_square { (h : ℕ) (d : ℤ) (f : Form) (a : Ends) → IsTime h d → Holds h d f a → Holds h d (wide_form f f) (sqr_wide_of a) }
    ensures coarser { (h : ℕ) (d : ℤ) (k : ℕ) (f : Form) (a : Ends) → 0 < k → IsTime h d → Holds h d f a → Holds h d (coarser_form f k) (div_int_of a k) }
    ensures narrow { (h : ℕ) (d : ℤ) (f : Form) (a : Ends) → IsTime h d → Holds h d f a → Holds h d (narrow_form f) (narrow76_of a) }
    ensures product { (h : ℕ) (d : ℤ) (f g : Form) (a b : Ends) → IsTime h d → Holds h d f a → Holds h d g b → Holds h d (mul_form f g) (mul_of a b) }
    ensures square { (h : ℕ) (d : ℤ) (f : Form) (a : Ends) → IsTime h d → Holds h d f a → Holds h d (mul_form f f) (sqr_of a) }
{}

/// A form that fits 64 bits is the same form; one that does not is none.
pub fn short_forms_are_the_same()
    ensures same { (f g : Form) → short_of f ≡ Some g → g ≡ f }
    ensures small { (f g : Form) → short_of f ≡ Some g → IsFormWithin g (2 ^ 58) }
{}

/// The square root of a form whose least is above 0.
pub fn roots_of_forms_hold()
    ensures { (h : ℕ) (d : ℤ) (f : Form) (a : Ends) → IsTime h d → pos 1 ≤ℤ least_of f → Holds h d f a → Holds h d (sqrt_form f) (sqrt_of a) }
{}

/// The quotient by a form whose least is above 0.
pub fn quotients_of_forms_hold()
    ensures { (h : ℕ) (d : ℤ) (f g : Form) (a b : Ends) → IsTime h d → pos 1 ≤ℤ least_of g
        → Holds h d f a → Holds h d g b → Holds h d (div_form f g) (div_of a b) }
{}
