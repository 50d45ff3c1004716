//! A law of the numbers of a source, the contract of a function with an empty body.
ghost use Rattle.std.specs.Prelude.{◌≡◌, ℕ, ◌*◌, ◌^◌, ◌<◌, Some};
ghost use Rattle.agc_vocabulary.specs.Numeral.{IsNearest, nearest, raised};
ghost use Rattle.agc_vocabulary.specs.declared.numeral.Quotient.{Quotient};

/// A fraction's word or pair is the nearest one: no integer below the limit is nearer to the quotient of the number in
/// units of its last bit. The quotient's parts are products: the digits times powers of ten and two, over such powers.
pub fn a_fraction_is_the_nearest_number()
    ensures nearest { (limit : ℕ) (r : Quotient) (n : ℕ) → 0 < r.under → nearest limit r ≡ Some n
        → IsNearest limit r n }
    ensures product { (n base times more : ℕ) → raised n base times ≡ Some more
        → more ≡ n * base ^ times }
{}
