//! What the definition of `publishOnEager` says. Each law is the contract of a function that does nothing.

ghost use Rattle.std.specs.Prelude.{◌≡◌, ◌≤◌, ◌++◌, ℕ, false, List, [], ◌∷◌, length, take, Some};
ghost use Rattle.rsx_types.specs.Stream.{Stream};
ghost use Rattle.rsx_types.specs.declared.signal.Cause.{Cause};
ghost use Rattle.rsx_types.specs.declared.signal.Ending.TheVariants.{Failed};
ghost use Rattle.rsx_values.specs.Delayed.{fails};
ghost use Rattle.rsx_values.specs.Record.{times};
ghost use Rattle.rsx_values.specs.Eager.{eager_of};

/// Where nothing is chosen the value comes out as it is, as from `publishOn`. So it does under all choices that fit, where it doesn't
/// fail.
pub fn same_as_publish_on<T: Drop>()
    ensures unchosen { (value : Stream T) → eager_of [] value ≡ Some value }
    ensures chosen { (choices : List ℕ) (value out : Stream T) → fails value.ending ≡ false → eager_of choices value ≡ Some out → out ≡ value }
{}

/// A failure that is chosen behind so many items comes behind just these, and the items that stood between are gone.
pub fn failure_overtakes<T: Drop>()
    ensures { (count : ℕ) (value : Stream T) (cause : Cause) → count ≤ length value.items → value.ending ≡ Failed cause →
        eager_of (times count 0 ++ 1 ∷ []) value ≡ Some (record { items = take count value.items; ending = Failed cause }) }
{}
