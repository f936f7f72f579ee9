//! What a member of a hub reads.

ghost use Rattle.rsx_hub.specs.Reading.{ReadsOn};

/// Over any list of what happens to a hub and one of its members, from the moment on at which it joined: the hub's value is
/// the list of the items that its emitter or its feed was answered ok for, the hub keeps the last of all that it took in,
/// and what the member gave out, followed by what it still gives out, is that value without its first items, as many as
/// its join says.
pub fn reads_on<T: Drop>()
    ensures { ReadsOn T }
{}
