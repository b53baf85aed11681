// A slot as it is appended: its flag and its bytes, which a null keeps too, hidden.
ghost use Rattle.std.specs.Prelude.{◌≡◌, true, false, []};
ghost use Rattle.slots.specs.Slots.{slot, slot_of};

#[derive(Clone, Copy)]
pub struct SlotRef<'a> {
    pub valid: bool,
    pub bytes: &'a [u8],
}

impl<'a> SlotRef<'a> {
    // A valid slot with these bytes.
    pub fn value(bytes: &'a [u8]) -> SlotRef<'a>
        ensures { slot_of result ≡ slot true bytes.now }
    {
        SlotRef { valid: true, bytes }
    }

    // A null without bytes.
    pub fn null() -> SlotRef<'a>
        ensures { slot_of result ≡ slot false [] }
    {
        SlotRef {
            valid: false,
            bytes: &[],
        }
    }
}
