// A reader that borrows the bytes of a call and keeps its place. It is made once for a call, moved past what was read, and handed on; the reading
// itself is done by functions on the slice and the place.
#![tactic(auto)]

ghost use Rattle.std.specs.Prelude.{◌≡◌};

#[derive(Clone, Copy)]
pub struct Reader<'a> {
    pub call: &'a [u8],
    pub at: usize,
}

// A reader of a call, at a place.
pub fn new<'a>(call: &'a [u8], at: usize) -> Reader<'a>
    ensures { (result.call ≡ call.entry) × (result.at ≡ at) }
{
    Reader { call, at }
}

// The reader, moved on to a place.
pub fn past<'a>(r: Reader<'a>, at: usize) -> Reader<'a>
    ensures { (result.call ≡ r.entry.call) × (result.at ≡ at) }
{
    Reader { call: r.call, at }
}
