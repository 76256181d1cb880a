ghost use Rattle.std.specs.Prelude.{IsTrue};
ghost use Rattle.ob_typed.specs.AddressConstants.{is_near};

/// A static object's number, and an offset in bytes from its begin.
#[derive(Clone, Copy)]
pub(crate) struct StaticPlace {
    pub target: u32,
    pub offset: i128,
    ghost near: { IsTrue (is_near offset) },
}
