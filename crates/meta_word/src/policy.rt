//! How often an attempt looks at a cell that another uses, and whether it dooms the owner.

ghost use Rattle.std.specs.Prelude.{◌≡◌};
ghost use Rattle.meta_word.specs.Policy.{dooms, looks};

/// How often an attempt looks at a cell that it is to read and that another is changing, or at one
/// that it is to write and that another owns, and whether it dooms the owner of one that it is to
/// write. A read and a write have one look more than `Look` and `Doom` say.
#[derive(Clone, Copy, Debug, PartialEq, Eq)]
pub enum Policy {
    /// It looks once, and gives way: `Look(0)` under another name.
    GiveWay,
    /// It looks so many times more before it gives way.
    Look(u16),
    /// It looks as often. Where another owns the cell to be written it tries once to doom the owner.
    Doom(u16),
}

impl Policy {
    /// How many looks it grants after the first.
    pub fn looks(self) -> u16
        ensures { result ≡ looks self }
    {
        match self {
            Policy::GiveWay => 0,
            Policy::Look(more) | Policy::Doom(more) => more,
        }
    }

    /// Whether it tries to doom the owner of a cell that is to be written.
    pub fn dooms(self) -> bool
        ensures { result ≡ dooms self }
    {
        matches!(self, Policy::Doom(_))
    }
}
