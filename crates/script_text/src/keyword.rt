//! The first words of lines.

ghost use Rattle.std.specs.Prelude.{◌≡◌};
ghost use Rattle.script_text.specs.Words.{keyword_of, is_unbuilt};

/// The first word of a line.
#[derive(Clone, Copy, Debug, PartialEq, Eq)]
pub enum Keyword {
    Stm,
    Refs,
    Maps,
    Snaps,
    Blocks,
    Ref,
    Worker,
    Script,
    End,
    Steps,
    Const,
    Read,
    Write,
    Add,
    Sub,
    Print,
    Check,
    Need,
    Move,
    Inner,
    Either,
    Or,
    Late,
    Hook,
    Put,
    Del,
    Look,
    From,
    Snap,
    Share,
}

/// The keyword that a word is.
pub fn keyword_of(word: &[u8]) -> Option<Keyword>
    ensures { result ≡ keyword_of word.now }
{
    match word {
        b"stm" => Some(Keyword::Stm),
        b"refs" => Some(Keyword::Refs),
        b"maps" => Some(Keyword::Maps),
        b"snaps" => Some(Keyword::Snaps),
        b"blocks" => Some(Keyword::Blocks),
        b"ref" => Some(Keyword::Ref),
        b"worker" => Some(Keyword::Worker),
        b"script" => Some(Keyword::Script),
        b"end" => Some(Keyword::End),
        b"steps" => Some(Keyword::Steps),
        b"const" => Some(Keyword::Const),
        b"read" => Some(Keyword::Read),
        b"write" => Some(Keyword::Write),
        b"add" => Some(Keyword::Add),
        b"sub" => Some(Keyword::Sub),
        b"print" => Some(Keyword::Print),
        b"check" => Some(Keyword::Check),
        b"need" => Some(Keyword::Need),
        b"move" => Some(Keyword::Move),
        b"inner" => Some(Keyword::Inner),
        b"either" => Some(Keyword::Either),
        b"or" => Some(Keyword::Or),
        b"late" => Some(Keyword::Late),
        b"hook" => Some(Keyword::Hook),
        b"put" => Some(Keyword::Put),
        b"del" => Some(Keyword::Del),
        b"look" => Some(Keyword::Look),
        b"from" => Some(Keyword::From),
        b"snap" => Some(Keyword::Snap),
        b"share" => Some(Keyword::Share),
        _ => None,
    }
}

impl Keyword {
    /// Whether lines of this keyword are not built yet.
    pub fn is_unbuilt(self) -> bool
        ensures { result ≡ is_unbuilt self }
    {
        match self {
            Keyword::Maps | Keyword::Snaps | Keyword::Blocks => true,
            Keyword::Put | Keyword::Del | Keyword::Look => true,
            Keyword::From | Keyword::Snap | Keyword::Share => true,
            _ => false,
        }
    }
}
