//! Lists of notes, whatever keeps them.
ghost use Rattle.std.specs.Prelude.{◌≡◌, ◌<◌, List, length, slice_get};
ghost use Rattle.stm_model.specs.declared.note.Note.{Note};

use crate::Note;

/// A list of notes.
pub trait Notes {
    /// The notes, in order.
    ghost notes: { Self → List Note };

    fn len(&self) -> usize
        ensures { result ≡ length (notes self.now) };

    fn at(&self, index: usize) -> Note
        requires { index < length (notes self.now) }
        ensures { slice_get (notes self.now) index ≡ Some result };
}

impl Notes for Vec<Note> {
    ghost notes = { λ list. list.items };

    fn len(&self) -> usize {
        Vec::len(self)
    }

    fn at(&self, index: usize) -> Note {
        self[index]
    }
}
