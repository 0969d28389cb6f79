//! Edits of several parts, all of them or none.
ghost use Rattle.std.specs.Prelude.{◌≡◌};

use crate::doc::Doc;
use crate::undo::take_back;

impl Doc<'_> {
    ghost use Rattle.piece_rope.specs.Edits.{begun, rolled_back, settled};

    /// Begins an edit of several parts: from here on the document can come back to what it is now,
    /// until `commit` or `roll_back`. Each edit in between costs a handle more for each piece that
    /// it takes out.
    pub fn begin(&mut self)
        ensures { self.new ≡ begun self.old }
    {
        self.log = Some(Vec::new(self.alloc));
    }

    /// Ends an edit of several parts: the document is unchanged.
    pub fn commit(&mut self)
        ensures { self.new ≡ settled self.old }
    {
        self.log = None;
    }

    /// Ends an edit of several parts: the document is again what it was at `begin`, and so are its
    /// pieces and what they remember. It takes no memory, and decodes nothing.
    pub fn roll_back(&mut self)
        ensures { self.new ≡ rolled_back self.old }
    {
        let log = self.log.take();
        if let Some(log) = log {
            take_back(&mut self.pieces, &mut self.tail, log);
        }
    }
}
