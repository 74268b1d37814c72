//! The line of a text that is begun.
ghost use Rattle.std.specs.Prelude.{◌≡◌, ◌==◌, ◌+◌, ◌≤◌, [], ◌++◌, length, take};
ghost use Rattle.script_lang.specs.Front.{longest_front};

use answer_text::append;
use arrayvec::ArrayVec;
use script_lang::LONGEST_FRONT;
use std::marker::Model;

/// The front of a line that no line feed ended yet: its first 258 bytes, which tell what it says. It takes no memory of the
/// heap. Contracts see it as its bytes.
#[derive(Drop)]
pub struct LineStart {
    front: ArrayVec<u8, LONGEST_FRONT>,
}

impl Model for LineStart {
    ghost use Rattle.std.specs.Prelude.{List, ℕ};

    ghost Value = { List ℕ };

    ghost view = { λ s. s.front.items };
}

impl LineStart {
    /// No line is begun.
    pub fn new() -> LineStart
        ensures { result ≡ [] }
    {
        LineStart {
            front: ArrayVec::new(),
        }
    }

    /// Puts bytes behind those of the line, as far as they belong to its front.
    pub fn push(&mut self, bytes: &[u8])
        ensures { self.new ≡ take longest_front (self.old ++ bytes.now) }
    {
        let room = LONGEST_FRONT - self.front.len();
        let kept = bytes.len().min(room);
        append(&mut self.front, &bytes[..kept]);
    }

    /// The front.
    pub fn as_slice(&self) -> &[u8]
        ensures { result.now ≡ self.now }
    {
        self.front.as_slice()
    }

    /// Whether the line has no byte yet.
    pub fn is_empty(&self) -> bool
        ensures { result ≡ (length self.now == 0) }
    {
        self.front.is_empty()
    }

    /// Begins another line.
    pub fn clear(&mut self)
        ensures { self.new ≡ [] }
    {
        self.front.clear();
    }
}
