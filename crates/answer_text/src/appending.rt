//! Bytes behind others, in a vector that has room for them.
ghost use Rattle.std.specs.Prelude.{◌≡◌, ◌+◌, ◌≤◌, ◌++◌, length};

use arrayvec::ArrayVec;

/// Appends bytes that the vector has room for.
pub fn append<const CAP: usize>(text: &mut ArrayVec<u8, CAP>, bytes: &[u8])
    requires { length text.old.items + length bytes.now ≤ CAP }
    ensures { text.new.items ≡ text.old.items ++ bytes.now }
{
    let appended = text.try_extend_from_slice(bytes);
    prove!(appended.is_ok());
}
