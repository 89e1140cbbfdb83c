//! Where bytes are read from.
ghost use Rattle.std.specs.Prelude.{ℕ, ◌<◌, List, length, Option};
ghost use Rattle.byte_ends.specs.Reading.{Reads};

/// What one read of a source took.
#[derive(Clone, Copy, Debug, PartialEq, Eq)]
pub enum Took {
    /// This many bytes, at least one, stand at the front of the room.
    Taken(usize),
    /// No byte is left.
    End,
    /// The source met a fault, which its count of faults shows. No byte was taken.
    Failed,
}

/// Bytes that are read from their front on.
///
/// A source is seen as the bytes that it has left, where it tells them, and the number of faults that it met so
/// far. That number never falls.
pub trait Source {
    // The bytes left, where the source tells them.
    ghost left: { Self → Option (List ℕ) };

    // The faults met so far.
    ghost faults: { Self → ℕ };

    /// Moves the first bytes left into the front of the room, which isn't empty.
    fn read(&mut self, room: &mut [u8]) -> Took
        requires { 0 < length room.old }
        ensures reads { Reads result (left self.old) (left self.new) room.new (faults self.old)
            (faults self.new) };
}
