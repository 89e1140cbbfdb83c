//! The numbers that the clauses here name, each as the contract of a function that does nothing.
ghost use Rattle.std.specs.Prelude.{◌≡◌};
ghost use Rattle.byte_ends.specs.declared.block.TheConstants.{BLOCK};

/// A block has room for 65,536 bytes.
pub fn a_block_has_room_for_65536_bytes()
    ensures { BLOCK ≡ 65536 }
{}
