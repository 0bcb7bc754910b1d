//! The limits of a tree, and of a path or a key.

ghost use Rattle.std.specs.Prelude.{◌≡◌};
ghost use Rattle.pc_syntax.specs.WellFormed.{depth_limit, size_limit};
ghost use Rattle.pc_syntax.specs.Paths.{part_limit};

/// The most levels of a tree: 256.
pub fn depth_limit() -> u32
    ensures { result ≡ depth_limit }
{
    256
}

/// The most nodes of a tree: 1,000,000.
pub fn size_limit() -> u64
    ensures { result ≡ size_limit }
{
    1_000_000
}

/// The most steps of a path, and names of a key: 256.
pub fn part_limit() -> usize
    ensures { result ≡ part_limit }
{
    256
}
