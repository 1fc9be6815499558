//! Numbers of calls that fail.

ghost use Rattle.std.specs.Prelude.{◌≡◌};
ghost use Rattle.edge_io.specs.Memory.{is_listed};

/// Whether the call after so many calls is among those that fail.
pub(crate) fn fails_next(fails: &[u32], calls: u64) -> bool
    ensures { result ≡ is_listed fails.now calls }
{
    fails
        .iter()
        .any(|n| u64::from(*n) == calls.saturating_add(1))
}
