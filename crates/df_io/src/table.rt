ghost use Rattle.std.specs.Prelude.{◌≡◌};
ghost use Rattle.df_io.specs.Table.{is_failing as is_failing_of};

/// Whether the call with this number is among those that fail.
pub fn is_failing(fails: &[u32], call: u64) -> bool
    ensures { result ≡ is_failing_of fails.now call }
{
    fails.iter().any(|n| u64::from(*n) == call)
}
