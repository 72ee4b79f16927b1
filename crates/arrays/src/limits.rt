// The limit of a plan's count of states.
ghost use Rattle.std.specs.Prelude.{◌≡◌};
ghost use Rattle.rules.specs.Limits.{state_count_ok};

// Whether a plan may have n states.
pub fn state_count_ok(n: usize) -> bool
    ensures { result ≡ state_count_ok n }
{
    (1 <= n) & (n <= 512)
}
