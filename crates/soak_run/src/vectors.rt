// The vectors of a run.
ghost use Rattle.std.specs.Prelude.{◌≡◌, ◌≤◌};
ghost use Rattle.soak_run.specs.Soaks.{vector};

/// Vector t of the run for n: the bits of a, b and c.
pub(crate) fn vector(n: u32, t: u32) -> u64
    requires number { n ≤ 1000 }
    requires time { t ≤ 10000 }
    ensures { result ≡ vector n t }
{
    let a = (7 * t + n) % 10 < 3;
    let b = (t * t + n) % 7 < 3;
    let c = t % 97 == 96;
    u64::from(a) + 2 * u64::from(b) + 4 * u64::from(c)
}
