// What the pairs of automata share: state p · n + r, n being the second part's count. A pair that
// fits has at most 256 states.
ghost use Rattle.std.specs.Prelude.{◌≡◌, ◌+◌, ◌*◌, ◌/◌, ◌%◌, ◌≤◌, true, if◌then◌else◌, None};
ghost use Rattle.automata.specs.Layers.{both};

use crate::automaton::Automaton;

// How many states a pair has, however many they are.
pub(crate) fn product<P: Automaton, R: Automaton>(p: &P, r: &R) -> u32
    ensures { result ≡ P.Automaton.n p.now * R.Automaton.n r.now }
{
    p.count() as u32 * r.count() as u32
}

pub(crate) fn pair_count<P: Automaton, R: Automaton>(fits: bool, p: &P, r: &R) -> u16
    requires { fits ≡ true → P.Automaton.n p.now * R.Automaton.n r.now ≤ 256 }
    ensures { result ≡ (if fits then P.Automaton.n p.now * R.Automaton.n r.now else 257) }
{
    if fits { product(p, r) as u16 } else { 257 }
}

pub(crate) fn pair_start<P: Automaton, R: Automaton>(fits: bool, p: &P, r: &R) -> u16
    requires { fits ≡ true → P.Automaton.n p.now * R.Automaton.n r.now ≤ 256 }
    ensures { result ≡ (if fits then P.Automaton.start p.now * R.Automaton.n r.now + R.Automaton.start r.now else 0) }
{
    if fits {
        p.start() * r.count() + r.start()
    } else {
        0
    }
}

pub(crate) fn pair_step<P: Automaton, R: Automaton>(
    fits: bool,
    p: &P,
    r: &R,
    q: u16,
    x: u8,
    y: u8,
) -> Option<u16>
    requires { fits ≡ true → P.Automaton.n p.now * R.Automaton.n r.now ≤ 256 }
    ensures { result ≡ (if fits then both (R.Automaton.n r.now) (P.Automaton.step p.now (q / R.Automaton.n r.now) x y) (R.Automaton.step r.now (q % R.Automaton.n r.now) x y) else None) }
{
    if !fits {
        return None;
    }
    let n = r.count();
    let s = p.step(q / n, x, y)?;
    let t = r.step(q % n, x, y)?;
    Some(s * n + t)
}
