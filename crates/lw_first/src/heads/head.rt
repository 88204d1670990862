// A head.
ghost use Rattle.std.specs.Prelude.{◌≡◌, ◌≢◌, ◌<◌, ◌≤◌, [], ◌∷◌, ◌++◌, ℕ, List, MatchOption, length, slice_get, take};
ghost use Rattle.std.specs.Option.{option_map};
ghost use Rattle.lw_first.specs.Heads.{kinds_in, put_before, seen_in};
ghost use Rattle.lw_look.specs.Looks.{window};
ghost use Rattle.lw_first.specs.Sets.{HasSmallKinds};

use arrayvec::ArrayVec;
use lw_base::KindId;

/// How many kinds a head may have.
pub const LONGEST_HEAD: usize = 3;

/// What comes next as a parser sees it: kinds, and the end, which is `None`.
pub type Window = ArrayVec<Option<KindId>, LONGEST_HEAD>;

/// The first kinds of what may be read.
#[derive(Clone, Copy, Debug, PartialEq, Eq, Hash)]
pub enum Head {
    Nothing,
    One(KindId),
    Two(KindId, KindId),
    Three(KindId, KindId, KindId),
}

impl Head {
    /// How many kinds it has.
    pub fn len(self) -> usize
        ensures { result ≡ length (kinds_in self) }
    {
        match self {
            Head::Nothing => 0,
            Head::One(_) => 1,
            Head::Two(_, _) => 2,
            Head::Three(_, _, _) => 3,
        }
    }

    /// The first `k` kinds of this one and those of the head.
    pub fn behind(self, kind: KindId, k: usize) -> Head
        requires { k ≤ 3 }
        ensures { kinds_in result ≡ take k (kind.0 ∷ kinds_in self) }
    {
        match self {
            Head::Nothing if k == 0 => Head::Nothing,
            Head::Nothing => Head::One(kind),
            Head::One(a) => Head::of_two(kind, a, k),
            Head::Two(a, b) => Head::of_three(kind, a, b, k),
            Head::Three(a, b, _) => Head::of_three(kind, a, b, k),
        }
    }

    /// The first `k` of two kinds.
    fn of_two(first: KindId, second: KindId, k: usize) -> Head
        ensures { kinds_in result ≡ take k (first.0 ∷ second.0 ∷ []) }
    {
        match k {
            0 => Head::Nothing,
            1 => Head::One(first),
            _ => Head::Two(first, second),
        }
    }

    /// The first `k` of three kinds.
    fn of_three(first: KindId, second: KindId, third: KindId, k: usize) -> Head
        ensures { kinds_in result ≡ take k (first.0 ∷ second.0 ∷ third.0 ∷ []) }
    {
        if k < 3 {
            return Head::of_two(first, second, k);
        }
        Head::Three(first, second, third)
    }

    /// The first `k` kinds of the head.
    fn cut(self, k: usize) -> Head
        requires { k ≤ 3 }
        ensures { kinds_in result ≡ take k (kinds_in self) }
    {
        match self {
            Head::Nothing => Head::Nothing,
            Head::One(a) => Head::Nothing.behind(a, k),
            Head::Two(a, b) => Head::One(b).behind(a, k),
            Head::Three(a, b, c) => Head::Two(b, c).behind(a, k),
        }
    }

    /// The first `k` kinds of this head and then those of the other.
    pub fn followed_by(self, other: Head, k: usize) -> Head
        requires { k ≤ 3 }
        ensures { kinds_in result ≡ take k (kinds_in self ++ kinds_in other) }
    {
        match self {
            Head::Nothing => other.cut(k),
            Head::One(a) => other.behind(a, k),
            Head::Two(a, b) => other.behind(b, k).behind(a, k),
            Head::Three(a, b, c) => other.behind(c, k).behind(b, k).behind(a, k),
        }
    }

    /// The head as a parser sees it that looks at `k` tokens: its kinds, and then end marks.
    pub fn window(self, k: usize) -> Window
        requires few { length (kinds_in self) ≤ k }
        requires most { k ≤ 3 }
        ensures { seen_in result.items ≡ window k (kinds_in self) }
    {
        let mut seen = Window::new();
        for place in 0..k {
            seen.push(self.get(place));
        }
        seen
    }

    /// The kind at this place, or the end.
    fn get(self, place: usize) -> Option<KindId>
        ensures { option_map (λ kind. kind.0) result ≡ slice_get (kinds_in self) place }
    {
        match self {
            Head::Nothing => None,
            Head::One(a) => [a].get(place).copied(),
            Head::Two(a, b) => [a, b].get(place).copied(),
            Head::Three(a, b, c) => [a, b, c].get(place).copied(),
        }
    }

    /// The head that is seen as this by a parser that looks at `k` tokens: of `k` places, where nothing but end marks stands behind an end
    /// mark. Of any other slice there is none.
    pub fn of_window(seen: &[Option<KindId>], k: usize) -> Option<Head>
        requires { k ≤ 3 }
        ensures { MatchOption result
            ((h : List ℕ) → length h ≤ 3 → seen_in seen.now ≢ window k h)
            (λ head. (seen_in seen.now ≡ window k (kinds_in head)) × (length (kinds_in head) ≤ k)) }
    {
        if seen.len() != k {
            return None;
        }
        match seen {
            [] => Some(Head::Nothing),
            [next, behind @ ..] => Head::of_window(behind, k - 1)?.seen_behind(*next),
        }
    }

    /// The head of a window in which this one stands behind the kind or the end mark.
    fn seen_behind(self, next: Option<KindId>) -> Option<Head>
        requires { length (kinds_in self) < 3 }
        ensures { option_map kinds_in result ≡ put_before (option_map (λ kind. kind.0) next) (kinds_in self) }
    {
        match (next, self) {
            (Some(kind), _) => Some(self.behind(kind, LONGEST_HEAD)),
            (None, Head::Nothing) => Some(self),
            (None, _) => None,
        }
    }

    /// Makes known to a proof that the numbers of its kinds have sixteen bits.
    pub(crate) fn has_small_kinds(self)
        ensures { HasSmallKinds self }
    {
        match self {
            Head::Nothing => {}
            Head::One(a) => is_small(a.0),
            Head::Two(a, b) => {
                is_small(a.0);
                is_small(b.0);
            }
            Head::Three(a, b, c) => {
                is_small(a.0);
                is_small(b.0);
                is_small(c.0);
            }
        }
    }
}

/// Makes known to a proof that a number of sixteen bits is below this.
fn is_small(number: u16)
    ensures { number < 65536 }
{}
