// Sets of states.
ghost use Rattle.std.specs.Prelude.{◌≡◌, ℕ, ◌≤◌, Bool, not, ◌&&◌, ◌==◌, nat_lt, [], slice_index, slice_index_or};
ghost use Rattle.ranges.specs.Ranges.{all};
ghost use Rattle.games.specs.Search.{ranked_by};

pub(crate) trait States {
    ghost has: { Self → ℕ → Bool };

    fn has(&self, q: u16) -> bool
        ensures { result ≡ has self.now q };
}

// The states whose rank is at most `stage`.
#[derive(Drop)]
pub(crate) struct Stage<'a> {
    pub(crate) ranks: &'a [u16],
    pub(crate) stage: u16,
}

impl States for Stage<'_> {
    ghost has = { λ s. ranked_by s.ranks.now s.stage };

    fn has(&self, q: u16) -> bool {
        let stage = self.stage;
        self.ranks
            .get(q as usize)
            .is_some_and(|rank| *rank <= stage)
    }
}

// Whether a list of ranks has no rank at a place.
pub(crate) fn lacks(ranks: &[u16], i: usize) -> bool
    ensures { result ≡ (slice_index ranks.now i == 65535) }
{
    ranks.get(i) == Some(&65535)
}

// The states below the count that have no rank.
#[derive(Drop)]
pub(crate) struct Unranked<'a> {
    pub(crate) ranks: &'a [u16],
    pub(crate) count: u16,
}

impl States for Unranked<'_> {
    ghost has = { λ s q. nat_lt q s.count && slice_index s.ranks.now q == 65535 };

    fn has(&self, q: u16) -> bool {
        q < self.count && lacks(self.ranks, q as usize)
    }
}

// Whether a state has a rank in each of the first columns.
pub(crate) fn in_all(rights: &[[u16; 256]; 4], columns: u8, q: u16) -> bool
    requires { columns ≤ 4 }
    ensures { result ≡ all columns (λ j. not (slice_index (slice_index_or rights.now j []) q == 65535)) }
{
    (0..columns).all(|j| !lacks(&rights[j as usize], q as usize))
}

// The fence: the unbroken states that have a rank in each right's column.
#[derive(Drop)]
pub(crate) struct Fence<'a> {
    pub(crate) broken: &'a [u16],
    pub(crate) rights: &'a [[u16; 256]; 4],
    pub(crate) columns: u8,
    pub(crate) count: u16,
    ghost few: { columns ≤ 4 },
}

impl States for Fence<'_> {
    ghost has = { λ s q. (nat_lt q s.count && slice_index s.broken.now q == 65535) && all s.columns (λ j. not (slice_index (slice_index_or s.rights.now j []) q == 65535)) };

    fn has(&self, q: u16) -> bool {
        let unbroken = Unranked {
            ranks: self.broken,
            count: self.count,
        };
        unbroken.has(q) && in_all(self.rights, self.columns, q)
    }
}
