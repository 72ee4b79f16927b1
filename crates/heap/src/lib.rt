// The pending states, nearest first: a heap of four branches over their keys, and the place of each state in it. The order is a matter of speed
// alone: whoever uses it settles every key that it left too high.
#![tactic(auto)]

ghost use Rattle.std.specs.Prelude.{MatchOption, ◌≡◌, ℕ, ◌+◌, ◌≤◌, ◌<◌};
ghost use Rattle.search.specs.Arrays.{at, Below};

// The first `size` items are the pending states, and `place` says where in them each stands.
#[derive(Drop)]
pub struct Heap {
    items: [u16; 512],
    place: [u16; 512],
    pub size: usize,
    ghost states: { Below 512 items },
    ghost places: { Below 512 place },
    ghost fits: { size ≤ 512 },
}

// The place with the least key of the four from a place on, in a heap of a size.
fn nearest_of(items: &[u16; 512], key: &[u32; 512], first: usize, size: usize) -> usize
    requires { (first < size) × (size ≤ 512) × Below 512 items.now }
    ensures { (first ≤ result) × (result < size) }
{
    let mut best = first;
    for i in first + 1..size.min(first + 4) {
        if key[usize::from(items[i])] < key[usize::from(items[best])] {
            best = i;
        }
    }
    best
}

impl Heap {
    // No state is pending.
    pub fn new() -> Heap
        ensures { (result.size ≡ 0) × Below 1 result.items }
    {
        Heap {
            items: [0; 512],
            place: [0; 512],
            size: 0,
        }
    }

    // The state at the front, where one is pending.
    pub fn nearest(&self) -> Option<usize>
        ensures { MatchOption result (self.now.size ≡ 0) (λ s. (0 < self.now.size) × (s ≡ at self.now.items 0)) }
    {
        if self.size == 0 {
            return None;
        }
        Some(usize::from(self.items[0]))
    }

    // Puts a state at a place, or nearer to the front.
    fn rise(&mut self, key: &[u32; 512], from: usize, state: u16)
        requires { (from < 512) × (state < 512) }
        ensures { (self.new.size ≡ self.old.size) × ((k : ℕ) → state < k → Below k self.old.items → Below k self.new.items) }
    {
        let x = usize::from(state);
        let mut i = from;
        while 0 < i {
            let above = (i - 1) / 4;
            let other = self.items[above];
            if key[usize::from(other)] <= key[x] {
                break;
            }
            self.items[i] = other;
            self.place[usize::from(other)] = i as u16;
            i = above;
        }
        self.items[i] = state;
        self.place[x] = i as u16;
    }

    // Puts a state at the front, or further back.
    fn sink(&mut self, key: &[u32; 512], state: u16)
        requires { state < 512 }
        ensures { (self.new.size ≡ self.old.size) × ((k : ℕ) → state < k → Below k self.old.items → Below k self.new.items) }
    {
        let x = usize::from(state);
        let mut i = 0;
        while 4 * i + 1 < self.size {
            let below = nearest_of(&self.items, key, 4 * i + 1, self.size);
            let other = self.items[below];
            if key[x] <= key[usize::from(other)] {
                break;
            }
            self.items[i] = other;
            self.place[usize::from(other)] = i as u16;
            i = below;
        }
        self.items[i] = state;
        self.place[x] = i as u16;
    }

    // Makes a state pending.
    pub fn push(&mut self, key: &[u32; 512], state: u16)
        requires { (self.old.size < 512) × (state < 512) }
        ensures { (self.new.size ≡ self.old.size + 1) × ((k : ℕ) → state < k → Below k self.old.items → Below k self.new.items) }
    {
        self.rise(key, self.size, state);
        self.size += 1;
    }

    // Moves a pending state whose key was lowered nearer to the front.
    pub fn lowered(&mut self, key: &[u32; 512], state: u16)
        requires { state < 512 }
        ensures { (self.new.size ≡ self.old.size) × ((k : ℕ) → state < k → Below k self.old.items → Below k self.new.items) }
    {
        let from = usize::from(self.place[usize::from(state)]);
        self.rise(key, from, state);
    }

    // Takes the state at the front off.
    pub fn pop(&mut self, key: &[u32; 512])
        requires { 0 < self.old.size }
        ensures { (self.new.size + 1 ≡ self.old.size) × ((k : ℕ) → Below k self.old.items → Below k self.new.items) }
    {
        self.size -= 1;
        let last = self.items[self.size];
        self.sink(key, last);
    }
}
