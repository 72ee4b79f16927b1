// Walks from what the search left behind: along the stack for a loop, and up the tree from a state to the start that it was reached from.
#![tactic(auto)]

ghost use Rattle.std.specs.Prelude.{List, ◌≡◌, ℕ, ◌≤◌, ◌<◌, length, drop};
ghost use Rattle.search.specs.Arrays.{at};
ghost use Rattle.tree.specs.Tree.{Climbable, Climbs, Climbed};

use search::NONE;

// Writes the cursors of the d states on the stack to the front of the places.
pub fn along_stack(d: usize, stack: &[u16; 512], cursor: &[u16; 512], walk: &mut [u16])
    requires { (d ≤ 512) × (d ≤ length walk.old) × ((i : ℕ) → i < d → at stack.now i < 512) }
    ensures { ((i : ℕ) → i < d → at walk.new i ≡ at cursor.now (at stack.now i))
        × (drop d walk.new ≡ drop d walk.old) }
{
    for i in 0..d {
        walk[i] = cursor[usize::from(stack[i])];
    }
}

// How many transitions lead up the tree from a state to a start.
fn height(s: usize, from: &[u16; 2048], via: &[u16; 512]) -> usize
    requires { (n m : ℕ) × (rank : List ℕ) × Climbable n m from.now rank via.now s }
    ensures { (n m : ℕ) (rank : List ℕ) → Climbable n m from.now rank via.now s
        → Climbs n m from.now rank via.now s result }
{
    let mut x = s;
    let mut k = 0;
    while via[x] < NONE as u16 {
        x = usize::from(from[usize::from(via[x])]);
        k += 1;
    }
    k
}

// Writes the walk down the tree, from the start to the state, to the front of the places, and returns how many transitions it has.
pub fn climb(s: usize, from: &[u16; 2048], via: &[u16; 512], walk: &mut [u16]) -> usize
    requires { (n m : ℕ) × (rank : List ℕ) × (n ≤ length walk.old) × Climbable n m from.now rank via.now s }
    ensures { ((n m : ℕ) (rank : List ℕ) → Climbable n m from.now rank via.now s
        → Climbs n m from.now rank via.now s result)
        × Climbed from.now via.now s result walk.old walk.new }
{
    let k = height(s, from, via);
    let mut x = s;
    for i in (0..k).rev() {
        walk[i] = via[x];
        x = usize::from(from[usize::from(via[x])]);
    }
    k
}
