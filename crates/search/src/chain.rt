// Transitions by state, as chains: the first transition of each state, and after each transition the next one of the same state.
ghost use Rattle.std.specs.Prelude.{ℕ, ◌≤◌, ◌<◌};
ghost use Rattle.search.specs.Arrays.{at};
ghost use Rattle.search.specs.Chain.{Chains};

use crate::NONE;

// The chains of the states. NONE ends a chain.
#[derive(Clone, Copy)]
pub struct Chain {
    pub head: [u16; 512],
    pub link: [u16; 2048],
}

// Chains the first m transitions by their keys, the states that they leave or those that they lead to.
pub fn chains(keys: &[u16; 2048], m: usize) -> Chain
    requires { (m ≤ 2048) × ((t : ℕ) → t < m → at keys.now t < 512) }
    ensures { Chains keys.now m result.head result.link }
{
    let mut head = [NONE as u16; 512];
    let mut link = [0u16; 2048];
    for i in (0..m).rev() {
        let s = usize::from(keys[i]);
        link[i] = head[s];
        head[s] = i as u16;
    }
    Chain { head, link }
}
