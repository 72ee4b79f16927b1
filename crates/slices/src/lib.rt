// A plan in three lent slices: the two counts; the states, 512 marks values and 512 teams; and the transitions' fields, 2,048 places each for from, to, low and
// high. Whether they have the room, a plan value loaded from them, and one stored in them,
// by itself or as the plan of an accepted call. A call on the plan that they hold leaves the places past the new plan's counts, so only those up to them are
// stored.
#![tactic(auto)]

ghost use Rattle.std.specs.Prelude.{◌≡◌, ◌+◌, ◌≤◌, length, take, drop};
ghost use Rattle.std.proofs.Math.Seq.{paste};
ghost use Rattle.slices.specs.Lent.{Roomy, roomy, lent_plan, plan_in, slices, storing, Finished, Updates};

use plan::{Edited, Plan};

// Whether three lent slices have the places of a plan.
pub fn has_room(counts: usize, states: usize, fields: usize) -> bool
    ensures { result ≡ roomy counts states fields }
{
    (2 <= counts) & ((1024 <= states) & (8192 <= fields))
}

// The 512 octets of a slice from a place on, as an array. Written out, as `field_of` is: one generic copy would put a plan value more on the stack.
fn states_of(places: &[u8], at: usize) -> [u8; 512]
    requires { at + 512 ≤ length places.now }
    ensures { result ≡ take 512 (drop at places.now) }
{
    let mut out = [0u8; 512];
    let mut i = 0;
    while i < 512 {
        out[i] = places[at + i];
        i += 1;
    }
    out
}

// The 2,048 numbers of a slice from a place on, as an array.
fn field_of(places: &[u16], at: usize) -> [u16; 2048]
    requires { at + 2048 ≤ length places.now }
    ensures { result ≡ take 2048 (drop at places.now) }
{
    let mut out = [0u16; 2048];
    let mut i = 0;
    while i < 2048 {
        out[i] = places[at + i];
        i += 1;
    }
    out
}

// Puts the first n places of a part into a slice, from a place on.
fn put<T: Copy>(places: &mut [T], at: usize, part: &[T], n: usize)
    requires { (n ≤ length part.now) × (at + n ≤ length places.old) }
    ensures { places.new ≡ paste places.old at part.now n }
{
    places[at..at + n].copy_from_slice(&part[..n]);
}

// The plan value that three lent slices hold.
pub fn load(counts: &[usize], states: &[u8], fields: &[u16]) -> Plan
    requires { Roomy counts.now states.now fields.now }
    ensures { result ≡ lent_plan counts.now states.now fields.now }
{
    Plan {
        states: counts[0],
        transitions: counts[1],
        marks: states_of(states, 0),
        teams: states_of(states, 512),
        from: field_of(fields, 0),
        to: field_of(fields, 2048),
        low: field_of(fields, 4096),
        high: field_of(fields, 6144),
    }
}

// Stores a plan value in three lent slices.
pub fn store(plan: Plan, counts: &mut [usize], states: &mut [u8], fields: &mut [u16])
    requires { Roomy counts.old states.old fields.old }
    ensures { (slices counts.new states.new fields.new
        ≡ storing plan (slices counts.old states.old fields.old))
        × (plan_in (slices counts.new states.new fields.new) ≡ plan) }
{
    counts[0] = plan.states;
    counts[1] = plan.transitions;
    put(states, 0, &plan.marks, 512);
    put(states, 512, &plan.teams, 512);
    put(fields, 0, &plan.from, 2048);
    put(fields, 2048, &plan.to, 2048);
    put(fields, 4096, &plan.low, 2048);
    put(fields, 6144, &plan.high, 2048);
}

// Stores the plan of an accepted call, and gives the number of its answer.
pub fn finish(edited: Edited, counts: &mut [usize], states: &mut [u8], fields: &mut [u16]) -> u32
    requires { Roomy counts.old states.old fields.old }
    ensures { Finished edited.answer edited.plan
        (slices counts.old states.old fields.old)
        (slices counts.new states.new fields.new) result }
{
    let answer = edited.answer;
    match answer {
        Ok(()) => {
            let plan = edited.plan;
            store(plan, counts, states, fields);
            256
        }
        Err(r) => numbers::number(r),
    }
}

// The same for a call on the plan that the slices hold. Its fields are lent where they lie: a plan value of its own would be one more copy. It is put into its
// callers: as a function of its own it would have one more on the stack.
#[inline(always)]
pub fn update(edited: Edited, counts: &mut [usize], states: &mut [u8], fields: &mut [u16]) -> u32
    requires { Roomy counts.old states.old fields.old
        × Updates edited.answer edited.plan (slices counts.old states.old fields.old) }
    ensures { Finished edited.answer edited.plan
        (slices counts.old states.old fields.old)
        (slices counts.new states.new fields.new) result }
{
    let answer = edited.answer;
    if let Err(r) = answer {
        return numbers::number(r);
    }
    let n = edited.plan.states;
    let m = edited.plan.transitions;
    counts[0] = n;
    counts[1] = m;
    put(states, 0, &edited.plan.marks, n);
    put(states, 512, &edited.plan.teams, n);
    put(fields, 0, &edited.plan.from, m);
    put(fields, 2048, &edited.plan.to, m);
    put(fields, 4096, &edited.plan.low, m);
    put(fields, 6144, &edited.plan.high, m);
    256
}
