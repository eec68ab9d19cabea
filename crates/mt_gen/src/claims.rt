//! Claims whose systems and strengths follow from a seed.
ghost use Rattle.std.specs.Prelude.{◌≡◌, ◌≢◌, ◌≤◌, length, map, All, AllPairs, IfOk};
ghost use Rattle.mt_system.specs.Statements.{statement_of};
ghost use Rattle.mt_strength.specs.Statements.{Holds};
ghost use Rattle.mt_strength.specs.Checks.{choices_by};
ghost use Rattle.mt_gen.specs.Generated.{state_after, name_of, words_of, IsGenerated, AreGenerated};

use crate::systems::drawn_system;
use mt_cells::Bounds;
use mt_strength::strength_of;
use mt_system::{Claim, Form, Name, Note};
use rand_core::SeedableRng;
use rand_xoshiro::SplitMix64;
use std::alloc::{AllocError, Global};

/// The first `count` claims that the seed gives: arrays within the bounds, of at most 8 columns and
/// 6 coordinates, each with its greatest strength, so that it holds. Sizes and digits are remainders
/// of the words of SplitMix64 (Steele, Lea and Flood, 2014), one for each, and claim `i` is named
/// `g-SEED-i`. A check of one tries at most 3,003 choices.
///
/// It refuses only for want of memory.
pub fn generated(
    alloc: Global,
    seed: u64,
    count: u32,
    bounds: Bounds,
) -> Result<Vec<Claim>, AllocError>
    ensures size { IfOk result (λ claims. length claims.items ≡ count) }
    ensures claims { IfOk result (λ claims. AreGenerated seed bounds 1 seed
        (map statement_of claims.items)) }
    ensures hold { IfOk result (λ claims. All Holds (map statement_of claims.items)) }
    ensures within { IfOk result (λ claims. All (λ c. (c.system.columns ≤ bounds.m_max)
        × (c.system.coordinates ≤ bounds.s_max)) (map statement_of claims.items)) }
    ensures names { IfOk result (λ claims. AllPairs (λ c d. c.name ≢ d.name)
        (map statement_of claims.items)) }
    ensures choices { IfOk result (λ claims. All (λ c. choices_by c.form c.system c.k ≤ 3003)
        (map statement_of claims.items)) }
{
    let mut stream = SplitMix64::seed_from_u64(seed);
    let mut claims = Vec::with_capacity(alloc, count as usize)?;
    for before in 0..count {
        claims.push(next_claim(alloc, seed, before + 1, bounds, &mut stream)?)?;
    }
    Ok(claims)
}

// The claim of this number, whose words are the next of the stream.
fn next_claim(
    alloc: Global,
    seed: u64,
    number: u32,
    bounds: Bounds,
    stream: &mut SplitMix64,
) -> Result<Claim, AllocError>
    ensures claim { IfOk result (λ c. IsGenerated seed bounds number stream.old (statement_of c)) }
    ensures stream { IfOk result (λ c. stream.new ≡ state_after stream.old (words_of c.system)) }
{
    let name = claim_name(alloc, seed, number)?;
    let system = drawn_system(alloc, bounds, stream)?;
    let k = strength_of(alloc, &system)?;
    Ok(Claim {
        form: Form::Ooa,
        name,
        note: Note::empty(),
        k,
        system,
    })
}

// The name of the claim of this number.
fn claim_name(alloc: Global, seed: u64, number: u32) -> Result<Name, AllocError>
    ensures { IfOk result (λ name. name ≡ name_of seed number) }
{
    let text = format!(in alloc; "g-{seed}-{number}")?;
    Ok(Name::of(text.as_bytes()).unwrap())
}
