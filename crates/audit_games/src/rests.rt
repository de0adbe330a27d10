// The rests of the moves at a cell, and the value that they leave to it.
ghost use Rattle.std.specs.Prelude.{◌≡◌, ℕ, ◌-◌, ◌^◌, ◌<◌, length, IfSome, IfOk, vec_len, MatchOption, slice_index};
ghost use Rattle.audit_games.specs.Lists.{Has, LacksBelow};
ghost use Rattle.audit_games.specs.Values.{IsSmallest, EveryRest, NoValue};
ghost use Rattle.games.specs.Rules.{sum_held};

use games::Game;
use std::alloc::{AllocError, Global};

// The rests of the moves at c by their numbers, from the values of the cells below c. A struct of the three would be made anew at each cell, and the game and the heap are
// no pair: what would be made of them is not kept.
pub fn rests<G: Game>(
    game: &G,
    c: u32,
    values: &[u32],
    heap: Global,
) -> Result<Vec<u32>, AllocError>
    ensures { IfOk result (λ v. (vec_len v ≡ (G.Game.rules game.now).count c) × ((i : ℕ) → i < vec_len v → slice_index v.items i ≡ sum_held c ((G.Game.rules game.now).holds c i) (λ d. slice_index values.now d))) }
{
    (0..game.count(c))
        .map(|i| rest(game, c, i, values))
        .collect(heap)
}

// The nim sum of the values of the cells below c that move i at c turns.
fn rest<G: Game>(game: &G, c: u32, i: u32, values: &[u32]) -> u32
    ensures { result ≡ sum_held c ((G.Game.rules game.now).holds c i) (λ d. slice_index values.now d) }
{
    let turned = (0..c).filter(|d| game.turns(c, i, *d));
    turned.fold(0, |rest, d| rest ^ found(values, d))
}

// The value that was found for d.
fn found(values: &[u32], d: u32) -> u32
    ensures { result ≡ slice_index values.now d }
{
    values.get(d as usize).copied().unwrap_or(0)
}

// The lowest number of a move with that rest.
pub(crate) fn lowest_move(rests: &[u32], rest: u32) -> Option<usize>
    ensures found { IfSome result (λ i. (i < length rests.now) × (slice_index rests.now i ≡ rest)) }
    ensures lowest { MatchOption result (LacksBelow rests.now rest (length rests.now)) (LacksBelow rests.now rest) }
{
    rests.iter().position(|r| *r == rest)
}

// The smallest number that is not a rest.
pub fn smallest_missing(rests: &[u32]) -> Option<u32>
    ensures missing { IfSome result (λ v. LacksBelow rests.now v (length rests.now)) }
    ensures below { MatchOption result ((n : ℕ) → n < 2 ^ 32 - 1 → Has rests.now n) (λ v. (n : ℕ) → n < v → Has rests.now n) }
{
    (0..u32::MAX).find(|n| lowest_move(rests, *n).is_none())
}

// The smallest number that is no rest of a move at c, from the values of the cells below c.
fn next_value<G: Game>(
    game: &G,
    c: u32,
    values: &[u32],
    heap: Global,
) -> Result<Option<u32>, AllocError>
    ensures { IfOk result (λ found. MatchOption found (EveryRest (G.Game.rules game.now) values.now c) (λ v. IsSmallest (G.Game.rules game.now) values.now c v)) }
{
    let rests = rests(game, c, values, heap)?;
    Ok(smallest_missing(&rests))
}

// The values of the cells below an end, in their order; none where a cell has no value below 2 ^ 32 - 1.
pub fn values<G: Game>(game: &G, end: u32, heap: Global) -> Result<Option<Vec<u32>>, AllocError>
    ensures { IfOk result (λ found. MatchOption found (NoValue (G.Game.rules game.now) end) (λ v. (vec_len v ≡ end) × ((c : ℕ) → c < end → IsSmallest (G.Game.rules game.now) v.items c (slice_index v.items c)))) }
{
    let mut values = Vec::new(heap);
    // A loop: each is found from those before it.
    for c in 0..end {
        let Some(value) = next_value(game, c, &values, heap)? else {
            return Ok(None);
        };
        values.push(value)?;
    }
    Ok(Some(values))
}

#[cfg(test)]
mod tests {
    use super::{rests, smallest_missing, values};
    use games::Twins;
    use std::test::Fail;

    // Each move at cell 3 of Twins turns a lower cell too.
    #[test]
    fn rests_of_twins(rt: HostRuntime) -> Result<(), Fail> {
        let found = rests(&Twins::new(5), 3, &[0, 1, 2], rt.alloc())?;
        assert_eq!(rt; found.len(), 3);
        assert_eq!(rt; smallest_missing(&found), Some(3));
        Ok(())
    }

    // The value of a cell of Twins is its number.
    #[test]
    fn values_of_twins(rt: HostRuntime) -> Result<(), Fail> {
        let found = values(&Twins::new(4), 4, rt.alloc())?;
        assert!(rt; found.is_some_and(|values| values.as_slice() == [0, 1, 2, 3].as_slice()));
        Ok(())
    }
}
