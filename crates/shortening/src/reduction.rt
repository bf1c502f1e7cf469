//! Leaving out parts of a list of groups or items as long as the fault is still led to.

ghost use Rattle.std.specs.Prelude.{◌≡◌};
ghost use Rattle.clmodel.specs.Outcome.{events_of};
ghost use Rattle.shortening.specs.Searches.{Advances};

use crate::candidates::Candidate;
use crate::judge::Judge;
use crate::search::{MOST, Search};
use std::alloc::{AllocError, Global};

/// A list without `size` of its numbers from a place on.
fn without(
    alloc: Global,
    numbers: &[u32],
    from: usize,
    size: usize,
) -> Result<Vec<u32>, AllocError> {
    let mut rest = Vec::new(alloc);
    for (i, number) in numbers.iter().enumerate() {
        if i < from || i - from >= size {
            rest.push(*number)?;
        }
    }
    Ok(rest)
}

/// Tries a schedule without `size` of the numbers from a place on. What is left of the numbers where that leads to the
/// fault.
fn try_without<J: Judge, C: Candidate>(
    alloc: Global,
    judge: &mut J,
    search: &mut Search,
    candidate: &C,
    numbers: &[u32],
    part: ListPart,
) -> Result<Option<Vec<u32>>, AllocError>
    requires { J.leads judge.old (events_of search.old.best) }
    ensures { Advances J.leads J.judged judge.old judge.new search.old search.new }
{
    let rest = without(alloc, numbers, part.from, part.size)?;
    let runs = candidate.keeping(rest.as_slice())?;
    if search.try_schedule(judge, runs)? {
        Ok(Some(rest))
    } else {
        Ok(None)
    }
}

/// A part of a list.
#[derive(Clone, Copy)]
struct ListPart {
    from: usize,
    size: usize,
}

impl ListPart {
    /// The next part to leave out of a list of this length: of half the size, from the front, where the end was come
    /// to; none where parts of one were tried.
    fn next(self, len: usize) -> Option<ListPart> {
        if self.from < len {
            return Some(self);
        }
        if self.size <= 1 {
            return None;
        }
        Some(ListPart {
            from: 0,
            size: self.size / 2,
        })
    }

    /// The part behind.
    fn behind(self) -> ListPart {
        ListPart {
            from: self.from.saturating_add(self.size),
            size: self.size,
        }
    }
}

/// Leaves out parts of a list of groups or items, of all of them first, then of half the size each time (after Zeller's
/// delta debugging), as long as the schedule without them leads to the fault. What is left of the list.
#[tactic(auto, using(crate::proofs::Steps::stays, crate::proofs::Steps::then))]
pub(crate) fn reduce<J: Judge, C: Candidate>(
    alloc: Global,
    judge: &mut J,
    search: &mut Search,
    candidate: &C,
    numbers: Vec<u32>,
) -> Result<Vec<u32>, AllocError>
    requires { J.leads judge.old (events_of search.old.best) }
    ensures { Advances J.leads J.judged judge.old judge.new search.old search.new }
{
    let mut numbers = numbers;
    let mut part = ListPart {
        from: 0,
        size: numbers.len(),
    };
    for _ in 0..2 * MOST {
        let Some(next) = part.next(numbers.len()) else {
            break;
        };
        if search.is_done() {
            break;
        }
        part = next;
        match try_without(alloc, judge, search, candidate, numbers.as_slice(), part)? {
            Some(rest) => numbers = rest,
            None => part = part.behind(),
        }
    }
    Ok(numbers)
}
