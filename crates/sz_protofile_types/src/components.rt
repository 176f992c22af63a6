//! The numbers of the components.
ghost use Rattle.std.specs.Prelude.{◌≡◌, map, IfOk};
ghost use Rattle.sz_protofile_types.specs.Components.{IsGraph, AreNumbers};
ghost use Rattle.sz_protofile_types.specs.Search.{number_of};

use crate::mark::Mark;
use crate::search::Search;
use std::alloc::{AllocError, Global};

// The number of a node that has this mark.
fn number_of(mark: Mark) -> usize
    ensures value { result ≡ number_of mark }
{
    match mark {
        Mark::Unseen | Mark::Open(_) => 0,
        Mark::Closed(number) => number,
    }
}

// The numbers of all nodes.
fn numbers_of(alloc: Global, marks: &[Mark]) -> Result<Vec<usize>, AllocError>
    ensures value { IfOk result (λ numbers. numbers.items ≡ map number_of marks.now) }
{
    let mut numbers = Vec::new(alloc);
    for mark in marks {
        numbers.push(number_of(*mark))?;
    }
    Ok(numbers)
}

/// A number for each node of a graph, which is given by the links of each.
///
/// No link is to a node of a higher number, and two nodes have equal ones exactly where each leads to the other.
pub fn component_numbers(alloc: Global, links: &[Vec<usize>]) -> Result<Vec<usize>, AllocError>
    // Each link is to a node.
    requires graph { IsGraph (map (λ l. l.items) links.now) }
    // They are numbers of the components, in which no link leads up.
    ensures value { IfOk result (λ numbers. AreNumbers (map (λ l. l.items) links.now) numbers.items) }
{
    let mut search = Search::new(alloc, links.len())?;
    for root in 0..links.len() {
        search.search_from(links, root)?;
    }
    numbers_of(alloc, search.marks.as_slice())
}
