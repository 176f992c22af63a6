//! Ranks of messages, which tell what leads back.
ghost use Rattle.std.specs.Prelude.{◌≡◌, map, IfOk};
ghost use Rattle.sz_protofile_types.specs.Places.{IsLinked};
ghost use Rattle.sz_protofile_types.specs.Ranks.{rank, IsRanking};

use crate::component_numbers;
use crate::graph::Graph;
use std::alloc::Global;
use std::marker::Model;
use sz_protofile::FieldIn;
use sz_scope::Names;
use sz_types::NoMemory;

/// Ranks of messages.
///
/// The message of a field's type has no higher rank than that in which the field stands, and it has the same exactly where it leads back
/// to that one.
pub struct Ranks {
    nodes: Names,
    numbers: Vec<usize>,
}

impl Drop for Ranks {
    fn drop(self) {
        let Ranks {
            nodes: _,
            numbers: _,
        } = self;
    }
}

impl Model for Ranks {
    ghost use Rattle.sz_protofile_types.specs.Ranks.{Ranking, ranking};

    ghost Value = { Ranking };

    ghost view = { λ ranks. ranking ranks.nodes ranks.numbers.items };
}

impl Ranks {
    /// The rank of the message of this full name, and 0 where no field has its type and it has no field with a message's.
    pub fn rank(&self, name: &str) -> usize
        ensures value { result ≡ rank self.now name.now }
    {
        match self.nodes.find(name) {
            Some(place) => self.numbers.get(place).copied().unwrap_or(0),
            None => 0,
        }
    }
}

// The graph of the fields' messages.
fn graph_of(alloc: Global, fields: &[FieldIn]) -> Result<Graph, NoMemory>
    ensures value { IfOk result (λ graph. IsLinked fields.now graph.nodes (map (λ l. l.items) graph.links.items)) }
{
    let mut graph = Graph::new(alloc);
    for field in fields {
        graph.take(alloc, field)?;
    }
    Ok(graph)
}

/// The ranks of the messages that fields have for their types, and of those in which they stand.
pub fn message_ranks(alloc: Global, fields: &[FieldIn]) -> Result<Ranks, NoMemory>
    ensures value { IfOk result (λ ranks. IsRanking fields.now ranks) }
{
    let graph = graph_of(alloc, fields)?;
    let numbers = component_numbers(alloc, graph.links.as_slice())?;
    let Graph { nodes, links: _ } = graph;
    Ok(Ranks { nodes, numbers })
}
