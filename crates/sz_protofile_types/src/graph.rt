//! The graph of messages: a node for each that a field has for its type, or that has such a field, and a link for each of these fields.
ghost use Rattle.std.specs.Prelude.{◌≡◌, ◌++◌, ◌∷◌, ◌<◌, [], List, length, map, set, Some, OnOk, IfOk};
ghost use Rattle.sz_protofile.specs.declared.field.FieldIn.{FieldIn as Part};
ghost use Rattle.sz_protofile_types.specs.Components.{links_of};
ghost use Rattle.sz_scope.specs.Names.{place_of};
ghost use Rattle.sz_protofile_types.specs.Places.{IsLinked, IsGrown, HasNewLink};

use std::alloc::Global;
use sz_protofile::{FieldIn, Sort};
use sz_scope::Names;
use sz_types::NoMemory;

// The messages' names, and the links of each.
#[derive(Drop)]
pub(crate) struct Graph {
    pub(crate) nodes: Names,
    pub(crate) links: Vec<Vec<usize>>,
}

// Appends a link to those of a node.
fn push_link(links: &mut Vec<Vec<usize>>, from: usize, to: usize) -> Result<(), NoMemory>
    requires within { from < length links.old.items }
    ensures ok { OnOk result (map (λ l. l.items) links.new.items ≡
        set (map (λ l. l.items) links.old.items) from (links_of (map (λ l. l.items) links.old.items) from ++ to ∷ [])) }
{
    links[from].push(to)?;
    Ok(())
}

impl Graph {
    pub(crate) fn new(alloc: Global) -> Graph
        ensures nodes { result.nodes ≡ [] }
        ensures links { result.links.items ≡ [] }
    {
        Graph {
            nodes: Names::new(alloc),
            links: Vec::new(alloc),
        }
    }

    // The node of a message, which is added where there is none yet.
    fn node(&mut self, alloc: Global, name: &str) -> Result<usize, NoMemory>
        requires same { length (map (λ l. l.items) self.old.links.items) ≡ length self.old.nodes }
        ensures place { IfOk result (λ place. place_of name.now self.new.nodes ≡ Some place) }
        ensures grown { OnOk result (IsGrown self.old.nodes (map (λ l. l.items) self.old.links.items)
            self.new.nodes (map (λ l. l.items) self.new.links.items)) }
    {
        if let Some(place) = self.nodes.find(name) {
            return Ok(place);
        }
        let place = self.nodes.len();
        self.nodes.add(name)?;
        self.links.push(Vec::new(alloc))?;
        Ok(place)
    }

    // Takes the link that a field has between two messages.
    fn link(&mut self, alloc: Global, owner: &str, target: &str) -> Result<(), NoMemory>
        requires same { length (map (λ l. l.items) self.old.links.items) ≡ length self.old.nodes }
        ensures linked { OnOk result (HasNewLink owner.now target.now self.old.nodes (map (λ l. l.items) self.old.links.items)
            self.new.nodes (map (λ l. l.items) self.new.links.items)) }
    {
        let from = self.node(alloc, owner)?;
        let to = self.node(alloc, target)?;
        push_link(&mut self.links, from, to)
    }

    // Takes the link of a field, if it has one.
    pub(crate) fn take(&mut self, alloc: Global, field: &FieldIn) -> Result<(), NoMemory>
        requires same { length (map (λ l. l.items) self.old.links.items) ≡ length self.old.nodes }
        ensures linked { OnOk result ((before : List Part) → IsLinked before self.old.nodes (map (λ l. l.items) self.old.links.items)
            → IsLinked (before ++ field.now ∷ []) self.new.nodes (map (λ l. l.items) self.new.links.items)) }
    {
        match &field.sort {
            Sort::Message(target) => self.link(alloc, field.owner.as_str(), target.as_str()),
            Sort::Unkept => Ok(()),
            Sort::Kept(_) => Ok(()),
        }
    }
}
