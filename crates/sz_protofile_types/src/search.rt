//! The search for components: a path of parts, each of nodes that lead to each other, from which parts are closed at its end.
ghost use Rattle.std.specs.Prelude.{◌≡◌, ℕ, ◌+◌, ◌-◌, ◌<◌, ◌≤◌, ◌++◌, ◌∷◌, [], List, length, map, set, take, replicate, slice_get, Some, IfOk, OnOk, IfSome, IfNone};
ghost use Rattle.sz_protofile_types.specs.declared.mark.Mark.TheVariants.{Unseen as unseen, Open as opened_at, Closed as closed_as};
ghost use Rattle.sz_protofile_types.specs.Components.{links_of, IsGraph, Leads};
ghost use Rattle.sz_protofile_types.specs.Search.{mark_of, link, start_at, none_spared, IsClosing, IsCut, IsOpen, KeepsSeen, IsPath, IsSound, steps_of};

use crate::mark::{Link, Mark, Start};
use std::alloc::{AllocError, Global};

// What is known of a graph while its components are looked for.
#[derive(Drop)]
pub(crate) struct Search {
    pub(crate) marks: Vec<Mark>,
    // The nodes that are open, in the order in which they were seen.
    pub(crate) path: Vec<usize>,
    pub(crate) starts: Vec<Start>,
    // Links of open nodes that weren't followed yet.
    pub(crate) pending: Vec<Link>,
    // The nodes that are closed, in the order in which they were. A component's number is how many of them were there before it.
    pub(crate) order: Vec<usize>,
}

// The links of a node.
fn links_from(links: &[Vec<usize>], node: usize) -> &[usize]
    requires within { node < length links.now }
    ensures value { result.now ≡ links_of (map (λ l. l.items) links.now) node }
{
    links[node].as_slice()
}

// Appends a node's links.
fn push_links(pending: &mut Vec<Link>, from: usize, targets: &[usize]) -> Result<(), AllocError>
    ensures ok { OnOk result (pending.new.items ≡ pending.old.items ++ map (link from) targets.now) }
{
    for to in targets {
        pending.push(Link { from, to: *to })?;
    }
    Ok(())
}

// Takes the last link out, if there are more than so many.
fn pop_link(pending: &mut Vec<Link>, few: usize) -> Option<Link>
    ensures some { IfSome result (λ e. (pending.old.items ≡ pending.new.items ++ e ∷ []) × (few ≤ length pending.new.items)) }
    ensures none { IfNone result (length pending.old.items ≤ few) }
    ensures kept { IfNone result (pending.new.items ≡ pending.old.items) }
{
    if pending.len() > few {
        pending.pop()
    } else {
        None
    }
}

// Takes the last start out, if it is behind a place.
fn pop_behind(starts: &mut Vec<Start>, place: usize) -> Option<Start>
    ensures some { IfSome result (λ s. (starts.old.items ≡ starts.new.items ++ s ∷ []) × (place < s.place)) }
    ensures last { IfNone result ((i : ℕ) (s : Start) → slice_get starts.old.items i ≡ Some s → i + 1 ≡ length starts.old.items → s.place ≤ place) }
    ensures kept { IfNone result (starts.new.items ≡ starts.old.items) }
{
    match starts.last() {
        Some(last) if last.place > place => starts.pop(),
        _ => None,
    }
}

// Joins the last parts, until the last one begins at a place or before it.
fn join_parts(starts: &mut Vec<Start>, place: usize)
    ensures cut { IsCut place starts.old.items starts.new.items }
{
    while let Some(_start) = pop_behind(starts, place) {}
}

impl Search {
    // Nothing is known yet.
    pub(crate) fn new(alloc: Global, nodes: usize) -> Result<Search, AllocError>
        ensures marks { IfOk result (λ s. s.marks.items ≡ replicate nodes unseen) }
        ensures path { IfOk result (λ s. s.path.items ≡ []) }
        ensures starts { IfOk result (λ s. s.starts.items ≡ []) }
        ensures pending { IfOk result (λ s. s.pending.items ≡ []) }
    {
        let marks = vec![in alloc; Mark::Unseen; nodes]?;
        Ok(Search {
            marks,
            path: Vec::new(alloc),
            starts: Vec::new(alloc),
            pending: Vec::new(alloc),
            order: Vec::new(alloc),
        })
    }

    // Opens a node that wasn't seen: it begins a part of its own at the end of the path, and its links are pending.
    fn open_node(&mut self, targets: &[usize], node: usize) -> Result<(), AllocError>
        requires within { node < length self.old.marks.items }
        ensures marks { OnOk result (self.new.marks.items ≡ set self.old.marks.items node (opened_at (length self.old.path.items))) }
        ensures path { OnOk result (self.new.path.items ≡ self.old.path.items ++ node ∷ []) }
        ensures starts { OnOk result (self.new.starts.items ≡
            self.old.starts.items ++ start_at (length self.old.path.items) (length self.old.pending.items) ∷ []) }
        ensures pending { OnOk result (self.new.pending.items ≡ self.old.pending.items ++ map (link node) targets.now) }
        ensures order { OnOk result (self.new.order ≡ self.old.order) }
    {
        let start = Start {
            place: self.path.len(),
            pending: self.pending.len(),
        };
        self.path.push(node)?;
        self.starts.push(start)?;
        push_links(&mut self.pending, node, targets)?;
        self.marks[node] = Mark::Open(start.place);
        Ok(())
    }

    // Closes the last node of the path, if there is one.
    fn close_node(&mut self, number: usize) -> Result<(), AllocError>
        requires path { IsPath self.old.marks.items self.old.path.items }
        ensures path { OnOk result (self.new.path.items ≡ take (length self.old.path.items - 1) self.old.path.items) }
        ensures marks { OnOk result ((u : ℕ) → slice_get self.old.path.items (length self.old.path.items - 1) ≡ Some u
            → self.new.marks.items ≡ set self.old.marks.items u (closed_as number)) }
        ensures order { OnOk result (0 < length self.old.path.items → length self.new.order.items ≡ length self.old.order.items + 1) }
        ensures starts { self.new.starts ≡ self.old.starts }
        ensures pending { self.new.pending ≡ self.old.pending }
    {
        if let Some(node) = self.path.pop() {
            self.marks[node] = Mark::Closed(number);
            self.order.push(node)?;
        }
        Ok(())
    }

    // Closes the nodes of the path from a place on.
    fn close_from(&mut self, place: usize) -> Result<(), AllocError>
        requires path { IsPath self.old.marks.items self.old.path.items }
        requires within { place < length self.old.path.items }
        ensures marks { OnOk result (IsClosing place (length self.old.order.items) self.old.marks.items self.new.marks.items) }
        ensures path { OnOk result (self.new.path.items ≡ take place self.old.path.items) }
        ensures order { OnOk result (length self.old.order.items < length self.new.order.items) }
        ensures starts { self.new.starts ≡ self.old.starts }
        ensures pending { self.new.pending ≡ self.old.pending }
    {
        let number = self.order.len();
        while self.path.len() > place {
            self.close_node(number)?;
        }
        Ok(())
    }

    // Closes the last part of the path, which begins here.
    fn close_part(&mut self, start: Start) -> Result<(), AllocError>
        requires path { IsPath self.old.marks.items self.old.path.items }
        requires within { start.place < length self.old.path.items }
        ensures marks { OnOk result (IsClosing start.place (length self.old.order.items) self.old.marks.items self.new.marks.items) }
        ensures path { OnOk result (self.new.path.items ≡ take start.place self.old.path.items) }
        ensures order { OnOk result (length self.old.order.items < length self.new.order.items) }
        ensures starts { (front : List Start) → self.old.starts.items ≡ front ++ start ∷ [] → self.new.starts.items ≡ front }
        ensures pending { self.new.pending ≡ self.old.pending }
    {
        self.starts.pop();
        self.close_from(start.place)
    }

    // Opens a node to which each open one leads.
    fn enter(&mut self, links: &[Vec<usize>], node: usize) -> Result<(), AllocError>
        requires within { node < length links.now }
        requires sound { IsSound (map (λ l. l.items) links.now) (λ v. v ≡ node) self.old }
        requires unseen { mark_of self.old.marks.items node ≡ unseen }
        requires leads { (u p : ℕ) → IsOpen self.old.marks.items u p → Leads (map (λ l. l.items) links.now) u node }
        ensures sound { OnOk result (IsSound (map (λ l. l.items) links.now) none_spared self.new) }
        ensures seen { OnOk result (mark_of self.new.marks.items node ≡ unseen → ⊥) }
        ensures kept { OnOk result (KeepsSeen self.old.marks.items self.new.marks.items) }
        ensures fewer { OnOk result (steps_of (map (λ l. l.items) links.now) self.new < steps_of (map (λ l. l.items) links.now) self.old) }
    {
        self.open_node(links_from(links, node), node)?;
        Ok(())
    }

    // Follows a link of the last part.
    fn follow(&mut self, links: &[Vec<usize>], to: usize) -> Result<(), AllocError>
        requires within { to < length links.now }
        requires sound { IsSound (map (λ l. l.items) links.now) (λ v. v ≡ to) self.old }
        requires leads { (u p : ℕ) → IsOpen self.old.marks.items u p → Leads (map (λ l. l.items) links.now) u to }
        ensures sound { OnOk result (IsSound (map (λ l. l.items) links.now) none_spared self.new) }
        ensures kept { OnOk result (KeepsSeen self.old.marks.items self.new.marks.items) }
        ensures fewer { OnOk result (steps_of (map (λ l. l.items) links.now) self.new ≤ steps_of (map (λ l. l.items) links.now) self.old) }
    {
        match self.marks[to] {
            Mark::Unseen => self.enter(links, to)?,
            Mark::Open(place) => join_parts(&mut self.starts, place),
            Mark::Closed(_) => {}
        }
        Ok(())
    }

    // Follows a pending link of the last part, or closes it, if it has none.
    fn step(&mut self, links: &[Vec<usize>], start: Start) -> Result<(), AllocError>
        requires graph { IsGraph (map (λ l. l.items) links.now) }
        requires sound { IsSound (map (λ l. l.items) links.now) none_spared self.old }
        requires last { (front : List Start) × (self.old.starts.items ≡ front ++ start ∷ []) }
        ensures sound { OnOk result (IsSound (map (λ l. l.items) links.now) none_spared self.new) }
        ensures kept { OnOk result (KeepsSeen self.old.marks.items self.new.marks.items) }
        ensures fewer { OnOk result (steps_of (map (λ l. l.items) links.now) self.new < steps_of (map (λ l. l.items) links.now) self.old) }
    {
        match pop_link(&mut self.pending, start.pending) {
            Some(link) => self.follow(links, link.to)?,
            None => self.close_part(start)?,
        }
        Ok(())
    }

    // The start of the last part.
    fn last_start(&self) -> Option<Start>
        ensures last { IfSome result (λ s. (front : List Start) × (self.now.starts.items ≡ front ++ s ∷ [])) }
        ensures none { IfNone result (self.now.starts.items ≡ []) }
    {
        self.starts.last().copied()
    }

    // Closes the whole path, and all that its nodes lead to.
    fn close_all(&mut self, links: &[Vec<usize>]) -> Result<(), AllocError>
        requires graph { IsGraph (map (λ l. l.items) links.now) }
        requires sound { IsSound (map (λ l. l.items) links.now) none_spared self.old }
        ensures sound { OnOk result (IsSound (map (λ l. l.items) links.now) none_spared self.new) }
        ensures kept { OnOk result (KeepsSeen self.old.marks.items self.new.marks.items) }
        ensures idle { OnOk result (self.new.starts.items ≡ []) }
    {
        while let Some(start) = self.last_start() {
            self.step(links, start)?;
        }
        Ok(())
    }

    // Closes a node, and all that it leads to.
    pub(crate) fn search_from(
        &mut self,
        links: &[Vec<usize>],
        root: usize,
    ) -> Result<(), AllocError>
        requires graph { IsGraph (map (λ l. l.items) links.now) }
        requires within { root < length links.now }
        requires sound { IsSound (map (λ l. l.items) links.now) none_spared self.old }
        requires idle { self.old.starts.items ≡ [] }
        ensures sound { OnOk result (IsSound (map (λ l. l.items) links.now) none_spared self.new) }
        ensures idle { OnOk result (self.new.starts.items ≡ []) }
        ensures kept { OnOk result (KeepsSeen self.old.marks.items self.new.marks.items) }
        ensures seen { OnOk result (mark_of self.new.marks.items root ≡ unseen → ⊥) }
    {
        match self.marks[root] {
            Mark::Unseen => {
                self.enter(links, root)?;
                self.close_all(links)
            }
            Mark::Open(_) | Mark::Closed(_) => Ok(()),
        }
    }
}
