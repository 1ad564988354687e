//! The depth-first search for strongly connected components (R. Tarjan, Depth-first search and linear graph algorithms,
//! SIAM Journal on Computing 1, 1972), with frames of its own in place of calls.
ghost use Rattle.std.specs.Prelude.{◌≡◌, ◌<◌, ◌+◌, ◌^◌, [], length, IfOk, OnOk, All, true};
ghost use Rattle.fcg_order.specs.declared.search.Mark.TheVariants as Mark;
ghost use Rattle.fcg_order.specs.Links.{IsWithin};
ghost use Rattle.fcg_order.specs.Internal.Search.{state_of, with_top, mark, set_all, IsSearchState, after_enter, after_follow, with_frames, frames_after_lower, after_pop_component, IsStep, IsSearchFrom, AreSelfLinks};

use crate::links::Links;
use std::alloc::{AllocError, Global};

// What the search knows of a node.
#[derive(Clone, Copy)]
pub(crate) enum Mark {
    // It wasn't visited yet.
    Unvisited,
    // It stands on the stack, at this place.
    OnStack(usize),
    // Its component was taken off the stack, after all to which it leads.
    Finished,
}

// A node of the stack whose links are being followed.
#[derive(Clone, Copy)]
pub(crate) struct Frame {
    // The node's place on the stack.
    pub(crate) place: usize,
    // The place in the node's row of the next link to be followed.
    pub(crate) next: usize,
    // The least place on the stack to which a link was followed from here on (Tarjan's lowlink), or the node's own.
    pub(crate) low: usize,
}

// The search between two steps.
#[derive(Drop)]
pub(crate) struct Search {
    // of each node
    pub(crate) marks: Vec<Mark>,
    // visited nodes whose component isn't known yet
    pub(crate) stack: Vec<u32>,
    // each for a node of the stack that is reached by a link of the one before it
    pub(crate) frames: Vec<Frame>,
    // the finished nodes
    pub(crate) order: Vec<u32>,
    // of each node whether it lies on a circle, where it links to itself or is finished
    pub(crate) circular: Vec<bool>,
}

// Sets one value at each of these places.
fn set_all<T: Copy>(xs: &mut [T], places: &[u32], x: T)
    requires { All (λ p. p < length xs.old) places.now }
    ensures { xs.new ≡ set_all xs.old places.now x }
{
    for place in places {
        xs[*place as usize] = x;
    }
}

impl Search {
    // Puts an unvisited node on the stack, with a frame.
    fn enter(&mut self, node: u32) -> Result<(), AllocError>
        requires { node < length self.old.marks.items }
        ensures { OnOk result (state_of self.new ≡ after_enter (state_of self.old) node (state_of self.old).frames) }
    {
        let place = self.stack.len();
        self.marks[node as usize] = Mark::OnStack(place);
        self.stack.push(node)?;
        self.frames.push(Frame {
            place,
            next: 0,
            low: place,
        })?;
        Ok(())
    }

    // Follows the next link of a frame that was taken off the top, and puts the frame back.
    fn follow(&mut self, frame: Frame, target: u32) -> Result<(), AllocError>
        requires room { frame.next + 1 < 2 ^ 64 }
        requires node { target < length self.old.marks.items }
        ensures { OnOk result (state_of self.new ≡ after_follow (mark (state_of self.old) target) (state_of self.old) frame target) }
    {
        let next = frame.next + 1;
        match self.marks[target as usize] {
            Mark::Unvisited => {
                self.frames.push(Frame { next, ..frame })?;
                self.enter(target)?;
            }
            Mark::OnStack(place) => {
                let low = frame.low.min(place);
                self.frames.push(Frame { next, low, ..frame })?;
            }
            Mark::Finished => self.frames.push(Frame { next, ..frame })?,
        }
        Ok(())
    }

    // Hands the low of a frame that was taken off the top to the one below.
    fn lower_parent(&mut self, low: usize) -> Result<(), AllocError>
        ensures { OnOk result (state_of self.new ≡ with_frames (state_of self.old) (frames_after_lower low (state_of self.old).frames)) }
    {
        if let Some(parent) = self.frames.pop() {
            let low = parent.low.min(low);
            self.frames.push(Frame { low, ..parent })?;
        }
        Ok(())
    }

    // Finishes a component: what stands on the stack from a place on.
    fn pop_component(&mut self, place: usize) -> Result<(), AllocError>
        requires place { place < length self.old.stack.items }
        requires marks { All (λ v. v < length self.old.marks.items) self.old.stack.items }
        requires circular { All (λ v. v < length self.old.circular.items) self.old.stack.items }
        ensures { OnOk result (state_of self.new ≡ after_pop_component (state_of self.old) place) }
    {
        let single = self.stack.len() == place + 1;
        let (_, component) = self.stack.split_at(place);
        set_all(&mut self.marks, component, Mark::Finished);
        if !single {
            set_all(&mut self.circular, component, true);
        }
        self.order.extend_from_slice(component)?;
        self.stack.truncate(place);
        Ok(())
    }

    // One step with a frame that was taken off the top: its next link is followed, or its node is left. A node that
    // leads to none before it on the stack is the first of its component.
    fn step(&mut self, links: &Links, frame: Frame) -> Result<(), AllocError>
        requires links { IsWithin links.now }
        requires state { IsSearchState links.now (with_top frame (state_of self.old)) }
        ensures { OnOk result (IsStep links.now (state_of self.old) (state_of self.new) frame) }
    {
        let node = self.stack[frame.place];
        let row = links.row(node as usize);
        if frame.next < row.len() {
            self.follow(frame, row[frame.next])
        } else if frame.low < frame.place {
            self.lower_parent(frame.low)
        } else {
            self.pop_component(frame.place)
        }
    }

    // Searches from an unvisited node, until it is finished with all to which it leads.
    fn search_from(&mut self, links: &Links, root: u32) -> Result<(), AllocError>
        requires links { IsWithin links.now }
        requires root { root < length links.now }
        requires unvisited { mark (state_of self.old) root ≡ Mark.Unvisited }
        requires state { IsSearchState links.now (state_of self.old) }
        requires ended { (state_of self.old).frames ≡ [] }
        ensures { OnOk result (IsSearchFrom links.now (state_of self.old) (state_of self.new) root) }
    {
        self.enter(root)?;
        while let Some(frame) = self.frames.pop() {
            self.step(links, frame)?;
        }
        Ok(())
    }

    // Searches from a node, unless it was visited.
    pub(crate) fn visit(&mut self, links: &Links, node: u32) -> Result<(), AllocError>
        requires links { IsWithin links.now }
        requires node { node < length links.now }
        requires state { IsSearchState links.now (state_of self.old) }
        requires ended { (state_of self.old).frames ≡ [] }
        ensures { OnOk result (IsSearchFrom links.now (state_of self.old) (state_of self.new) node) }
    {
        match self.marks[node as usize] {
            Mark::Unvisited => self.search_from(links, node),
            Mark::OnStack(_) | Mark::Finished => Ok(()),
        }
    }
}

// Of each node whether it links to itself.
fn find_self_links(alloc: Global, links: &Links) -> Result<Vec<bool>, AllocError>
    requires { length links.now < 2 ^ 32 }
    ensures { IfOk result (λ marks. AreSelfLinks links.now marks.items) }
{
    let count = links.len();
    let mut marks = Vec::with_capacity(alloc, count)?;
    for node in 0..count {
        marks.push(links.row(node).contains(&(node as u32)))?;
    }
    Ok(marks)
}

// A search that visited no node yet.
pub(crate) fn begin(alloc: Global, links: &Links) -> Result<Search, AllocError>
    requires { length links.now < 2 ^ 32 }
    ensures state { IfOk result (λ s. IsSearchState links.now (state_of s)) }
    ensures ended { IfOk result (λ s. (state_of s).frames ≡ []) }
{
    let circular = find_self_links(alloc, links)?;
    let marks = vec![in alloc; Mark::Unvisited; links.len()]?;
    Ok(Search {
        marks,
        stack: Vec::new(alloc),
        frames: Vec::new(alloc),
        order: Vec::with_capacity(alloc, circular.len())?,
        circular,
    })
}
