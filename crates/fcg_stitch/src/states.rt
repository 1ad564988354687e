//! What was found for the references of parts.
ghost use Rattle.std.specs.Prelude.{◌≡◌, ◌⊎◌, ℕ, List, None, Some, IfOk, length, replicate, slice_set};
ghost use Rattle.fcg_partial.specs.Parts.{PartShown};
ghost use Rattle.fcg_partial.specs.Views.{graph_of};
ghost use Rattle.fcg_stitch.specs.Internal.Rows.{state_at, HavePlaces};

use crate::place::graph;
use fcg_join::Outcome;
use fcg_partial::Part;
use std::alloc::{AllocError, Global};
use std::marker::Model;

/// Where calls lead.
#[derive(Clone, Copy)]
pub enum Targets {
    /// Nowhere.
    Nothing,
    /// To one node.
    One(u32),
    /// To the nodes of a list.
    List(u32),
}

/// What was found for a reference.
#[derive(Clone, Copy)]
pub struct RefState {
    /// What it stands for.
    pub outcome: Outcome,
    /// Where virtual and interface calls with it lead, if that was asked.
    pub targets: Option<Targets>,
}

/// What was found for each reference of each part, so far.
#[derive(Drop)]
pub struct RefStates {
    parts: Vec<Vec<Option<RefState>>>,
}

impl Model for RefStates {
    ghost use Rattle.std.specs.Prelude.{List, Option, map};
    ghost use Rattle.fcg_stitch.specs.declared.states.RefState.{RefState};

    ghost Value = { List (List (Option RefState)) };

    ghost view = { λ s. map (λ v. v.items) s.parts.items };
}

// Nothing is known of the references of a part.
fn no_states(alloc: Global, part: &Part) -> Result<Vec<Option<RefState>>, AllocError>
    ensures { IfOk result (λ states. states.items ≡ replicate (length (graph_of part.now.views).refs) None) }
{
    Ok(vec![in alloc; None; graph(part).ref_count() as usize]?)
}

// Puts what is known of a reference into its place, if there is one.
fn put_state(states: &mut Vec<Option<RefState>>, r: u32, state: RefState)
    ensures { states.new.items ≡ slice_set states.old.items r (Some state) }
{
    if let Some(place) = states.get_mut(r as usize) {
        *place = Some(state);
    }
}

impl RefStates {
    // Nothing is known of the references of the parts.
    pub(crate) fn new(alloc: Global, parts: &[Part]) -> Result<RefStates, AllocError>
        ensures places { IfOk result (λ s. HavePlaces parts.now s) }
        ensures none { IfOk result (λ s. (i r : ℕ) → state_at s i r ≡ None) }
    {
        let mut states = Vec::new(alloc);
        for part in parts {
            states.push(no_states(alloc, part)?)?;
        }
        Ok(RefStates { parts: states })
    }

    // What is known of a reference of a part.
    pub(crate) fn get(&self, part: u32, r: u32) -> Option<RefState>
        ensures { result ≡ state_at self.now part r }
    {
        match self.parts.get(part as usize) {
            Some(states) => states.get(r as usize).copied().flatten(),
            None => None,
        }
    }

    // Keeps what is known of a reference of a part.
    pub(crate) fn set(&mut self, part: u32, r: u32, state: RefState)
        ensures there { (parts : List PartShown) → HavePlaces parts self.old → HavePlaces parts self.new }
        ensures others { (i k : ℕ) (s : RefState) → state_at self.new i k ≡ Some s → (s ≡ state) × (i ≡ part) × (k ≡ r) ⊎ (state_at self.old i k ≡ Some s) }
    {
        if let Some(states) = self.parts.get_mut(part as usize) {
            put_state(states, r, state);
        }
    }
}
