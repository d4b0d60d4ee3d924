//! The states that the store is opened with, split from the lists at their commas.
ghost use Rattle.std.specs.Prelude.{◌≡◌, ◌⊎◌, map, IfOk, IfErr, IsTrue, IsFalse};
ghost use Rattle.org_fileset.specs.declared.open.OpenFault.TheVariants.{OutOfMemory};
ghost use Rattle.org_outline.specs.States.{are_states};
ghost use Rattle.org_program.specs.Lists.{between_commas, states_of};
ghost use Rattle.org_program.specs.declared.fault.Fault.TheVariants.{BadStates, Open};

use crate::fault::Fault;
use org_outline::States;
use std::alloc::{AllocError, Global};

/// The states between the commas of a list of active ones and of one of done ones.
///
/// # Errors
///
/// - `BadStates`: a store can't have them: `States::new` refuses them, or a list has an empty word.
/// - `Open(OutOfMemory)`.
pub fn states(alloc: Global, todo: &str, done: &str) -> Result<States, Fault>
    ensures states { IfOk result (λ states. states ≡ states_of todo.now done.now) }
    ensures accepted { IfOk result (λ states. IsTrue (are_states states)) }
    ensures cause { IfErr result (λ fault.
        ((fault ≡ BadStates) × IsFalse (are_states (states_of todo.now done.now)))
        ⊎ (fault ≡ Open OutOfMemory)) }
{
    let todo = between_commas(alloc, todo)?;
    let done = between_commas(alloc, done)?;
    Ok(States::new(alloc, todo.as_slice(), done.as_slice())?)
}

fn between_commas(alloc: Global, list: &str) -> Result<Vec<&str>, AllocError>
    ensures { IfOk result (λ words. map (λ word. word.now) words.items ≡ between_commas list.now) }
{
    list.split(',').collect(alloc)
}
