//! What stands below each place of a folder: its files come first, and then its entries.
use std::alloc::{AllocError, Global};

/// The numbers below each place, in order.
#[derive(Drop)]
pub(crate) struct Kids {
    /// Where those of each place begin.
    starts: Vec<usize>,
    list: Vec<usize>,
}

/// How many stand below each place, one place further on.
fn counts(alloc: Global, places: usize, above: &[usize]) -> Result<Vec<usize>, AllocError> {
    let mut counts = vec![in alloc; 0usize; places.saturating_add(2)]?;
    for place in above {
        if let Some(count) = counts.get_mut(place.saturating_add(1)) {
            *count = count.saturating_add(1);
        }
    }
    Ok(counts)
}

/// Each number with all before it.
fn add_up(counts: &mut Vec<usize>) {
    let mut sum: usize = 0;
    for count in counts.iter_mut() {
        sum = sum.saturating_add(*count);
        *count = sum;
    }
}

impl Kids {
    /// Those of this many places, where entry k stands below `above[k]`.
    pub(crate) fn new(alloc: Global, places: usize, above: &[usize]) -> Result<Kids, AllocError> {
        let mut starts = counts(alloc, places, above)?;
        add_up(&mut starts);
        let mut next = starts.clone()?;
        let mut list = vec![in alloc; 0usize; above.len()]?;
        for (entry, place) in above.iter().enumerate() {
            if let Some(slot) = next.get_mut(*place) {
                let here = *slot;
                *slot = here.saturating_add(1);
                if let Some(kid) = list.get_mut(here) {
                    *kid = entry;
                }
            }
        }
        Ok(Kids { starts, list })
    }

    /// What stands below a place.
    pub(crate) fn below(&self, place: usize) -> &[usize] {
        let starts = self.starts.as_slice();
        let (Some(start), Some(end)) = (starts.get(place), starts.get(place.saturating_add(1)))
        else {
            return &[];
        };
        self.list.as_slice().get(*start..*end).unwrap_or(&[])
    }
}
