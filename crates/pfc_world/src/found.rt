//! Who was found last among those who are barred at each resource.

use crate::lists::MOST_PLACES;
use pfc_base::Memory;
use std::alloc::Global;
use std::cell::Cell;

/// Who was found last at each resource: where to look for the next. Nothing rests on it but the time that this takes, so its
/// contracts say nothing, and who looks may note it. Resources whose numbers differ by a multiple of the number of places share one.
#[derive(Drop)]
pub(crate) struct Found {
    latest: Vec<Cell<u32>>,
}

impl Found {
    /// Where there are so many resources, and at most 262,144 places, which take 4 bytes each.
    pub(crate) fn new(alloc: Global, resources: u32) -> Result<Found, Memory> {
        let places = resources.max(1).min(MOST_PLACES);
        let mut latest = Vec::with_capacity(alloc, places as usize)?;
        for _place in 0..places {
            latest.push(Cell::new(0))?;
        }
        Ok(Found { latest })
    }

    /// Who was found last at the resource, or at one that shares its place; process 0 where nobody was.
    pub(crate) fn at(&self, resource: u32) -> Option<u32> {
        match self
            .latest
            .get(resource as usize % self.latest.len().max(1))
        {
            Some(latest) => Some(latest.get()),
            None => None,
        }
    }

    /// This process was found last at the resource.
    pub(crate) fn note(&self, resource: u32, p: u32) {
        if let Some(latest) = self
            .latest
            .get(resource as usize % self.latest.len().max(1))
        {
            latest.set(p);
        }
    }
}
