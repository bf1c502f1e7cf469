//! What the search found, as labels. Nothing rests on it: they are checked.
#![tactic(auto)]

use crate::free::Free;
use crate::known::{Known, Set};
use crate::labels::{number_label, pointer_label};
use crate::row::Row;
use crate::search::{OBJECTS, Search};
use crate::searched::Searched;
use clmodel::setup::Argument;
use same_items::Label;
use std::alloc::{AllocError, Global};

/// What the search found, and the sources that decide.
#[derive(Clone, Copy)]
pub(crate) struct Found<'a> {
    pub(crate) search: &'a Search,
    pub(crate) deciding: Set,
}

/// The labels of registers of which these are known, by the label of each thing that is known. An error is out of
/// memory.
fn row_of(alloc: Global, kinds: &[u32], labels: &[Label]) -> Result<Row, AllocError> {
    let mut row = Vec::with_capacity(alloc, kinds.len())?;
    for kind in kinds {
        row.push(match labels.get(*kind as usize) {
            Some(label) => *label,
            None => Label::Unset,
        })?;
    }
    Ok(Row::new(row))
}

impl Found<'_> {
    /// Whether a number from these sources may differ: one of them decides nothing.
    fn is_free(&self, sources: Set) -> bool {
        !sources.without(self.deciding).is_empty()
    }

    /// The label of a register of which this is known.
    fn label(&self, known: Known) -> Label {
        if !known.is_set {
            Label::Unset
        } else if !known.objects.is_empty() {
            self.label_to(known.objects)
        } else if known.is_divisor {
            Label::Divisor
        } else {
            number_label(self.is_free(known.sources))
        }
    }

    /// The label of a pointer to one of these objects.
    fn label_to(&self, objects: Set) -> Label {
        let mut label = Label::Unset;
        for object in 0..OBJECTS {
            if objects.has(object) {
                let other = pointer_label(self.is_free(self.search.held_by(object)));
                label = if label == Label::Unset || label == other {
                    other
                } else {
                    Label::ToAny
                };
            }
        }
        label
    }

    /// The label of each register at each place to which a jump leads. An error is out of memory.
    pub(crate) fn rows(&self, alloc: Global) -> Result<Vec<Option<Row>>, AllocError> {
        let labels = self.labels(alloc)?;
        let mut rows = Vec::new(alloc);
        for kinds in &self.search.rows {
            let row = match kinds {
                Some(kinds) => Some(row_of(alloc, kinds.as_slice(), labels.as_slice())?),
                None => None,
            };
            rows.push(row)?;
        }
        Ok(rows)
    }

    /// The label of a register by the number of what is known of it. An error is out of memory.
    fn labels(&self, alloc: Global) -> Result<Vec<Label>, AllocError> {
        let mut labels = Vec::new(alloc);
        for known in &self.search.kinds.all {
            labels.push(self.label(*known))?;
        }
        Ok(labels)
    }

    /// Which of these sets of sources may make numbers differ.
    fn which(&self, alloc: Global, held: &[Set]) -> Result<Vec<bool>, AllocError> {
        let mut free = Vec::new(alloc);
        for sources in held {
            free.push(self.is_free(*sources))?;
        }
        Ok(free)
    }

    /// Which objects may differ: so many from a first one on.
    fn objects(&self, alloc: Global, first: usize, count: usize) -> Result<Vec<bool>, AllocError> {
        let mut free = Vec::new(alloc);
        for i in 0..count {
            free.push(self.is_free(self.search.held_by(first.saturating_add(i))))?;
        }
        Ok(free)
    }

    /// Which arguments may differ: numbers that decide nothing.
    fn arguments(&self, alloc: Global, searched: &Searched<'_>) -> Result<Vec<bool>, AllocError> {
        let mut free = Vec::new(alloc);
        for (index, argument) in searched.arguments.iter().enumerate() {
            free.push(match argument {
                Some(Argument::Value(_)) => {
                    self.is_free(Set::of(searched.behind_buffers(index)))
                }
                _ => false,
            })?;
        }
        Ok(free)
    }

    /// What may differ, of so many local objects. An error is out of memory.
    pub(crate) fn free(
        &self,
        alloc: Global,
        searched: &Searched<'_>,
        locals: usize,
    ) -> Result<Free, AllocError> {
        let buffers = searched.names.len();
        Ok(Free {
            buffers: self.objects(alloc, 0, buffers)?,
            locals: self.objects(alloc, buffers, locals)?,
            arrays: self.which(alloc, self.search.arrays.as_slice())?,
            arguments: self.arguments(alloc, searched)?,
        })
    }
}
