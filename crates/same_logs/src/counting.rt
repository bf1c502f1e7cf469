//! How many accesses the log with pages compares with a new one.
#![tactic(auto)]

use access_list::{Accesses, Entry};
use page_log::PageLog;
use std::alloc::{AllocError, Global};

/// How many bytes a page has.
const PAGE: u64 = 64;

/// How many accesses of a log are of the object and on the page of another one. (None of a kernel's touches two pages.)
fn count_on_page<L: Accesses>(log: &L, x: &Entry) -> u64 {
    let mut count = 0u64;
    for i in 0..log.len() {
        let y = log.get(i);
        if y.access.region == x.access.region && y.access.first / PAGE == x.access.first / PAGE {
            count = count.saturating_add(1);
        }
    }
    count
}

/// Whether the log with pages, which is given the accesses of another log in their order, compares each with as many as
/// are there on its page.
pub fn counts_pages<L: Accesses>(alloc: Global, log: &L) -> Result<bool, AllocError> {
    let mut pages = PageLog::new(alloc, false);
    for i in 0..log.len() {
        let entry = log.get(i);
        let on_page = count_on_page(&pages, &entry);
        let (_, compared) = pages.note_counted(entry)?;
        if compared != on_page {
            return Ok(false);
        }
    }
    Ok(true)
}
