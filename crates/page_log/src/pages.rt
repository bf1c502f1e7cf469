//! Pages of 64 bytes.

ghost use Rattle.std.specs.Prelude.{◌≡◌, ◌+◌, ◌<◌, ◌==◌, ◌^◌};
ghost use Rattle.clmodel.specs.Cells.{byte_count};
ghost use Rattle.page_log.specs.Pages.{first_page, last_page, page_in, page_of, share_page};

use clmodel::access::{Access, Region};

/// How many bytes a page has.
const PAGE: u64 = 64;

/// A page of an object.
#[derive(Clone, Copy, PartialEq, Eq, Hash)]
pub struct Page {
    pub is_local: bool,
    /// The group of a local object; 0 of a buffer.
    pub group: u32,
    /// The number of the object among buffers, or among local objects.
    pub number: u32,
    /// The number of the page in the object.
    pub page: u64,
}

/// A page of an object, by its number.
fn page_in(region: Region, page: u64) -> Page
    ensures { result ≡ page_in region page }
{
    match region {
        Region::Buffer(number) => Page {
            is_local: false,
            group: 0,
            number,
            page,
        },
        Region::Local { group, number } => Page {
            is_local: true,
            group,
            number,
            page,
        },
    }
}

/// The number of the page of an access's first byte.
fn first_page(x: &Access) -> u64
    ensures { result ≡ first_page x.now }
{
    x.first / PAGE
}

/// The number of the page of an access's last byte.
fn last_page(x: &Access) -> u64
    requires { x.now.first + byte_count x.now.width < 2 ^ 64 }
    ensures { result ≡ last_page x.now }
{
    (x.first + x.width.bytes() - 1) / PAGE
}

/// The page that an access begins in.
pub(crate) fn page_of(x: &Access) -> Page
    ensures { result ≡ page_of x.now }
{
    page_in(x.region, first_page(x))
}

/// Whether an access touches one page. Each does that begins at a multiple of its width, as all of a kernel do.
pub(crate) fn is_on_one_page(x: &Access) -> bool
    requires { x.now.first + byte_count x.now.width < 2 ^ 64 }
    ensures { result ≡ (last_page x.now == first_page x.now) }
{
    last_page(x) == first_page(x)
}

/// Whether two accesses are of the same object and touch the same page.
pub(crate) fn share_page(x: &Access, y: &Access) -> bool
    requires placed { x.now.first + byte_count x.now.width < 2 ^ 64 }
    requires other_placed { y.now.first + byte_count y.now.width < 2 ^ 64 }
    ensures { result ≡ share_page x.now y.now }
{
    y.region == x.region && first_page(y) <= last_page(x) && first_page(x) <= last_page(y)
}
