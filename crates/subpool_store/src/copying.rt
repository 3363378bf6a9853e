//! Copies of the pages of a region.

ghost use Rattle.std.specs.Prelude.{◌≡◌, IfOk};
ghost use Rattle.subpool_store.specs.Region.{IsOpened};

use mvs_model::error::OutOfMemory;
use page_map::PageMap;
use region_raw::region::Region;
use std::alloc::Global;

// Returns a copy of a region, a page of which is open while it is assigned. It fails if memory is exhausted.
pub fn copy_pages(alloc: Global, region: &Region, pages: &PageMap) -> Result<Region, OutOfMemory>
    requires { IsOpened pages.now region.now }
    ensures { IfOk result (λ copy. copy ≡ region.now) }
{
    let mut copy = Region::new(alloc, pages.pages())?;
    let mut page = pages.first_assigned(0).0;
    'pages: while page < pages.pages() {
        copy.copy_page(page, region);
        page = pages.first_assigned(page + 1).0;
    }
    Ok(copy)
}
