//! Whole releases: all pages of some subpools in one pass.

ghost use Rattle.std.specs.Prelude.{◌≡◌, ◌*◌, length};
ghost use Rattle.mvs_model.specs.Numbers.{page_doublewords};
ghost use Rattle.mvs_model.specs.Storage.{is_one_of};
ghost use Rattle.subpool_store.specs.Edits.{IsDropped};
ghost use Rattle.subpool_store.specs.Region.{IsOpened};
ghost use Rattle.subpool_store.specs.Memory.{Stays};

use crate::memory::Memory;
use crate::region_store::close_page;
use mvs_model::subpool_set::SubpoolSet;
use page_map::PageMap;

// Releases and closes the pages of the subpools of a set, with everything held in them.
pub fn drop_pages(pages: &mut PageMap, memory: &mut Memory, subpools: &SubpoolSet)
    requires sizes { length memory.old.held ≡ page_doublewords * length pages.old }
    requires opened { IsOpened pages.old memory.old.bytes }
    ensures dropped { IsDropped (is_one_of subpools.now) memory.old.held pages.old
        (length pages.old) memory.new.held pages.new }
    ensures opened { IsOpened pages.new memory.new.bytes }
    ensures stays { Stays memory.new.held memory.old.bytes memory.new.bytes }
{
    let mut page = pages.first_of(subpools, 0);
    'pages: while page < pages.pages() {
        close_page(pages, memory, page);
        page = pages.first_of(subpools, page + 1);
    }
}
