//! Each call with ample memory, and what an obtain counts on two small stores that are worked out by hand.

ghost use Rattle.std.specs.Prelude.{◌≡◌, length};
ghost use Rattle.mvs_model.specs.Storage.{AllHeld};
ghost use Rattle.subpool_store.specs.WrittenBytes.{Puts};

use mvs_model::bounded::{Exponent, Length};
use mvs_model::place::{Addr, Place};
use mvs_model::subpool::SubpoolId;
use mvs_model::want::{Placement, Side, Want};
use std::test::Fail;
use subpool_store::Store;

// Writes bytes over those of a place.
fn put(store: &mut Store, place: Place, bytes: &[u8])
    requires held { AllHeld store.old.storage place }
    requires len { length bytes.now ≡ place.len }
    ensures { Puts store.old.storage place bytes.now store.new.storage }
{
    let part = store.bytes_mut(place);
    part.copy_from_slice(bytes);
}

#[test]
fn each_call(rt: HostRuntime) -> Result<(), Fail> {
    let one = SubpoolId::new(1);
    let two = SubpoolId::new(2);
    let mut store = Store::new(rt.alloc(), 2, 0, 0xAA, Placement::Low)?;
    let want = Want::fixed(Length::new(20), Exponent::new(3), Side::Either);
    let place = Place::new(Addr::new(0x6000), 24);
    assert_eq!(rt; store.obtain(one, &want, None), Some(place));
    assert_eq!(rt; store.held(Addr::new(0x6017)), Some(one));
    assert_eq!(rt; store.held(Addr::new(0x6018)), None);
    assert_eq!(rt; store.held_bytes(one), 24);
    assert_eq!(rt; store.held_bytes(two), 0);
    assert_eq!(rt; store.page_owner(Addr::new(0x6FFF)), Some(one));
    assert_eq!(rt; store.page_owner(Addr::new(0x7000)), None);
    assert!(rt; !store.holds(two, place));
    assert!(rt; store.release(two, place).is_err());
    assert!(rt; store.holds(one, place));
    assert_eq!(rt; store.bytes(place), [0xAA; 24].as_slice());
    put(&mut store, place, [7; 24].as_slice());
    assert!(rt; store.holds(one, place));
    assert_eq!(rt; store.bytes(place), [7; 24].as_slice());
    assert!(rt; store.release(one, Place::new(Addr::new(0x6008), 8)).is_ok());
    assert_eq!(rt; store.held_bytes(one), 16);
    store.release_all(one);
    assert_eq!(rt; store.held_bytes(one), 0);
    assert_eq!(rt; store.page_owner(Addr::new(0x6000)), None);
    Ok(())
}

// Makes a page of 256 free runs of one doubleword each.
#[test]
fn a_page_of_256_runs(rt: HostRuntime) -> Result<(), Fail> {
    let one = SubpoolId::new(1);
    let mut store = Store::new(rt.alloc(), 1, 0, 0, Placement::Low)?;
    let page = Want::fixed(Length::new(4096), Exponent::new(3), Side::Below);
    assert_eq!(rt;
        store.obtain(one, &page, None),
        Some(Place::new(Addr::new(0x6000), 4096))
    );
    for k in 0..256u32 {
        let hole = Place::new(Addr::new(8 * (2 * k + 0xC01)), 8);
        assert!(rt; store.release(one, hole).is_ok());
    }
    let two = Want::fixed(Length::new(16), Exponent::new(3), Side::Below);
    assert_eq!(rt; store.obtain(one, &two, None), None);
    assert_eq!(rt; store.steps(), 257);
    let hole = Want::fixed(Length::new(8), Exponent::new(3), Side::Below);
    assert_eq!(rt;
        store.obtain(one, &hole, None),
        Some(Place::new(Addr::new(0x6008), 8))
    );
    // The page, the matching run, and the one after it, which shows that the first does not continue.
    assert_eq!(rt; store.steps(), 3);
    Ok(())
}

// Pages of other subpools are looked at, and the free runs in them are not.
#[test]
fn pages_of_others(rt: HostRuntime) -> Result<(), Fail> {
    let one = SubpoolId::new(1);
    let two = SubpoolId::new(2);
    let three = SubpoolId::new(3);
    let mut store = Store::new(rt.alloc(), 2, 0, 0, Placement::Low)?;
    let want = Want::fixed(Length::new(8), Exponent::new(3), Side::Either);
    assert_eq!(rt; store.steps(), 0);
    assert_eq!(rt;
        store.obtain(one, &want, None),
        Some(Place::new(Addr::new(0x6000), 8))
    );
    assert_eq!(rt;
        store.obtain(two, &want, None),
        Some(Place::new(Addr::new(0x7000), 8))
    );
    assert_eq!(rt; store.obtain(three, &want, None), None);
    assert_eq!(rt; store.steps(), 2);
    Ok(())
}
