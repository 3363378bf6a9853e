//! Words and flags in the bytes of storage.

ghost use Rattle.std.specs.Prelude.{◌≡◌, ◌<◌, ◌≤◌, ◌+◌, ◌-◌, ◌*◌, ◌/◌, ◌^◌, ◌==◌, ℕ, [], ◌∷◌, length, slice_index, if◌then◌else◌};
ghost use Rattle.std.specs.Int.{bit_at, from_be_bytes, w32};
ghost use Rattle.mvs_model.specs.Place.{place_at};
ghost use Rattle.mvs_model.specs.Storage.{AllHeld};
ghost use Rattle.subpool_store.specs.WrittenBytes.{Puts};
ghost use Rattle.cell_pool.specs.Layout.{byte_of, next_at, count_at, taken_at, flag, head_length};
ghost use Rattle.cell_pool.specs.Marks.{Marks};
ghost use Rattle.cell_pool.specs.Walk.{Fills};

use mvs_model::place::{Addr, Place};
use subpool_store::Store;

// The words of a part but the size of its cells.
#[derive(Clone, Copy)]
pub struct Header {
    pub next: u32,
    pub count: u32,
    pub taken: u32,
}

// Returns the word at an index, its high byte first.
fn word_in(bytes: &[u8], at: usize) -> u32
    requires { at + 4 ≤ length bytes.now }
    ensures { result
        ≡ from_be_bytes w32
        (slice_index bytes.now at ∷ slice_index bytes.now (at + 1)
        ∷ slice_index bytes.now (at + 2) ∷ slice_index bytes.now (at + 3) ∷ []) }
{
    u32::from_be_bytes([bytes[at], bytes[at + 1], bytes[at + 2], bytes[at + 3]])
}

// Returns the words of the part at an address.
pub fn read_header(store: &Store, part: u32) -> Header
    requires low { part < 2 ^ 31 }
    requires held { AllHeld store.now.storage (place_at part 16) }
    ensures next { result.next ≡ next_at (byte_of store.now.storage) part }
    ensures count { result.count ≡ count_at (byte_of store.now.storage) part }
    ensures taken { result.taken ≡ taken_at (byte_of store.now.storage) part }
{
    let bytes = store.bytes(Place::new(Addr::new(part), 16));
    Header {
        next: word_in(bytes, 0),
        count: word_in(bytes, 4),
        taken: word_in(bytes, 8),
    }
}

// Returns the byte at an address.
pub(crate) fn byte(store: &Store, addr: u32) -> u8
    requires low { addr < 2 ^ 31 }
    requires held { AllHeld store.now.storage (place_at addr 1) }
    ensures { result ≡ byte_of store.now.storage addr }
{
    store.bytes(Place::new(Addr::new(addr), 1))[0]
}

// Returns whether the bit is set.
pub(crate) fn is_set(byte: u8, bit: u32) -> bool
    requires { bit < 8 }
    ensures { result ≡ (bit_at byte (7 - bit) == 1) }
{
    (byte >> (7 - bit)) & 1 == 1
}

// Returns the byte with the bit set or not.
fn with_bit(byte: u8, bit: u32, value: bool) -> u8
    requires { bit < 8 }
    ensures { (k : ℕ) → k < 8
        → (bit_at result (7 - k) == 1) ≡ (if k == bit then value else (bit_at byte (7 - k) == 1)) }
{
    let mask = 1u8 << (7 - bit);
    if value { byte | mask } else { byte & !mask }
}

// Returns whether the flag of a cell of the part at an address is set.
pub fn flag(store: &Store, part: u32, cell: u32) -> bool
    requires low { part + 16 + cell / 8 < 2 ^ 31 }
    requires held { AllHeld store.now.storage (place_at (part + 16 + cell / 8) 1) }
    ensures { result ≡ flag (byte_of store.now.storage) part cell }
{
    is_set(byte(store, part + 16 + cell / 8), cell % 8)
}

// Writes bytes over those of a place that is held.
pub(crate) fn put(store: &mut Store, addr: u32, bytes: &[u8])
    requires low { addr < 2 ^ 31 }
    requires some { 1 ≤ length bytes.now }
    requires few { length bytes.now ≤ 8 }
    requires held { AllHeld store.old.storage (place_at addr (length bytes.now)) }
    ensures { Puts store.old.storage (place_at addr (length bytes.now)) bytes.now
        store.new.storage }
{
    let part = store.bytes_mut(Place::new(Addr::new(addr), bytes.len() as u32));
    part.copy_from_slice(bytes);
}

// Sets the flag of a cell of the part at an address, and the number of its taken cells.
pub fn mark(store: &mut Store, part: u32, cell: u32, value: bool, taken: u32)
    requires low { part + 16 + cell / 8 < 2 ^ 31 }
    requires held { AllHeld store.old.storage (place_at part (16 + cell / 8 + 1)) }
    ensures { Marks store.old.storage part cell value taken store.new.storage }
{
    put(store, part + 8, &taken.to_be_bytes());
    let addr = part + 16 + cell / 8;
    let changed = with_bit(byte(store, addr), cell % 8, value);
    put(store, addr, &[changed]);
}

// Gives each byte of a place that is held the value.
pub fn fill(store: &mut Store, place: Place, value: u8)
    requires { AllHeld store.old.storage place }
    ensures { Fills store.old.storage place value store.new.storage }
{
    let part = store.bytes_mut(place);
    part.fill(value);
}
