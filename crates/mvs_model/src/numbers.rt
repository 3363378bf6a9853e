//! The numbers of the machine, as the code uses them: each is the one of the definitions.

ghost use Rattle.std.specs.Prelude.{◌≡◌};
ghost use Rattle.mvs_model.specs.Numbers as numbers;

/// The bytes of a page (Assembler Services Guide, virtual storage management).
pub const PAGE_BYTES: u32 = 4_096;

/// The doublewords of a page.
pub const PAGE_DOUBLEWORDS: usize = 512;

/// Where the region below 16 megabytes begins. This project's choice.
pub const BELOW_BEGINS: u32 = 0x6000;

/// The first page of the region below.
pub const FIRST_PAGE_BELOW: u32 = 6;

/// The first doubleword of the region below.
pub const FIRST_DOUBLEWORD_BELOW: u32 = 3_072;

/// 16 megabytes, where the region above begins.
pub const ABOVE_BEGINS: u32 = 0x100_0000;

/// The first page of the region above.
pub const FIRST_PAGE_ABOVE: u32 = 4_096;

/// The first doubleword of the region above.
pub const FIRST_DOUBLEWORD_ABOVE: u32 = 2_097_152;

/// The most pages of the region below. This project's choice.
pub const MOST_PAGES_BELOW: u32 = 2_048;

/// The most pages of the region above. This project's choice.
pub const MOST_PAGES_ABOVE: u32 = 8_192;

/// How many subpool numbers each task has for itself, from 0 on (Assembler Services Guide, virtual storage management).
pub const TASK_NUMBERS: u8 = 128;

/// The first of the two numbers that are the job step task's, whichever task names them. This project's choice.
pub const FIRST_STEP_NUMBER: u8 = 131;

/// The second of them.
pub const SECOND_STEP_NUMBER: u8 = 132;

/// A bound of all subpool numbers that a program may name.
pub const SUBPOOL_NUMBERS: u8 = 133;

/// How many subpools there are at a time. This project's choice.
pub const MOST_SUBPOOLS: usize = 4_098;

/// How many tasks are active at a time. This project's choice.
pub const MOST_TASKS: usize = 32;

/// How many tasks end with one at the most: all others.
pub const MOST_FALLEN: usize = MOST_TASKS - 1;

/// How many cell pools are active at a time. This project's choice.
pub const MOST_POOLS: usize = 64;

/// The most bytes that SHOW prints. This project's choice.
pub const MOST_SHOWN: u32 = 4_096;

/// How many bytes SHOW prints in a line. This project's choice.
pub const LINE_BYTES: usize = 32;

/// The last address of 31 bits, which is also the greatest length that may be asked for (Assembler Services Guide,
/// 31-bit addressing).
pub const LAST_ADDRESS: u32 = 0x7FFF_FFFF;

/// The least power of two of a boundary: a doubleword (Assembler Services Reference, GETMAIN).
pub const LEAST_EXPONENT: u32 = 3;

/// The greatest one.
pub const MOST_EXPONENT: u32 = 31;

/// The least bytes of a cell of a cell pool (Assembler Services Reference, CPOOL).
pub const LEAST_CELL_BYTES: u32 = 4;

/// The most bytes of a cell. This project's choice.
pub const MOST_CELL_BYTES: u32 = 65_536;

/// The most cells of a part of a cell pool. This project's choice.
pub const MOST_CELLS: u32 = 65_536;

/// The greatest user completion code (Assembler Services Reference, ABEND).
pub const MOST_USER_CODE: u32 = 4_095;

/// The most bytes that PUT stores. This project's choice.
pub const MOST_PUT: usize = 100;

/// The most bytes that MOVE copies. This project's choice.
pub const MOST_MOVED: u32 = 65_536;

/// The greatest distance from the address of a named area, in bytes. This project's choice.
pub const MOST_OFFSET: u32 = 33_554_431;

/// The most items of a list of lengths, names or addresses. This project's choice.
pub const MOST_ITEMS: usize = 16;

/// The most bytes of a script. This project's choice.
pub const MOST_SCRIPT_BYTES: usize = 16_777_215;

/// Shows that each number that the code uses is the one of the definitions.
pub fn numbers_agree()
    ensures page { (PAGE_BYTES ≡ numbers.page_bytes)
        × (PAGE_DOUBLEWORDS ≡ numbers.page_doublewords) }
    ensures pages { (FIRST_PAGE_BELOW ≡ numbers.first_page_below)
        × (FIRST_PAGE_ABOVE ≡ numbers.first_page_above) }
    ensures doublewords { (FIRST_DOUBLEWORD_BELOW ≡ numbers.first_doubleword_below)
        × (FIRST_DOUBLEWORD_ABOVE ≡ numbers.first_doubleword_above) }
    ensures begins { (BELOW_BEGINS ≡ numbers.below_begins) × (ABOVE_BEGINS ≡ numbers.above_begins) }
    ensures regions { (MOST_PAGES_BELOW ≡ numbers.most_pages_below)
        × (MOST_PAGES_ABOVE ≡ numbers.most_pages_above) }
    ensures subpools { (SUBPOOL_NUMBERS ≡ numbers.subpool_numbers)
        × (MOST_SUBPOOLS ≡ numbers.most_subpools) }
    ensures numbers { (TASK_NUMBERS ≡ numbers.task_numbers)
        × (FIRST_STEP_NUMBER ≡ numbers.first_step_number)
        × (SECOND_STEP_NUMBER ≡ numbers.second_step_number) }
    ensures most { (MOST_TASKS ≡ numbers.most_tasks) × (MOST_POOLS ≡ numbers.most_pools) }
    ensures shown { (MOST_SHOWN ≡ numbers.most_shown) × (LINE_BYTES ≡ numbers.line_bytes) }
    ensures addresses { (LAST_ADDRESS ≡ numbers.last_address)
        × (MOST_OFFSET ≡ numbers.most_offset) }
    ensures exponents { (LEAST_EXPONENT ≡ numbers.least_exponent)
        × (MOST_EXPONENT ≡ numbers.most_exponent) }
    ensures cells { (LEAST_CELL_BYTES ≡ numbers.least_cell_bytes)
        × (MOST_CELL_BYTES ≡ numbers.most_cell_bytes) × (MOST_CELLS ≡ numbers.most_cells) }
    ensures operands { (MOST_USER_CODE ≡ numbers.most_user_code) × (MOST_PUT ≡ numbers.most_put)
        × (MOST_MOVED ≡ numbers.most_moved) × (MOST_ITEMS ≡ numbers.most_items) }
    ensures script { MOST_SCRIPT_BYTES ≡ numbers.most_script_bytes }
{}
