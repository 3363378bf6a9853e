//! A step that C begins by values.

ghost use Rattle.std.specs.Prelude.{◌≡◌, ◌≢◌, MatchBool};
ghost use Rattle.mvs_c.specs.Regions.{region_bytes, region_line};

use crate::ask::text_len;
use line_text::text::LineText;

/// The number of bytes of a region by values.
const REGION_BYTES: u32 = 24;

/// What a REGION statement has: the pages of a step, and its job step task.
#[repr(C)]
#[derive(Clone, Copy)]
pub struct RegionFields {
    /// The number of bytes of this struct.
    pub size: u32,
    /// The pages below and above 16 megabytes.
    pub below: u32,
    pub above: u32,
    /// The byte that areas are filled with.
    pub fill: u8,
    /// Whether the program of the job step task resides above 16 megabytes.
    pub resides_above: bool,
    pub task: [u8; 8],
}

impl RegionFields {
    /// Returns whether the size is that of a region.
    pub fn is_sized(&self) -> bool
        ensures { MatchBool result (self.now.size ≡ region_bytes) (self.now.size ≢ region_bytes) }
    {
        self.size == REGION_BYTES
    }

    /// Returns the line of the REGION statement.
    pub fn line(&self) -> LineText
        ensures { result ≡ region_line self.now }
    {
        let mut text = LineText::new();
        text.push_str(&self.task[..text_len(&self.task)]);
        text.push_str(b" REGION BELOW=");
        text.push_decimal(self.below);
        text.push_str(b",ABOVE=");
        text.push_decimal(self.above);
        text.push_str(b",FILL=");
        text.push_byte(self.fill);
        if self.resides_above {
            text.push_str(b",RES=ABOVE");
        } else {
            text.push_str(b",RES=BELOW");
        }
        text
    }
}
