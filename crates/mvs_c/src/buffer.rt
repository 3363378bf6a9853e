//! Bytes that are handed over in a buffer of the caller.

ghost use Rattle.std.specs.Prelude.{◌≡◌};
ghost use Rattle.mvs_c.specs.Exports.{HandsOver};

use crate::status::TOO_SMALL;

/// Copies some bytes to the front of a buffer, where they fit, and answers the status for that.
pub fn hand_over(bytes: &[u8], out: &mut [u8], wanted: &mut usize, fits: u32) -> u32
    ensures { HandsOver bytes.now out.old out.new wanted.new fits result }
{
    *wanted = bytes.len();
    if out.len() < bytes.len() {
        return TOO_SMALL;
    }
    out[..bytes.len()].copy_from_slice(bytes);
    fits
}
