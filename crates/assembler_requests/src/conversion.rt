//! Converts a request, whichever macro it is.

use crate::attach::{Attached, GivenNames};
use crate::request::MacroRequest;
use assembler_operands::{MacroOperands, OpenCause, OpenReason, Unsaid};
use assembler_values::{Comes, KnownValues, Macro};

/// What a request is converted to.
#[derive(Drop)]
pub struct Converted {
    /// The statement, without its task.
    pub text: String,
    /// Where the request leaves an address or an identifier.
    pub comes: Option<Comes>,
    /// The task that the request attaches.
    pub attached: Option<Attached>,
}

// Converts ATTACH.
fn convert_attach(request: MacroRequest<'_>, given: &mut GivenNames) -> Result<Converted, Unsaid> {
    let mut text = String::new(request.known.alloc);
    let attached = Some(request.attach(given, &mut text)?);
    Ok(Converted {
        text,
        comes: None,
        attached,
    })
}

/// Converts a request with its operands to a statement, or returns why it cannot.
pub fn convert(
    known: KnownValues<'_>,
    given: &mut GivenNames,
    operands: &MacroOperands,
    wanted: Macro,
) -> Result<Converted, Unsaid> {
    let request = MacroRequest { known, operands };
    let mut text = String::new(known.alloc);
    let comes = match wanted {
        Macro::Getmain => Some(request.getmain(&mut given.names, &mut text)?),
        Macro::Freemain => {
            request.freemain(&mut given.names, &mut text)?;
            None
        }
        Macro::Storage => request.storage(&mut given.names, &mut text)?,
        Macro::Cpool => request.cpool(&mut given.names, &mut text)?,
        Macro::Attach => return convert_attach(request, given),
        Macro::Beyond => {
            return Err(Unsaid::For(OpenReason::alone(known.alloc, OpenCause::AboveTheBar)));
        }
    };
    Ok(Converted {
        text,
        comes,
        attached: None,
    })
}
