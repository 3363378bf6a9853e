//! The macros that ask for storage.

/// The macros that ask for storage.
#[derive(Clone, Copy)]
pub enum Macro {
    Getmain,
    Freemain,
    Storage,
    Cpool,
    Attach,
    /// Storage above the bar, or outside of the address space.
    Beyond,
}

/// Returns the macro that an operation is, if it asks for storage.
pub fn macro_of(operation: &str) -> Option<Macro> {
    match operation {
        "GETMAIN" => Some(Macro::Getmain),
        "FREEMAIN" => Some(Macro::Freemain),
        "STORAGE" => Some(Macro::Storage),
        "CPOOL" => Some(Macro::Cpool),
        "ATTACH" | "ATTACHX" => Some(Macro::Attach),
        "IARV64" | "IARCP64" | "IARST64" | "IARBRVER" | "DSPSERV" => Some(Macro::Beyond),
        _ => None,
    }
}
