//! The operations of branches.

/// What the operation of a branch is.
#[derive(Clone, Copy, PartialEq, Eq)]
pub enum BranchKind {
    /// It jumps to the place that is its last operand.
    Branch { is_conditional: bool },
    /// It jumps to the address in the register that is its last operand.
    BranchRegister { is_conditional: bool },
    /// The first operand is a mask, under which it jumps to the place that is its second one.
    Masked,
    /// The first operand is a mask, under which it jumps to the address in the register that is its second one.
    MaskedRegister,
    /// It calls the routine at the place that is its second operand, with the return address in its first one.
    Call,
    /// It calls the routine at the address in the register that is its second operand, with the return address in its first one.
    CallRegister,
    /// It calls the routine that is its first operand, with the return address in register 14.
    CallMacro,
    /// It returns from a routine, or ends the program.
    Return,
    /// It ends the program.
    Abend,
    /// It ends the program if its operand is 3.
    Svc,
    Other,
}

// Operations by what they are.
const OPERATIONS: &[(BranchKind, &[&str])] = &[
    (
        BranchKind::Branch {
            is_conditional: false,
        },
        &["B", "J", "BRU", "BRUL", "JLU"],
    ),
    (
        BranchKind::BranchRegister {
            is_conditional: false,
        },
        &["BR"],
    ),
    (
        BranchKind::Branch {
            is_conditional: true,
        },
        &[
            "BCT", "BRCT", "JCT", "BCTG", "BRCTG", "JCTG", "BXH", "BXLE", "BRXH", "BRXLE", "JXH",
            "JXLE", "BXHG", "BXLEG",
        ],
    ),
    (BranchKind::Masked, &["BC", "BRC", "BRCL", "JC", "JLC"]),
    (BranchKind::MaskedRegister, &["BCR"]),
    (
        BranchKind::Call,
        &["BAL", "BAS", "BRAS", "JAS", "BRASL", "JASL"],
    ),
    (BranchKind::CallRegister, &["BALR", "BASR"]),
    (BranchKind::CallMacro, &["CALL"]),
    (BranchKind::Return, &["PR", "RETURN"]),
    (BranchKind::Abend, &["ABEND"]),
    (BranchKind::Svc, &["SVC"]),
];

// What follows the B, BR, J or JL of a conditional branch.
const CONDITIONS: &[&str] = &[
    "E", "NE", "H", "NH", "L", "NL", "Z", "NZ", "O", "NO", "P", "NP", "M", "NM",
];

// With what a branch after a comparison begins.
const COMPARES: &[&str] = &[
    "CRJ", "CGRJ", "CIJ", "CGIJ", "CLRJ", "CLGRJ", "CLIJ", "CLGIJ",
];

// Returns whether an operation is a conditional branch to a place.
fn is_conditional(operation: &str) -> bool {
    for prefix in ["B", "BR", "J", "JL"] {
        if let Some(condition) = operation.strip_prefix(prefix) {
            if CONDITIONS.contains(&condition) {
                return true;
            }
        }
    }
    COMPARES
        .iter()
        .any(|compare| operation.starts_with(*compare))
}

// Returns whether an operation is a conditional branch to the address in a register.
fn is_conditional_register(operation: &str) -> bool {
    match operation.strip_prefix("B") {
        Some(rest) => match rest.strip_suffix("R") {
            Some(condition) => CONDITIONS.contains(&condition),
            None => false,
        },
        None => false,
    }
}

/// Returns what an operation is.
pub fn operation_of(name: &str) -> BranchKind {
    for (operation, names) in OPERATIONS {
        if names.contains(&name) {
            return *operation;
        }
    }
    if is_conditional(name) {
        return BranchKind::Branch {
            is_conditional: true,
        };
    }
    if is_conditional_register(name) {
        return BranchKind::BranchRegister {
            is_conditional: true,
        };
    }
    BranchKind::Other
}
